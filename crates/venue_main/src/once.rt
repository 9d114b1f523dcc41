//! The `once` command: one participant's stream, answered to its end.

pub use once_session::{OnceFault, answer_stream as once};
