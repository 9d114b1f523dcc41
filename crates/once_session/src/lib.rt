//! One participant's stream, answered by a world of events.
#![tactic(auto)]

mod answering;
mod fault;
mod opening;
mod reading;
mod sender;
mod stream;

pub use fault::OnceFault;
pub use stream::answer_stream;
