//! Scenarios of a session.

mod emitting;
pub mod feeding;
mod line;
mod running;
