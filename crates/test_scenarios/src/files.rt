//! Files of participants and of instruments.

mod asking;
mod emitting;
mod line;
pub mod texts;
