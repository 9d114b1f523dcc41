//! The events of a world, and what it answers.

mod emitting;
mod filling;
mod keeper;
mod line;
mod reading;
pub mod running;
