//! What a venue is sent, and what it answers.

mod emitting;
pub mod line;
mod market;
mod message;
mod reading;
mod stage;
mod standing;
