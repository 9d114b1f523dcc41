//! What the dictionary answers.

mod line;
mod reading;

/// The dictionary, which keeps nothing from line to line.
#[derive(Drop)]
pub struct Dictionary {}
