//! What a session has numbered.

mod adding;
mod line;
mod looking;
