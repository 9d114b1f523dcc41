//! Moments, frames and fields.

mod cutting;
mod emitting;
mod fields;
mod forms;
mod groups;
mod line;
mod moments;
pub mod state;
mod writing;
