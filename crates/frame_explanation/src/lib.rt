//! Frames of a FIX log explained: fields by name, faults, and what the session and the venue answer.
#![tactic(auto)]

mod bodies;
mod broken;
mod explaining;
mod falls;
mod fault;
mod frames;
mod hearing;
mod ignored;
mod listing;
mod log_items;
mod names;
mod parts;
mod pieces;
mod summary;
mod text;

pub use bodies::Direction;
pub use explaining::explain;
pub use fault::ExplainFault;
pub use frames::{Found, Look};
pub use log_items::{Heard, LogItem, Sent, Source};
