//! A desk's own FIX log against what the rows of a trail owe it.
#![tactic(auto)]

mod absent;
mod bodies;
mod comparing;
mod fault;
mod frames;
mod gap;
mod laws;
mod listing;
mod missing;
mod naming;
mod numbered;
mod once;
mod owed;
mod parts;
mod pieces;
mod printing;
mod reading;
mod report;
mod scanning;
mod times;

pub use comparing::Comparison;
pub use fault::{LogFault, NoLog};
pub use frames::FrameFault;
pub use laws::{found_are_there, missing_are_missing, texts_are_lines};
pub use printing::print_comparison;
