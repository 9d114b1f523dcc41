//! History for contracts alone: nothing of it is kept at run time.
#![tactic(auto)]

mod history;
mod past;

pub use history::GhostHistory;
