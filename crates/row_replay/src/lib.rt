//! One row of a trail, replayed on a venue.
#![tactic(auto)]

mod asking;
mod inputs;
mod laws;

pub use asking::{asks, entries_in};
pub use inputs::{item_of, plan_item};
pub use laws::rows_have_their_inputs;
