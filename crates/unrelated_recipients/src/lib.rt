//! The three recipients of a request that are unrelated to its requester and to each other, and which of those whom it
//! names are related.
#![tactic(auto)]

mod laws;
mod pairs;
mod threes;

pub use laws::{none_are_related, three_are_found};
pub use pairs::related_pairs;
pub use threes::{Three, first_three};
