//! The pieces of a FIX body, between its SOHs, before they are read as fields.
#![tactic(auto)]

mod pieces;

pub use pieces::{SOH, begins, first_value, piece, rest_of};
