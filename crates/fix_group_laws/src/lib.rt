//! A law that joins the groups of fields and the groups of messages: where the fields of a message have no fault, the
//! groups that its type's table makes of them are groups of fields.
#![tactic(auto)]

mod laws;

pub use laws::places_are_groups;
