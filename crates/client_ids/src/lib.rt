//! Participants' identifiers: a sorted index with binary search, and a hash set of used ones.
#![tactic(auto)]

mod client_id;
mod finding;
mod index;
mod probing;
mod short;
mod used;

pub use client_id::{ClientId, hash_key};
pub use finding::{Probe, search};
pub use index::IdIndex;
pub use probing::lowered;
pub use used::UsedIds;
