//! The engine: an input's effect on the venue, the trail and the queues of replies, whole or not at all.
#![tactic(auto)]

mod engine;
mod outbox;
mod transaction;

pub use engine::Engine;
pub use transaction::Parts;
