//! The digest of a trail's content.
#![tactic(auto)]

mod chain;
mod comparison;
mod contents;
mod fault;
mod hashing;
mod head;
mod laws;
mod shared;
mod text;

pub use chain::{Chain, digest};
pub use comparison::{Side, append_comparison, are_same_rules, is_same};
pub use contents::Contents;
pub use fault::DigestFault;
pub use head::{HeadForm, append_head, print_digest, print_head};
pub use laws::{beginning_has_its_digest, one_digest_is_one_trail, worked_digest};
