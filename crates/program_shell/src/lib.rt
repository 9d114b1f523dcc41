//! What the programs share: their words, why a trail ends them, and what a database begins with.
#![tactic(auto)]

mod database;
mod trail_end;
mod words;

pub use database::{is_database, may_be_database};
pub use trail_end::TrailEnd;
pub use words::{WordsFault, words_given};
