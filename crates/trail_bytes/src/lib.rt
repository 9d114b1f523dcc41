//! A trail's two files as bytes, opened as a database in memory: the files themselves are not written.
#![tactic(auto)]

mod memory;
mod opening;

pub use memory::memory_of;
pub use opening::{memory_is_clean, open_bytes};
