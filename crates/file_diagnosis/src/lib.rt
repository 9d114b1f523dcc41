//! Why a participant or an instrument file is refused: the first entry at fault, and its fault, in words.
#![tactic(auto)]

mod cause;
mod difference;
mod entry;
mod instruments_file;
mod laws;
mod line;
mod participants_file;
mod search;
mod toml_line;
mod words;

pub use cause::{Cause, Key, Look, Part, Wrong};
pub use difference::differing_line;
pub use instruments_file::instruments_cause;
pub use laws::{causes_are_first, causes_have_the_number};
pub use line::{instruments_line, participants_line};
pub use participants_file::participants_cause;
