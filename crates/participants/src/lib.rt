//! The participants of a venue and which of them are related.
#![tactic(auto)]

mod fault;
mod participants;
mod reading;
mod table;
mod who;

pub use config_format::Name;
pub use fault::FileFault;
pub use participants::Participants;
pub use who::Who;
