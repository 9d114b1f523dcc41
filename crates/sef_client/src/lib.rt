//! A scripted counterparty of the venue, for tests: runs a script over a line.
#![tactic(auto)]

mod exchange;
mod fault;
mod frames;
mod heard;
mod outgoing;
mod party;
mod reading;
mod script;

pub use fault::ClientFault;
pub use heard::Heard;
pub use script::{Script, ScriptStep};
