//! The instruments that a venue lists.
#![tactic(auto)]

mod delays;
mod fault;
mod instruments;
mod numbers;
mod reading;

pub use config_format::Name as Symbol;
pub use fault::{DelayFault, FileFault};
pub use instruments::{Instrument, Instruments};
