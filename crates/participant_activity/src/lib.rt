//! The figures of a participant's own day: its requests, quotes, orders and trades.
#![tactic(auto)]

mod activity;
mod closing;
mod fault;
mod figures;
mod form;
mod key;
mod laws;
mod noting;
mod occasion;
mod page;
mod printing;
mod quoting;
mod ranking;
mod replaying;
mod reports;

pub use fault::ActivityFault;
pub use form::Form;
pub use key::Name;
pub use laws::{activity_is_its_own, ends_are_whole, turns_are_whole};
pub use printing::print_activity;
