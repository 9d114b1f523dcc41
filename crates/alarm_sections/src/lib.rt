//! Sections of the page of a day that say what surveillance finds: trades of linked orders, and alarms.
#![tactic(auto)]

mod alarms;
mod linked;
mod template;

pub use alarms::add_alarms;
pub use linked::{Lines, add_linked};
