//! The accepted crosses of a day, with what became of the side that each holds for the delay, on the page of the day.
#![tactic(auto)]

mod crossed;
mod held;
mod messages;
mod section;
mod template;
mod walk;

pub use crossed::{Arrival, Crossed, End, Refusal, Terms, Waiting};
pub use section::{Form, add_crosses};
pub use walk::crosses_of;
