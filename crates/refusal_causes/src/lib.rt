//! Why a message was refused.
#![tactic(auto)]

mod fault;
mod figures;
mod laws;
mod linking;
mod listed;
mod passing;
mod places;
mod printing;
mod sentences;
mod verdict;
mod why;

pub use fault::WhyFault;
pub use laws::{causes_are_first, worked_example};
pub use printing::print_why;
pub use why::{Why, why_at};
