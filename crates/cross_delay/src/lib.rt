//! Held sides of crosses: the second side of a cross enters the book after the delay (17 CFR 37.9(b)(1)).
//!
//! It keeps the held sides and the used identifiers. Contracts see the facts of the day, and the definitions of
//! `venue_rules` read off them.
#![tactic(auto)]

mod held;
mod laws;
mod plan;
mod sides;
mod used;

pub use held::{Held, Refusal};
pub use laws::{delay_is_read_alone, due_side_is_held};
pub use plan::HoldPlan;
