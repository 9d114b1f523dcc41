//! Part 37 in a day: what each rule asks, and the day's count.
#![tactic(auto)]

mod counts;
mod rules;
mod template;

pub use rules::{Ruled, add_rules};
