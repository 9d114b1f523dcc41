//! Whole answers to crosses, and to ticks with a held side due (17 CFR 37.9(b)(1), (b)(2)).
#![tactic(auto)]

mod crosses;
mod refusing;
mod sides;
mod terms;
mod ticks;

pub use crosses::plan_cross;
pub use ticks::plan_due;
