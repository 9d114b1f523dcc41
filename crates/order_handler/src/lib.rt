//! Whole answers to orders, cancels, replacements and requests for market data (17 CFR 37.3(a)(3), 37.9(b)(1)).
#![tactic(auto)]

mod answer;
mod changes;
mod entering;
mod laws;
mod messages;
mod orders;
mod prices;
mod replacing;
mod reports;
mod used;

pub use answer::OrderAnswer;
pub use changes::plan_cancel;
pub use entering::enter;
pub use laws::parts_are_read_alone;
pub use messages::business_reject;
pub use orders::{is_limit, plan_order};
pub use prices::plan_prices;
pub use replacing::plan_replace;
pub use used::is_used;
