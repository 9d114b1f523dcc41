//! The section of the instruments of a day: of each the trades over time, the best prices, and the book at the end.
#![tactic(auto)]

mod deals;
mod glyphs;
mod ladder;
mod laws;
mod lines;
mod prices;
mod rests;
mod section;
mod template;
mod values;
mod volume;

pub use deals::{Deal, deals_of, first_moment, last_moment};
pub use ladder::Rest;
pub use laws::every_trade_is_charted;
pub use lines::Point;
pub use rests::rests_of;
pub use section::{Charted, Shown, add_instruments};
