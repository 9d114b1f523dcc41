//! Readings of a day: its trades, and the rooms with a quote (17 CFR 37.9(a)(3)).
//!
//! Kept next to the book and the rooms, so that a reading takes no pass over the day's facts.
#![tactic(auto)]

mod laws;
mod quoted;
mod trades;

pub use laws::{
    first_quote_is_read, later_quotes_are_read, numbers_go_on, quotes_come_alone, trades_are_read,
};
pub use quoted::{QuotedRooms, quoted_room};
pub use trades::Trades;
