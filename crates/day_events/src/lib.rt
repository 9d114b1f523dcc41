//! What the answer to a row of a trail says: orders, quotes, trades in rooms, and the refusal; the prices shown with a
//! quote; and the best prices after each row.
#![tactic(auto)]

mod best;
mod day;
mod event;
mod laws;
mod priced_day;
mod refusing;
mod reporting;
mod shown;

pub use best::Best;
pub use day::{Day, day_of};
pub use event::{
    Event, FilledOrder, NewOrder, NewQuote, NewRequest, Origin, RecentOrder, Replacement,
    RoomTrade, What,
};
pub use laws::every_trade_has_its_events;
pub use priced_day::{PricedDay, priced_day_of};
pub use reporting::push_events_at;
pub use shown::{ShownPrice, push_shown_at};
