//! The evidence for one trade of a day, reconstructed from the rows of its trail: requests, shown orders, quotes and
//! entries, each with its row.
#![tactic(auto)]

mod book;
mod day;
mod entry;
mod event_kind;
mod events;
mod evidence;
mod evidence_event;
mod finding;
mod gathering;
mod key;
mod laws;
mod noted;
mod notes;
mod noting;
mod pushing;
mod quote_note;
mod rested;
mod room;
mod sent;
mod standing;
mod trade_notes;
mod trigger;
mod unrelated;

pub use day::print_all_evidence;
pub use evidence::{EvidenceFault, print_evidence};
pub use laws::{
    each_book_trade_has_its_orders, each_message_is_that_of_its_row, each_quote_has_its_fate,
    each_quote_is_reported, each_resting_order_is_shown, each_room_trade_has_its_request,
    each_trade_has_its_row,
};
