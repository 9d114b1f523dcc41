//! The vocabulary of the venue's rules: facts, replies and refusals.
//!
//! The rules are the definitions in `specs/`, in the reading order of `specs/Lib.antt`.
#![tactic(auto)]

mod facts;
mod fixture;
mod identifiers;
mod laws;
mod listing;
mod lists;
mod market;
mod names;
mod refusals;
mod replies;
mod sides;
mod trail;

pub use facts::{
    Closing, Entry, Fact, HeldSide, OrderFact, Release, Removal, Room, RoomQuote, TimeInForce,
    Trade, TradeSource, Withdrawal,
};
pub use fixture::{fixture_instruments, fixture_participants};
pub use identifiers::{name_identifier, printed_identifier, symbol_of};
pub use laws::{
    amounts_stay_within, every_book_trade_is_lawful, every_report_is_numbered,
    every_room_trade_is_lawful, every_row_is_read_back, every_run_is_lawful, fills_are_within,
    open_rooms_are_few, printed_numbers_are_identifiers, replies_are_few,
    replies_go_to_participants, rows_are_in_order, run_goes_on, runs_join,
};
pub use listing::{instrument_of, is_below_least, is_off_tick};
pub use lists::{Recipients, RowText, Shown, SnapshotEntries};
pub use market::Market;
pub use names::is_name;
pub use participants::Who;
pub use refusals::{
    BusinessRefusal, ChangeRefusal, CrossRefusal, MarketDataRefusal, OrderRefusal, QuoteRefusal,
    RequestRefusal, ResponseRefusal,
};
pub use replies::{
    BookSnapshot, BusinessReject, ChangeKind, ChangeRefused, ChangedReport, CrossRefused,
    FilledReport, MarketDataReject, OrderRefused, OrderReport, OrderStatus, QuoteSent, QuoteState,
    QuoteStatus, Reply, ReplyBody, RequestRefused, RequestSent, RoomReport, SnapshotEntry,
};
pub use sides::{buyer, is_side, opposite};
pub use trail::{
    EventFault, Keep, RoomFact, ShownOrder, Taken, TradeFact, TrailFault, TrailRow, last_of,
};
