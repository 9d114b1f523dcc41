//! What an answer says.

use fix_dictionary::{Amount, Identifier, Price, Quantity, Side};
use participants::Who;
use sef_moment::Moment;

/// The row of an answer, and what its message names.
#[derive(Clone, Copy)]
pub struct Origin {
    pub row: u64,
    pub moment: Moment,
    /// who sent the message, by its place plus 1; 0 at a row of the clock
    pub from: u32,
    /// the room of a quote (131) or the quote of a response (117), as the venue names it, or the link of an order (583)
    pub named: Option<Identifier>,
    /// the sender's own identifier of a request (131), a quote (117) or a response (693)
    pub own: Option<Identifier>,
}

/// An order that entered.
#[derive(Clone, Copy)]
pub struct NewOrder {
    pub order: Option<u64>,
    /// 11
    pub id: Identifier,
    pub symbol: Identifier,
    pub side: Side,
    pub left: Amount,
}

/// An order that was refused, since a linked one was too recent (17 CFR 37.9(b)(1)).
#[derive(Clone, Copy)]
pub struct RecentOrder {
    pub symbol: Identifier,
    pub side: Side,
}

/// An order of a trade in the book.
#[derive(Clone, Copy)]
pub struct FilledOrder {
    pub trade: u64,
    pub order: Option<u64>,
    /// 11
    pub id: Identifier,
    pub side: Side,
}

/// An order that replaced another of the same participant.
#[derive(Clone, Copy)]
pub struct Replacement {
    pub order: Option<u64>,
    /// 11
    pub id: Identifier,
    /// 41, the identifier of the order that it replaced
    pub original_id: Identifier,
}

/// A request for quotes, as sent to one recipient.
#[derive(Clone, Copy)]
pub struct NewRequest {
    pub room: u64,
    pub symbol: Identifier,
    /// none is both
    pub side: Option<Side>,
    pub quantity: Quantity,
}

/// A quote, as sent to the requester.
#[derive(Clone, Copy)]
pub struct NewQuote {
    pub quote: u64,
    pub bid: Option<Price>,
    pub offer: Option<Price>,
    pub end: Moment,
}

/// A trade in a room, as reported to one party; to the requester with the identifier of its response (693).
#[derive(Clone, Copy)]
pub struct RoomTrade {
    pub room: u64,
    pub trade: u64,
    pub side: Side,
    pub price: Price,
    pub response: Option<Identifier>,
}

/// What one reply says.
#[derive(Clone, Copy)]
pub enum What {
    Entered(NewOrder),
    /// also a refusal
    TooRecent(RecentOrder),
    Filled(FilledOrder),
    /// the order; none of a held side
    Cancelled(Option<u64>),
    Replaced(Replacement),
    Asked(NewRequest),
    Quoted(NewQuote),
    /// the quote, as the venue names it (117)
    Withdrawn(Option<Identifier>),
    /// the requester passed the quote that its message names
    Passed,
    Traded(RoomTrade),
    /// the text (58) of the first reply at a row that refuses; none where it has none
    Refused(Option<Identifier>),
}

/// What the answer to a row says one participant.
#[derive(Clone, Copy)]
pub struct Event {
    pub at: Origin,
    pub to: Who,
    pub what: What,
}
