//! Events that are evidence, called words in names: what the venue said of requests, quotes, orders and trades, each
//! with its row.

use fix_dictionary::{Amount, Identifier, Price, Quantity, Side};
use participants::Who;
use sef_moment::Moment;

/// A recipient was asked for a quote.
#[derive(Clone, Copy)]
pub struct Asked {
    pub requester: Who,
    /// the requester's own identifier of the request (131)
    pub request: Identifier,
    pub room: u64,
    pub symbol: Identifier,
    pub side: Option<Side>,
    pub quantity: Quantity,
}

/// A requester was shown `count` resting orders with the first response.
#[derive(Clone, Copy)]
pub struct SnapshotSent {
    pub request: Identifier,
    pub count: u64,
}

/// One of these orders.
#[derive(Clone, Copy)]
pub struct Shown {
    pub request: Identifier,
    pub side: Side,
    pub price: Price,
    pub left: Amount,
    pub order: u64,
}

/// A requester was sent a quote.
#[derive(Clone, Copy)]
pub struct Quoted {
    pub request: Identifier,
    pub quote: u64,
    pub maker: Identifier,
    pub bid: Option<Price>,
    pub offer: Option<Price>,
    pub end: Moment,
    /// the maker's own identifier of it (117)
    pub id: Option<Identifier>,
}

/// A quote was hit, which made a trade in a room.
#[derive(Clone, Copy)]
pub struct Hit {
    pub room: u64,
    pub trade: u64,
    /// the quote, as the requester names it (117)
    pub quote: Identifier,
    /// the addressee's side
    pub side: Side,
    pub price: Price,
    /// the requester's own identifier of the hit (693), in the report to it
    pub response: Option<Identifier>,
}

/// A link (583), and the row of the message that carried it.
#[derive(Clone, Copy)]
pub struct Linked {
    pub link: Identifier,
    pub row: u64,
}

/// An order entered the book.
#[derive(Clone, Copy)]
pub struct Entered {
    pub order: u64,
    pub id: Identifier,
    pub symbol: Identifier,
    pub side: Side,
    pub quantity: Amount,
    /// none where the order was a held side, which enters at a tick
    pub price: Option<Price>,
    /// its own link, or that of the order which it replaces
    pub link: Option<Linked>,
    /// the identifier (41) of the order which it replaces
    pub original: Option<Identifier>,
    pub at_tick: bool,
}

/// The second side of a cross is held for this many milliseconds.
#[derive(Clone, Copy)]
pub struct Held {
    pub id: Identifier,
    /// the identifier of the cross (548)
    pub cross: Identifier,
    pub delay: u64,
}

/// An order was filled by a trade in the book.
#[derive(Clone, Copy)]
pub struct Filled {
    pub order: u64,
    pub trade: u64,
}

/// An order rested before one that was then filled, on its side of the book.
#[derive(Clone, Copy)]
pub struct RestedBefore {
    /// the order that was filled
    pub resting: u64,
    pub side: Side,
    pub price: Price,
    pub left: Amount,
    pub order: u64,
}

/// The count of orders that rested before one that was then filled.
#[derive(Clone, Copy)]
pub struct RestedCount {
    /// the order that was filled
    pub resting: u64,
    pub count: u64,
}

/// The content of an event.
#[derive(Clone, Copy)]
pub enum EventKind {
    Asked(Asked),
    SnapshotSent(SnapshotSent),
    Shown(Shown),
    Quoted(Quoted),
    Hit(Hit),
    Entered(Entered),
    Held(Held),
    Filled(Filled),
    RestedBefore(RestedBefore),
    RestedCount(RestedCount),
}

/// An event: its content, its addressee and its row.
#[derive(Clone, Copy)]
pub struct EvidenceEvent {
    pub row: u64,
    pub moment: Moment,
    pub to: Who,
    pub said: EventKind,
}
