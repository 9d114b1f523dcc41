//! How a trade was made.

use fix_dictionary::{Identifier, Side};
use participants::Who;
use sef_moment::Moment;

/// A report of a fill in the book: the trade, and the addressee's order with its own identifier (11).
#[derive(Clone, Copy)]
pub struct SideFilled {
    pub trade: u64,
    pub who: Who,
    pub order: u64,
    pub id: Identifier,
    pub side: Side,
}

/// The two orders of a trade in the book.
#[derive(Clone, Copy)]
pub struct Matched {
    pub entering: SideFilled,
    pub resting: SideFilled,
    /// the entering order was the held side of a cross, which enters at a tick
    pub at_tick: bool,
    /// the identifier (548) of the cross whose two sides these are
    pub cross: Option<Identifier>,
}

/// The hit of a quote, which makes a trade in a room.
#[derive(Clone, Copy)]
pub struct QuoteHit {
    /// the quote, as the requester names it (117)
    pub quote: Identifier,
    /// the requester's side
    pub side: Side,
    /// the maker's own identifier of the quote (117)
    pub id: Option<Identifier>,
}

/// The source of a trade: the book, or a room.
#[derive(Clone, Copy)]
pub enum Source {
    Book(Matched),
    Room(QuoteHit),
}

/// How a trade was made, at the row whose replies report it.
#[derive(Clone, Copy)]
pub struct Execution {
    pub trade: u64,
    pub row: u64,
    pub moment: Moment,
    pub source: Source,
}

/// A quote of a room, with its maker's own identifier (117).
#[derive(Clone, Copy)]
pub struct OwnQuote {
    pub number: u64,
    pub id: Identifier,
}

/// The first side of a cross (548) as it entered, with the identifier (11) of the second side, which is held.
#[derive(Clone, Copy)]
pub struct CrossEntered {
    pub order: u64,
    pub who: Who,
    pub second: Identifier,
    pub cross: Identifier,
}

/// What later trades are looked up in.
#[derive(Clone, Copy)]
pub enum Known {
    Quote(OwnQuote),
    Cross(CrossEntered),
}
