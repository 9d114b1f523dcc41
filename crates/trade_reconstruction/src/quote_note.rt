//! Notes on quotes: which had ended before a trade in their room, and what had become of each when it was made.

use fix_dictionary::{Identifier, Side};
use participants::Who;
use sef_moment::Moment;

/// The end of a quote, as it was reported to the requester.
#[derive(Clone, Copy)]
pub struct Ended {
    pub row: u64,
    pub requester: Who,
    /// the requester's own identifier of the request (131)
    pub request: Identifier,
    /// the quote, as the requester names it (117)
    pub quote: Identifier,
    /// by the requester, who passed it; else by its maker, who withdrew it
    pub is_passed: bool,
}

/// What had become of a quote.
#[derive(Clone, Copy)]
pub enum Fate {
    /// a hit of it, on a side with a price, would have traded
    Live,
    /// its maker had quoted again
    Replaced,
    /// withdrawn by its maker, or passed by the requester
    Withdrawn,
    /// its end had passed
    RunOut,
}

/// A quote in a room, and what had become of it just before the row of the trade.
#[derive(Clone, Copy)]
pub struct QuoteFate {
    pub row: u64,
    pub quote: u64,
    pub maker: Identifier,
    /// the trade was made by a hit of this quote
    pub is_hit: bool,
    pub fate: Fate,
    /// of one that was withdrawn or passed, the report of it, also where its maker quoted again
    pub end: Option<Ended>,
    /// of a request for both sides, the side without a price: a hit there would not have traded
    pub lacks: Option<Side>,
}

/// The row and the moment of a hit, and the quote that the message named (117).
#[derive(Clone, Copy)]
pub struct HitAt {
    pub row: u64,
    pub moment: Moment,
    pub quote: Option<Identifier>,
}
