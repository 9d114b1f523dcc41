//! Sides of the market.

ghost use Rattle.std.specs.Prelude.{◌≡◌};
ghost use Rattle.venue_rules.specs.Book.{is_side, opposite};
ghost use Rattle.venue_rules.specs.Entering.{buyer};

use fix_dictionary::Side;
use participants::Who;

pub fn is_side(side: Side, other: Side) -> bool
    ensures { result ≡ is_side side other }
{
    match (side, other) {
        (Side::Buy, Side::Buy) | (Side::Sell, Side::Sell) => true,
        _ => false,
    }
}

/// The side that trades with `side`.
pub fn opposite(side: Side) -> Side
    ensures { result ≡ opposite side }
{
    match side {
        Side::Buy => Side::Sell,
        Side::Sell => Side::Buy,
    }
}

/// The buyer in a trade of `one`, on this side, with `other`.
pub fn buyer(side: Side, one: Who, other: Who) -> Who
    ensures { result ≡ buyer side one other }
{
    match side {
        Side::Buy => one,
        Side::Sell => other,
    }
}
