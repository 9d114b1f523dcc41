//! The best price of a side.
ghost use Rattle.std.specs.Prelude.{◌≡◌, option_map, slice_get};
ghost use Rattle.venue_rules.specs.Book.{resting};

use crate::standing::{Book, resting};
use fix_dictionary::{Price, Side};

/// The price of the first resting order of an instrument and a side, in price-time priority.
pub(crate) fn best(book: Book<'_>, instrument: u32, side: Side) -> Option<Price>
    ensures { result ≡ option_map (λ r. r.entry.order.price) (slice_get (resting book.entry.past.now instrument side) 0) }
{
    let Some(rows) = resting(book, instrument, side) else {
        return None;
    };
    let count = rows.len();
    if count == 0 {
        return None;
    }
    Some(rows.row(count - 1).price)
}
