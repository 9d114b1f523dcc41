//! Used identifiers.
ghost use Rattle.std.specs.Prelude.{◌≡◌};
ghost use Rattle.order_handler.specs.Reads.{is_used};

use cross_delay::Held;
use fix_dictionary::Identifier;
use price_book::PriceBook;
use venue_rules::Who;

/// Whether the participant used the identifier for an order, for a held side, or for a cancel or a replacement of one.
pub fn is_used(book: &PriceBook, held: &Held, who: Who, id: &Identifier) -> bool
    ensures { result ≡ is_used book.now.facts held.now.facts who id.now }
{
    book.used(who, id) || held.used(who, id)
}
