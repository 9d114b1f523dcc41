//! A law of the definitions, for this crate and those above.
ghost use Rattle.std.specs.Prelude.{◌≡◌, List};
ghost use Rattle.venue_rules.specs.declared.facts.Fact.{Fact};
ghost use Rattle.venue_rules.specs.Facts.{History};
ghost use Rattle.venue_request.specs.declared.counts.Counts.{Counts};
ghost use Rattle.order_handler.specs.Reads.{IsRead, IsReadAlone};

use cross_delay::delay_is_read_alone;
use price_book::book_is_read_alone;

/// The rules of orders and crosses read the same off a history as off its book, its held sides and its counts.
pub fn parts_are_read_alone()
    ensures { (h : History) (book delay : List Fact) (c : Counts) → IsRead h book delay c → IsReadAlone h book delay c }
{
    book_is_read_alone();
    delay_is_read_alone();
}
