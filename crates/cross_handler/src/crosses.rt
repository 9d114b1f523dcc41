//! NewOrderCross (s): refusals, the first side's entry, and the second side's hold.
ghost use Rattle.std.specs.Prelude.{◌≡◌, length, IfOk};
ghost use Rattle.venue_rules.specs.Facts.{History};
ghost use Rattle.venue_rules.specs.Crosses.{answer_cross};
ghost use Rattle.venue_request.specs.Counting.{AreCounts};
ghost use Rattle.venue_rules.specs.Market.{market_of};
ghost use Rattle.venue_request.specs.Senders.{sender};
ghost use Rattle.order_handler.specs.Made.{IsMade};
ghost use Rattle.order_handler.specs.Parts.{answer_of};
ghost use Rattle.order_handler.specs.Reads.{IsRead};

use crate::refusing::{refused, rejection};
use crate::sides::{first_side, held_side, side_order};
use crate::terms::cross_terms;
use cross_delay::{Held, Refusal as HoldRefusal};
use fix_dictionary::NewOrderCross;
use order_handler::{OrderAnswer, enter, parts_are_read_alone};
use price_book::{PriceBook, Refusal as EntryRefusal};
use std::alloc::AllocError;
use venue_request::Request;
use venue_rules::CrossRefusal;

/// The answer to a cross; reserves memory for the side that enters and for the one that is held.
pub fn plan_cross(
    request: &Request<'_>,
    book: &mut PriceBook,
    held: &mut Held,
    cross: &NewOrderCross,
) -> Result<OrderAnswer, AllocError>
    requires { AreCounts request.now.turn.counts }
    ensures book_kept { book.new.facts ≡ book.old.facts }
    ensures delay_kept { held.new.facts ≡ held.old.facts }
    ensures planned { IfOk result (λ a. (h : History) → IsRead h book.old.facts held.old.facts request.now.turn.counts → answer_of a ≡ answer_cross (market_of request.now.turn.market) h (sender request.now.taken.now) cross.now request.now.turn.moment) }
    ensures made { IfOk result (λ a. IsMade (length request.now.turn.market.instruments.now) book.new held.new a) }
{
    parts_are_read_alone();
    let (turn, who) = (&request.turn, request.taken.from);
    let instruments = request.turn.market.instruments;
    let terms = match cross_terms(instruments, book, held, who, cross) {
        Ok(terms) => terms,
        Err(cause) => return rejection(request, cross, cause),
    };
    let first = side_order(who, first_side(cross), &terms);
    let second = held_side(instruments, who, cross, &terms, request.turn.moment);
    let entered = match enter(turn, book, &first) {
        Ok(entered) => entered,
        Err(EntryRefusal::TooSoon(_)) => {
            return refused(request, cross, CrossRefusal::LinkedOrderTooRecent);
        }
        Err(EntryRefusal::Full) => {
            return refused(request, cross, CrossRefusal::BookSideFull);
        }
        Err(EntryRefusal::NoMemory) => return Err(AllocError),
    };
    match held.plan_hold(second) {
        Ok(plan) => Ok(entered.with_delay(false, plan)),
        Err(HoldRefusal::Full) => refused(request, cross, CrossRefusal::TooManyHeld),
        Err(HoldRefusal::NoMemory) => Err(AllocError),
    }
}
