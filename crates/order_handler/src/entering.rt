//! Entry of an order.
ghost use Rattle.std.specs.Prelude.{◌≡◌, ◌<◌, [], true, List, length, IfOk, IfErr};
ghost use Rattle.venue_rules.specs.declared.facts.Fact.{Fact};
ghost use Rattle.venue_rules.specs.Facts.{History};
ghost use Rattle.venue_rules.specs.Orders.{accepted};
ghost use Rattle.price_book.specs.Plans.{IsEntryAccepted, IsEntryRefused};
ghost use Rattle.price_book.specs.Steps.{IsPlanOf};
ghost use Rattle.order_handler.specs.Made.{are_listed};
ghost use Rattle.order_handler.specs.Parts.{book_answer_of};
ghost use Rattle.order_handler.specs.Reads.{IsRead};
ghost use Rattle.venue_request.specs.Counting.{AreCounts};
ghost use Rattle.venue_rules.specs.Market.{market_of};

use crate::answer::OrderAnswer;
use crate::laws::parts_are_read_alone;
use crate::reports::entry_replies;
use cross_delay::HoldPlan;
use price_book::{PriceBook, Refusal};
use venue_request::Turn;
use venue_rules::{OrderFact, symbol_of};

/// The answer to an order that enters at the turn's moment, where the book does not refuse it; reserves memory for the
/// book's plan. The held sides have no part in it.
pub fn enter(
    turn: &Turn<'_>,
    book: &mut PriceBook,
    order: &OrderFact,
) -> Result<OrderAnswer, Refusal>
    requires number { AreCounts turn.now.counts }
    requires listed { order.now.instrument < length turn.now.market.instruments.now }
    ensures kept { book.new.facts ≡ book.old.facts }
    ensures planned { IfOk result (λ a. (h : History) (delay : List Fact) → IsRead h book.old.facts delay turn.now.counts → IsEntryAccepted (market_of turn.now.market) h.facts order.now turn.now.moment × (book_answer_of a ≡ accepted (market_of turn.now.market) h order.now turn.now.moment)) }
    ensures alone { IfOk result (λ a. a.delay ≡ []) }
    ensures made { IfOk result (λ a. IsPlanOf book.new a.book) }
    ensures listed { IfOk result (λ a. are_listed (length turn.now.market.instruments.now) a.book ≡ true) }
    ensures refused { IfErr result (λ e. (h : History) (delay : List Fact) → IsRead h book.old.facts delay turn.now.counts → IsEntryRefused (market_of turn.now.market) h.facts order.now turn.now.moment e) }
{
    parts_are_read_alone();
    let plan = match book.plan_entry(turn.market, order, turn.moment) {
        Ok(plan) => plan,
        Err(refusal) => return Err(refusal),
    };
    let entry = plan.entered().unwrap();
    let symbol = symbol_of(turn.market.instruments, order.instrument);
    let Ok(replies) = entry_replies(turn, &symbol, entry, plan.fills()) else {
        return Err(Refusal::NoMemory);
    };
    let delay = HoldPlan::nothing(turn.alloc);
    Ok(OrderAnswer::of(false, delay, plan, replies))
}
