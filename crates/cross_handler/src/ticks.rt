//! Ticks: the entry of a held side that is due.
ghost use Rattle.std.specs.Prelude.{◌≡◌, ◌≤◌, ◌<◌, [], true, List, length, IfOk};
ghost use Rattle.venue_rules.specs.declared.facts.Fact.{Fact};
ghost use Rattle.venue_rules.specs.Facts.{History};
ghost use Rattle.venue_rules.specs.Run.{Tick, answer_input};
ghost use Rattle.price_book.specs.Steps.{IsPlanOf};
ghost use Rattle.venue_request.specs.Counting.{AreCounts};
ghost use Rattle.venue_rules.specs.Market.{market_of};
ghost use Rattle.order_handler.specs.Made.{IsMade, are_listed};
ghost use Rattle.order_handler.specs.Parts.{answer_of, book_answer_of};
ghost use Rattle.order_handler.specs.Reads.{IsRead};
ghost use Rattle.cross_handler.specs.EnteringWhenDue.{entered_when_due, side_turned_away};

use cross_delay::{Held, due_side_is_held};
use fix_dictionary::Amount;
use order_handler::{OrderAnswer, enter, parts_are_read_alone};
use price_book::{PriceBook, Refusal};
use sef_moment::Moment;
use std::alloc::AllocError;
use venue_request::Turn;
use venue_rules::{HeldSide, OrderRefusal, OrderRefused, OrderReport, Reply, ReplyBody, symbol_of};

// The report that refuses a held side as it enters.
fn refused(turn: &Turn<'_>, side: &HeldSide, cause: OrderRefusal) -> Result<OrderAnswer, AllocError>
    requires number { AreCounts turn.now.counts }
    requires listed { side.now.order.instrument < length turn.now.market.instruments.now }
    ensures answer { IfOk result (λ a. book_answer_of a ≡ side_turned_away turn.now.market.instruments.now (record { facts = []; reports = turn.now.counts.reports }) side.now cause) }
    ensures quiet { IfOk result (λ a. a.book ≡ []) }
{
    let order = OrderReport {
        report: turn.counts.reports + 1,
        order: None,
        symbol: symbol_of(turn.market.instruments, side.order.instrument),
        side: side.order.side,
        left: Amount::new(0),
        filled: Amount::new(0),
        id: side.order.id,
    };
    let what = ReplyBody::OrderRefused(OrderRefused { order, cause });
    let (alloc, to) = (turn.alloc, side.order.who);
    let replies = vec![in alloc; Reply { to, what }]?;
    Ok(OrderAnswer::of_replies(alloc, replies))
}

// Due moment of a side that is due at `moment`, so within the range of moments.
fn due_moment(side: &HeldSide, moment: Moment) -> Moment
    requires { side.now.due ≤ moment }
    ensures { result ≡ side.now.due }
{
    let _milliseconds = moment.ms();
    Moment::of_ms(side.due).unwrap()
}

// The entry of a side that is due, or the report that refuses it.
fn entered_when_due(
    turn: &Turn<'_>,
    book: &mut PriceBook,
    side: &HeldSide,
) -> Result<OrderAnswer, AllocError>
    requires number { AreCounts turn.now.counts }
    requires listed { side.now.order.instrument < length turn.now.market.instruments.now }
    requires due { side.now.due ≤ turn.now.moment }
    ensures kept { book.new.facts ≡ book.old.facts }
    ensures answer { IfOk result (λ a. (h : History) (delay : List Fact) → IsRead h book.old.facts delay turn.now.counts → book_answer_of a ≡ entered_when_due (market_of turn.now.market) h side.now) }
    ensures made { IfOk result (λ a. IsPlanOf book.new a.book) }
    ensures listed { IfOk result (λ a. are_listed (length turn.now.market.instruments.now) a.book ≡ true) }
{
    let due = due_moment(side, turn.moment);
    let (alloc, market, counts) = (turn.alloc, turn.market, turn.counts);
    let then = Turn {
        alloc,
        market,
        counts,
        moment: due,
    };
    match enter(&then, book, &side.order) {
        Ok(entered) => Ok(entered),
        Err(Refusal::TooSoon(_)) => refused(turn, side, OrderRefusal::LinkedOrderTooRecent),
        Err(Refusal::Full) => refused(turn, side, OrderRefusal::BookSideFull),
        Err(Refusal::NoMemory) => Err(AllocError),
    }
}

/// The answer to a tick: the first held side due by then enters the book at its due moment, or is refused then; none
/// where no side is due. Reserves memory for its plans.
pub fn plan_due(
    turn: &Turn<'_>,
    book: &mut PriceBook,
    held: &mut Held,
) -> Result<OrderAnswer, AllocError>
    requires number { AreCounts turn.now.counts }
    requires delay_listed { are_listed (length turn.now.market.instruments.now) held.old.facts ≡ true }
    ensures book_kept { book.new.facts ≡ book.old.facts }
    ensures delay_kept { held.new.facts ≡ held.old.facts }
    ensures planned { IfOk result (λ a. (h : History) → IsRead h book.old.facts held.old.facts turn.now.counts → answer_of a ≡ answer_input (market_of turn.now.market) h (Tick turn.now.moment)) }
    ensures made { IfOk result (λ a. IsMade (length turn.now.market.instruments.now) book.new held.new a) }
{
    parts_are_read_alone();
    due_side_is_held();
    let alloc = turn.alloc;
    let Some(side) = held.due(turn.moment) else {
        return Ok(OrderAnswer::of_replies(alloc, Vec::new(alloc)));
    };
    let (who, id) = (side.order.who, side.order.id);
    let entered = entered_when_due(turn, book, side)?;
    let plan = held.plan_drop(who, &id, None)?;
    Ok(entered.with_delay(true, plan))
}
