//! NewOrderSingle (D): refusals and entries.
ghost use Rattle.std.specs.Prelude.{◌≡◌, [], ◌^◌, ◌<◌, length, List, IfOk, IfErr};
ghost use Rattle.venue_rules.specs.declared.facts.Fact.{Fact as FactValue};
ghost use Rattle.venue_rules.specs.Facts.{History};
ghost use Rattle.venue_rules.specs.Orders.{answer_order, is_limit, is_unsupported_life, life_of, order_asked, refused, refused_naming};
ghost use Rattle.order_handler.specs.Asked.{IsSound, IsTermsOf, IsTurnedAway, rejection};
ghost use Rattle.order_handler.specs.Made.{IsMade};
ghost use Rattle.order_handler.specs.Parts.{answer_of};
ghost use Rattle.order_handler.specs.Reads.{IsRead};
ghost use Rattle.venue_request.specs.Counting.{AreCounts};
ghost use Rattle.venue_rules.specs.Market.{market_of};
ghost use Rattle.venue_request.specs.Senders.{sender};

use crate::answer::OrderAnswer;
use crate::entering::enter;
use crate::laws::parts_are_read_alone;
use crate::messages::business_reject;
use crate::used::is_used;
use cross_delay::Held;
use fix_dictionary::{Amount, FixChar, NewOrderSingle, Price};
use price_book::{PriceBook, Refusal};
use std::alloc::AllocError;
use venue_request::Request;
use venue_rules::{
    BusinessRefusal, OrderFact, OrderRefusal, OrderRefused, OrderReport, Reply, ReplyBody,
    TimeInForce, instrument_of, is_below_least, is_off_tick,
};

/// Cause of a refusal before the book is asked.
#[derive(Clone, Copy)]
enum Cause {
    Refused(OrderRefusal),
    /// with the number of the sender's order that rests under the identifier
    Duplicate(Option<u64>),
    PriceMissing,
}

/// Instrument and price of an order.
#[derive(Clone, Copy)]
struct Terms {
    instrument: u32,
    price: Price,
}

/// OrdType (40) is 2, a limit order.
pub fn is_limit(order_type: FixChar) -> bool
    ensures { result ≡ is_limit order_type }
{
    order_type.get() == b'2'
}

/// TimeInForce (59) is present, and none of 0, 3 and 4.
fn is_unsupported_life(time_in_force: Option<FixChar>) -> bool
    ensures { result ≡ is_unsupported_life time_in_force }
{
    match time_in_force {
        Some(c) => !(c.get() == b'0' || (c.get() == b'3' || c.get() == b'4')),
        None => false,
    }
}

fn life_of(time_in_force: Option<FixChar>) -> TimeInForce
    ensures { result ≡ life_of time_in_force }
{
    match time_in_force {
        Some(c) => {
            if c.get() == b'3' {
                TimeInForce::ImmediateOrCancel
            } else if c.get() == b'4' {
                TimeInForce::FillOrKill
            } else {
                TimeInForce::Day
            }
        }
        None => TimeInForce::Day,
    }
}

/// The terms of an order that may enter, or the first cause to refuse it before the book is asked.
#[tactic(auto, using(crate::proofs::Turning::turnings))]
fn order_terms(
    request: &Request<'_>,
    book: &PriceBook,
    held: &Held,
    order: &NewOrderSingle,
) -> Result<Terms, Cause>
    ensures sound { IfOk result (λ terms. IsSound (market_of request.now.turn.market) book.now.facts held.now.facts request.now.taken.now.from order.now) }
    ensures terms { IfOk result (λ terms. IsTermsOf (market_of request.now.turn.market) order.now terms) }
    ensures turned { IfErr result (λ cause. IsTurnedAway (market_of request.now.turn.market) book.now.facts held.now.facts request.now.taken.now.from order.now cause) }
{
    let instruments = request.turn.market.instruments;
    let Some(instrument) = instrument_of(instruments, &order.symbol) else {
        return Err(Cause::Refused(OrderRefusal::UnknownInstrument));
    };
    if is_used(book, held, request.taken.from, &order.order_id) {
        let (named, _count) = book.find(request.taken.from, &order.order_id);
        return Err(Cause::Duplicate(named));
    }
    if !is_limit(order.order_type) || is_unsupported_life(order.time_in_force) {
        return Err(Cause::Refused(OrderRefusal::UnsupportedOrder));
    }
    let Some(price) = order.price else {
        return Err(Cause::PriceMissing);
    };
    if is_off_tick(instruments, instrument, price) {
        return Err(Cause::Refused(OrderRefusal::PriceOffTick));
    }
    if is_below_least(instruments, instrument, order.quantity) {
        return Err(Cause::Refused(OrderRefusal::QuantityBelowLeast));
    }
    Ok(Terms { instrument, price })
}

/// The order of a message.
fn order_asked(request: &Request<'_>, order: &NewOrderSingle, terms: Terms) -> OrderFact
    requires { IsTermsOf (market_of request.now.turn.market) order.now terms }
    ensures { result ≡ order_asked (market_of request.now.turn.market) request.now.taken.now.from order.now }
{
    OrderFact {
        who: request.taken.from,
        id: order.order_id,
        link: order.link_id,
        instrument: terms.instrument,
        side: order.side,
        quantity: order.quantity,
        price: terms.price,
        life: life_of(order.time_in_force),
    }
}

/// The report that refuses an order, which has no number of the venue's; it names another, or none.
fn refused_naming(
    named: Option<u64>,
    request: &Request<'_>,
    order: &NewOrderSingle,
    cause: OrderRefusal,
) -> Result<OrderAnswer, AllocError>
    requires { AreCounts request.now.turn.counts }
    ensures answer { IfOk result (λ a. (facts : List FactValue) → answer_of a ≡ refused_naming named (record { facts = facts; reports = request.now.turn.counts.reports }) (sender request.now.taken.now) order.now cause) }
    ensures quiet { IfOk result (λ a. (a.book ≡ []) × (a.delay ≡ [])) }
{
    let (alloc, to) = (request.turn.alloc, request.taken.from);
    let report = OrderReport {
        report: request.turn.counts.reports + 1,
        order: named,
        symbol: order.symbol,
        side: order.side,
        left: Amount::new(0),
        filled: Amount::new(0),
        id: order.order_id,
    };
    let what = ReplyBody::OrderRefused(OrderRefused {
        order: report,
        cause,
    });
    let replies = vec![in alloc; Reply { to, what }]?;
    Ok(OrderAnswer::of_replies(alloc, replies))
}

/// The report that refuses an order, and names none.
fn refused(
    request: &Request<'_>,
    order: &NewOrderSingle,
    cause: OrderRefusal,
) -> Result<OrderAnswer, AllocError>
    requires { AreCounts request.now.turn.counts }
    ensures answer { IfOk result (λ a. (facts : List FactValue) → answer_of a ≡ refused (record { facts = facts; reports = request.now.turn.counts.reports }) (sender request.now.taken.now) order.now cause) }
    ensures quiet { IfOk result (λ a. (a.book ≡ []) × (a.delay ≡ [])) }
{
    refused_naming(None, request, order, cause)
}

/// The answer to an order refused before the book is asked.
fn rejection(
    request: &Request<'_>,
    order: &NewOrderSingle,
    cause: Cause,
) -> Result<OrderAnswer, AllocError>
    requires { AreCounts request.now.turn.counts }
    ensures answer { IfOk result (λ a. (facts : List FactValue) → answer_of a ≡ rejection (record { facts = facts; reports = request.now.turn.counts.reports }) (sender request.now.taken.now) order.now cause) }
    ensures quiet { IfOk result (λ a. (a.book ≡ []) × (a.delay ≡ [])) }
{
    match cause {
        Cause::Refused(cause) => refused(request, order, cause),
        Cause::Duplicate(named) => {
            refused_naming(named, request, order, OrderRefusal::DuplicateClOrdId)
        }
        Cause::PriceMissing => {
            let missing = BusinessRefusal::PriceMissing;
            business_reject(request.turn.alloc, request.taken, missing)
        }
    }
}

/// The answer to a new order; reserves memory for its plans.
pub fn plan_order(
    request: &Request<'_>,
    book: &mut PriceBook,
    held: &Held,
    order: &NewOrderSingle,
) -> Result<OrderAnswer, AllocError>
    requires { AreCounts request.now.turn.counts }
    ensures kept { book.new.facts ≡ book.old.facts }
    ensures planned { IfOk result (λ a. (h : History) → IsRead h book.old.facts held.now.facts request.now.turn.counts → answer_of a ≡ answer_order (market_of request.now.turn.market) h (sender request.now.taken.now) order.now request.now.turn.moment) }
    ensures made { IfOk result (λ a. IsMade (length request.now.turn.market.instruments.now) book.new held.now a) }
{
    parts_are_read_alone();
    let terms = match order_terms(request, book, held, order) {
        Ok(terms) => terms,
        Err(cause) => return rejection(request, order, cause),
    };
    let asked = order_asked(request, order, terms);
    match enter(&request.turn, book, &asked) {
        Ok(answer) => Ok(answer),
        Err(Refusal::TooSoon(_)) => {
            let cause = OrderRefusal::LinkedOrderTooRecent;
            refused(request, order, cause)
        }
        Err(Refusal::Full) => refused(request, order, OrderRefusal::BookSideFull),
        Err(Refusal::NoMemory) => Err(AllocError),
    }
}
