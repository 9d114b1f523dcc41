//! OrderCancelReplaceRequest (G): replacements of resting orders; a held side cannot be replaced.
ghost use Rattle.std.specs.Prelude.{◌≡◌, ◌≤◌, ◌<◌, ◌^◌, ℕ, [], true, length, slice_get, Some, None, MatchOption, IfOk, IfErr};
ghost use Rattle.venue_rules.specs.Book.{find_order};
ghost use Rattle.venue_rules.specs.Facts.{History, entries, trades};
ghost use Rattle.venue_rules.specs.Market.{Market, market_of};
ghost use Rattle.venue_rules.specs.Changes.{answer_replace, replace_refused};
ghost use Rattle.price_book.specs.Views.{seen};
ghost use Rattle.venue_request.specs.declared.counts.Counts.{Counts};
ghost use Rattle.order_handler.specs.Changed.{IsBookRefusal, IsNotReplaced, IsCapacityLeft, IsTakingPlace, MayReplace, change_turned_away, replaced_parts};
ghost use Rattle.order_handler.specs.Made.{IsMade, are_listed};
ghost use Rattle.order_handler.specs.Parts.{answer_of};
ghost use Rattle.order_handler.specs.Reads.{IsRead};
ghost use Rattle.venue_request.specs.Counting.{AreCounts};
ghost use Rattle.venue_request.specs.Senders.{sender};

use crate::answer::OrderAnswer;
use crate::changes::{change_refused, standing};
use crate::laws::parts_are_read_alone;
use crate::messages::business_reject;
use crate::orders::is_limit;
use crate::reports::replaced_replies;
use crate::used::is_used;
use cross_delay::{Held, HoldPlan};
use fix_dictionary::{OrderCancelReplaceRequest, Price};
use price_book::{FillPlan, PriceBook, Refusal, Resting};
use std::alloc::AllocError;
use venue_request::Request;
use venue_rules::{
    BusinessRefusal, ChangeKind, ChangeRefusal, ChangeRefused, OrderStatus, is_below_least,
    is_off_tick, symbol_of,
};

/// Cause of a refusal before the book is asked.
#[derive(Clone, Copy)]
enum ChangeCause {
    Refused(ChangeRefusal),
    PriceMissing,
}

/// The price of a replacing order, or the first cause to refuse it before the book is asked.
#[tactic(auto, using(crate::proofs::Replacements::turnings))]
fn new_price(
    request: &Request<'_>,
    book: &PriceBook,
    held: &Held,
    message: &OrderCancelReplaceRequest,
    order: Resting<'_>,
) -> Result<Price, ChangeCause>
    requires { (seen order).entry.order.instrument < length request.now.turn.market.instruments.now }
    ensures may { IfOk result (λ price. MayReplace (market_of request.now.turn.market) book.now.facts held.now.facts request.now.taken.now.from message.now (seen order.entry)) }
    ensures price { IfOk result (λ price. message.now.price ≡ Some price) }
    ensures most { IfOk result (λ price. message.now.quantity ≤ 10 ^ 15) }
    ensures turned { IfErr result (λ cause. IsNotReplaced (market_of request.now.turn.market) book.now.facts held.now.facts request.now.taken.now.from message.now (seen order.entry) cause) }
{
    let (instruments, instrument) = (
        request.turn.market.instruments,
        order.entry.order.instrument,
    );
    if is_used(book, held, request.taken.from, &message.order_id) {
        return Err(ChangeCause::Refused(ChangeRefusal::DuplicateClOrdId));
    }
    if !is_limit(message.order_type) {
        return Err(ChangeCause::Refused(ChangeRefusal::UnsupportedOrder));
    }
    let Some(price) = message.price else {
        return Err(ChangeCause::PriceMissing);
    };
    if is_off_tick(instruments, instrument, price) {
        return Err(ChangeCause::Refused(ChangeRefusal::PriceOffTick));
    }
    if is_below_least(instruments, instrument, message.quantity) {
        return Err(ChangeCause::Refused(ChangeRefusal::QuantityBelowLeast));
    }
    if message.quantity.get() <= order.filled().get() {
        return Err(ChangeCause::Refused(ChangeRefusal::QuantityAlreadyFilled));
    }
    Ok(price)
}

/// The refusal of a replacement that named this resting order, or none.
fn refused(
    request: &Request<'_>,
    message: &OrderCancelReplaceRequest,
    standing: Option<OrderStatus>,
    cause: ChangeRefusal,
) -> Result<OrderAnswer, AllocError>
    ensures answer { IfOk result (λ a. answer_of a ≡ replace_refused (sender request.now.taken.now) message.now standing cause) }
    ensures quiet { IfOk result (λ a. (a.book ≡ []) × (a.delay ≡ [])) }
{
    let refused = ChangeRefused {
        standing,
        id: message.order_id,
        original_id: message.original_id,
        kind: ChangeKind::Replace,
        cause,
    };
    change_refused(request, refused)
}

/// The answer to a replacement of a resting order, refused before the book is asked.
fn rejection(
    request: &Request<'_>,
    message: &OrderCancelReplaceRequest,
    named: OrderStatus,
    cause: ChangeCause,
) -> Result<OrderAnswer, AllocError>
    ensures answer { IfOk result (λ a. answer_of a ≡ change_turned_away (sender request.now.taken.now) message.now named cause) }
    ensures quiet { IfOk result (λ a. (a.book ≡ []) × (a.delay ≡ [])) }
{
    match cause {
        ChangeCause::Refused(cause) => refused(request, message, Some(named), cause),
        ChangeCause::PriceMissing => {
            let missing = BusinessRefusal::PriceMissing;
            business_reject(request.turn.alloc, request.taken, missing)
        }
    }
}

/// The answer to a replacement that names a held side, or nothing: always a refusal.
fn none_replaced(
    request: &Request<'_>,
    book: &PriceBook,
    held: &Held,
    message: &OrderCancelReplaceRequest,
) -> Result<OrderAnswer, AllocError>
    requires unknown { find_order book.now.facts request.now.taken.now.from message.now.original_id ≡ None }
    ensures planned { IfOk result (λ a. (m : Market) (h : History) (counts : Counts) (t : ℕ) → IsRead h book.now.facts held.now.facts counts → answer_of a ≡ answer_replace m h (sender request.now.taken.now) message.now t) }
    ensures quiet { IfOk result (λ a. (a.book ≡ []) × (a.delay ≡ [])) }
{
    parts_are_read_alone();
    let who = request.taken.from;
    if !held.holds(who, &message.original_id) {
        return refused(request, message, None, ChangeRefusal::UnknownOrder);
    }
    if is_used(book, held, who, &message.order_id) {
        return refused(request, message, None, ChangeRefusal::DuplicateClOrdId);
    }
    refused(request, message, None, ChangeRefusal::HeldSide)
}

/// The answer to a replacement that the book refuses: it has capacity for a replacing order, so the cause is a linked
/// order.
fn refused_by_book(
    request: &Request<'_>,
    message: &OrderCancelReplaceRequest,
    named: OrderStatus,
    refusal: Refusal,
) -> Result<OrderAnswer, AllocError>
    requires { IsCapacityLeft refusal }
    ensures answer { IfOk result (λ a. IsBookRefusal (sender request.now.taken.now) message.now named refusal (answer_of a)) }
    ensures quiet { IfOk result (λ a. (a.book ≡ []) × (a.delay ≡ [])) }
{
    match refusal {
        Refusal::TooSoon(_) => {
            let cause = ChangeRefusal::LinkedOrderTooRecent;
            refused(request, message, Some(named), cause)
        }
        Refusal::Full => unreachable!(),
        Refusal::NoMemory => Err(AllocError),
    }
}

/// The answer to a replacement with this plan: the reports of the order that enters by it.
fn replaced(
    request: &Request<'_>,
    message: &OrderCancelReplaceRequest,
    plan: FillPlan,
) -> Result<OrderAnswer, AllocError>
    requires number { AreCounts request.now.turn.counts }
    requires few { length plan.fills ≤ 200 }
    requires trades { length (trades plan.facts) ≤ 200 }
    requires enters { MatchOption (slice_get (entries plan.facts) 0) ⊥ (IsTakingPlace (length request.now.turn.market.instruments.now) plan.fills) }
    ensures { IfOk result (λ a. MatchOption (slice_get (entries plan.facts) 0) ⊥ (λ e. a ≡ replaced_parts request.now.turn.market.instruments.now request.now.turn.counts request.now.taken.now.from message.now.original_id plan e)) }
{
    let alloc = request.turn.alloc;
    let entry = plan.entered().unwrap();
    let symbol = symbol_of(request.turn.market.instruments, entry.order.instrument);
    let (original, fills) = (&message.original_id, plan.fills());
    let replies = replaced_replies(request, original, &symbol, entry, fills)?;
    let nothing = HoldPlan::nothing(alloc);
    Ok(OrderAnswer::of(false, nothing, plan, replies))
}

/// The answer to a replacement; reserves memory for its plans.
pub fn plan_replace(
    request: &Request<'_>,
    book: &mut PriceBook,
    held: &Held,
    message: &OrderCancelReplaceRequest,
) -> Result<OrderAnswer, AllocError>
    requires number { AreCounts request.now.turn.counts }
    requires listed { are_listed (length request.now.turn.market.instruments.now) book.old.facts ≡ true }
    ensures kept { book.new.facts ≡ book.old.facts }
    ensures planned { IfOk result (λ a. (h : History) → IsRead h book.old.facts held.now.facts request.now.turn.counts → answer_of a ≡ answer_replace (market_of request.now.turn.market) h (sender request.now.taken.now) message.now request.now.turn.moment) }
    ensures made { IfOk result (λ a. IsMade (length request.now.turn.market.instruments.now) book.new held.now a) }
{
    parts_are_read_alone();
    let who = request.taken.from;
    let Some(order) = book.order(who, &message.original_id) else {
        return none_replaced(request, book, held, message);
    };
    let named = standing(order);
    let number = order.entry.number;
    let price = match new_price(request, book, held, message, order) {
        Ok(price) => price,
        Err(cause) => return rejection(request, message, named, cause),
    };
    match book.plan_replace(
        request.turn.market,
        who,
        number,
        &message.order_id,
        message.quantity,
        price,
        request.turn.moment,
    ) {
        Ok(plan) => replaced(request, message, plan),
        Err(refusal) => refused_by_book(request, message, named, refusal),
    }
}
