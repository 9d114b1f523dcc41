//! OrderCancelRequest (F): cancels of resting orders and of held sides; OrderCancelReject, also for replacements.
ghost use Rattle.std.specs.Prelude.{◌≡◌, ◌<◌, ◌+◌, [], ◌∷◌, true, length, IfOk, Some, None};
ghost use Rattle.venue_rules.specs.declared.facts.Fact.{Fact as FactValue};
ghost use Rattle.venue_rules.specs.Book.{find_order};
ghost use Rattle.venue_rules.specs.Facts.{History};
ghost use Rattle.venue_rules.specs.Changes.{answer_cancel, cancel_refused, cancelled, change_refused, held_cancelled, standing};
ghost use Rattle.venue_rules.specs.Market.{Market, market_of};
ghost use Rattle.price_book.specs.Views.{seen};
ghost use Rattle.order_handler.specs.Made.{IsMade, are_listed};
ghost use Rattle.order_handler.specs.Parts.{answer_of};
ghost use Rattle.order_handler.specs.Reads.{IsRead};
ghost use Rattle.venue_request.specs.Counting.{AreCounts};
ghost use Rattle.venue_request.specs.Senders.{sender};

use crate::answer::OrderAnswer;
use crate::laws::parts_are_read_alone;
use crate::used::is_used;
use cross_delay::{Held, HoldPlan};
use fix_dictionary::{Amount, OrderCancelRequest};
use price_book::{FillPlan, PriceBook, Resting};
use std::alloc::AllocError;
use venue_request::Request;
use venue_rules::{
    ChangeKind, ChangeRefusal, ChangeRefused, ChangedReport, HeldSide, OrderReport, OrderStatus,
    Reply, ReplyBody, symbol_of,
};

/// Status of a resting order that a refused change names.
pub(crate) fn standing(order: Resting<'_>) -> OrderStatus
    ensures { result ≡ standing (seen order.entry) }
{
    OrderStatus {
        order: order.entry.number,
        filled: order.filled(),
    }
}

/// The refusal of a cancel or a replacement.
pub(crate) fn change_refused(
    request: &Request<'_>,
    refused: ChangeRefused,
) -> Result<OrderAnswer, AllocError>
    ensures answer { IfOk result (λ a. answer_of a ≡ change_refused (sender request.now.taken.now) refused.standing refused.kind refused.id refused.original_id refused.cause) }
    ensures quiet { IfOk result (λ a. (a.book ≡ []) × (a.delay ≡ [])) }
{
    let (alloc, to) = (request.turn.alloc, request.taken.from);
    let what = ReplyBody::ChangeRefused(refused);
    let replies = vec![in alloc; Reply { to, what }]?;
    Ok(OrderAnswer::of_replies(alloc, replies))
}

/// The refusal of a cancel that named this resting order, or none.
fn cancel_refused(
    request: &Request<'_>,
    message: &OrderCancelRequest,
    standing: Option<OrderStatus>,
    cause: ChangeRefusal,
) -> Result<OrderAnswer, AllocError>
    ensures answer { IfOk result (λ a. answer_of a ≡ cancel_refused (sender request.now.taken.now) message.now standing cause) }
    ensures quiet { IfOk result (λ a. (a.book ≡ []) × (a.delay ≡ [])) }
{
    let refused = ChangeRefused {
        standing,
        id: message.order_id,
        original_id: message.original_id,
        kind: ChangeKind::Cancel,
        cause,
    };
    change_refused(request, refused)
}

/// The report of a cancelled resting order.
fn cancel_reply(
    request: &Request<'_>,
    message: &OrderCancelRequest,
    order: Resting<'_>,
    report: u64,
) -> Reply
    requires { (seen order).entry.order.instrument < length request.now.turn.market.instruments.now }
    ensures { (m : Market) (h : History) → m.instruments ≡ request.now.turn.market.instruments.now → report ≡ h.reports + 1 → result ∷ [] ≡ (cancelled m h (sender request.now.taken.now) message.now (seen order.entry)).replies }
{
    let report = OrderReport {
        report,
        order: Some(order.entry.number),
        symbol: symbol_of(
            request.turn.market.instruments,
            order.entry.order.instrument,
        ),
        side: order.entry.order.side,
        left: Amount::new(0),
        filled: order.filled(),
        id: message.order_id,
    };
    let what = ReplyBody::OrderCancelled(ChangedReport {
        order: report,
        original_id: message.original_id,
    });
    Reply {
        to: request.taken.from,
        what,
    }
}

/// The report of a cancelled held side, which has no order number.
fn drop_reply(
    request: &Request<'_>,
    message: &OrderCancelRequest,
    side: &HeldSide,
    report: u64,
) -> Reply
    requires { side.now.order.instrument < length request.now.turn.market.instruments.now }
    ensures { (m : Market) (h : History) → m.instruments ≡ request.now.turn.market.instruments.now → report ≡ h.reports + 1 → result ∷ [] ≡ (held_cancelled m h (sender request.now.taken.now) message.now side.now).replies }
{
    let report = OrderReport {
        report,
        order: None,
        symbol: symbol_of(request.turn.market.instruments, side.order.instrument),
        side: side.order.side,
        left: Amount::new(0),
        filled: Amount::new(0),
        id: message.order_id,
    };
    let what = ReplyBody::OrderCancelled(ChangedReport {
        order: report,
        original_id: message.original_id,
    });
    Reply {
        to: request.taken.from,
        what,
    }
}

/// The answer to a cancel that names no resting order: a held side, or nothing.
fn plan_drop(
    request: &Request<'_>,
    book: &PriceBook,
    held: &mut Held,
    message: &OrderCancelRequest,
) -> Result<OrderAnswer, AllocError>
    requires number { AreCounts request.now.turn.counts }
    requires delay_listed { are_listed (length request.now.turn.market.instruments.now) held.old.facts ≡ true }
    requires unknown { find_order book.now.facts request.now.taken.now.from message.now.original_id ≡ None }
    ensures delay_kept { held.new.facts ≡ held.old.facts }
    ensures planned { IfOk result (λ a. (h : History) → IsRead h book.now.facts held.old.facts request.now.turn.counts → answer_of a ≡ answer_cancel (market_of request.now.turn.market) h (sender request.now.taken.now) message.now) }
    ensures made { IfOk result (λ a. IsMade (length request.now.turn.market.instruments.now) book.now held.new a) }
{
    parts_are_read_alone();
    let (alloc, who) = (request.turn.alloc, request.taken.from);
    let (id, original) = (&message.order_id, &message.original_id);
    let Some(side) = held.side(who, original) else {
        return cancel_refused(request, message, None, ChangeRefusal::UnknownOrder);
    };
    if is_used(book, held, who, id) {
        return cancel_refused(request, message, None, ChangeRefusal::DuplicateClOrdId);
    }
    let reply = drop_reply(request, message, side, request.turn.counts.reports + 1);
    let replies = vec![in alloc; reply]?;
    let plan = held.plan_drop(who, original, Some(id))?;
    let nothing = FillPlan::nothing(alloc);
    Ok(OrderAnswer::of(false, plan, nothing, replies))
}

/// The answer to a cancel; reserves memory for its plans.
pub fn plan_cancel(
    request: &Request<'_>,
    book: &mut PriceBook,
    held: &mut Held,
    message: &OrderCancelRequest,
) -> Result<OrderAnswer, AllocError>
    requires number { AreCounts request.now.turn.counts }
    requires book_listed { are_listed (length request.now.turn.market.instruments.now) book.old.facts ≡ true }
    requires delay_listed { are_listed (length request.now.turn.market.instruments.now) held.old.facts ≡ true }
    ensures book_kept { book.new.facts ≡ book.old.facts }
    ensures delay_kept { held.new.facts ≡ held.old.facts }
    ensures planned { IfOk result (λ a. (h : History) → IsRead h book.old.facts held.old.facts request.now.turn.counts → answer_of a ≡ answer_cancel (market_of request.now.turn.market) h (sender request.now.taken.now) message.now) }
    ensures made { IfOk result (λ a. IsMade (length request.now.turn.market.instruments.now) book.new held.new a) }
{
    parts_are_read_alone();
    let (alloc, who) = (request.turn.alloc, request.taken.from);
    let (id, original) = (&message.order_id, &message.original_id);
    let Some(order) = book.order(who, original) else {
        return plan_drop(request, book, held, message);
    };
    if is_used(book, held, who, id) {
        let named = Some(standing(order));
        return cancel_refused(request, message, named, ChangeRefusal::DuplicateClOrdId);
    }
    let reply = cancel_reply(request, message, order, request.turn.counts.reports + 1);
    let replies = vec![in alloc; reply]?;
    let number = order.entry.number;
    let plan = book.plan_cancel(who, number, id)?;
    let nothing = HoldPlan::nothing(alloc);
    Ok(OrderAnswer::of(false, nothing, plan, replies))
}
