//! QuoteCancel (Z): the withdrawal of a quote, reported to its maker and to its requester.
ghost use Rattle.std.specs.Prelude.{◌≡◌, ◌++◌, ℕ, List, [], Some, true, length, flat_map, IfOk};
ghost use Rattle.venue_rules.specs.declared.facts.RoomQuote.{RoomQuote as RoomQuoteValue};
ghost use Rattle.venue_rules.specs.Facts.{History};
ghost use Rattle.venue_rules.specs.Market.{Market, market_of};
ghost use Rattle.venue_rules.specs.Withdrawals.{answer_withdrawal};
ghost use Rattle.rfq_room.specs.Causes.{withdrawal_id};
ghost use Rattle.rfq_room.specs.RoomStore.{are_listed};
ghost use Rattle.rfq_room.specs.RoomFacts.{room_facts};
ghost use Rattle.rfq_room.specs.Steps.{IsPlanOf};
ghost use Rattle.rfq_room.specs.Emitted.{withdrawal_emitted};
ghost use Rattle.rfq_handler.specs.Known.{are_known};
ghost use Rattle.venue_request.specs.Senders.{sender};
ghost use Rattle.rfq_handler.specs.Sent.{both_emitted, named_status, to_maker, to_requester};

use crate::answer::RoomAnswer;
use crate::business_reject::business_reject;
use crate::refusals::of_withdrawal;
use fix_dictionary::{Identifier, QuoteCancel};
use instruments::Instruments;
use rfq_room::{RoomPlan, Rooms, WithdrawalRefusal, rooms_decide};
use std::alloc::{AllocError, Global};
use venue_request::Request;
use venue_rules::{
    BusinessRefusal, QuoteState, QuoteStatus, Reply, ReplyBody, Room, RoomQuote,
    printed_identifier, symbol_of,
};

/// The status of a quote to its maker: by the maker's identifier of the quote, and the venue's of the room.
pub(crate) fn to_maker(
    room: &Room,
    symbol: &Identifier,
    quote: &RoomQuote,
    state: QuoteState,
) -> Reply
    ensures { result ≡ to_maker room.now symbol.now quote.now state }
{
    let what = ReplyBody::QuoteStatus(QuoteStatus {
        quote_id: Some(quote.id),
        request_id: Some(printed_identifier(b'R', room.number)),
        response_id: None,
        symbol: Some(*symbol),
        state,
    });
    Reply {
        to: quote.maker,
        what,
    }
}

// The status to the requester: by the venue's identifier of the quote, and the requester's of the request.
fn to_requester(room: &Room, symbol: &Identifier, quote: &RoomQuote, state: QuoteState) -> Reply
    ensures { result ≡ to_requester room.now symbol.now quote.now state }
{
    let what = ReplyBody::QuoteStatus(QuoteStatus {
        quote_id: Some(printed_identifier(b'Q', quote.number)),
        request_id: Some(room.id),
        response_id: None,
        symbol: Some(*symbol),
        state,
    });
    Reply {
        to: room.requester,
        what,
    }
}

// Reports the withdrawal of a quote to its maker and to the requester.
#[tactic(auto, using(crate::proofs::Withdrawing::tellings))]
fn notify_both(
    instruments: &Instruments,
    rooms: &Rooms,
    quote: &RoomQuote,
    replies: &mut Vec<Reply>,
) -> Result<(), AllocError>
    requires { are_listed (length instruments.now) rooms.now.facts ≡ true }
    ensures { IfOk result (λ _. replies.new.items ≡ replies.old.items ++ both_emitted instruments.now rooms.now.facts quote.now) }
{
    let Some(room) = rooms.room(quote.room) else {
        return Ok(());
    };
    let symbol = symbol_of(instruments, room.instrument);
    replies.push(to_maker(room, &symbol, quote, QuoteState::Withdrawn))?;
    replies.push(to_requester(room, &symbol, quote, QuoteState::Withdrawn))?;
    Ok(())
}

// Reports the withdrawals of quotes to their makers and requesters.
fn notify_all(
    alloc: Global,
    instruments: &Instruments,
    rooms: &Rooms,
    quotes: &[RoomQuote],
) -> Result<Vec<Reply>, AllocError>
    requires { are_listed (length instruments.now) rooms.now.facts ≡ true }
    ensures { IfOk result (λ v. v.items ≡ flat_map (both_emitted instruments.now rooms.now.facts) quotes.now) }
{
    let mut replies = Vec::new(alloc);
    for quote in quotes {
        notify_both(instruments, rooms, quote, &mut replies)?;
    }
    Ok(replies)
}

// A report that names the quote as the message did, if it did.
fn status(
    request: &Request<'_>,
    quote_id: Option<Identifier>,
    state: QuoteState,
) -> Result<RoomAnswer, AllocError>
    ensures { IfOk result (λ a. a ≡ named_status request.now.taken.now.from quote_id state) }
{
    let (alloc, to) = (request.turn.alloc, request.taken.from);
    let what = ReplyBody::QuoteStatus(QuoteStatus {
        quote_id,
        request_id: None,
        response_id: None,
        symbol: None,
        state,
    });
    let replies = vec![in alloc; Reply { to, what }]?;
    Ok(RoomAnswer::of(RoomPlan::nothing(alloc), replies, 0, 0))
}

// The identifier that a withdrawal of one quote names (QuoteCancelType, 298, is 5).
fn named(message: &QuoteCancel) -> Option<Identifier>
    ensures { result ≡ withdrawal_id message.now }
{
    if message.cancel_type.get() == 5 {
        message.quote_id
    } else {
        None
    }
}

// The refusal of a withdrawal.
fn refused(
    request: &Request<'_>,
    message: &QuoteCancel,
    cause: WithdrawalRefusal,
) -> Result<RoomAnswer, AllocError>
    ensures quiet { IfOk result (λ a. a.facts ≡ []) }
    ensures emitted { IfOk result (λ a. (m : Market) (h : History) (qs : List RoomQuoteValue) → a ≡ withdrawal_emitted m h (sender request.now.taken.now) message.now qs (Some cause)) }
{
    match cause {
        WithdrawalRefusal::QuoteMissing => {
            business_reject(request, BusinessRefusal::QuoteMissing)
        }
        WithdrawalRefusal::NotFound => status(request, named(message), QuoteState::NotFound),
        WithdrawalRefusal::Unsupported => {
            status(request, message.quote_id, QuoteState::CancelUnsupported)
        }
    }
}

/// The answer to a withdrawal of quotes; reserves memory for its plan.
pub fn plan_withdrawal(
    request: &Request<'_>,
    rooms: &mut Rooms,
    message: &QuoteCancel,
) -> Result<RoomAnswer, AllocError>
    requires { are_listed (length request.now.turn.market.instruments.now) rooms.old.facts ≡ true }
    ensures kept { rooms.new.facts ≡ rooms.old.facts }
    ensures planned { IfOk result (λ a. (h : History) → room_facts h.facts ≡ rooms.old.facts → a ≡ answer_withdrawal (market_of request.now.turn.market) h (sender request.now.taken.now) message.now request.now.turn.moment) }
    ensures made { IfOk result (λ a. IsPlanOf rooms.new a.facts) }
    ensures listed { IfOk result (λ a. (count : ℕ) → are_listed count a.facts ≡ true) }
    ensures known { IfOk result (λ a. (count : ℕ) → are_known count a.facts ≡ true) }
{
    rooms_decide();
    let (alloc, instruments) = (request.turn.alloc, request.turn.market.instruments);
    match rooms.plan_withdraw(request.taken.from, message, request.turn.moment) {
        Ok(plan) => {
            let replies = notify_all(alloc, instruments, rooms, plan.quotes())?;
            Ok(RoomAnswer::of(plan, replies, 0, 0))
        }
        Err(refusal) => match of_withdrawal(refusal.cause()) {
            Some(cause) => refused(request, message, cause),
            None => Err(AllocError),
        },
    }
}
