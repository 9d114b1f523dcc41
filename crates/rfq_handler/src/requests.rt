//! QuoteRequest (R): sent to all its recipients in one answer (17 CFR 37.9(a)(3)).
ghost use Rattle.std.specs.Prelude.{◌≡◌, true, map, length, option_map, IfOk};
ghost use Rattle.venue_rules.specs.Facts.{History};
ghost use Rattle.venue_rules.specs.Requests.{answer_request, request_refused};
ghost use Rattle.rfq_room.specs.RoomStore.{are_listed};
ghost use Rattle.rfq_room.specs.RoomFacts.{room_facts};
ghost use Rattle.rfq_room.specs.Steps.{IsPlanOf};
ghost use Rattle.rfq_handler.specs.Known.{are_known};
ghost use Rattle.rfq_handler.specs.Read.{first_room};
ghost use Rattle.venue_rules.specs.Market.{market_of};
ghost use Rattle.venue_request.specs.Senders.{sender};
ghost use Rattle.rfq_handler.specs.Sent.{request_sent};

use crate::answer::RoomAnswer;
use crate::refusals::of_request;
use fix_dictionary::{Identifier, QuoteRequest};
use participants::Who;
use rfq_room::{RoomPlan, Rooms, rooms_decide};
use std::alloc::{AllocError, Global};
use venue_request::Request;
use venue_rules::{
    Fact, Reply, ReplyBody, RequestRefusal, RequestRefused, RequestSent, Room, symbol_of,
};

// The refusal of a request.
fn refused(
    request: &Request<'_>,
    message: &QuoteRequest,
    cause: RequestRefusal,
) -> Result<RoomAnswer, AllocError>
    ensures { IfOk result (λ a. a ≡ request_refused (sender request.now.taken.now) message.now cause) }
{
    let (alloc, to) = (request.turn.alloc, request.taken.from);
    let what = ReplyBody::RequestRefused(RequestRefused {
        id: message.request_id,
        symbol: message.symbol,
        cause,
    });
    let replies = vec![in alloc; Reply { to, what }]?;
    Ok(RoomAnswer::of(RoomPlan::nothing(alloc), replies, 0, 0))
}

// The request of a room, as sent to a recipient.
fn request_sent(room: &Room, symbol: &Identifier, to: Who) -> Reply
    ensures { result ≡ request_sent room.now symbol.now to }
{
    let what = ReplyBody::RequestSent(RequestSent {
        room: room.number,
        symbol: *symbol,
        side: room.side,
        quantity: room.quantity,
    });
    Reply { to, what }
}

// The request of a room, as sent to all its recipients.
fn sent_to_all(alloc: Global, room: &Room, symbol: &Identifier) -> Result<Vec<Reply>, AllocError>
    ensures { IfOk result (λ v. v.items ≡ map (request_sent room.now symbol.now) room.now.recipients) }
{
    let mut replies = Vec::new(alloc);
    for recipient in room.recipients.as_slice() {
        replies.push(request_sent(room, symbol, *recipient))?;
    }
    Ok(replies)
}

// The room that a plan opens, if any.
fn opened(plan: &RoomPlan) -> Option<&Room>
    ensures { option_map (λ r. r.now) result ≡ first_room plan.now.facts }
{
    match plan.facts().first() {
        Some(Fact::Asked(room)) => Some(room),
        _ => None,
    }
}

/// The answer to a request for quotes; reserves memory for its plan.
pub fn plan_request(
    request: &Request<'_>,
    rooms: &mut Rooms,
    message: &QuoteRequest,
) -> Result<RoomAnswer, AllocError>
    ensures kept { rooms.new.facts ≡ rooms.old.facts }
    ensures planned { IfOk result (λ a. (h : History) → room_facts h.facts ≡ rooms.old.facts → a ≡ answer_request (market_of request.now.turn.market) h (sender request.now.taken.now) message.now request.now.turn.moment) }
    ensures made { IfOk result (λ a. IsPlanOf rooms.new a.facts) }
    ensures listed { IfOk result (λ a. are_listed (length request.now.turn.market.instruments.now) a.facts ≡ true) }
    ensures known { IfOk result (λ a. are_known (length request.now.turn.market.participants.now.names) a.facts ≡ true) }
{
    rooms_decide();
    let (market, who) = (request.turn.market, request.taken.from);
    match rooms.plan_ask(market, who, message, request.turn.moment) {
        Ok(plan) => {
            let room = opened(&plan).unwrap();
            let symbol = symbol_of(market.instruments, room.instrument);
            let replies = sent_to_all(request.turn.alloc, room, &symbol)?;
            Ok(RoomAnswer::of(plan, replies, 0, 0))
        }
        Err(refusal) => match of_request(refusal.cause()) {
            Some(cause) => refused(request, message, cause),
            None => Err(AllocError),
        },
    }
}
