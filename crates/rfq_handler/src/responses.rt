//! QuoteResponse (AJ): a hit, which is a trade and closes the room (17 CFR 37.9(a)(2), (a)(3)), or a pass.
ghost use Rattle.std.specs.Prelude.{◌≡◌, ◌<◌, ◌≤◌, ℕ, ◌+◌, [], ◌∷◌, true, length, option_map, IfOk, IfSome, IsSome};
ghost use Rattle.venue_rules.specs.Answer.{answers};
ghost use Rattle.venue_rules.specs.Facts.{History, trades};
ghost use Rattle.venue_rules.specs.Responses.{answer_response, response_status};
ghost use Rattle.rfq_room.specs.RoomStore.{are_listed};
ghost use Rattle.rfq_room.specs.Named.{quote_room};
ghost use Rattle.rfq_room.specs.RoomFacts.{room_facts};
ghost use Rattle.rfq_room.specs.Steps.{IsPlanOf};
ghost use Rattle.rfq_room.specs.Emitted.{response_refused};
ghost use Rattle.rfq_handler.specs.Counting.{trades_in};
ghost use Rattle.rfq_handler.specs.Known.{are_known};
ghost use Rattle.rfq_handler.specs.Read.{first_answered, quote_at};
ghost use Rattle.rfq_handler.specs.Responded.{IsAnswerTo, IsResponseEmitted, notify_hit, hits, is_own_room, pass_emitted, refused_state, response_replies};
ghost use Rattle.venue_request.specs.Counting.{AreCounts};
ghost use Rattle.venue_rules.specs.Market.{market_of};
ghost use Rattle.venue_request.specs.Senders.{sender};
ghost use Rattle.rfq_handler.specs.Sent.{other_side, symbol_in, traded_report};

use crate::answer::RoomAnswer;
use crate::business_reject::business_reject;
use crate::listing::symbol_in;
use crate::refusals::of_response;
use crate::withdrawals::to_maker;
use fix_dictionary::{Identifier, QuoteResponse};
use participants::Who;
use rfq_room::{Hit, ResponseCause, RoomPlan, Rooms, rooms_decide};
use std::alloc::{AllocError, Global};
use venue_request::Request;
use venue_rules::{
    BusinessRefusal, Fact, QuoteState, QuoteStatus, Reply, ReplyBody, ResponseRefusal, Room,
    RoomQuote, RoomReport, TradeSource, opposite, symbol_of,
};

// The requester's identifier of a room's request, if any.
fn request_in(room: Option<&Room>) -> Option<Identifier>
    ensures { result ≡ option_map (λ r. r.id) (option_map (λ r. r.now) room.entry) }
{
    match room {
        Some(room) => Some(room.id),
        None => None,
    }
}

// The status to the sender: quote and response identifiers as sent, and of a room of its own the request and the
// instrument.
fn status(
    request: &Request<'_>,
    response: &QuoteResponse,
    room: Option<&Room>,
    state: QuoteState,
) -> Reply
    requires { IfSome room (λ r. r.now.instrument < length request.now.turn.market.instruments.now) }
    ensures { result ≡ response_status (sender request.now.taken.now) response.now (option_map (λ r. r.id) (option_map (λ r. r.now) room.entry)) (symbol_in request.now.turn.market.instruments.now (option_map (λ r. r.now) room.entry)) state }
{
    let what = ReplyBody::QuoteStatus(QuoteStatus {
        quote_id: Some(response.quote_id),
        request_id: request_in(room),
        response_id: Some(response.response_id),
        symbol: symbol_in(request.turn.market.instruments, room),
        state,
    });
    Reply {
        to: request.taken.from,
        what,
    }
}

// A status to the sender alone.
fn emitted(
    request: &Request<'_>,
    response: &QuoteResponse,
    room: Option<&Room>,
    state: QuoteState,
) -> Result<RoomAnswer, AllocError>
    requires { IfSome room (λ r. r.now.instrument < length request.now.turn.market.instruments.now) }
    ensures { IfOk result (λ a. a ≡ answers (response_status (sender request.now.taken.now) response.now (option_map (λ r. r.id) (option_map (λ r. r.now) room.entry)) (symbol_in request.now.turn.market.instruments.now (option_map (λ r. r.now) room.entry)) state ∷ [])) }
{
    let alloc = request.turn.alloc;
    let reply = status(request, response, room, state);
    let replies = vec![in alloc; reply]?;
    Ok(RoomAnswer::of(RoomPlan::nothing(alloc), replies, 0, 0))
}

// The state in the status of a refused response; none where the message is not processed.
fn refused_state(cause: ResponseCause) -> Option<QuoteState>
    ensures { result ≡ refused_state cause }
{
    match cause {
        ResponseCause::SideMissing => None,
        ResponseCause::Unsupported => {
            Some(QuoteState::ResponseRefused(ResponseRefusal::UnsupportedResponse))
        }
        ResponseCause::UnknownQuote => Some(QuoteState::NotFound),
        ResponseCause::NotYours => Some(QuoteState::ResponseRefused(ResponseRefusal::NotYours)),
        ResponseCause::Over => Some(QuoteState::NotFound),
        ResponseCause::Withdrawn => Some(QuoteState::Withdrawn),
        ResponseCause::Expired => Some(QuoteState::Expired),
        ResponseCause::OtherSide => Some(QuoteState::ResponseRefused(ResponseRefusal::Side)),
        ResponseCause::NoPrice => Some(QuoteState::ResponseRefused(ResponseRefusal::InvalidPrice)),
    }
}

// Whether this cause holds only once the room is known to be the sender's own.
fn is_own_room(cause: ResponseCause) -> bool
    ensures { result ≡ is_own_room cause }
{
    match cause {
        ResponseCause::Unsupported | ResponseCause::UnknownQuote | ResponseCause::NotYours => false,
        ResponseCause::Over
        | ResponseCause::Withdrawn
        | ResponseCause::Expired
        | ResponseCause::OtherSide
        | ResponseCause::SideMissing
        | ResponseCause::NoPrice => true,
    }
}

fn both(alloc: Global, first: Reply, second: Reply) -> Result<Vec<Reply>, AllocError>
    ensures { IfOk result (λ v. v.items ≡ first ∷ second ∷ []) }
{
    let mut replies = vec![in alloc; first]?;
    replies.push(second)?;
    Ok(replies)
}

// The refusal of a response; the quote's room is looked up and named only once it is known to be the sender's own.
fn refused(
    request: &Request<'_>,
    rooms: &Rooms,
    response: &QuoteResponse,
    cause: ResponseCause,
) -> Result<RoomAnswer, AllocError>
    requires { are_listed (length request.now.turn.market.instruments.now) rooms.now.facts ≡ true }
    ensures quiet { IfOk result (λ a. a.facts ≡ []) }
    ensures emitted { IfOk result (λ a. a ≡ response_refused (market_of request.now.turn.market) (sender request.now.taken.now) response.now (quote_room rooms.now.facts response.now.quote_id) cause) }
{
    let Some(state) = refused_state(cause) else {
        return business_reject(request, BusinessRefusal::SideMissing);
    };
    if !is_own_room(cause) {
        return emitted(request, response, None, state);
    }
    let room = rooms.quote_room(&response.quote_id);
    emitted(request, response, room, state)
}

// The statuses of a pass, to the sender and to the maker.
#[tactic(auto, unfolding(crate::specs::Responded::pass_emitted))]
fn passed(
    request: &Request<'_>,
    response: &QuoteResponse,
    room: &Room,
    quote: &RoomQuote,
) -> Result<Vec<Reply>, AllocError>
    requires { room.now.instrument < length request.now.turn.market.instruments.now }
    ensures { IfOk result (λ v. v.items ≡ pass_emitted request.now.turn.market.instruments.now (sender request.now.taken.now) response.now room.now quote.now) }
{
    let symbol = symbol_of(request.turn.market.instruments, room.instrument);
    let own = status(request, response, Some(room), QuoteState::Passed);
    let makers = to_maker(room, &symbol, quote, QuoteState::Passed);
    both(request.turn.alloc, own, makers)
}

// The hit from the maker's side.
fn other_side(hit: &Hit) -> Hit
    ensures { result ≡ other_side hit.now }
{
    Hit {
        side: opposite(hit.side),
        price: hit.price,
    }
}

// A side of a trade in a room: whose it is, the hit from there, and the response that it sent.
#[derive(Clone, Copy)]
struct TradeSide {
    to: Who,
    hit: Hit,
    response_id: Option<Identifier>,
}

// The report of a trade in a room to one of its sides.
fn traded_report(
    room: &Room,
    symbol: &Identifier,
    trade: u64,
    side: &TradeSide,
    report: u64,
) -> Reply
    ensures { result ≡ traded_report room.now symbol.now trade side.now.to side.now.hit side.now.response_id report }
{
    let what = ReplyBody::RoomTraded(RoomReport {
        report,
        room: room.number,
        symbol: *symbol,
        side: side.hit.side,
        quantity: room.quantity,
        price: side.hit.price,
        trade,
        response_id: side.response_id,
    });
    Reply { to: side.to, what }
}

// The reports of a hit: to the requester, then to the maker.
#[tactic(auto, unfolding(crate::specs::Responded::notify_hit))]
fn notify_hit(
    request: &Request<'_>,
    response: &QuoteResponse,
    room: &Room,
    maker: Who,
    hit: Hit,
) -> Result<Vec<Reply>, AllocError>
    requires listed { room.now.instrument < length request.now.turn.market.instruments.now }
    requires number { AreCounts request.now.turn.counts }
    ensures { IfOk result (λ v. v.items ≡ notify_hit request.now.turn.market.instruments.now room.now (request.now.turn.counts.trades + 1) request.now.taken.now.from maker hit response.now request.now.turn.counts.reports) }
{
    let (trade, reports) = (request.turn.counts.trades + 1, request.turn.counts.reports);
    let symbol = symbol_of(request.turn.market.instruments, room.instrument);
    let other = other_side(&hit);
    let requesters = TradeSide {
        to: request.taken.from,
        hit,
        response_id: Some(response.response_id),
    };
    let makers = TradeSide {
        to: maker,
        hit: other,
        response_id: None,
    };
    let first = traded_report(room, &symbol, trade, &requesters, reports + 1);
    let second = traded_report(room, &symbol, trade, &makers, reports + 1 + 1);
    both(request.turn.alloc, first, second)
}

// The replies to a pass, or to this hit.
#[tactic(auto, unfolding(crate::specs::Responded::response_replies))]
fn answered(
    request: &Request<'_>,
    response: &QuoteResponse,
    room: &Room,
    quote: &RoomQuote,
    hit: Option<Hit>,
) -> Result<Vec<Reply>, AllocError>
    requires listed { room.now.instrument < length request.now.turn.market.instruments.now }
    requires number { AreCounts request.now.turn.counts }
    ensures { IfOk result (λ v. v.items ≡ response_replies request.now.turn.market.instruments.now request.now.turn.counts.reports request.now.turn.counts.trades (sender request.now.taken.now) response.now room.now quote.now hit) }
{
    let Some(hit) = hit else {
        return passed(request, response, room, quote);
    };
    notify_hit(request, response, room, quote.maker, hit)
}

// The number of trades in a plan.
fn trades_of(plan: &RoomPlan) -> u64
    ensures value { result ≡ hits plan.now.hit }
    ensures few { result ≤ 1 }
{
    match plan.hit() {
        Some(_) => 1,
        None => 0,
    }
}

// The answer to an accepted response, to a quote in a room.
fn accepted_in(
    request: &Request<'_>,
    response: &QuoteResponse,
    room: &Room,
    quote: &RoomQuote,
    plan: RoomPlan,
) -> Result<RoomAnswer, AllocError>
    requires listed { room.now.instrument < length request.now.turn.market.instruments.now }
    requires number { AreCounts request.now.turn.counts }
    requires trade { trades_in plan.facts ≡ hits plan.hit }
    ensures facts { IfOk result (λ a. a.facts ≡ plan.facts) }
    ensures emitted { IfOk result (λ a. a.replies ≡ response_replies request.now.turn.market.instruments.now request.now.turn.counts.reports request.now.turn.counts.trades (sender request.now.taken.now) response.now room.now quote.now plan.hit) }
{
    let replies = answered(request, response, room, quote, plan.hit())?;
    let trades = trades_of(&plan);
    Ok(RoomAnswer::of(plan, replies, 2 * trades, trades))
}

// The number of the quote that trades, for a trade in a room.
fn quote_at(place: &TradeSource) -> Option<u64>
    ensures { result ≡ quote_at place.now }
{
    match place {
        TradeSource::Book(_, _) => None,
        TradeSource::Room(_, quote) => Some(*quote),
    }
}

// The number of the quote that a plan passes or hits.
fn answered_quote(plan: &RoomPlan) -> Option<u64>
    ensures { result ≡ first_answered plan.now.facts }
{
    match plan.facts().first() {
        Some(Fact::Withdrawn(withdrawal)) => Some(withdrawal.quote),
        Some(Fact::Traded(trade)) => quote_at(&trade.place),
        _ => None,
    }
}

// The answer to an accepted response, by the quote that the plan passes or hits and its room.
fn accepted(
    request: &Request<'_>,
    rooms: &Rooms,
    response: &QuoteResponse,
    plan: RoomPlan,
) -> Result<RoomAnswer, AllocError>
    requires listed { are_listed (length request.now.turn.market.instruments.now) rooms.now.facts ≡ true }
    requires number { AreCounts request.now.turn.counts }
    requires quote { IsAnswerTo rooms.now.facts response.now.quote_id plan.facts }
    requires room { IsSome (quote_room rooms.now.facts response.now.quote_id) }
    requires trade { trades_in plan.facts ≡ hits plan.hit }
    ensures facts { IfOk result (λ a. a.facts ≡ plan.facts) }
    ensures emitted { IfOk result (λ a. IsResponseEmitted request.now.turn.market.instruments.now rooms.now.facts request.now.turn.counts.reports request.now.turn.counts.trades (sender request.now.taken.now) response.now plan.hit a.replies) }
{
    let number = answered_quote(&plan).unwrap();
    let quote = rooms.quote(number).unwrap();
    let room = rooms.room(quote.room).unwrap();
    accepted_in(request, response, room, quote, plan)
}

/// The answer to a quote response; reserves memory for its plan.
pub fn plan_response(
    request: &Request<'_>,
    rooms: &mut Rooms,
    response: &QuoteResponse,
) -> Result<RoomAnswer, AllocError>
    requires listed { are_listed (length request.now.turn.market.instruments.now) rooms.old.facts ≡ true }
    requires number { AreCounts request.now.turn.counts }
    ensures kept { rooms.new.facts ≡ rooms.old.facts }
    ensures planned { IfOk result (λ a. (h : History) → room_facts h.facts ≡ rooms.old.facts → h.reports ≡ request.now.turn.counts.reports → length (trades h.facts) ≡ request.now.turn.counts.trades → a ≡ answer_response (market_of request.now.turn.market) h (sender request.now.taken.now) response.now request.now.turn.moment) }
    ensures made { IfOk result (λ a. IsPlanOf rooms.new a.facts) }
    ensures listed { IfOk result (λ a. (count : ℕ) → are_listed count a.facts ≡ true) }
    ensures known { IfOk result (λ a. (count : ℕ) → are_known count a.facts ≡ true) }
{
    rooms_decide();
    match rooms.plan_answer(request.taken.from, response, request.turn.moment) {
        Ok(plan) => accepted(request, rooms, response, plan),
        Err(refusal) => match of_response(refusal.cause()) {
            Some(cause) => refused(request, rooms, response, cause),
            None => Err(AllocError),
        },
    }
}
