//! QuoteResponse (AJ): responses to a quote.
ghost use Rattle.std.specs.Prelude.{◌≡◌, IfOk, IfErr};
ghost use Rattle.venue_rules.specs.Responses.{hit_trade, is_other_side, price_for, taken_side};
ghost use Rattle.rfq_room.specs.Causes.{decide, decide_room, hit_on, is_supported, refused_by};
ghost use Rattle.rfq_room.specs.Plans.{IsResponsePlan, IsResponsePlanned, hit_plan, pass_plan, sender};
ghost use Rattle.rfq_room.specs.Refusals.{IsResponseRefused};

use crate::decision::{Decision, Hit};
use crate::plan::RoomPlan;
use crate::refusal::{Refusal, ResponseCause, response_refusal};
use crate::room_store::RoomStore;
use crate::withdrawing::withdrawn;
use fix_dictionary::{Price, QuoteResponse, Side};
use participants::Who;
use sef_moment::Moment;
use std::alloc::{AllocError, Global};
use venue_rules::{Closing, Fact, Room, RoomQuote, Trade, TradeSource, buyer};

// QuoteRespType (694) is 1, a hit, or 6, a pass.
fn is_supported(response: &QuoteResponse) -> bool
    ensures { result ≡ is_supported response.now }
{
    response.response_type.get() == 1 || response.response_type.get() == 6
}

// Whether the response names the side that was not asked for.
fn is_other_side(asked: Option<Side>, given: Option<Side>) -> bool
    ensures { result ≡ is_other_side asked given }
{
    match (asked, given) {
        (Some(Side::Buy), Some(Side::Sell)) | (Some(Side::Sell), Some(Side::Buy)) => true,
        _ => false,
    }
}

// The side asked for, or the one that the response names where both were.
fn taken_side(asked: Option<Side>, given: Option<Side>) -> Option<Side>
    ensures { result ≡ taken_side asked given }
{
    match asked {
        Some(asked) => Some(asked),
        None => given,
    }
}

// A buyer takes the offer, a seller the bid.
fn price_for(side: Side, quote: &RoomQuote) -> Option<Price>
    ensures { result ≡ price_for side quote.now }
{
    match side {
        Side::Buy => quote.offer,
        Side::Sell => quote.bid,
    }
}

// A hit, by the requester's side.
fn hit_on(quote: &RoomQuote, side: Option<Side>) -> Decision
    ensures { result ≡ hit_on quote.now side }
{
    let Some(side) = side else {
        return Decision::Refuse(ResponseCause::SideMissing);
    };
    match price_for(side, quote) {
        Some(price) => Decision::Trade(Hit { side, price }),
        None => Decision::Refuse(ResponseCause::NoPrice),
    }
}

// The decision on a response to a quote in a room.
fn decide_room(
    kept: &RoomStore,
    who: Who,
    room: &Room,
    quote: &RoomQuote,
    response: &QuoteResponse,
    moment: Moment,
) -> Decision
    ensures { result ≡ decide_room kept.now.facts who room.now quote.now response.now moment }
{
    let known_flags = kept.known_flags();
    if room.requester.place() != who.place() {
        return Decision::Refuse(ResponseCause::NotYours);
    }
    if known_flags.is_closed(room.number) || known_flags.is_replaced(quote) {
        return Decision::Refuse(ResponseCause::Over);
    }
    if known_flags.is_withdrawn(quote.number) {
        return Decision::Refuse(ResponseCause::Withdrawn);
    }
    if quote.end.ms() < moment.ms() {
        return Decision::Refuse(ResponseCause::Expired);
    }
    if response.response_type.get() == 6 {
        return Decision::Pass;
    }
    if is_other_side(room.side, response.side) {
        return Decision::Refuse(ResponseCause::OtherSide);
    }
    hit_on(quote, taken_side(room.side, response.side))
}

// The trade of a hit: the requested quantity, at the quote's price.
fn hit_trade(
    who: Who,
    room: &Room,
    quote: &RoomQuote,
    side: Side,
    price: Price,
    moment: Moment,
) -> Trade
    ensures { result ≡ hit_trade (sender who) room.now quote.now side price moment }
{
    Trade {
        instrument: room.instrument,
        quantity: room.quantity,
        price,
        buyer: buyer(side, who, quote.maker),
        seller: buyer(side, quote.maker, who),
        place: TradeSource::Room(room.number, quote.number),
        moment,
    }
}

// The plan of a pass: the quote counts as withdrawn.
fn draft_pass(alloc: Global, quote: &RoomQuote) -> Result<RoomPlan, AllocError>
    ensures { IfOk result (λ p. p ≡ pass_plan quote.now) }
{
    let facts = vec![in alloc; withdrawn(quote)]?;
    Ok(RoomPlan::of(facts, Vec::new(alloc), None))
}

// The plan of a hit: a trade, which closes the room.
fn draft_hit(
    alloc: Global,
    who: Who,
    room: &Room,
    quote: &RoomQuote,
    hit: Hit,
    moment: Moment,
) -> Result<RoomPlan, AllocError>
    ensures { IfOk result (λ p. p ≡ hit_plan who moment quote.now room.now hit) }
{
    let trade = hit_trade(who, room, quote, hit.side, hit.price, moment);
    let closing = Closing { room: room.number };
    let facts = vec![in alloc; Fact::Traded(trade), Fact::Closed(closing)]?;
    Ok(RoomPlan::of(facts, Vec::new(alloc), Some(hit)))
}

// The plan of a decision.
fn draft_decided(
    alloc: Global,
    who: Who,
    room: &Room,
    quote: &RoomQuote,
    moment: Moment,
    decision: Decision,
) -> Result<RoomPlan, Refusal>
    ensures planned { IfOk result (IsResponsePlan who moment quote.now room.now decision) }
    ensures refused { IfErr result (IsResponseRefused (refused_by decision)) }
{
    let plan = match decision {
        Decision::Refuse(cause) => return Err(response_refusal(cause)),
        Decision::Pass => draft_pass(alloc, quote),
        Decision::Trade(hit) => draft_hit(alloc, who, room, quote, hit, moment),
    };
    match plan {
        Ok(plan) => Ok(plan),
        Err(_) => Err(Refusal::NoMemory),
    }
}

/// The plan of a quote response, before memory is reserved for it.
pub(crate) fn draft_answer(
    alloc: Global,
    kept: &RoomStore,
    who: Who,
    response: &QuoteResponse,
    moment: Moment,
) -> Result<RoomPlan, Refusal>
    ensures planned { IfOk result (IsResponsePlanned kept.now.facts who response.now moment (decide kept.now.facts who response.now moment)) }
    ensures refused { IfErr result (IsResponseRefused (refused_by (decide kept.now.facts who response.now moment))) }
{
    if !is_supported(response) {
        return Err(response_refusal(ResponseCause::Unsupported));
    }
    let Some(quote) = kept.find_quote(&response.quote_id) else {
        return Err(response_refusal(ResponseCause::UnknownQuote));
    };
    let Some(room) = kept.room(quote.room) else {
        return Err(response_refusal(ResponseCause::UnknownQuote));
    };
    let decision = decide_room(kept, who, room, quote, response, moment);
    draft_decided(alloc, who, room, quote, moment, decision)
}
