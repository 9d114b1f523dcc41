//! QuoteRequest (R): requests for quotes.
ghost use Rattle.std.specs.Prelude.{◌≡◌, ◌<◌, length, None, Some, is_none, IfOk, IfErr};
ghost use Rattle.std.specs.List.{list_any};
ghost use Rattle.rfq_room.specs.Refusals.{IsRequestRefused};
ghost use Rattle.rfq_room.specs.Views.{first_cause, places_of, recipients_of};
ghost use Rattle.instruments.specs.Listing.{instrument_of};
ghost use Rattle.rfq_room.specs.Causes.{recipient_causes, request_cause};
ghost use Rattle.rfq_room.specs.Plans.{request_plan, room_asked};
ghost use Rattle.venue_rules.specs.Market.{market_of};

use crate::plan::RoomPlan;
use crate::recipients::{has_twice, has_unknown, is_among, recipients};
use crate::refusal::{Refusal, request_refusal};
use crate::room_store::RoomStore;
use fix_dictionary::QuoteRequest;
use participants::Who;
use sef_moment::Moment;
use std::alloc::Global;
use venue_rules::{Fact, Market, Recipients, RequestRefusal, Room, instrument_of, is_below_least};

const MAX_RECIPIENTS: usize = 12;

const MAX_OPEN_ROOMS: usize = 1_000;

// Causes that refuse a request whose instrument and quantity are accepted.
fn recipients_cause(
    market: Market<'_>,
    kept: &RoomStore,
    who: Who,
    request: &QuoteRequest,
    recipients: &[Who],
    unknown: bool,
    moment: Moment,
) -> Option<RequestRefusal>
    requires recipients { recipients.now ≡ recipients_of market.participants.now request.now.parties }
    requires unknown { unknown ≡ list_any is_none (places_of market.participants.now request.now.parties) }
    ensures { result ≡ first_cause (recipient_causes (market_of market.entry) kept.now.facts who request.now moment) }
{
    if unknown {
        return Some(RequestRefusal::UnknownParticipant);
    }
    if is_among(recipients, who) {
        return Some(RequestRefusal::RequesterAmongRecipients);
    }
    if has_twice(recipients) {
        return Some(RequestRefusal::RecipientTwice);
    }
    if MAX_RECIPIENTS < recipients.len() {
        return Some(RequestRefusal::TooManyRecipients);
    }
    if recipients.len() < 3 {
        return Some(RequestRefusal::TooFewRecipients);
    }
    if !market.participants.three_unrelated(who, recipients) {
        return Some(RequestRefusal::RecipientsNotUnrelated);
    }
    if MAX_OPEN_ROOMS <= kept.count_open(moment) {
        return Some(RequestRefusal::TooManyRequests);
    }
    None
}

/// The instrument of a request, by its place in the file, or the cause that refuses the request.
fn instrument_asked(
    market: Market<'_>,
    kept: &RoomStore,
    who: Who,
    request: &QuoteRequest,
    recipients: &[Who],
    unknown: bool,
    moment: Moment,
) -> Result<u32, RequestRefusal>
    requires recipients { recipients.now ≡ recipients_of market.participants.now request.now.parties }
    requires unknown { unknown ≡ list_any is_none (places_of market.participants.now request.now.parties) }
    ensures free { IfOk result (λ x. request_cause (market_of market.entry) kept.now.facts who request.now moment ≡ None) }
    ensures value { IfOk result (λ x. x ≡ instrument_of market.entry.instruments.now request.now.symbol) }
    ensures listed { IfOk result (λ x. x < length market.entry.instruments.now) }
    ensures refused { IfErr result (λ cause. request_cause (market_of market.entry) kept.now.facts who request.now moment ≡ Some cause) }
{
    if kept
        .known_flags()
        .is_request_id_used(who, &request.request_id)
    {
        return Err(RequestRefusal::DuplicateRequest);
    }
    let Some(instrument) = instrument_of(market.instruments, &request.symbol) else {
        return Err(RequestRefusal::UnknownInstrument);
    };
    if is_below_least(market.instruments, instrument, request.quantity) {
        return Err(RequestRefusal::QuantityBelowLeast);
    }
    match recipients_cause(market, kept, who, request, recipients, unknown, moment) {
        Some(cause) => Err(cause),
        None => Ok(instrument),
    }
}

/// The room that a request opens.
fn room_asked(
    market: Market<'_>,
    kept: &RoomStore,
    who: Who,
    request: &QuoteRequest,
    instrument: u32,
    recipients: Vec<Who>,
    moment: Moment,
) -> Room
    requires value { instrument ≡ instrument_of market.instruments.now request.now.symbol }
    requires listed { instrument < length market.instruments.now }
    requires recipients { recipients.items ≡ recipients_of market.participants.now request.now.parties }
    ensures { result ≡ room_asked (market_of market.entry) kept.now.facts who request.now moment }
{
    let life = 1_000 * market.instruments.get(instrument).request_life;
    Room {
        number: kept.next_room(),
        requester: who,
        id: request.request_id,
        instrument,
        side: request.side,
        quantity: request.quantity,
        recipients: Recipients::from_vec(recipients),
        end: moment.plus(life),
    }
}

/// The plan of a request, before memory is reserved for it.
pub(crate) fn draft_ask(
    alloc: Global,
    market: Market<'_>,
    kept: &RoomStore,
    who: Who,
    request: &QuoteRequest,
    moment: Moment,
) -> Result<RoomPlan, Refusal>
    ensures planned { IfOk result (λ p. (request_cause (market_of market.entry) kept.now.facts who request.now moment ≡ None) × (p ≡ request_plan (room_asked (market_of market.entry) kept.now.facts who request.now moment))) }
    ensures refused { IfErr result (IsRequestRefused (request_cause (market_of market.entry) kept.now.facts who request.now moment)) }
{
    let parties = request.parties.as_slice();
    let Ok(recipients) = recipients(alloc, market.participants, parties) else {
        return Err(Refusal::NoMemory);
    };
    let unknown = has_unknown(parties, &recipients);
    let instrument = match instrument_asked(
        market,
        kept,
        who,
        request,
        &recipients,
        unknown,
        moment,
    ) {
        Ok(instrument) => instrument,
        Err(cause) => return Err(request_refusal(cause)),
    };
    let room = room_asked(market, kept, who, request, instrument, recipients, moment);
    let Ok(facts) = vec![in alloc; Fact::Asked(room)] else {
        return Err(Refusal::NoMemory);
    };
    Ok(RoomPlan::of(facts, Vec::new(alloc), None))
}
