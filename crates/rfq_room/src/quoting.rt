//! Quote (S): quotes in a room.
ghost use Rattle.std.specs.Prelude.{◌≡◌, ◌<◌, ◌==◌, None, IfOk, IfErr, length, nat_lt, not, true};
ghost use Rattle.venue_rules.specs.Quotes.{is_absent_or, is_crossed, is_price_off_tick, lacks_price, quote_end};
ghost use Rattle.venue_rules.specs.Market.{market_of};
ghost use Rattle.rfq_room.specs.Causes.{quote_cause, quote_causes, terms_causes};
ghost use Rattle.rfq_room.specs.RoomStore.{are_listed};
ghost use Rattle.rfq_room.specs.Plans.{IsQuotePlanned, quote_made, quote_plan};
ghost use Rattle.rfq_room.specs.Refusals.{IsQuoteRefused};
ghost use Rattle.rfq_room.specs.Views.{first_cause};

use crate::plan::RoomPlan;
use crate::recipients::is_among;
use crate::refusal::{Refusal, quote_refusal};
use crate::room_store::RoomStore;
use fix_dictionary::{FixChar, Price, Quantity, Quote, Side};
use participants::Who;
use sef_moment::Moment;
use std::alloc::{AllocError, Global};
use venue_rules::{Fact, Market, QuoteRefusal, Room, RoomQuote, is_off_tick};

// QuoteType (537) is absent or 1, tradeable.
fn is_tradeable(quote_type: Option<FixChar>) -> bool
    ensures { result ≡ is_absent_or (λ c. c == 49) quote_type }
{
    match quote_type {
        Some(c) => c.get() == b'1',
        None => true,
    }
}

// Whether the quote lacks the price for the requester's side.
fn lacks_price(side: Option<Side>, bid: Option<Price>, offer: Option<Price>) -> bool
    ensures { result ≡ lacks_price side bid offer }
{
    match side {
        Some(Side::Buy) => offer.is_none(),
        Some(Side::Sell) => bid.is_none(),
        None => bid.is_none() && offer.is_none(),
    }
}

fn is_price_off_tick(market: Market<'_>, instrument: u32, price: Option<Price>) -> bool
    requires { instrument < length market.instruments.now }
    ensures { result ≡ is_price_off_tick (market_of market.entry) instrument price }
{
    match price {
        Some(price) => is_off_tick(market.instruments, instrument, price),
        None => false,
    }
}

// Whether the bid is above the offer.
fn is_crossed(bid: Option<Price>, offer: Option<Price>) -> bool
    ensures { result ≡ is_crossed bid offer }
{
    match (bid, offer) {
        (Some(bid), Some(offer)) => offer.get() < bid.get(),
        _ => false,
    }
}

// Whether a size is absent or the requested quantity.
fn is_size(size: Option<Quantity>, quantity: Quantity) -> bool
    ensures { result ≡ is_absent_or (λ q. q == quantity) size }
{
    match size {
        Some(size) => size.get() == quantity.get(),
        None => true,
    }
}

// Whether the end is absent or not passed.
fn is_to_come(end: Option<Moment>, moment: Moment) -> bool
    ensures { result ≡ is_absent_or (λ u. not (nat_lt u moment)) end }
{
    match end {
        Some(end) => moment.ms() <= end.ms(),
        None => true,
    }
}

// Causes that refuse a quote for its own terms.
fn terms_cause(
    market: Market<'_>,
    room: &Room,
    quote: &Quote,
    moment: Moment,
) -> Option<QuoteRefusal>
    requires { room.now.instrument < length market.instruments.now }
    ensures { result ≡ first_cause (terms_causes (market_of market.entry) room.now quote.now moment) }
{
    if !is_tradeable(quote.quote_type) {
        return Some(QuoteRefusal::NotTradeable);
    }
    if lacks_price(room.side, quote.bid_price, quote.offer_price)
        || (is_price_off_tick(market, room.instrument, quote.bid_price)
            || (is_price_off_tick(market, room.instrument, quote.offer_price)
                || is_crossed(quote.bid_price, quote.offer_price)))
    {
        return Some(QuoteRefusal::InvalidPrice);
    }
    if !is_size(quote.bid_size, room.quantity) || !is_size(quote.offer_size, room.quantity) {
        return Some(QuoteRefusal::Size);
    }
    if !is_to_come(quote.valid_until, moment) {
        return Some(QuoteRefusal::EndPassed);
    }
    None
}

// Causes that refuse a quote in a room.
fn quote_cause(
    market: Market<'_>,
    kept: &RoomStore,
    who: Who,
    room: &Room,
    quote: &Quote,
    moment: Moment,
) -> Option<QuoteRefusal>
    requires { room.now.instrument < length market.instruments.now }
    ensures { result ≡ first_cause (quote_causes (market_of market.entry) kept.now.facts who room.now quote.now moment) }
{
    if !is_among(room.recipients.as_slice(), who) {
        return Some(QuoteRefusal::NotAsked);
    }
    if !kept.is_open(moment, room) {
        return Some(QuoteRefusal::RoomOver);
    }
    if !market
        .instruments
        .get(room.instrument)
        .symbol
        .is(quote.symbol.as_slice())
    {
        return Some(QuoteRefusal::UnknownInstrument);
    }
    if kept.known_flags().is_quote_id_used(who, &quote.quote_id) {
        return Some(QuoteRefusal::DuplicateQuote);
    }
    terms_cause(market, room, quote, moment)
}

// The earlier of the quote's own end and the room's.
fn quote_end(room: &Room, quote: &Quote) -> Moment
    ensures { result ≡ quote_end room.now quote.now }
{
    match quote.valid_until {
        Some(end) => {
            if end.ms() < room.end.ms() {
                end
            } else {
                room.end
            }
        }
        None => room.end,
    }
}

/// The quote of a message in a room.
fn quote_made(kept: &RoomStore, who: Who, room: &Room, quote: &Quote) -> RoomQuote
    ensures { result ≡ quote_made kept.now.facts who room.now quote.now }
{
    RoomQuote {
        number: kept.next_quote(),
        room: room.number,
        maker: who,
        id: quote.quote_id,
        bid: quote.bid_price,
        offer: quote.offer_price,
        end: quote_end(room, quote),
    }
}

/// The plan of a quote in a room, before memory is reserved for it.
fn draft_in(
    alloc: Global,
    kept: &RoomStore,
    who: Who,
    room: &Room,
    quote: &Quote,
) -> Result<RoomPlan, AllocError>
    ensures { IfOk result (λ p. p ≡ quote_plan (quote_made kept.now.facts who room.now quote.now)) }
{
    let quote = quote_made(kept, who, room, quote);
    let facts = vec![in alloc; Fact::Quoted(quote)]?;
    Ok(RoomPlan::of(facts, Vec::new(alloc), None))
}

/// The plan of a quote, before memory is reserved for it.
pub(crate) fn draft_quote(
    alloc: Global,
    market: Market<'_>,
    kept: &RoomStore,
    who: Who,
    quote: &Quote,
    moment: Moment,
) -> Result<RoomPlan, Refusal>
    requires { are_listed (length market.instruments.now) kept.now.facts ≡ true }
    ensures planned { IfOk result (λ p. (quote_cause (market_of market.entry) kept.now.facts who quote.now moment ≡ None) × IsQuotePlanned kept.now.facts who quote.now p) }
    ensures refused { IfErr result (IsQuoteRefused (quote_cause (market_of market.entry) kept.now.facts who quote.now moment)) }
{
    let Some(room) = kept.find_room(&quote.request_id) else {
        return Err(quote_refusal(QuoteRefusal::UnknownRequest));
    };
    if let Some(cause) = quote_cause(market, kept, who, room, quote, moment) {
        return Err(quote_refusal(cause));
    }
    let Ok(plan) = draft_in(alloc, kept, who, room, quote) else {
        return Err(Refusal::NoMemory);
    };
    Ok(plan)
}
