//! What stands in a venue, as it is lent: resting orders, held sides, requests and quotes.

use crate::emitting::emit_line;
use crate::moments::START;
use crate::venue::emitting::name_of;
use crate::venue::reading::{append_bare_price, append_number, symbol_of};
use fix_dictionary::{Identifier, Side};
use participants::Who;
use price_book::Resting;
use sef_moment::Moment;
use std::alloc::{AllocError, Global};
use venue_core::Venue;
use venue_rules::{Fact, HeldSide, OrderFact, Room, RoomQuote};

/// How many facts a plan has: orders that enter, trades, and others.
#[derive(Clone, Copy)]
pub struct Counted {
    entered: u32,
    traded: u32,
    others: u32,
}

impl Counted {
    pub const NONE: Counted = Counted {
        entered: 0,
        traded: 0,
        others: 0,
    };

    fn with(self, fact: &Fact) -> Counted {
        let mut counted = self;
        match fact {
            Fact::Entered(_) => counted.entered = counted.entered.saturating_add(1),
            Fact::Traded(_) => counted.traded = counted.traded.saturating_add(1),
            _ => counted.others = counted.others.saturating_add(1),
        }
        counted
    }

    /// With those of a list.
    pub fn with_all(self, facts: &[Fact]) -> Counted {
        let mut counted = self;
        for fact in facts {
            counted = counted.with(fact);
        }
        counted
    }
}

/// Appends the counts.
pub fn emit_facts(
    alloc: Global,
    counted: Counted,
    emitted: &mut Vec<u8>,
) -> Result<(), AllocError> {
    append_number(alloc, b"  entered ", u64::from(counted.entered), emitted)?;
    append_number(alloc, b" traded ", u64::from(counted.traded), emitted)?;
    append_number(alloc, b" others ", u64::from(counted.others), emitted)?;
    emitted.push(b'\n')?;
    Ok(())
}

// Appends whose this is, and its identifier.
fn append_name(
    venue: &Venue,
    who: Who,
    id: &Identifier,
    emitted: &mut Vec<u8>,
) -> Result<(), AllocError> {
    emitted.extend_from_slice(name_of(venue.participants(), who))?;
    emitted.push(b' ')?;
    emitted.extend_from_slice(id.as_slice())
}

fn side_name(side: Side) -> &'static [u8] {
    match side {
        Side::Buy => b" buy ",
        Side::Sell => b" sell ",
    }
}

// Appends an order: whose, its side, instrument, quantity and price.
fn append_order(
    alloc: Global,
    venue: &Venue,
    order: &OrderFact,
    emitted: &mut Vec<u8>,
) -> Result<(), AllocError> {
    emitted.extend_from_slice(b"  ")?;
    append_name(venue, order.who, &order.id, emitted)?;
    emitted.extend_from_slice(side_name(order.side))?;
    emitted.extend_from_slice(symbol_of(venue.instruments(), order.instrument))?;
    append_number(alloc, b" ", order.quantity.get(), emitted)?;
    emitted.extend_from_slice(b" @ ")?;
    append_bare_price(alloc, order.price, emitted)
}

fn emit_order(
    alloc: Global,
    venue: &Venue,
    resting: Resting<'_>,
    emitted: &mut Vec<u8>,
) -> Result<(), AllocError> {
    append_order(alloc, venue, &resting.entry.order, emitted)?;
    append_number(alloc, b" left ", resting.left, emitted)?;
    append_number(alloc, b" filled ", resting.filled().get(), emitted)?;
    emitted.push(b'\n')?;
    Ok(())
}

/// Appends the resting order with a number.
pub fn emit_resting(
    alloc: Global,
    venue: &Venue,
    number: u64,
    emitted: &mut Vec<u8>,
) -> Result<(), AllocError> {
    match venue.resting(number) {
        Some(resting) => emit_order(alloc, venue, resting, emitted),
        None => emit_line("none", emitted),
    }
}

fn emit_side(
    alloc: Global,
    venue: &Venue,
    side: &HeldSide,
    emitted: &mut Vec<u8>,
) -> Result<(), AllocError> {
    append_order(alloc, venue, &side.order, emitted)?;
    emitted.extend_from_slice(b" cross ")?;
    emitted.extend_from_slice(side.cross.as_slice())?;
    append_number(alloc, b" due ", side.due.saturating_sub(START), emitted)?;
    emitted.push(b'\n')?;
    Ok(())
}

/// Appends a line for each held side.
pub fn emit_held(alloc: Global, venue: &Venue, emitted: &mut Vec<u8>) -> Result<(), AllocError> {
    if venue.held_sides().is_empty() {
        return emit_line("none", emitted);
    }
    for side in venue.held_sides() {
        emit_side(alloc, venue, side, emitted)?;
    }
    Ok(())
}

fn state_name(is_standing: bool, word: &str) -> &[u8] {
    if is_standing {
        word.as_bytes()
    } else {
        b" over"
    }
}

fn emit_request(
    alloc: Global,
    venue: &Venue,
    moment: Moment,
    room: &Room,
    emitted: &mut Vec<u8>,
) -> Result<(), AllocError> {
    append_number(alloc, b"  R", room.number, emitted)?;
    emitted.push(b' ')?;
    append_name(venue, room.requester, &room.id, emitted)?;
    emitted.extend_from_slice(state_name(venue.is_open(moment, room), " open"))?;
    emitted.push(b'\n')?;
    Ok(())
}

/// Appends a line for each request: whose, and whether it may still trade at a moment.
pub fn emit_requests(
    alloc: Global,
    venue: &Venue,
    moment: Moment,
    emitted: &mut Vec<u8>,
) -> Result<(), AllocError> {
    if venue.rooms().is_empty() {
        return emit_line("none", emitted);
    }
    for room in venue.rooms() {
        emit_request(alloc, venue, moment, room, emitted)?;
    }
    Ok(())
}

fn emit_quote(
    alloc: Global,
    venue: &Venue,
    moment: Moment,
    quote: &RoomQuote,
    emitted: &mut Vec<u8>,
) -> Result<(), AllocError> {
    append_number(alloc, b"  Q", quote.number, emitted)?;
    append_number(alloc, b" R", quote.room, emitted)?;
    emitted.push(b' ')?;
    append_name(venue, quote.maker, &quote.id, emitted)?;
    emitted.extend_from_slice(state_name(venue.is_live(moment, quote), " live"))?;
    emitted.push(b'\n')?;
    Ok(())
}

/// Appends a line for each quote: whose, and whether it may be hit at a moment.
pub fn emit_quotes(
    alloc: Global,
    venue: &Venue,
    moment: Moment,
    emitted: &mut Vec<u8>,
) -> Result<(), AllocError> {
    if venue.quotes().is_empty() {
        return emit_line("none", emitted);
    }
    for quote in venue.quotes() {
        emit_quote(alloc, venue, moment, quote, emitted)?;
    }
    Ok(())
}
