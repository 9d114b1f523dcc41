//! Trades and rooms as they are read back.

use crate::venue::emitting::name_of;
use fix_dictionary::Price;
use fix_fields::append_price;
use instruments::Instruments;
use std::alloc::{AllocError, Global};
use venue_core::Venue;
use venue_rules::{RoomFact, ShownOrder, TradeFact};

/// Appends a word and a number.
pub fn append_number(
    alloc: Global,
    word: &[u8],
    number: u64,
    emitted: &mut Vec<u8>,
) -> Result<(), AllocError> {
    let digits = format!(in alloc; "{number}")?;
    emitted.extend_from_slice(word)?;
    emitted.extend_from_slice(digits.as_bytes())
}

/// Appends a price as a message has it, without the tag and what ends the field.
pub fn append_bare_price(
    alloc: Global,
    price: Price,
    emitted: &mut Vec<u8>,
) -> Result<(), AllocError> {
    let mut field = Vec::new(alloc);
    append_price(&mut field, 1, price.get())?;
    match field.as_slice() {
        [_, _, text @ .., _] => emitted.extend_from_slice(text),
        _ => Ok(()),
    }
}

/// An instrument's symbol.
pub fn symbol_of(instruments: &Instruments, instrument: u32) -> &[u8] {
    if (instrument as usize) < instruments.len() {
        instruments.get(instrument).symbol.as_slice()
    } else {
        b"nothing"
    }
}

// Appends the names of those who were asked, with commas between them.
fn append_asked(venue: &Venue, room: &RoomFact, emitted: &mut Vec<u8>) -> Result<(), AllocError> {
    let mut between = b" asked ".as_slice();
    for who in room.asked.as_slice() {
        emitted.extend_from_slice(between)?;
        emitted.extend_from_slice(name_of(venue.participants(), *who))?;
        between = b",";
    }
    Ok(())
}

fn append_order(
    alloc: Global,
    order: &ShownOrder,
    emitted: &mut Vec<u8>,
) -> Result<(), AllocError> {
    append_number(alloc, b"O", order.order, emitted)?;
    append_number(alloc, b"x", order.left.get(), emitted)
}

// Appends the orders that were shown, with commas between them.
fn append_shown(alloc: Global, room: &RoomFact, emitted: &mut Vec<u8>) -> Result<(), AllocError> {
    let mut between = b" shown ".as_slice();
    if room.shown.as_slice().is_empty() {
        return emitted.extend_from_slice(b" shown none");
    }
    for order in room.shown.as_slice() {
        emitted.extend_from_slice(between)?;
        append_order(alloc, order, emitted)?;
        between = b",";
    }
    Ok(())
}

// Appends a room: its number, who was asked in it, its first quote and what was shown with that.
fn append_room(
    alloc: Global,
    venue: &Venue,
    room: &RoomFact,
    emitted: &mut Vec<u8>,
) -> Result<(), AllocError> {
    append_number(alloc, b"room R", room.number, emitted)?;
    append_asked(venue, room, emitted)?;
    append_number(alloc, b" first Q", room.first, emitted)?;
    append_shown(alloc, room, emitted)
}

// Appends the terms of a trade and who made it.
fn append_terms(
    alloc: Global,
    venue: &Venue,
    trade: &TradeFact,
    emitted: &mut Vec<u8>,
) -> Result<(), AllocError> {
    emitted.extend_from_slice(symbol_of(venue.instruments(), trade.instrument))?;
    append_number(alloc, b" ", trade.quantity.get(), emitted)?;
    emitted.extend_from_slice(b" @ ")?;
    append_bare_price(alloc, trade.price, emitted)?;
    emitted.extend_from_slice(b" buyer ")?;
    emitted.extend_from_slice(name_of(venue.participants(), trade.buyer))?;
    emitted.extend_from_slice(b" seller ")?;
    emitted.extend_from_slice(name_of(venue.participants(), trade.seller))
}

// Appends the room of a trade, where it was made in one.
fn append_room_of(
    alloc: Global,
    venue: &Venue,
    number: u64,
    emitted: &mut Vec<u8>,
) -> Result<(), AllocError> {
    emitted.push(b' ')?;
    match venue.room(number) {
        Some(room) => append_room(alloc, venue, room, emitted),
        None => emitted.extend_from_slice(b"without a room"),
    }
}

fn emit_trade(
    alloc: Global,
    venue: &Venue,
    trade: &TradeFact,
    emitted: &mut Vec<u8>,
) -> Result<(), AllocError> {
    append_number(alloc, b"  T", trade.number, emitted)?;
    match trade.room {
        None => {
            emitted.extend_from_slice(b" book ")?;
            append_terms(alloc, venue, trade, emitted)?;
        }
        Some(room) => {
            emitted.extend_from_slice(b" rfq ")?;
            append_terms(alloc, venue, trade, emitted)?;
            append_room_of(alloc, venue, room, emitted)?;
        }
    }
    emitted.push(b'\n')?;
    Ok(())
}

/// Appends a line for each trade.
pub fn emit_trades(alloc: Global, venue: &Venue, emitted: &mut Vec<u8>) -> Result<(), AllocError> {
    if venue.trades().is_empty() {
        return emitted.extend_from_slice(b"  none\n");
    }
    for trade in venue.trades() {
        emit_trade(alloc, venue, trade, emitted)?;
    }
    Ok(())
}

/// Appends a line for a room: who asked in it, and the rest of it.
pub fn emit_room(
    alloc: Global,
    venue: &Venue,
    number: u64,
    emitted: &mut Vec<u8>,
) -> Result<(), AllocError> {
    let Some(room) = venue.room(number) else {
        return emitted.extend_from_slice(b"  none\n");
    };
    emitted.extend_from_slice(b"  ")?;
    emitted.extend_from_slice(name_of(venue.participants(), room.requester))?;
    emitted.extend_from_slice(b" in ")?;
    append_room(alloc, venue, room, emitted)?;
    emitted.push(b'\n')?;
    Ok(())
}
