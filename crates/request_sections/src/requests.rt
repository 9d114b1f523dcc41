//! The section of the requests for quotes: of each request whom it asked, what was shown, its quotes and its trade.

ghost use Rattle.std.specs.Prelude.{◌≡◌, ◌%◌, OnOk, IfOk, filter, length};
ghost use Rattle.std.specs.List.{flat_map};
ghost use Rattle.page_text.specs.Parts.{with_part, with_parts};
ghost use Rattle.request_sections.specs.declared.keys.By.TheVariants as by;
ghost use Rattle.request_sections.specs.Fate.{outcome_of};
ghost use Rattle.request_sections.specs.Keys.{in_bucket, key_of, quote_key, room_key};
ghost use Rattle.request_sections.specs.Picks.{is_silent};
ghost use Rattle.request_sections.specs.Requests.{IsKept, all_quotes, asked_in, body_parts, each_request, fate_part, form_of, head_parts, hit_part, idle_part, if_quote_parts, if_request_parts, if_traded, once_part, opening_part, optional_price, outcome_part, quote_part, quote_parts, quotes_in, request_by, request_parts, rest_parts, room_part, sheet_of, side_words, silent_parts, some_silent, trade_alone, trade_in, trade_link, trade_moment, traded_part, twice_part};

use crate::day::{Day, Form, form_of};
use crate::fate::{Fate, Quoted, outcome_of};
use crate::filed::found;
use crate::keys::{quote_key, room_key};
use crate::lives::{Axis, add_life, add_life_end, axis_of, live_until};
use crate::picks::{Pick, picked, silent};
use crate::refused::add_refusals_in;
use crate::shown::add_shown;
use crate::template::{
    CELL_END, HIT, HIT_ALONE, LIVE, NO_QUOTE, NOT_TAKEN, PASSED, QUOTE, QUOTES, RAN_OUT, REPLACED,
    ROOM, ROOM_END, ROOM_FOLDED, ROOM_IDLE, ROOM_LINE, ROOM_LINE_END, ROOM_OPEN, ROOM_TRADED,
    ROOM_TRADED_ALONE, WITHDRAWN,
};
use day_events::{Event, NewQuote, NewRequest, RoomTrade, What};
use day_sections::{add_row_number, id_text, is_listed, many, sender_at, text_or_empty};
use day_tables::{clock_text, grouped_text, number_text, tick_by, ticked_price};
use fix_dictionary::{Price, Side};
use page_text::Page;
use participants::Participants;
use recipient_sections::{add_names, add_recipients};
use sef_moment::print_utc;
use std::alloc::{AllocError, Global};

/// A room and the tick of its instrument, what may be said of it, and among that whom it asked and its quotes.
#[derive(Clone, Copy)]
struct Said<'a> {
    room: u64,
    tick: u64,
    events: &'a [Event],
    asked: &'a [Event],
    quotes: &'a [Event],
}

/// What a request asks for, in words.
fn side_words(side: Option<Side>) -> &'static [u8]
    ensures { result.now ≡ side_words side }
{
    match side {
        None => b"to buy or sell",
        Some(side) => match side {
            Side::Buy => b"to buy",
            Side::Sell => b"to sell",
        },
    }
}

fn side_text(alloc: Global, side: Option<Side>) -> Result<Vec<u8>, AllocError>
    ensures { IfOk result (λ text. text.items ≡ side_words side) }
{
    Vec::from_slice(alloc, side_words(side))
}

/// The trade of a room, if an event reports it.
#[tactic(auto, unfolding(crate::specs::Requests::if_traded))]
fn if_traded(room: u64, what: &What) -> Option<RoomTrade>
    ensures { result ≡ if_traded room what.now }
{
    match what {
        What::Traded(trade) => if trade.room == room {
            Some(*trade)
        } else {
            None
        },
        _ => None,
    }
}

/// The trade of a room.
pub(crate) fn trade_in(room: u64, events: &[Event]) -> Option<RoomTrade>
    ensures { result ≡ trade_in room events.now }
{
    for event in events {
        if let Some(trade) = if_traded(room, &event.what) {
            return Some(trade);
        }
    }
    None
}

/// When a room traded.
fn trade_moment(room: u64, events: &[Event]) -> Option<u64>
    ensures { result ≡ trade_moment room events.now }
{
    for event in events {
        if let Some(_) = if_traded(room, &event.what) {
            return Some(event.at.moment.ms());
        }
    }
    None
}

/// Adds the head of a request.
fn add_room(
    alloc: Global,
    page: &mut Page,
    participants: &Participants,
    dated: bool,
    opened: &Event,
    request: &NewRequest,
    asked: u64,
) -> Result<(), AllocError>
    ensures { OnOk result (page.new ≡ with_part page.old (room_part participants.now dated opened.now request.now asked)) }
{
    let room = number_text(alloc, request.room)?;
    let moment = print_utc(opened.at.moment);
    let count = grouped_text(alloc, asked)?;
    let side = side_text(alloc, request.side)?;
    let quantity = grouped_text(alloc, request.quantity.get())?;
    let symbol = id_text(alloc, &request.symbol)?;
    let id = text_or_empty(alloc, &opened.at.own)?;
    page.add(
        ROOM,
        &[
            &room,
            clock_text(dated, &moment),
            sender_at(participants, opened.at.from),
            &count,
            &side,
            &quantity,
            &symbol,
            &id,
        ],
    )
}

/// Adds that a request did not trade.
fn add_idle(alloc: Global, page: &mut Page, quotes: u64) -> Result<(), AllocError>
    ensures { OnOk result (page.new ≡ with_part page.old (idle_part quotes)) }
{
    let count = grouped_text(alloc, quotes)?;
    page.add(ROOM_IDLE, &[&count])
}

/// Adds the trade of a request, which is on the page.
fn add_trade_link(
    alloc: Global,
    page: &mut Page,
    tick: u64,
    trade: &RoomTrade,
) -> Result<(), AllocError>
    ensures { OnOk result (page.new ≡ with_part page.old (trade_link tick trade.now)) }
{
    let number = number_text(alloc, trade.trade)?;
    let price = ticked_price(alloc, tick, trade.price)?;
    page.add(ROOM_TRADED, &[&number, &number, &price])
}

/// Adds one that is not.
fn add_trade_alone(
    alloc: Global,
    page: &mut Page,
    tick: u64,
    trade: &RoomTrade,
) -> Result<(), AllocError>
    ensures { OnOk result (page.new ≡ with_part page.old (trade_alone tick trade.now)) }
{
    let number = number_text(alloc, trade.trade)?;
    let price = ticked_price(alloc, tick, trade.price)?;
    page.add(ROOM_TRADED_ALONE, &[&number, &price])
}

/// Adds the trade of a request.
fn add_traded(
    alloc: Global,
    page: &mut Page,
    tick: u64,
    trade: &RoomTrade,
) -> Result<(), AllocError>
    ensures { OnOk result (page.new ≡ with_part page.old (traded_part tick trade.now)) }
{
    if is_listed(trade.trade) {
        add_trade_link(alloc, page, tick, trade)
    } else {
        add_trade_alone(alloc, page, tick, trade)
    }
}

/// Adds what came of a request.
fn add_outcome(
    alloc: Global,
    page: &mut Page,
    tick: u64,
    trade: &Option<RoomTrade>,
    quotes: u64,
) -> Result<(), AllocError>
    ensures { OnOk result (page.new ≡ with_part page.old (outcome_part tick trade.now quotes)) }
{
    match trade {
        None => add_idle(alloc, page, quotes),
        Some(trade) => add_traded(alloc, page, tick, trade),
    }
}

/// A price, or nothing.
fn optional_price(alloc: Global, tick: u64, price: Option<Price>) -> Result<Vec<u8>, AllocError>
    ensures { IfOk result (λ text. text.items ≡ optional_price tick price) }
{
    match price {
        None => Ok(Vec::new(alloc)),
        Some(price) => ticked_price(alloc, tick, price),
    }
}

/// Adds a quote, up to what became of it.
fn add_quote_head(
    alloc: Global,
    page: &mut Page,
    participants: &Participants,
    dated: bool,
    tick: u64,
    event: &Event,
    quote: &NewQuote,
) -> Result<(), AllocError>
    ensures { OnOk result (page.new ≡ with_part page.old (quote_part participants.now dated tick event.now quote.now)) }
{
    let number = number_text(alloc, quote.quote)?;
    let maker = sender_at(participants, event.at.from);
    let id = text_or_empty(alloc, &event.at.own)?;
    let bid = optional_price(alloc, tick, quote.bid)?;
    let offer = optional_price(alloc, tick, quote.offer)?;
    let moment = print_utc(event.at.moment);
    let end = print_utc(quote.end);
    page.add(
        QUOTE,
        &[
            &number,
            &number,
            maker,
            &id,
            &bid,
            &offer,
            clock_text(dated, &moment),
            clock_text(dated, &end),
        ],
    )
}

/// Adds a part with a number.
fn add_once(alloc: Global, page: &mut Page, template: &[u8], number: u64) -> Result<(), AllocError>
    ensures { OnOk result (page.new ≡ with_part page.old (once_part template.now number)) }
{
    let text = number_text(alloc, number)?;
    page.add(template, &[&text])
}

/// Adds a part with a number that stands twice in it.
fn add_twice(alloc: Global, page: &mut Page, template: &[u8], number: u64) -> Result<(), AllocError>
    ensures { OnOk result (page.new ≡ with_part page.old (twice_part template.now number)) }
{
    let text = number_text(alloc, number)?;
    page.add(template, &[&text, &text])
}

/// Adds that a quote was hit.
fn add_hit(alloc: Global, page: &mut Page, trade: u64) -> Result<(), AllocError>
    ensures { OnOk result (page.new ≡ with_part page.old (hit_part trade)) }
{
    if is_listed(trade) {
        add_twice(alloc, page, HIT, trade)
    } else {
        add_once(alloc, page, HIT_ALONE, trade)
    }
}

/// Adds what became of a quote.
fn add_fate(alloc: Global, page: &mut Page, fate: Fate) -> Result<(), AllocError>
    ensures { OnOk result (page.new ≡ with_part page.old (fate_part fate)) }
{
    match fate {
        Fate::Live => page.add(LIVE, &[]),
        Fate::NotTaken => page.add(NOT_TAKEN, &[]),
        Fate::RanOut => page.add(RAN_OUT, &[]),
        Fate::Hit(trade) => add_hit(alloc, page, trade),
        Fate::Replaced(quote) => add_twice(alloc, page, REPLACED, quote),
        Fate::Withdrawn(row) => add_once(alloc, page, WITHDRAWN, row),
        Fate::Passed(row) => add_once(alloc, page, PASSED, row),
    }
}

/// Adds a quote of a room.
fn add_quote(
    alloc: Global,
    page: &mut Page,
    participants: &Participants,
    day: &Day<'_>,
    axis: &Axis,
    said: &Said<'_>,
    event: &Event,
    quote: &NewQuote,
) -> Result<(), AllocError>
    requires kept { IsKept day.now }
    ensures { OnOk result (page.new ≡ with_parts page.old (quote_parts participants.now (sheet_of day.now) said.now.tick axis.now said.now.events.now said.now.room event.now quote.now)) }
{
    let quoted = Quoted {
        quote: quote.quote,
        room: said.room,
        from: event.at.from,
        end: quote.end,
    };
    let ends = found(day.ends, quote_key(quote.quote));
    let end = outcome_of(&quoted, day.last, said.events, ends);
    let until = live_until(&quoted, day.last, said.events, ends);
    add_quote_head(
        alloc,
        page,
        participants,
        day.dated,
        said.tick,
        event,
        quote,
    )?;
    add_life(
        alloc,
        page,
        axis,
        event.at.moment.ms(),
        until,
        quote.end.ms(),
    )?;
    add_life_end(page, axis.traded)?;
    add_fate(alloc, page, end)?;
    add_row_number(alloc, page, day.linked, event.at.row)?;
    page.add(CELL_END, &[])
}

#[tactic(auto, unfolding(crate::specs::Requests::if_quote_parts))]
fn add_if_quote(
    alloc: Global,
    page: &mut Page,
    participants: &Participants,
    day: &Day<'_>,
    axis: &Axis,
    said: &Said<'_>,
    event: &Event,
) -> Result<(), AllocError>
    requires kept { IsKept day.now }
    ensures { OnOk result (page.new ≡ with_parts page.old (if_quote_parts participants.now (sheet_of day.now) said.now.tick axis.now said.now.events.now said.now.room event.now event.now.what)) }
{
    match &event.what {
        What::Quoted(quote) => add_quote(alloc, page, participants, day, axis, said, event, quote),
        _ => Ok(()),
    }
}

fn add_each_quote(
    alloc: Global,
    page: &mut Page,
    participants: &Participants,
    day: &Day<'_>,
    axis: &Axis,
    said: &Said<'_>,
) -> Result<(), AllocError>
    requires kept { IsKept day.now }
    ensures { OnOk result (page.new ≡ with_parts page.old (flat_map (λ e. if_quote_parts participants.now (sheet_of day.now) said.now.tick axis.now said.now.events.now said.now.room e e.what) said.now.quotes.now)) }
{
    for event in said.quotes {
        add_if_quote(alloc, page, participants, day, axis, said, event)?;
    }
    Ok(())
}

/// Adds those who were asked and sent no quote.
fn add_some_silent(
    page: &mut Page,
    participants: &Participants,
    silent: &[Event],
) -> Result<(), AllocError>
    ensures { OnOk result (page.new ≡ with_parts page.old (some_silent participants.now silent.now)) }
{
    page.add(NO_QUOTE, &[])?;
    add_names(page, participants, silent)?;
    page.add(CELL_END, &[])
}

fn add_silent(
    page: &mut Page,
    participants: &Participants,
    silent: &[Event],
) -> Result<(), AllocError>
    ensures { OnOk result (page.new ≡ with_parts page.old (silent_parts participants.now silent.now)) }
{
    if silent.len() == 0 {
        Ok(())
    } else {
        add_some_silent(page, participants, silent)
    }
}

/// Adds the quotes of a request, and who sent none.
fn add_quotes(
    alloc: Global,
    page: &mut Page,
    participants: &Participants,
    day: &Day<'_>,
    axis: &Axis,
    said: &Said<'_>,
) -> Result<(), AllocError>
    requires kept { IsKept day.now }
    ensures { OnOk result (page.new ≡ with_parts page.old (all_quotes participants.now (sheet_of day.now) said.now.tick axis.now said.now.events.now said.now.room said.now.asked.now said.now.quotes.now)) }
{
    let number = number_text(alloc, said.room)?;
    let silent = silent(alloc, said.asked, said.quotes)?;
    page.add(QUOTES, &[&number])?;
    add_each_quote(alloc, page, participants, day, axis, said)?;
    add_silent(page, participants, &silent)?;
    page.add(ROOM_END, &[])
}

/// Adds the start of a request.
fn add_opening(alloc: Global, page: &mut Page, form: Form, room: u64) -> Result<(), AllocError>
    ensures { OnOk result (page.new ≡ with_part page.old (opening_part form room)) }
{
    match form {
        Form::Open => page.add(ROOM_OPEN, &[]),
        Form::Folded => page.add(ROOM_FOLDED, &[]),
        Form::Line => add_once(alloc, page, ROOM_LINE, room),
    }
}

/// Adds the head of a request, and what came of it.
fn add_head(
    alloc: Global,
    page: &mut Page,
    participants: &Participants,
    form: Form,
    dated: bool,
    opened: &Event,
    request: &NewRequest,
    said: &Said<'_>,
    trade: &Option<RoomTrade>,
) -> Result<(), AllocError>
    ensures { OnOk result (page.new ≡ with_parts page.old (head_parts form participants.now dated said.now.tick opened.now request.now said.now.asked.now said.now.quotes.now trade.now)) }
{
    add_opening(alloc, page, form, request.room)?;
    add_room(
        alloc,
        page,
        participants,
        dated,
        opened,
        request,
        many(said.asked),
    )?;
    add_outcome(alloc, page, said.tick, trade, many(said.quotes))
}

/// Adds what stands behind the head of a request.
fn add_body(
    alloc: Global,
    page: &mut Page,
    participants: &Participants,
    day: &Day<'_>,
    opened: &Event,
    said: &Said<'_>,
) -> Result<(), AllocError>
    requires kept { IsKept day.now }
    ensures { OnOk result (page.new ≡ with_parts page.old (body_parts participants.now (sheet_of day.now) said.now.tick said.now.events.now opened.now said.now.room said.now.asked.now said.now.quotes.now)) }
{
    let hit = trade_moment(said.room, said.events);
    let axis = axis_of(opened.at.moment.ms(), hit, said.quotes);
    add_recipients(
        alloc,
        page,
        participants,
        day.linked,
        opened,
        said.room,
        said.asked,
    )?;
    add_shown(alloc, page, said.tick, day, said.quotes)?;
    add_refusals_in(
        alloc,
        page,
        participants,
        day,
        opened.at.row,
        said.room,
        said.quotes,
    )?;
    add_quotes(alloc, page, participants, day, &axis, said)
}

fn add_rest(
    alloc: Global,
    page: &mut Page,
    participants: &Participants,
    day: &Day<'_>,
    form: Form,
    opened: &Event,
    said: &Said<'_>,
) -> Result<(), AllocError>
    requires kept { IsKept day.now }
    ensures { OnOk result (page.new ≡ with_parts page.old (rest_parts form participants.now (sheet_of day.now) said.now.tick said.now.events.now opened.now said.now.room said.now.asked.now said.now.quotes.now)) }
{
    match form {
        Form::Open => add_body(alloc, page, participants, day, opened, said),
        Form::Folded => add_body(alloc, page, participants, day, opened, said),
        Form::Line => page.add(ROOM_LINE_END, &[]),
    }
}

/// Adds a request, by what may be said of its room.
fn add_request(
    alloc: Global,
    page: &mut Page,
    participants: &Participants,
    day: &Day<'_>,
    opened: &Event,
    request: &NewRequest,
    events: &[Event],
) -> Result<(), AllocError>
    requires kept { IsKept day.now }
    ensures { OnOk result (page.new ≡ with_parts page.old (request_parts participants.now (sheet_of day.now) events.now opened.now request.now)) }
{
    let asked = picked(alloc, events, &Pick::Asked(request.room))?;
    let quotes = picked(alloc, events, &Pick::Quotes(request.room))?;
    let trade = trade_in(request.room, events);
    let form = form_of(day.count, trade.is_some());
    let said = Said {
        room: request.room,
        tick: tick_by(day.instruments, request.symbol.as_slice()),
        events,
        asked: &asked,
        quotes: &quotes,
    };
    add_head(
        alloc,
        page,
        participants,
        form,
        day.dated,
        opened,
        request,
        &said,
        &trade,
    )?;
    add_rest(alloc, page, participants, day, form, opened, &said)
}

/// What may be said of a room: all that is, among others.
pub(crate) fn said_of<'a>(day: &Day<'a>, room: u64) -> &'a [Event]
    requires kept { IsKept day.now }
    ensures { result.now ≡ filter (λ e. in_bucket (length day.now.rooms.now) (room_key room % length day.now.rooms.now) (key_of by.Room e)) day.now.events.now }
{
    found(day.rooms, room_key(room))
}

/// Adds a request.
fn add_found(
    alloc: Global,
    page: &mut Page,
    participants: &Participants,
    day: &Day<'_>,
    opened: &Event,
    request: &NewRequest,
) -> Result<(), AllocError>
    requires kept { IsKept day.now }
    ensures { OnOk result (page.new ≡ with_parts page.old (request_parts participants.now (sheet_of day.now) day.now.events.now opened.now request.now)) }
{
    let said = said_of(day, request.room);
    add_request(alloc, page, participants, day, opened, request, said)
}

#[tactic(auto, unfolding(crate::specs::Requests::if_request_parts))]
fn add_if_request(
    alloc: Global,
    page: &mut Page,
    participants: &Participants,
    day: &Day<'_>,
    event: &Event,
) -> Result<(), AllocError>
    requires kept { IsKept day.now }
    ensures { OnOk result (page.new ≡ with_parts page.old (if_request_parts participants.now (sheet_of day.now) event.now event.now.what)) }
{
    match &event.what {
        What::Asked(request) => add_found(alloc, page, participants, day, event, request),
        _ => Ok(()),
    }
}

/// Adds some requests, in order.
pub(crate) fn add_each(
    alloc: Global,
    page: &mut Page,
    participants: &Participants,
    day: &Day<'_>,
    rooms: &[Event],
) -> Result<(), AllocError>
    requires kept { IsKept day.now }
    ensures { OnOk result (page.new ≡ with_parts page.old (each_request participants.now (sheet_of day.now) rooms.now)) }
{
    for event in rooms {
        add_if_request(alloc, page, participants, day, event)?;
    }
    Ok(())
}
