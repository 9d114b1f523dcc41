//! What was refused in a request.

ghost use Rattle.std.specs.Prelude.{◌≡◌, ◌++◌, IfOk, OnOk};
ghost use Rattle.std.specs.List.{flat_map};
ghost use Rattle.page_text.specs.Parts.{with_part, with_parts};
ghost use Rattle.day_sections.specs.Refusals.{cause_text};
ghost use Rattle.request_sections.specs.Refused.{cause_of, if_refused, is_name, is_refused, quote_refused, refused_in, refused_of, refused_part, refused_parts, refused_section, refuses, some_refused};
ghost use Rattle.request_sections.specs.Requests.{IsKept};

use crate::day::Day;
use crate::filed::found;
use crate::keys::name_key;
use crate::template::{ASKED_END, REFUSED, REFUSED_END, REFUSED_HERE};
use day_events::{Event, What};
use day_sections::{add_row_number, keep, sender_at, text_or_empty};
use day_tables::clock_text;
use fix_dictionary::Identifier;
use page_text::Page;
use participants::Participants;
use sef_moment::print_utc;
use std::alloc::{AllocError, Global};
use venue_rules::printed_identifier;

#[tactic(auto, unfolding(crate::specs::Refused::is_refused))]
fn is_refused(what: &What) -> bool
    ensures { result ≡ is_refused what.now }
{
    match what {
        What::Refused(_) => true,
        _ => false,
    }
}

fn is_name(id: &Identifier, named: &Option<Identifier>) -> bool
    ensures { result ≡ is_name id.now named.now }
{
    match named {
        None => false,
        Some(named) => id.is(named),
    }
}

/// Whether a refused message behind a row names this room or quote.
fn refuses(row: u64, id: &Identifier, event: &Event) -> bool
    ensures { result ≡ refuses row id.now event.now }
{
    is_refused(&event.what)
        && row < event.at.row
        && event.at.own.is_some()
        && is_name(id, &event.at.named)
}

/// Appends those that do.
fn append_refused(
    kept: &mut Vec<Event>,
    events: &[Event],
    row: u64,
    id: &Identifier,
) -> Result<(), AllocError>
    ensures { OnOk result (kept.new.items ≡ kept.old.items ++ refused_of row id.now events.now) }
{
    for event in events {
        keep(kept, event, refuses(row, id, event))?;
    }
    Ok(())
}

fn append_named(
    kept: &mut Vec<Event>,
    day: &Day<'_>,
    row: u64,
    id: &Identifier,
) -> Result<(), AllocError>
    requires kept { IsKept day.now }
    ensures { OnOk result (kept.new.items ≡ kept.old.items ++ refused_of row id.now day.now.events.now) }
{
    append_refused(kept, found(day.rooms, name_key(id.as_slice())), row, id)
}

/// Appends those that name a quote.
#[tactic(auto, unfolding(crate::specs::Refused::quote_refused))]
fn append_of_quote(
    kept: &mut Vec<Event>,
    day: &Day<'_>,
    row: u64,
    what: &What,
) -> Result<(), AllocError>
    requires kept { IsKept day.now }
    ensures { OnOk result (kept.new.items ≡ kept.old.items ++ quote_refused row what.now day.now.events.now) }
{
    match what {
        What::Quoted(quote) => append_named(kept, day, row, &printed_identifier(b'Q', quote.quote)),
        _ => Ok(()),
    }
}

/// What was refused in a room with these quotes, behind the row of the request, or of the quote.
fn refused_in(
    alloc: Global,
    day: &Day<'_>,
    row: u64,
    room: u64,
    quotes: &[Event],
) -> Result<Vec<Event>, AllocError>
    requires kept { IsKept day.now }
    ensures { IfOk result (λ made. made.items ≡ refused_in row room quotes.now day.now.events.now) }
{
    let mut kept = Vec::new(alloc);
    append_named(&mut kept, day, row, &printed_identifier(b'R', room))?;
    for quote in quotes {
        append_of_quote(&mut kept, day, quote.at.row, &quote.what)?;
    }
    Ok(kept)
}

/// A cause in words: the text (58) of the answer, where it has one.
fn cause_text(cause: &Option<Identifier>) -> &[u8]
    ensures { result.now ≡ cause_text cause.now }
{
    match cause {
        None => b"no such quote is live (297)",
        Some(text) => text.as_slice(),
    }
}

#[tactic(auto, unfolding(crate::specs::Refused::cause_of))]
fn cause_of(what: &What) -> &[u8]
    ensures { result.now ≡ cause_of what.now }
{
    match what {
        What::Refused(cause) => cause_text(cause),
        _ => b"",
    }
}

/// Adds whose message was refused, what it named, when and why.
fn add_cause(
    alloc: Global,
    page: &mut Page,
    participants: &Participants,
    dated: bool,
    event: &Event,
) -> Result<(), AllocError>
    ensures { OnOk result (page.new ≡ with_part page.old (refused_part participants.now dated event.now)) }
{
    let sender = sender_at(participants, event.at.from);
    let named = text_or_empty(alloc, &event.at.named)?;
    let moment = print_utc(event.at.moment);
    page.add(
        REFUSED,
        &[
            sender,
            &named,
            clock_text(dated, &moment),
            cause_of(&event.what),
        ],
    )
}

fn add_refused(
    alloc: Global,
    page: &mut Page,
    participants: &Participants,
    dated: bool,
    linked: bool,
    event: &Event,
) -> Result<(), AllocError>
    ensures { OnOk result (page.new ≡ with_parts page.old (refused_parts participants.now dated linked event.now)) }
{
    add_cause(alloc, page, participants, dated, event)?;
    add_row_number(alloc, page, linked, event.at.row)?;
    page.add(REFUSED_END, &[])
}

fn add_each_refused(
    alloc: Global,
    page: &mut Page,
    participants: &Participants,
    dated: bool,
    linked: bool,
    events: &[Event],
) -> Result<(), AllocError>
    ensures { OnOk result (page.new ≡ with_parts page.old (flat_map (refused_parts participants.now dated linked) events.now)) }
{
    for event in events {
        add_refused(alloc, page, participants, dated, linked, event)?;
    }
    Ok(())
}

fn add_some_refused(
    alloc: Global,
    page: &mut Page,
    participants: &Participants,
    dated: bool,
    linked: bool,
    events: &[Event],
) -> Result<(), AllocError>
    ensures { OnOk result (page.new ≡ with_parts page.old (some_refused participants.now dated linked events.now)) }
{
    page.add(REFUSED_HERE, &[])?;
    add_each_refused(alloc, page, participants, dated, linked, events)
}

fn add_if_refused(
    alloc: Global,
    page: &mut Page,
    participants: &Participants,
    dated: bool,
    linked: bool,
    events: &[Event],
) -> Result<(), AllocError>
    ensures { OnOk result (page.new ≡ with_parts page.old (if_refused participants.now dated linked events.now)) }
{
    if events.len() == 0 {
        Ok(())
    } else {
        add_some_refused(alloc, page, participants, dated, linked, events)
    }
}

/// Adds what was refused in a room with these quotes, if anything was.
pub(crate) fn add_refusals_in(
    alloc: Global,
    page: &mut Page,
    participants: &Participants,
    day: &Day<'_>,
    row: u64,
    room: u64,
    quotes: &[Event],
) -> Result<(), AllocError>
    requires kept { IsKept day.now }
    ensures { OnOk result (page.new ≡ with_parts page.old (refused_section participants.now day.now.dated day.now.linked (refused_in row room quotes.now day.now.events.now))) }
{
    let refused = refused_in(alloc, day, row, room, quotes)?;
    add_if_refused(alloc, page, participants, day.dated, day.linked, &refused)?;
    page.add(ASKED_END, &[])
}
