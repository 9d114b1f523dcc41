//! Events of a room.

ghost use Rattle.std.specs.Prelude.{◌≡◌, ◌==◌, IfOk, filter};
ghost use Rattle.std.specs.List.{list_any};
ghost use Rattle.request_sections.specs.Picks.{is_asked_in, is_picked, is_silent, names_room};

use day_events::{Event, What};
use day_sections::{is_quoted, keep};
use fix_dictionary::Identifier;
use std::alloc::{AllocError, Global};
use venue_rules::printed_identifier;

/// Which events are picked.
#[derive(Clone, Copy)]
pub enum Pick {
    /// a request, as each recipient was asked in this room
    Asked(u64),
    /// the quotes in this room
    Quotes(u64),
}

/// Whether an identifier is the venue's of a room.
pub(crate) fn names_room(room: u64, id: &Option<Identifier>) -> bool
    ensures { result ≡ names_room room id.now }
{
    match id {
        None => false,
        Some(id) => printed_identifier(b'R', room).is(id),
    }
}

#[tactic(auto, unfolding(crate::specs::Picks::is_asked_in))]
fn is_asked_in(room: u64, what: &What) -> bool
    ensures { result ≡ is_asked_in room what.now }
{
    match what {
        What::Asked(request) => request.room == room,
        _ => false,
    }
}

fn is_picked(pick: &Pick, event: &Event) -> bool
    ensures { result ≡ is_picked pick.now event.now }
{
    match pick {
        Pick::Asked(room) => is_asked_in(*room, &event.what),
        Pick::Quotes(room) => is_quoted(&event.what) && names_room(*room, &event.at.named),
    }
}

/// The events that are picked, in order.
pub(crate) fn picked(alloc: Global, events: &[Event], pick: &Pick) -> Result<Vec<Event>, AllocError>
    ensures { IfOk result (λ kept. kept.items ≡ filter (is_picked pick.now) events.now) }
{
    let mut kept = Vec::new(alloc);
    for event in events {
        keep(&mut kept, event, is_picked(pick, event))?;
    }
    Ok(kept)
}

fn is_from(number: u64, quote: &Event) -> bool
    ensures { result ≡ (quote.now.at.from == number) }
{
    u64::from(quote.at.from) == number
}

/// Whether the participant with this number sent one of these quotes.
fn has_quoted(number: u64, quotes: &[Event]) -> bool
    ensures { result ≡ list_any (λ q. q.at.from == number) quotes.now }
{
    for quote in quotes {
        if is_from(number, quote) {
            return true;
        }
    }
    false
}

/// Whether the one who was asked sent none of these quotes.
fn is_silent(quotes: &[Event], asked: &Event) -> bool
    ensures { result ≡ is_silent quotes.now asked.now }
{
    !has_quoted(u64::from(asked.to.place()) + 1, quotes)
}

/// Of those who were asked those who sent none of these quotes, in order.
pub(crate) fn silent(
    alloc: Global,
    asked: &[Event],
    quotes: &[Event],
) -> Result<Vec<Event>, AllocError>
    ensures { IfOk result (λ kept. kept.items ≡ filter (is_silent quotes.now) asked.now) }
{
    let mut kept = Vec::new(alloc);
    for event in asked {
        keep(&mut kept, event, is_silent(quotes, event))?;
    }
    Ok(kept)
}
