//! What became of a quote.

ghost use Rattle.std.specs.Prelude.{◌≡◌};
ghost use Rattle.request_sections.specs.Fate.{at_end, decided, end_in, ended, fate_at, in_room, in_time, names_quote, outcome_of, passed, replaced, traded, withdrawn};

use crate::picks::names_room;
use day_events::{Event, NewQuote, RoomTrade, What};
use fix_dictionary::Identifier;
use sef_moment::Moment;
use venue_rules::printed_identifier;

/// What became of a quote.
#[derive(Clone, Copy)]
pub enum Fate {
    /// live at the last row
    Live,
    /// hit, in this trade
    Hit(u64),
    /// withdrawn by its maker, at this row
    Withdrawn(u64),
    /// passed by the requester, at this row
    Passed(u64),
    /// replaced by this quote of its maker in the same room
    Replaced(u64),
    /// another quote of the room was hit
    NotTaken,
    RanOut,
}

/// A quote of a room.
#[derive(Clone, Copy)]
pub struct Quoted {
    pub quote: u64,
    pub room: u64,
    /// who sent it, by its place plus 1
    pub from: u32,
    pub end: Moment,
}

/// Whether an identifier is the venue's of a quote.
fn names_quote(quote: u64, id: &Option<Identifier>) -> bool
    ensures { result ≡ names_quote quote id.now }
{
    match id {
        None => false,
        Some(id) => printed_identifier(b'Q', quote).is(id),
    }
}

fn traded(quoted: &Quoted, named: &Option<Identifier>, trade: &RoomTrade) -> Option<Fate>
    ensures { result ≡ traded quoted.now named.now trade.now }
{
    if trade.room != quoted.room {
        None
    } else if names_quote(quoted.quote, named) {
        Some(Fate::Hit(trade.trade))
    } else {
        Some(Fate::NotTaken)
    }
}

fn replaced(
    quoted: &Quoted,
    from: u32,
    named: &Option<Identifier>,
    quote: &NewQuote,
) -> Option<Fate>
    ensures { result ≡ replaced quoted.now from named.now quote.now }
{
    if quote.quote > quoted.quote && from == quoted.from && names_room(quoted.room, named) {
        Some(Fate::Replaced(quote.quote))
    } else {
        None
    }
}

/// What ends a quote of its room, if an event does.
#[tactic(auto, unfolding(crate::specs::Fate::decided))]
pub(crate) fn decided(quoted: &Quoted, event: &Event) -> Option<Fate>
    ensures { result ≡ decided quoted.now event.now.at event.now.what }
{
    match &event.what {
        What::Traded(trade) => traded(quoted, &event.at.named, trade),
        What::Quoted(quote) => replaced(quoted, event.at.from, &event.at.named, quote),
        _ => None,
    }
}

/// What becomes of it at a moment: it may have run out before.
fn in_time(quoted: &Quoted, moment: Moment, fate: Option<Fate>) -> Option<Fate>
    ensures { result ≡ in_time quoted.now moment fate }
{
    match fate {
        None => None,
        Some(fate) => if quoted.end.ms() < moment.ms() {
            Some(Fate::RanOut)
        } else {
            Some(fate)
        },
    }
}

fn fate_at(quoted: &Quoted, event: &Event) -> Option<Fate>
    ensures { result ≡ fate_at quoted.now event.now }
{
    in_time(quoted, event.at.moment, decided(quoted, event))
}

fn at_end(quoted: &Quoted, last: Option<Moment>) -> Fate
    ensures { result ≡ at_end quoted.now last }
{
    match last {
        None => Fate::Live,
        Some(last) => if quoted.end.ms() < last.ms() {
            Fate::RanOut
        } else {
            Fate::Live
        },
    }
}

/// What became of a quote by the moment of the last row, by what its room says.
fn in_room(quoted: &Quoted, last: Option<Moment>, said: &[Event]) -> Fate
    ensures { result ≡ in_room quoted.now last said.now }
{
    for event in said {
        if let Some(fate) = fate_at(quoted, event) {
            return fate;
        }
    }
    at_end(quoted, last)
}

fn withdrawn(quoted: &Quoted, row: u64, id: &Option<Identifier>) -> Option<Fate>
    ensures { result ≡ withdrawn quoted.now row id.now }
{
    if names_quote(quoted.quote, id) {
        Some(Fate::Withdrawn(row))
    } else {
        None
    }
}

fn passed(quoted: &Quoted, row: u64, named: &Option<Identifier>) -> Option<Fate>
    ensures { result ≡ passed quoted.now row named.now }
{
    if names_quote(quoted.quote, named) {
        Some(Fate::Passed(row))
    } else {
        None
    }
}

/// That its maker withdrew a quote, or the requester passed it, if an event says so.
#[tactic(auto, unfolding(crate::specs::Fate::ended))]
pub(crate) fn ended(quoted: &Quoted, event: &Event) -> Option<Fate>
    ensures { result ≡ ended quoted.now event.now.at event.now.what }
{
    match &event.what {
        What::Withdrawn(id) => withdrawn(quoted, event.at.row, id),
        What::Passed => passed(quoted, event.at.row, &event.at.named),
        _ => None,
    }
}

fn end_in(quoted: &Quoted, events: &[Event]) -> Option<Fate>
    ensures { result ≡ end_in quoted.now events.now }
{
    for event in events {
        if let Some(fate) = ended(quoted, event) {
            return Some(fate);
        }
    }
    None
}

/// What became of a quote by the moment of the last row: it was withdrawn or passed, or else what its room says.
pub(crate) fn outcome_of(
    quoted: &Quoted,
    last: Option<Moment>,
    said: &[Event],
    ends: &[Event],
) -> Fate
    ensures { result ≡ outcome_of quoted.now last said.now ends.now }
{
    match end_in(quoted, ends) {
        Some(fate) => fate,
        None => in_room(quoted, last, said),
    }
}
