//! The timeline of a request: how long each quote was live.

ghost use Rattle.std.specs.Prelude.{◌≡◌, ◌<◌, OnOk, min};
ghost use Rattle.page_text.specs.Parts.{with_part};
ghost use Rattle.request_sections.specs.Lives.{at_least_one, axis_of, capped, end_moment, end_part, greater, latest, life_part, live_until, or_last, place, room_moment, stated_end};

use crate::fate::{Quoted, decided, ended};
use crate::template::{HIT_AT, LIFE, LIFE_END};
use day_events::{Event, What};
use day_tables::number_text;
use page_text::Page;
use sef_moment::Moment;
use std::alloc::{AllocError, Global};

/// The time that is drawn of a request, from `start` on, in milliseconds.
#[derive(Clone, Copy)]
pub struct Axis {
    pub start: u64,
    pub span: u64,
    /// where that ends, in parts of 10,000
    pub parts: u64,
    pub traded: bool,
}

/// When a quote was withdrawn or passed.
fn end_moment(quoted: &Quoted, events: &[Event]) -> Option<u64>
    ensures { result ≡ end_moment quoted.now events.now }
{
    for event in events {
        if let Some(_) = ended(quoted, event) {
            return Some(event.at.moment.ms());
        }
    }
    None
}

/// When its room decided it.
fn room_moment(quoted: &Quoted, said: &[Event]) -> Option<u64>
    ensures { result ≡ room_moment quoted.now said.now }
{
    for event in said {
        if let Some(_) = decided(quoted, event) {
            return Some(event.at.moment.ms());
        }
    }
    None
}

fn or_last(decided: Option<u64>, last: Option<Moment>) -> Option<u64>
    ensures { result ≡ or_last decided last }
{
    match decided {
        Some(moment) => Some(moment),
        None => match last {
            Some(last) => Some(last.ms()),
            None => None,
        },
    }
}

fn capped(end: u64, moment: Option<u64>) -> u64
    ensures { result ≡ capped end moment }
{
    match moment {
        None => end,
        Some(moment) => end.min(moment),
    }
}

/// Until when a quote was live.
pub(crate) fn live_until(
    quoted: &Quoted,
    last: Option<Moment>,
    said: &[Event],
    ends: &[Event],
) -> u64
    ensures { result ≡ live_until quoted.now last said.now ends.now }
{
    match end_moment(quoted, ends) {
        Some(moment) => moment,
        None => capped(quoted.end.ms(), or_last(room_moment(quoted, said), last)),
    }
}

fn greater(a: u64, b: u64) -> u64
    ensures { result ≡ greater a b }
{
    if a < b { b } else { a }
}

#[tactic(auto, unfolding(crate::specs::Lives::stated_end))]
fn stated_end(what: &What) -> u64
    ensures { result ≡ stated_end what.now }
{
    match what {
        What::Quoted(quote) => quote.end.ms(),
        _ => 0,
    }
}

/// The last moment of quotes, and of their stated ends.
fn latest(start: u64, quotes: &[Event]) -> u64
    ensures { result ≡ latest start quotes.now }
{
    let mut last = start;
    for quote in quotes {
        last = greater(last, greater(quote.at.moment.ms(), stated_end(&quote.what)));
    }
    last
}

/// The time that is drawn of a request.
pub(crate) fn axis_of(start: u64, hit: Option<u64>, quotes: &[Event]) -> Axis
    ensures { result ≡ axis_of start hit quotes.now }
{
    match hit {
        Some(hit) => Axis {
            start,
            span: hit.saturating_sub(start),
            parts: 9_000,
            traded: true,
        },
        None => Axis {
            start,
            span: latest(start, quotes).saturating_sub(start),
            parts: 10_000,
            traded: false,
        },
    }
}

fn at_least_one(span: u64) -> u64
    ensures result { result ≡ at_least_one span }
    ensures some { 0 < result }
{
    if span == 0 { 1 } else { span }
}

fn at_most_all(part: u128) -> u64
    ensures { result ≡ min part 10000 }
{
    if part < 10_000 { part as u64 } else { 10_000 }
}

/// Where a moment is, in parts of 10,000.
fn place(axis: &Axis, moment: u64) -> u64
    ensures { result ≡ place axis.now moment }
{
    let passed = u128::from(moment.saturating_sub(axis.start));
    at_most_all(passed * u128::from(axis.parts) / u128::from(at_least_one(axis.span)))
}

/// Adds how long a quote was live, and the line on to its stated end.
pub(crate) fn add_life(
    alloc: Global,
    page: &mut Page,
    axis: &Axis,
    from: u64,
    until: u64,
    end: u64,
) -> Result<(), AllocError>
    ensures { OnOk result (page.new ≡ with_part page.old (life_part axis.now from until end)) }
{
    let start = place(axis, from);
    let from = number_text(alloc, start)?;
    let to = number_text(alloc, place(axis, end))?;
    let width = number_text(alloc, place(axis, until).saturating_sub(start))?;
    page.add(LIFE, &[&from, &to, &from, &width])
}

/// Adds the end of a timeline, in a room with a trade behind the hit.
pub(crate) fn add_life_end(page: &mut Page, traded: bool) -> Result<(), AllocError>
    ensures { OnOk result (page.new ≡ with_part page.old (end_part traded)) }
{
    if traded {
        page.add(HIT_AT, &[])
    } else {
        page.add(LIFE_END, &[])
    }
}
