//! The section of the requests for quotes: all of a day, above 60 by the hour.

ghost use Rattle.std.specs.Prelude.{◌≡◌, ◌≤◌, OnOk, IfOk, cond, count_by, is_some, option_copied};
ghost use Rattle.page_text.specs.Parts.{with_part, with_parts};
ghost use Rattle.std.specs.List.{flat_map};
ghost use Rattle.day_sections.specs.Folds.{folds, within};
ghost use Rattle.request_sections.specs.Requests.{IsKept, by_hour, has_trade, hour_part, hour_parts, hour_text, hours, listed_parts, requests_parts, room_of, room_text, sections_of, sheet_of, some_requests, trade_in};

use crate::day::Day;
use crate::filed::filed;
use crate::keys::By;
use crate::prices::rises;
use crate::requests::{add_each, said_of, trade_in};
use crate::template::{HOUR_OF_REQUESTS, HOUR_OF_REQUESTS_END, NO_REQUEST, REQUESTS, SECTION_END};
use day_events::{Event, ShownPrice, What};
use day_sections::{
    Fold, are_shown, folds_of, hour_of, is_dated, last_moment, rooms_of, up_to, within,
};
use day_tables::{grouped_text, number_text};
use instruments::Instruments;
use page_text::Page;
use participants::Participants;
use sef_moment::print_utc;
use std::alloc::{AllocError, Global};
use venue_rules::TrailRow;

/// The most requests that are not by the hour.
const MOST_LISTED: usize = 60;

/// The hours of requests.
fn hours_of(alloc: Global, rooms: &[Event]) -> Result<Vec<u64>, AllocError>
    ensures { IfOk result (λ made. made.items ≡ hours rooms.now) }
{
    let mut hours = Vec::new(alloc);
    for room in rooms {
        hours.push(hour_of(room.at.moment))?;
    }
    Ok(hours)
}

/// The date and hour of a request, as 20250303-14.
fn hour_text(alloc: Global, room: Option<&Event>) -> Result<Vec<u8>, AllocError>
    ensures { IfOk result (λ text. text.items ≡ hour_text (option_copied room.entry)) }
{
    match room {
        None => Ok(Vec::new(alloc)),
        Some(room) => {
            let moment = print_utc(room.at.moment);
            Vec::from_slice(alloc, up_to(&moment, 11))
        }
    }
}

#[tactic(auto, unfolding(crate::specs::Requests::room_of))]
fn room_of(alloc: Global, what: &What) -> Result<Vec<u8>, AllocError>
    ensures { IfOk result (λ text. text.items ≡ room_of what.now) }
{
    match what {
        What::Asked(request) => number_text(alloc, request.room),
        _ => Ok(Vec::new(alloc)),
    }
}

fn room_text(alloc: Global, room: Option<&Event>) -> Result<Vec<u8>, AllocError>
    ensures { IfOk result (λ text. text.items ≡ room_text (option_copied room.entry)) }
{
    match room {
        None => Ok(Vec::new(alloc)),
        Some(room) => room_of(alloc, &room.what),
    }
}

fn traded_in(day: &Day<'_>, room: u64) -> bool
    requires kept { IsKept day.now }
    ensures { result ≡ is_some (trade_in room day.now.events.now) }
{
    trade_in(room, said_of(day, room)).is_some()
}

/// Whether a request traded.
#[tactic(auto, unfolding(crate::specs::Requests::has_trade))]
fn has_trade(day: &Day<'_>, what: &What) -> bool
    requires kept { IsKept day.now }
    ensures { result ≡ has_trade day.now.events.now what.now }
{
    match what {
        What::Asked(request) => traded_in(day, request.room),
        _ => false,
    }
}

fn one_if(test: bool) -> u64
    ensures result { result ≡ cond test 1 0 }
    ensures few { result ≤ 1 }
{
    if test { 1 } else { 0 }
}

/// How many of some requests traded.
fn count_traded(day: &Day<'_>, rooms: &[Event]) -> u64
    requires kept { IsKept day.now }
    ensures { result ≡ count_by (λ e. has_trade day.now.events.now e.what) rooms.now }
{
    let mut count = 0;
    for room in rooms {
        count += one_if(has_trade(day, &room.what));
    }
    count
}

/// Adds the hour of some requests; how many they are and how many of them traded, the first and the last.
fn add_hour_head(
    alloc: Global,
    page: &mut Page,
    day: &Day<'_>,
    rooms: &[Event],
) -> Result<(), AllocError>
    requires kept { IsKept day.now }
    ensures { OnOk result (page.new ≡ with_part page.old (hour_part day.now.events.now rooms.now)) }
{
    let hour = hour_text(alloc, rooms.first())?;
    let count = grouped_text(alloc, rooms.len() as u64)?;
    let traded = grouped_text(alloc, count_traded(day, rooms))?;
    let first = room_text(alloc, rooms.first())?;
    let last = room_text(alloc, rooms.last())?;
    page.add(HOUR_OF_REQUESTS, &[&hour, &count, &traded, &first, &last])
}

/// Adds the requests of an hour, in a fold.
fn add_hour(
    alloc: Global,
    page: &mut Page,
    participants: &Participants,
    day: &Day<'_>,
    rooms: &[Event],
) -> Result<(), AllocError>
    requires kept { IsKept day.now }
    ensures { OnOk result (page.new ≡ with_parts page.old (hour_parts participants.now (sheet_of day.now) rooms.now)) }
{
    add_hour_head(alloc, page, day, rooms)?;
    add_each(alloc, page, participants, day, rooms)?;
    page.add(HOUR_OF_REQUESTS_END, &[])
}

/// The folds of requests by the hour.
fn folds_by_hour(alloc: Global, rooms: &[Event]) -> Result<Vec<Fold>, AllocError>
    ensures { IfOk result (λ made. made.items ≡ folds (hours rooms.now)) }
{
    let hours = hours_of(alloc, rooms)?;
    folds_of(alloc, &hours)
}

/// Adds the hours of requests.
fn add_each_hour(
    alloc: Global,
    page: &mut Page,
    participants: &Participants,
    day: &Day<'_>,
    rooms: &[Event],
    folds: &[Fold],
) -> Result<(), AllocError>
    requires kept { IsKept day.now }
    ensures { OnOk result (page.new ≡ with_parts page.old (flat_map (λ f. hour_parts participants.now (sheet_of day.now) (within f rooms.now)) folds.now)) }
{
    for fold in folds {
        add_hour(alloc, page, participants, day, within(rooms, *fold))?;
    }
    Ok(())
}

/// Adds requests by the hour.
fn add_by_hour(
    alloc: Global,
    page: &mut Page,
    participants: &Participants,
    day: &Day<'_>,
    rooms: &[Event],
) -> Result<(), AllocError>
    requires kept { IsKept day.now }
    ensures { OnOk result (page.new ≡ with_parts page.old (by_hour participants.now (sheet_of day.now) rooms.now)) }
{
    let folds = folds_by_hour(alloc, rooms)?;
    add_each_hour(alloc, page, participants, day, rooms, &folds)
}

/// Adds the requests, above 60 by the hour.
fn add_listed(
    alloc: Global,
    page: &mut Page,
    participants: &Participants,
    day: &Day<'_>,
    rooms: &[Event],
) -> Result<(), AllocError>
    requires kept { IsKept day.now }
    ensures { OnOk result (page.new ≡ with_parts page.old (listed_parts participants.now (sheet_of day.now) rooms.now)) }
{
    if rooms.len() <= MOST_LISTED {
        add_each(alloc, page, participants, day, rooms)
    } else {
        add_by_hour(alloc, page, participants, day, rooms)
    }
}

/// Adds the section of a day with requests.
fn add_some(
    alloc: Global,
    page: &mut Page,
    participants: &Participants,
    day: &Day<'_>,
    rooms: &[Event],
) -> Result<(), AllocError>
    requires kept { IsKept day.now }
    ensures { OnOk result (page.new ≡ with_parts page.old (some_requests participants.now (sheet_of day.now) rooms.now)) }
{
    let count = grouped_text(alloc, rooms.len() as u64)?;
    page.add(REQUESTS, &[&count])?;
    add_listed(alloc, page, participants, day, rooms)?;
    page.add(SECTION_END, &[])
}

fn add_rooms(
    alloc: Global,
    page: &mut Page,
    participants: &Participants,
    day: &Day<'_>,
    rooms: &[Event],
) -> Result<(), AllocError>
    requires kept { IsKept day.now }
    ensures { OnOk result (page.new ≡ with_parts page.old (sections_of participants.now (sheet_of day.now) rooms.now)) }
{
    if rooms.len() == 0 {
        page.add(NO_REQUEST, &[])
    } else {
        add_some(alloc, page, participants, day, rooms)
    }
}

/// Adds the section of the requests for quotes, by the rows of the day, what its answers said and the prices shown.
/// Rows are links, if they are on the page. Prices have the decimals of their instruments' ticks. Times stand with
/// their dates, if the first and the last row are of two.
pub fn add_requests(
    alloc: Global,
    page: &mut Page,
    participants: &Participants,
    instruments: &Instruments,
    rows: &[TrailRow],
    events: &[Event],
    shown: &[ShownPrice],
) -> Result<(), AllocError>
    ensures { OnOk result (page.new ≡ with_parts page.old (requests_parts participants.now instruments.now rows.now events.now shown.now)) }
{
    let requests = rooms_of(alloc, events)?;
    let count = requests.len();
    let rooms = filed(alloc, events, By::Room, count)?;
    let ends = filed(alloc, events, By::Quote, count)?;
    let day = Day {
        linked: are_shown(rows),
        dated: is_dated(rows),
        last: last_moment(rows),
        count,
        events,
        shown,
        instruments,
        ordered: rises(shown),
        rooms: &rooms,
        ends: &ends,
    };
    add_rooms(alloc, page, participants, &day, &requests)
}
