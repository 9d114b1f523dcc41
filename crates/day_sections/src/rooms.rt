//! The requests for quotes of a day.

ghost use Rattle.std.specs.Prelude.{◌≡◌, ◌++◌, IfOk, OnOk, count_by, length};
ghost use Rattle.day_sections.specs.Rooms.{asked_room, is_first_asked, is_made, kept_if, room_after, rooms_from};

use day_events::{
    Event, FilledOrder, NewOrder, NewQuote, NewRequest, Origin, RecentOrder, RoomTrade, What,
};
use fix_dictionary::{Amount, Identifier, Price, Quantity, Side};
use participants::Who;
use sef_moment::Moment;
use std::alloc::{AllocError, Global};

/// The room that an event asks in; 0 for another event.
#[tactic(auto, unfolding(crate::specs::Rooms::asked_room))]
fn asked_room(what: &What) -> u64
    ensures { result ≡ asked_room what.now }
{
    match what {
        What::Asked(request) => request.room,
        _ => 0,
    }
}

/// Appends an event, if it is kept.
pub fn keep(events: &mut Vec<Event>, event: &Event, kept: bool) -> Result<(), AllocError>
    ensures { OnOk result (events.new.items ≡ events.old.items ++ kept_if kept event.now) }
{
    // Types of an event's content, named here because the proof of the push needs each.
    let _origin: Option<Origin> = None;
    let _who: Option<Who> = None;
    let _what: Option<What> = None;
    let _entered: Option<NewOrder> = None;
    let _recent: Option<RecentOrder> = None;
    let _filled: Option<FilledOrder> = None;
    let _asked: Option<NewRequest> = None;
    let _quoted: Option<NewQuote> = None;
    let _traded: Option<RoomTrade> = None;
    let _side: Option<Side> = None;
    let _price: Option<Price> = None;
    let _quantity: Option<Quantity> = None;
    let _amount: Option<Amount> = None;
    let _moment: Option<Moment> = None;
    let _name: Option<Identifier> = None;
    if !kept {
        return Ok(());
    }
    match events.push(*event) {
        Ok(()) => Ok(()),
        Err(_) => Err(AllocError),
    }
}

/// How many events there are.
pub fn many(events: &[Event]) -> u64
    ensures { result ≡ length events.now }
{
    events.len() as u64
}

/// Whether an event is the first that asks in its room, behind those of the room `last`.
fn is_first_asked(last: u64, what: &What) -> bool
    ensures { result ≡ is_first_asked last what.now }
{
    let room = asked_room(what);
    room != 0 && room != last
}

/// The room asked in last.
fn room_after(last: u64, what: &What) -> u64
    ensures { result ≡ room_after last what.now }
{
    let room = asked_room(what);
    if room == 0 { last } else { room }
}

/// The requests: of each room the first event that asks in it.
pub fn rooms_of(alloc: Global, events: &[Event]) -> Result<Vec<Event>, AllocError>
    ensures { IfOk result (λ rooms. rooms.items ≡ rooms_from 0 events.now) }
{
    let mut rooms = Vec::new(alloc);
    let mut last = 0;
    for event in events {
        keep(&mut rooms, event, is_first_asked(last, &event.what))?;
        last = room_after(last, &event.what);
    }
    Ok(rooms)
}

/// Whether a request is of the participant at this place.
fn is_made(place: u32, opened: &Event) -> bool
    ensures { result ≡ is_made place opened.now }
{
    u64::from(opened.at.from) == u64::from(place) + 1
}

/// How many requests the participant at this place made.
pub(crate) fn count_made(rooms: &[Event], place: u32) -> usize
    ensures { result ≡ count_by (is_made place) rooms.now }
{
    rooms.iter().filter(|room| is_made(place, room)).count()
}
