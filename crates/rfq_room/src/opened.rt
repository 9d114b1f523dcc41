//! Open rooms, among those not known to be over.
ghost use Rattle.std.specs.Prelude.{◌≡◌, ◌≤◌, filter, length, map, ◌+◌, ◌++◌, if◌then◌else◌};
ghost use Rattle.std.specs.Vec.{vec_capacity, vec_len};
ghost use Rattle.venue_rules.specs.Facts.{rooms as asked};
ghost use Rattle.venue_rules.specs.Rooms.{is_open};
ghost use Rattle.rfq_room.specs.Openness.{is_still_open, open_room};

use crate::facts::room_in;
use crate::room_index::RoomIndex;
use sef_moment::Moment;
use venue_rules::{Fact, Room};

/// A room that may still be open: its number and its end.
#[derive(Clone, Copy)]
pub(crate) struct OpenRoom {
    pub number: u64,
    pub end: Moment,
}

fn open_room(room: &Room) -> OpenRoom
    ensures { result ≡ open_room room.now }
{
    OpenRoom {
        number: room.number,
        end: room.end,
    }
}

fn is_still_open(known_flags: &RoomIndex, moment: Moment, room: &OpenRoom) -> bool
    ensures { result ≡ is_still_open known_flags.now.facts moment room.now }
{
    known_flags.is_open(moment, room.number, room.end)
}

// 1 for what is counted, else 0.
fn counted(counts: bool) -> usize
    ensures value { result ≡ if counts then 1 else 0 }
    ensures bound { result ≤ 1 }
{
    if counts { 1 } else { 0 }
}

/// The number of these that are open at a moment.
pub(crate) fn count_open(known_flags: &RoomIndex, moment: Moment, rooms: &[OpenRoom]) -> usize
    ensures { result ≡ length (filter (is_still_open known_flags.now.facts moment) rooms.now) }
{
    let mut count = 0;
    for room in rooms {
        count += counted(is_still_open(known_flags, moment, room));
    }
    count
}

/// The number of these rooms that are open at a moment.
pub(crate) fn count_all_open(known_flags: &RoomIndex, moment: Moment, rooms: &[Room]) -> usize
    ensures { result ≡ length (filter (is_open known_flags.now.facts moment) rooms.now) }
{
    let mut count = 0;
    for room in rooms {
        count += counted(known_flags.is_open(moment, room.number, room.end));
    }
    count
}

/// Removes those that are over at a moment.
pub(crate) fn clear_open(known_flags: &RoomIndex, moment: Moment, rooms: &mut Vec<OpenRoom>)
    ensures items { rooms.new.items ≡ filter (is_still_open known_flags.now.facts moment) rooms.old.items }
    ensures len { vec_len rooms.new ≤ vec_len rooms.old }
    ensures capacity { vec_capacity rooms.new ≡ vec_capacity rooms.old }
{
    rooms.retain(|room| is_still_open(known_flags, moment, room));
}

/// Appends the rooms that facts open, within reserved capacity.
#[tactic(auto, using(crate::proofs::Adding::open_on))]
pub(crate) fn add_open(rooms: &mut Vec<OpenRoom>, facts: &[Fact])
    requires { vec_len rooms.old + length facts.now ≤ vec_capacity rooms.old }
    ensures { rooms.new.items ≡ rooms.old.items ++ map open_room (asked facts.now) }
{
    for fact in facts {
        if let Some(room) = room_in(fact) {
            rooms.push_reserved(open_room(room));
        }
    }
}
