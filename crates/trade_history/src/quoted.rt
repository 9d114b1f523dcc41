//! Readings of a day's rooms with a quote.
ghost use Rattle.std.specs.Prelude.{◌≡◌, ◌≤◌, ◌<◌, [], ◌∷◌, ◌++◌, map, option_map, Some, IfOk, OnOk};
ghost use Rattle.std.specs.Vec.{vec_capacity, vec_len};
ghost use Rattle.venue_rules.specs.Readings.{shown_order};
ghost use Rattle.trade_history.specs.ByNumber.{AreRising, put, with_number};
ghost use Rattle.trade_history.specs.Quoted.{found, room_shown};

use ghost_history::GhostHistory;
use std::alloc::{AllocError, Global};
use std::marker::Model;
use venue_rules::{Recipients, Room, RoomFact, Shown, ShownOrder, SnapshotEntry};

/// The rooms with a quote so far, by number; contracts see them by their first quotes.
pub struct QuotedRooms {
    past: GhostHistory<RoomFact>,
    read: Vec<RoomFact>,
}

// Written-out drop (docs/ARCHITECTURE.md).
impl Drop for QuotedRooms {
    fn drop(self) {
        let QuotedRooms {
            past: _past,
            read: _read,
        } = self;
    }
}

impl Model for QuotedRooms {
    ghost use Rattle.trade_history.specs.ByNumber.{IsByNumber, quoted};
    ghost use Rattle.trade_history.specs.Quoted.{Quoted};

    ghost Value = { Quoted };

    ghost view = { quoted };

    ghost invariant = { IsByNumber };
}

// The room, if it has this number.
fn with_number(room: &RoomFact, number: u64) -> Option<&RoomFact>
    ensures { option_map (λ f. f.now) result ≡ with_number number (Some room.now) }
{
    if room.number == number {
        Some(room)
    } else {
        None
    }
}

// The first room with this number; `rooms` is in order of the numbers.
fn find(rooms: &[RoomFact], number: u64) -> Option<&RoomFact>
    requires { AreRising 0 rooms.now }
    ensures { option_map (λ f. f.now) result ≡ found number rooms.now }
{
    let at = rooms.partition_point(|room| room.number < number);
    let Some(room) = rooms.get(at) else {
        return None;
    };
    with_number(room, number)
}

// Inserts a room behind those with no greater number, within reserved capacity.
fn put(read: &mut Vec<RoomFact>, fact: RoomFact)
    requires rising { AreRising 0 read.old.items }
    requires room { vec_len read.old < vec_capacity read.old }
    ensures { read.new.items ≡ put fact read.old.items }
{
    let number = fact.number;
    let at = read.partition_point(|room| room.number <= number);
    let _inserted = read.insert(at, fact);
}

impl QuotedRooms {
    pub fn new(alloc: Global) -> QuotedRooms
        ensures { result.rooms ≡ [] }
    {
        QuotedRooms {
            past: GhostHistory::new(),
            read: Vec::new(alloc),
        }
    }

    /// The room with this number, if it had a quote.
    pub fn find(&self, number: u64) -> Option<&RoomFact>
        ensures { option_map (λ f. f.now) result ≡ found number self.now.rooms }
    {
        find(&self.read, number)
    }

    /// Reserves capacity for a further room. The rooms stay, also after an allocation failure.
    pub fn reserve(&mut self) -> Result<(), AllocError>
        ensures kept { self.new.rooms ≡ self.old.rooms }
        ensures room { OnOk result (1 ≤ self.new.room) }
    {
        self.read.reserve(1)
    }

    /// Adds a room, within reserved capacity.
    pub fn add(&mut self, fact: RoomFact)
        requires { 1 ≤ self.old.room }
        ensures { self.new.rooms ≡ self.old.rooms ++ fact ∷ [] }
    {
        self.past.add(&fact);
        put(&mut self.read, fact);
    }
}

// Readings of a snapshot's orders.
#[tactic(auto, using(crate::proofs::Finding::shown_mores))]
fn shown_orders(alloc: Global, entries: &[SnapshotEntry]) -> Result<Vec<ShownOrder>, AllocError>
    ensures { IfOk result (λ v. v.items ≡ map shown_order entries.now) }
{
    let mut orders = Vec::with_capacity(alloc, entries.len())?;
    for entry in entries {
        orders.push(ShownOrder {
            order: entry.order,
            left: entry.left,
        })?;
    }
    Ok(orders)
}

/// Reading of a room, with the number of its first quote and the orders that rested in the book then.
pub fn quoted_room(
    alloc: Global,
    room: &Room,
    first: u64,
    entries: &[SnapshotEntry],
) -> Result<RoomFact, AllocError>
    ensures { IfOk result (λ f. f ≡ room_shown room.now first entries.now) }
{
    let asked = Vec::from_slice(alloc, room.recipients.as_slice())?;
    let shown = shown_orders(alloc, entries)?;
    Ok(RoomFact {
        number: room.number,
        requester: room.requester,
        asked: Recipients::from_vec(asked),
        first,
        shown: Shown::from_vec(shown),
    })
}
