//! What is kept of the rooms, in place of their facts.
ghost use Rattle.std.specs.Prelude.{◌≡◌, ◌≤◌, ◌+◌, [], ◌++◌, length, IfOk, is_some, option_map};
ghost use Rattle.std.specs.Vec.{vec_capacity, vec_len};
ghost use Rattle.venue_rules.specs.Facts.{next_quote, next_room, quotes, rooms as asked};
ghost use Rattle.venue_rules.specs.Rooms.{find_quote, find_room, is_open, open_rooms, room_by_number};
ghost use Rattle.rfq_room.specs.Named.{named_quotes, quote_by_number, quote_room};
ghost use Rattle.rfq_room.specs.Steps.{IsPlanOf};

use crate::live::{add_quotes, clear_live, taken_quotes};
use crate::numbered::{find_quote, find_room, quote_by_number, room_by_number};
use crate::opened::{OpenRoom, add_open, clear_open, count_all_open, count_open};
use crate::room_index::RoomIndex;
use fix_dictionary::Identifier;
use participants::Who;
use sef_moment::Moment;
use std::alloc::{AllocError, Global};
use std::marker::Model;
use venue_rules::{Fact, Room, RoomQuote};

/// Rooms and quotes of a day by number, their states, and those that may not be over yet. Contracts see the day's
/// facts. An end that has passed is known from the moment `seen` on.
#[derive(Drop)]
pub(crate) struct RoomStore {
    known_flags: RoomIndex,
    rooms: Vec<Room>,
    quotes: Vec<RoomQuote>,
    opened: Vec<OpenRoom>,
    live: Vec<RoomQuote>,
    seen: u64,
    headroom: usize,
}

impl Model for RoomStore {
    ghost use Rattle.rfq_room.specs.Contents.{Contents};
    ghost use Rattle.rfq_room.specs.Standing.{IsKept, contents};

    ghost Value = { Contents };

    ghost view = { contents };

    ghost invariant = { IsKept };
}

// Appends the rooms that facts open, within reserved capacity.
fn add_rooms(kept: &mut Vec<Room>, facts: Vec<Fact>)
    requires { vec_len kept.old + length facts.items ≤ vec_capacity kept.old }
    ensures { kept.new.items ≡ kept.old.items ++ asked facts.items }
{
    for fact in facts {
        if let Fact::Asked(room) = fact {
            kept.push_reserved(room);
        }
    }
}

// Reserves spare capacity of the current length in both lists.
fn widen(opened: &mut Vec<OpenRoom>, live: &mut Vec<RoomQuote>) -> Result<(), AllocError>
    ensures opened { opened.new.items ≡ opened.old.items }
    ensures opened_len { vec_len opened.new ≡ vec_len opened.old }
    ensures opened_more { vec_capacity opened.old ≤ vec_capacity opened.new }
    ensures live { live.new.items ≡ live.old.items }
    ensures live_len { vec_len live.new ≡ vec_len live.old }
    ensures live_more { vec_capacity live.old ≤ vec_capacity live.new }
{
    let (open_count, live_count) = (opened.len(), live.len());
    opened.reserve(open_count)?;
    live.reserve(live_count)
}

// Reserves capacity for this many further ones that may not be over yet.
fn reserve_living(
    opened: &mut Vec<OpenRoom>,
    live: &mut Vec<RoomQuote>,
    count: usize,
) -> Result<(), AllocError>
    ensures opened { opened.new.items ≡ opened.old.items }
    ensures opened_len { vec_len opened.new ≡ vec_len opened.old }
    ensures opened_more { vec_capacity opened.old ≤ vec_capacity opened.new }
    ensures opened_room { IfOk result (λ _. vec_len opened.new + count ≤ vec_capacity opened.new) }
    ensures live { live.new.items ≡ live.old.items }
    ensures live_len { vec_len live.new ≡ vec_len live.old }
    ensures live_more { vec_capacity live.old ≤ vec_capacity live.new }
    ensures live_room { IfOk result (λ _. vec_len live.new + count ≤ vec_capacity live.new) }
{
    opened.reserve(count)?;
    live.reserve(count)?;
    Ok(())
}

// Reserves capacity for this many further rooms and quotes.
fn reserve_all(
    rooms: &mut Vec<Room>,
    quotes: &mut Vec<RoomQuote>,
    count: usize,
) -> Result<(), AllocError>
    ensures rooms { rooms.new.items ≡ rooms.old.items }
    ensures rooms_len { vec_len rooms.new ≡ vec_len rooms.old }
    ensures rooms_more { vec_capacity rooms.old ≤ vec_capacity rooms.new }
    ensures rooms_room { IfOk result (λ _. vec_len rooms.new + count ≤ vec_capacity rooms.new) }
    ensures quotes { quotes.new.items ≡ quotes.old.items }
    ensures quotes_len { vec_len quotes.new ≡ vec_len quotes.old }
    ensures quotes_more { vec_capacity quotes.old ≤ vec_capacity quotes.new }
    ensures quotes_room { IfOk result (λ _. vec_len quotes.new + count ≤ vec_capacity quotes.new) }
{
    rooms.reserve(count)?;
    quotes.reserve(count)?;
    Ok(())
}

impl RoomStore {
    pub(crate) fn new(alloc: Global) -> RoomStore
        ensures { result.facts ≡ [] }
    {
        RoomStore {
            known_flags: RoomIndex::new(alloc),
            rooms: Vec::new(alloc),
            quotes: Vec::new(alloc),
            opened: Vec::new(alloc),
            live: Vec::new(alloc),
            seen: 0,
            headroom: 0,
        }
    }

    pub(crate) fn alloc(&self) -> Global {
        *self.rooms.allocator()
    }

    pub(crate) fn known_flags(&self) -> &RoomIndex
        ensures { result.now.facts ≡ self.now.facts }
    {
        &self.known_flags
    }

    /// A room by the venue's identifier.
    pub(crate) fn find_room(&self, id: &Identifier) -> Option<&Room>
        ensures { option_map (λ r. r.now) result ≡ find_room self.now.facts id.now }
    {
        find_room(&self.rooms, id)
    }

    /// A room by its number.
    pub(crate) fn room(&self, number: u64) -> Option<&Room>
        ensures { option_map (λ r. r.now) result ≡ room_by_number self.now.facts number }
    {
        room_by_number(&self.rooms, number)
    }

    /// A quote by the venue's identifier.
    pub(crate) fn find_quote(&self, id: &Identifier) -> Option<&RoomQuote>
        ensures { option_map (λ q. q.now) result ≡ find_quote self.now.facts id.now }
    {
        find_quote(&self.quotes, id)
    }

    /// A quote by its number.
    pub(crate) fn quote(&self, number: u64) -> Option<&RoomQuote>
        ensures { option_map (λ q. q.now) result ≡ quote_by_number self.now.facts number }
    {
        quote_by_number(&self.quotes, number)
    }

    /// The room of the quote with this identifier of the venue's.
    pub(crate) fn quote_room(&self, id: &Identifier) -> Option<&Room>
        ensures { option_map (λ r. r.now) result ≡ quote_room self.now.facts id.now }
    {
        match self.find_quote(id) {
            Some(quote) => self.room(quote.room),
            None => None,
        }
    }

    pub(crate) fn next_room(&self) -> u64
        ensures { result ≡ next_room self.now.facts }
    {
        self.rooms.len() as u64 + 1
    }

    pub(crate) fn next_quote(&self) -> u64
        ensures { result ≡ next_quote self.now.facts }
    {
        self.quotes.len() as u64 + 1
    }

    /// The rooms, by number.
    pub(crate) fn rooms(&self) -> &[Room]
        ensures { result.now ≡ asked self.now.facts }
    {
        &self.rooms
    }

    /// The quotes, by number.
    pub(crate) fn quotes(&self) -> &[RoomQuote]
        ensures { result.now ≡ quotes self.now.facts }
    {
        &self.quotes
    }

    pub(crate) fn is_open(&self, moment: Moment, room: &Room) -> bool
        ensures { result ≡ is_open self.now.facts moment room.now }
    {
        self.known_flags.is_open(moment, room.number, room.end)
    }

    /// The number of rooms open at a moment.
    pub(crate) fn count_open(&self, moment: Moment) -> usize
        ensures { result ≡ length (open_rooms self.now.facts moment) }
    {
        if moment.ms() < self.seen {
            return count_all_open(&self.known_flags, moment, &self.rooms);
        }
        count_open(&self.known_flags, moment, &self.opened)
    }

    /// A maker's live quotes by number; with a name, those with this identifier.
    pub(crate) fn named_quotes(
        &self,
        maker: Who,
        moment: Moment,
        named: Option<&Identifier>,
    ) -> Result<Vec<RoomQuote>, AllocError>
        ensures { IfOk result (λ v. v.items ≡ named_quotes self.now.facts maker moment (option_map (λ n. n.now) named.entry)) }
    {
        let alloc = self.alloc();
        if moment.ms() < self.seen {
            return taken_quotes(alloc, &self.known_flags, maker, moment, named, &self.quotes);
        }
        taken_quotes(alloc, &self.known_flags, maker, moment, named, &self.live)
    }

    // Removes the rooms and quotes that are over at a moment.
    fn clear(&mut self, moment: Moment)
        ensures { self.new.facts ≡ self.old.facts }
    {
        clear_open(&self.known_flags, moment, &mut self.opened);
        clear_live(&self.known_flags, moment, &mut self.live);
        self.seen = self.seen.max(moment.ms());
    }

    // Whether adding this many first requires a removal of those that are over.
    fn is_full(&self, count: usize) -> bool {
        self.opened.capacity() - self.opened.len() < count
            || self.live.capacity() - self.live.len() < count
    }

    // Where this many lack capacity: removes what is over at a moment, then reserves as much again as is left.
    fn clear_full(&mut self, count: usize, moment: Moment) -> Result<(), AllocError>
        ensures { self.new.facts ≡ self.old.facts }
    {
        if !self.is_full(count) {
            return Ok(());
        }
        self.clear(moment);
        widen(&mut self.opened, &mut self.live)
    }

    /// Reserves capacity for this many facts; removes what is over at the moment where capacity lacks.
    pub(crate) fn reserve_for(&mut self, count: usize, moment: Moment) -> Result<(), AllocError>
        ensures kept { self.new.facts ≡ self.old.facts }
        ensures headroom { IfOk result (λ _. count ≤ self.new.spare.headroom) }
    {
        self.clear_full(count, moment)?;
        reserve_living(&mut self.opened, &mut self.live, count)?;
        reserve_all(&mut self.rooms, &mut self.quotes, count)?;
        self.known_flags.reserve(count)?;
        self.headroom = count;
        Ok(())
    }

    /// Adds the facts of a plan made from this state.
    pub(crate) fn add(&mut self, facts: Vec<Fact>)
        requires { IsPlanOf self.old facts.items }
        ensures { self.new.facts ≡ self.old.facts ++ facts.items }
    {
        add_open(&mut self.opened, &facts);
        add_quotes(&mut self.live, &facts);
        add_quotes(&mut self.quotes, &facts);
        self.known_flags.add(&facts);
        self.headroom = 0;
        add_rooms(&mut self.rooms, facts);
    }
}
