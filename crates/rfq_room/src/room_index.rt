//! States of rooms and quotes, and used identifiers.
ghost use Rattle.std.specs.Prelude.{◌≡◌, ℕ, ◌+◌, ◌≤◌, ◌||◌, ◌++◌, [], length, is_some, option_map, IfOk, OnErr, List, All};
ghost use Rattle.std.specs.List.{list_any};
ghost use Rattle.std.specs.Option.{option_or};
ghost use Rattle.client_ids.specs.ClientIds.{is_of};
ghost use Rattle.venue_rules.specs.Facts.{is_quote_id_used, is_request_id_used};
ghost use Rattle.venue_rules.specs.Rooms.{first_quote, is_closed, is_live, is_replaced, is_withdrawn};
ghost use Rattle.rfq_room.specs.Flags.{is_set};
ghost use Rattle.rfq_room.specs.LastQuotes.{last_in};
ghost use Rattle.rfq_room.specs.Flagged.{AreThere, IsThere, count_of, is_flagged, is_numbered, last_number, name_in, names_in, number_in, still_open};

use crate::facts::{quote_in, room_in};
use crate::flags::Flags;
use crate::last_quotes::LastQuotes;
use client_ids::{ClientId, UsedIds};
use fix_dictionary::Identifier;
use ghost_history::GhostHistory;
use participants::Who;
use sef_moment::Moment;
use std::alloc::{AllocError, Global};
use std::marker::Model;
use venue_rules::{Fact, RoomQuote};

// Least number of facts to reserve capacity for.
const ALLOCATION_STEP: usize = 64;

// Kind of a flag: a room that has traded, a quote withdrawn or passed, a room with a quote.
#[derive(Clone, Copy)]
enum FlagKind {
    Traded,
    Withdrawn,
    Quoted,
}

// Kind of a used identifier.
#[derive(Clone, Copy)]
enum IdKind {
    Requests,
    Quotes,
}

/// Flags of rooms and quotes by number, and the last quotes and used identifiers by hash. Contracts see the day's
/// facts.
#[derive(Drop)]
pub(crate) struct RoomIndex {
    past: GhostHistory<Fact>,
    traded: Flags,
    withdrawn: Flags,
    quoted: Flags,
    lasts: LastQuotes,
    requests: UsedIds,
    quotes: UsedIds,
    headroom: usize,
}

impl Model for RoomIndex {
    ghost use Rattle.rfq_room.specs.Contents.{Contents};
    ghost use Rattle.rfq_room.specs.Flagged.{AreFlagged, contents};

    ghost Value = { Contents };

    ghost view = { contents };

    ghost invariant = { AreFlagged };
}

// The number that a fact flags.
fn number_in(flag: FlagKind, fact: &Fact) -> Option<u64>
    ensures { result ≡ number_in flag fact.now }
{
    match (flag, fact) {
        (FlagKind::Traded, Fact::Closed(closing)) => Some(closing.room),
        (FlagKind::Withdrawn, Fact::Withdrawn(withdrawal)) => Some(withdrawal.quote),
        (FlagKind::Quoted, Fact::Quoted(quote)) => Some(quote.room),
        _ => None,
    }
}

// Whether the fact gives a new number of the flag's kind: a room's, or a quote's.
fn is_numbered(flag: FlagKind, fact: &Fact) -> bool
    ensures { result ≡ is_numbered flag fact.now }
{
    match flag {
        FlagKind::Traded => room_in(fact).is_some(),
        FlagKind::Withdrawn => quote_in(fact).is_some(),
        FlagKind::Quoted => room_in(fact).is_some(),
    }
}

// Appends a flag for each number that facts give, within reserved capacity, and sets those of the numbers that they
// flag.
#[inline(always)]
fn add_flags(flags: &mut Flags, flag: FlagKind, facts: &[Fact])
    requires there { All (IsThere (length flags.old.flags) flag) facts.now }
    requires headroom { length facts.now ≤ flags.old.headroom }
    ensures flags { (n : ℕ) → is_set flags.new.flags n ≡ (is_flagged flag facts.now n || is_set flags.old.flags n) }
    ensures count { length flags.new.flags ≡ length flags.old.flags + count_of flag facts.now }
    ensures headroom { flags.old.headroom ≤ flags.new.headroom + length facts.now }
{
    for fact in facts {
        if let Some(number) = number_in(flag, fact) {
            flags.set(number);
        }
        if is_numbered(flag, fact) {
            flags.push();
        }
    }
}

// The identifier that a fact uses.
fn name_in(named: IdKind, fact: &Fact) -> Option<ClientId>
    ensures { result ≡ name_in named fact.now }
{
    match (named, fact) {
        (IdKind::Requests, Fact::Asked(room)) => Some(ClientId {
            who: room.requester,
            id: room.id,
        }),
        (IdKind::Quotes, Fact::Quoted(quote)) => Some(ClientId {
            who: quote.maker,
            id: quote.id,
        }),
        _ => None,
    }
}

// Adds the identifiers of facts, within reserved capacity.
fn add_names(used: &mut UsedIds, named: IdKind, facts: &[Fact])
    requires { length facts.now ≤ used.old.headroom }
    ensures names { (who : ℕ) (id : List ℕ) → list_any (is_of who id) used.new.names ≡ (list_any (is_of who id) (names_in named facts.now) || list_any (is_of who id) used.old.names) }
    ensures headroom { used.old.headroom ≤ used.new.headroom + length facts.now }
{
    for fact in facts {
        if let Some(name) = name_in(named, fact) {
            used.add(name);
        }
    }
}

// Adds the last quotes of facts, within reserved capacity.
fn add_lasts(lasts: &mut LastQuotes, facts: &[Fact])
    requires { length facts.now ≤ lasts.old.headroom }
    ensures entries { (room maker : ℕ) → last_in lasts.new.entries room maker ≡ option_or (last_number facts.now room maker) (last_in lasts.old.entries room maker) }
    ensures headroom { lasts.old.headroom ≤ lasts.new.headroom + length facts.now }
{
    for fact in facts {
        if let Some(quote) = quote_in(fact) {
            lasts.set(quote.room, quote.maker, quote.number);
        }
    }
}

impl RoomIndex {
    pub(crate) fn new(alloc: Global) -> RoomIndex
        ensures facts { result.facts ≡ [] }
        ensures headroom { result.spare.headroom ≡ 0 }
    {
        RoomIndex {
            past: GhostHistory::new(),
            traded: Flags::new(alloc),
            withdrawn: Flags::new(alloc),
            quoted: Flags::new(alloc),
            lasts: LastQuotes::new(alloc),
            requests: UsedIds::new(alloc),
            quotes: UsedIds::new(alloc),
            headroom: 0,
        }
    }

    /// Reserves capacity for this many facts, where there is less.
    pub(crate) fn reserve(&mut self, count: usize) -> Result<(), AllocError>
        ensures kept { self.new.facts ≡ self.old.facts }
        ensures headroom { IfOk result (λ _. count ≤ self.new.spare.headroom) }
        ensures refused { OnErr result (self.new.spare.headroom ≡ self.old.spare.headroom) }
    {
        if count <= self.headroom {
            return Ok(());
        }
        let count = count.max(ALLOCATION_STEP);
        self.traded.reserve(count)?;
        self.withdrawn.reserve(count)?;
        self.quoted.reserve(count)?;
        self.lasts.reserve(count)?;
        self.requests.reserve(count)?;
        self.quotes.reserve(count)?;
        self.headroom = count;
        Ok(())
    }

    /// Whether the participant used the identifier for a request.
    pub(crate) fn is_request_id_used(&self, who: Who, id: &Identifier) -> bool
        ensures { result ≡ is_request_id_used self.now.facts who id.now }
    {
        self.requests.has(who, id)
    }

    /// Whether the participant used the identifier for a quote.
    pub(crate) fn is_quote_id_used(&self, who: Who, id: &Identifier) -> bool
        ensures { result ≡ is_quote_id_used self.now.facts who id.now }
    {
        self.quotes.has(who, id)
    }

    /// Whether the room had a quote.
    pub(crate) fn has_quote(&self, room: u64) -> bool
        ensures { result ≡ is_some (first_quote self.now.facts room) }
    {
        self.quoted.is_set(room)
    }

    pub(crate) fn is_closed(&self, room: u64) -> bool
        ensures { result ≡ is_closed self.now.facts room }
    {
        self.traded.is_set(room)
    }

    /// Whether the quote was withdrawn or passed.
    pub(crate) fn is_withdrawn(&self, quote: u64) -> bool
        ensures { result ≡ is_withdrawn self.now.facts quote }
    {
        self.withdrawn.is_set(quote)
    }

    /// Whether the maker quoted again in the room.
    pub(crate) fn is_replaced(&self, quote: &RoomQuote) -> bool
        ensures { result ≡ is_replaced self.now.facts quote.now }
    {
        let Some(last) = self.lasts.get(quote.room, quote.maker) else {
            return true;
        };
        last != quote.number
    }

    /// Whether the quote may be hit at a moment.
    pub(crate) fn is_live(&self, moment: Moment, quote: &RoomQuote) -> bool
        ensures { result ≡ is_live self.now.facts moment quote.now }
    {
        !self.is_replaced(quote)
            && (!self.is_withdrawn(quote.number)
                && (!self.is_closed(quote.room) && moment.ms() <= quote.end.ms()))
    }

    /// Whether a room with this number and end is open at a moment.
    pub(crate) fn is_open(&self, moment: Moment, room: u64, end: Moment) -> bool
        ensures { result ≡ still_open self.now.facts moment room end }
    {
        !self.is_closed(room) && moment.ms() <= end.ms()
    }

    /// Adds facts of existing rooms and quotes, within reserved capacity.
    pub(crate) fn add(&mut self, facts: &Vec<Fact>)
        requires headroom { length facts.now.items ≤ self.old.spare.headroom }
        requires there { AreThere self.old.facts facts.now.items }
        ensures facts { self.new.facts ≡ self.old.facts ++ facts.now.items }
        ensures headroom { self.old.spare.headroom ≡ self.new.spare.headroom + length facts.now.items }
    {
        add_flags(&mut self.traded, FlagKind::Traded, facts);
        add_flags(&mut self.withdrawn, FlagKind::Withdrawn, facts);
        add_flags(&mut self.quoted, FlagKind::Quoted, facts);
        add_lasts(&mut self.lasts, facts);
        add_names(&mut self.requests, IdKind::Requests, facts);
        add_names(&mut self.quotes, IdKind::Quotes, facts);
        self.headroom -= facts.len();
        self.past.append(facts);
    }
}
