//! The venue: its files, the day's state, and the count of items.
ghost use Rattle.std.specs.Prelude.{◌≡◌, ◌≤◌, ◌+◌, option_map, slice_get, IfOk, is_some};
ghost use Rattle.venue_rules.specs.Book.{picture, resting};
ghost use Rattle.venue_rules.specs.Delay.{due, held};
ghost use Rattle.venue_rules.specs.Facts.{History, no_history, quotes, rooms};
ghost use Rattle.venue_rules.specs.Readings.{room_fact, trade_facts};
ghost use Rattle.venue_rules.specs.Rooms.{is_live, is_open};
ghost use Rattle.venue_rules.specs.Run.{Message, Tick};
ghost use Rattle.cross_delay.specs.ByDue.{by_due};
ghost use Rattle.price_book.specs.Live.{live};
ghost use Rattle.price_book.specs.Numbered.{numbered};
ghost use Rattle.price_book.specs.Views.{seen};
ghost use Rattle.venue_core.specs.Plan.{IsPlanOf, answer_of, most_items};
ghost use Rattle.venue_core.specs.VenueFacts.{IsAfter, IsAnswer, IsHistory};
ghost use Rattle.venue_core.specs.State.{standing};

use crate::market::Market;
use crate::messages::plan_message;
use crate::plan::Plan;
use crate::ticks::plan_due;
use crate::venue_state::{VenueState, add_plan, new_day};
use cross_delay::delay_is_read_alone;
use fix_dictionary::{Price, Side};
use instruments::Instruments;
use participants::Participants;
use price_book::{Resting, book_is_read_alone, sides_are_read_alone};
use rfq_room::rooms_are_read_alone;
use sef_moment::Moment;
use std::alloc::{AllocError, Global};
use std::marker::Model;
use venue_rules::{HeldSide, Room, RoomFact, RoomQuote, SnapshotEntry, Taken, TradeFact};

/// A swap execution facility: its state, and its answer to each input.
pub struct Venue {
    alloc: Global,
    market: Market,
    day: VenueState,
    items: u64,
}

// Written-out drop (docs/ARCHITECTURE.md).
impl Drop for Venue {
    fn drop(self) {
        let Venue {
            alloc: _alloc,
            market: _market,
            day: _day,
            items: _items,
        } = self;
    }
}

impl Model for Venue {
    ghost use Rattle.std.specs.Prelude.{◌≤◌, ◌*◌, ◌+◌, length};
    ghost use Rattle.venue_core.specs.Files.{market_of};
    ghost use Rattle.venue_core.specs.Plan.{IsListed, most_items};
    ghost use Rattle.venue_core.specs.State.{State};

    ghost Value = { State };

    ghost view = { λ v. record { market = market_of v.market; day = v.day; items = v.items } };

    ghost invariant = { λ v. (v.day.reports ≤ 402 * v.items) × (length v.day.traded.trades ≤ 402 * v.items) × (v.items ≤ most_items + 1) × IsListed (market_of v.market) v.day };
}

impl Venue {
    /// A venue of these participants and instruments, with an empty history.
    pub fn open(
        alloc: Global,
        participants: Participants,
        instruments: Instruments,
    ) -> Result<Venue, AllocError>
        ensures market { IfOk result (λ v. v.market ≡ record { participants = participants; instruments = instruments }) }
        ensures history { IfOk result (λ v. IsHistory v no_history) }
        ensures items { IfOk result (λ v. v.items ≡ 0) }
    {
        Ok(Venue {
            alloc,
            market: Market {
                participants,
                instruments,
            },
            day: new_day(alloc),
            items: 0,
        })
    }

    pub fn participants(&self) -> &Participants
        ensures { result.now ≡ self.now.market.participants }
    {
        &self.market.participants
    }

    pub fn instruments(&self) -> &Instruments
        ensures { result.now ≡ self.now.market.instruments }
    {
        &self.market.instruments
    }

    /// Whether a held side is due at a moment.
    pub fn due(&self, moment: Moment) -> bool
        ensures { (h : History) → IsHistory self.now h → result ≡ is_some (due h.facts moment) }
    {
        delay_is_read_alone();
        self.day.held.due(moment).is_some()
    }

    /// The trades so far, in order, numbered by their places from 1.
    pub fn trades(&self) -> &[TradeFact]
        ensures { (h : History) → IsHistory self.now h → result.now ≡ trade_facts h.facts }
    {
        self.day.traded.as_slice()
    }

    /// Reading of the room with this number, if it had a quote: its first quote, and the orders shown to the requester
    /// with it.
    pub fn room(&self, number: u64) -> Option<&RoomFact>
        ensures { (h : History) → IsHistory self.now h → option_map (λ f. f.now) result ≡ room_fact h.facts number }
    {
        self.day.quoted.find(number)
    }

    /// The price of the first resting order of an instrument and a side, in price-time priority.
    pub fn best(&self, instrument: u32, side: Side) -> Option<Price>
        ensures { (h : History) → IsHistory self.now h → result ≡ option_map (λ r. r.entry.order.price) (slice_get (resting h.facts instrument side) 0) }
    {
        sides_are_read_alone();
        self.day.book.best(instrument, side)
    }

    /// The resting orders of an instrument: bids, then offers, each best first.
    pub fn picture(&self, instrument: u32) -> Result<Vec<SnapshotEntry>, AllocError>
        ensures { (h : History) → IsHistory self.now h → IfOk result (λ v. v.items ≡ picture h.facts instrument) }
    {
        book_is_read_alone();
        self.day.book.picture(instrument)
    }

    /// The resting order with this number; a snapshot has the numbers.
    pub fn resting(&self, number: u64) -> Option<Resting<'_>>
        ensures { (h : History) → IsHistory self.now h → option_map seen result ≡ numbered number (live h.facts) }
    {
        sides_are_read_alone();
        self.day.book.numbered(number)
    }

    /// The held sides, the first to fall due first.
    pub fn held_sides(&self) -> &[HeldSide]
        ensures { (h : History) → IsHistory self.now h → result.now ≡ by_due (held h.facts) }
    {
        delay_is_read_alone();
        self.day.held.sides()
    }

    /// The requests for quotes, by number.
    pub fn rooms(&self) -> &[Room]
        ensures { (h : History) → IsHistory self.now h → result.now ≡ rooms h.facts }
    {
        rooms_are_read_alone();
        self.day.rooms.rooms()
    }

    /// The quotes, by number.
    pub fn quotes(&self) -> &[RoomQuote]
        ensures { (h : History) → IsHistory self.now h → result.now ≡ quotes h.facts }
    {
        rooms_are_read_alone();
        self.day.rooms.quotes()
    }

    /// Whether the room may still trade at a moment.
    pub fn is_open(&self, moment: Moment, room: &Room) -> bool
        ensures { (h : History) → IsHistory self.now h → result ≡ is_open h.facts moment room.now }
    {
        rooms_are_read_alone();
        self.day.rooms.is_open(moment, room)
    }

    /// Whether the quote may be hit at a moment.
    pub fn is_live(&self, moment: Moment, quote: &RoomQuote) -> bool
        ensures { (h : History) → IsHistory self.now h → result ≡ is_live h.facts moment quote.now }
    {
        rooms_are_read_alone();
        self.day.rooms.is_live(moment, quote)
    }

    /// Plans a message taken at a moment, and reserves memory for it. At most 10^15 items came before.
    pub fn plan(&mut self, taken: &Taken, moment: Moment) -> Result<Plan, AllocError>
        requires { self.old.items ≤ most_items }
        ensures market { self.new.market ≡ self.old.market }
        ensures day { standing self.new.day ≡ standing self.old.day }
        ensures items { self.new.items ≡ self.old.items }
        ensures planned { IfOk result (λ p. IsAnswer self.old (Message taken.now moment) (answer_of p)) }
        ensures made { IfOk result (λ p. IsPlanOf self.new p) }
    {
        plan_message(self.alloc, &self.market, &mut self.day, taken, moment)
    }

    /// Plans a tick: the first held side due enters, that one alone. Reserves memory for it. At most 10^15 items came
    /// before.
    pub fn plan_tick(&mut self, moment: Moment) -> Result<Plan, AllocError>
        requires { self.old.items ≤ most_items }
        ensures market { self.new.market ≡ self.old.market }
        ensures day { standing self.new.day ≡ standing self.old.day }
        ensures items { self.new.items ≡ self.old.items }
        ensures planned { IfOk result (λ p. IsAnswer self.old (Tick moment) (answer_of p)) }
        ensures made { IfOk result (λ p. IsPlanOf self.new p) }
    {
        plan_due(self.alloc, &self.market, &mut self.day, moment)
    }

    /// Applies a plan made from this state; a later plan invalidates it. Takes no memory.
    pub fn apply(&mut self, plan: Plan)
        requires { IsPlanOf self.old plan }
        ensures market { self.new.market ≡ self.old.market }
        ensures items { self.new.items ≡ self.old.items + 1 }
        ensures after { IsAfter self.old (answer_of plan) self.new }
    {
        self.items += 1;
        add_plan(&mut self.day, plan);
    }
}
