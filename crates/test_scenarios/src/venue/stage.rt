//! A venue, and what it is given.
ghost use Rattle.std.specs.Prelude.{◌≡◌, ◌≤◌, ◌+◌, IfOk};
ghost use Rattle.venue_core.specs.Plan.{IsPlanOf};

use crate::fixture::fixture;
use crate::venue::emitting::emit_replies;
use crate::venue::line::Trouble;
use crate::venue::market::Market;
use crate::venue::message::{Sent, taken};
use crate::venue::standing::Counted;
use sef_moment::Moment;
use std::alloc::{AllocError, Global};
use venue_core::{Plan, Venue};
use venue_rules::Taken;

/// How many items a transcript may give to one venue.
const MAX_ITEMS: u32 = 1_000_000;

/// The number of a session's first message after its Logon.
const FIRST_NUMBER: u32 = 2;

// What a venue is given.
#[derive(Drop)]
enum Input {
    Message(Taken, Moment),
    Tick(Moment),
}

// What the venue would do.
fn plan(venue: &mut Venue, input: &Input) -> Result<Plan, AllocError>
    requires { venue.old.items ≤ 1_000_000 }
    ensures items { venue.new.items ≡ venue.old.items }
    ensures made { IfOk result (λ p. IsPlanOf venue.new p) }
{
    match input {
        Input::Message(taken, t) => venue.plan(taken, *t),
        Input::Tick(t) => venue.plan_tick(*t),
    }
}

// Appends the venue's replies, applies its plan and counts its facts; where an allocation failed, the plan is dropped.
fn step(
    alloc: Global,
    venue: &mut Venue,
    input: &Input,
    emitted: &mut Vec<u8>,
) -> Result<Counted, AllocError>
    requires { venue.old.items ≤ 1_000_000 }
    ensures { venue.new.items ≤ venue.old.items + 1 }
{
    let plan = plan(venue, input)?;
    if let Err(fault) = emit_replies(alloc, venue.participants(), plan.replies(), emitted) {
        drop(plan);
        return Err(fault);
    }
    let (first, last) = plan.facts();
    let counted = Counted::NONE.with_all(first).with_all(last);
    venue.apply(plan);
    Ok(counted)
}

/// A venue, how many items it may have taken, the number of the next message, and the facts of the last plan.
#[derive(Drop)]
pub struct Stage {
    venue: Venue,
    items: u32,
    number: u32,
    facts: Counted,
    ghost counted: { venue.items ≤ items },
}

impl Stage {
    // A venue that has taken nothing.
    fn of(venue: Venue) -> Stage
        requires { venue.items ≡ 0 }
    {
        Stage {
            venue,
            items: 0,
            number: FIRST_NUMBER,
            facts: Counted::NONE,
        }
    }

    /// The venue of the fixture, before a transcript opens one of its own.
    pub fn new(alloc: Global) -> Result<Stage, AllocError> {
        let (participants, instruments) = fixture(alloc)?;
        let venue = Venue::open(alloc, participants, instruments)?;
        Ok(Stage::of(venue))
    }

    /// A new venue on a market.
    pub fn open(alloc: Global, market: &Market) -> Result<Stage, Trouble> {
        let participants = market.participants(alloc)?;
        let instruments = market.instruments(alloc)?;
        let venue = Venue::open(alloc, participants, instruments)?;
        Ok(Stage::of(venue))
    }

    /// The venue.
    pub fn venue(&self) -> &Venue {
        &self.venue
    }

    /// How many facts the last plan had.
    pub fn facts(&self) -> Counted {
        self.facts
    }

    /// Gives the next message this number.
    pub fn number_from(&mut self, text: &str) -> Result<(), Trouble> {
        let Ok(number) = text.parse::<u32>() else {
            return Err(Trouble::NoCall);
        };
        self.number = number;
        Ok(())
    }

    fn take(&mut self, alloc: Global, input: &Input, emitted: &mut Vec<u8>) -> Result<(), Trouble> {
        if self.items >= MAX_ITEMS {
            return Err(Trouble::NoCall);
        }
        self.items += 1;
        self.facts = step(alloc, &mut self.venue, input, emitted)?;
        Ok(())
    }

    /// Appends what is replied to a message at a moment, which is the line's at this place.
    pub fn send(
        &mut self,
        alloc: Global,
        moment: Moment,
        sent: Sent<'_>,
        place: u32,
        emitted: &mut Vec<u8>,
    ) -> Result<(), Trouble> {
        let taken = taken(alloc, self.venue.participants(), self.number, sent, place)?;
        let input = Input::Message(taken, moment);
        let is_taken = self.take(alloc, &input, emitted);
        drop(input);
        is_taken?;
        self.number = self.number.saturating_add(1);
        Ok(())
    }

    /// Appends what is replied at a tick.
    pub fn tick(
        &mut self,
        alloc: Global,
        moment: Moment,
        emitted: &mut Vec<u8>,
    ) -> Result<(), Trouble> {
        self.take(alloc, &Input::Tick(moment), emitted)
    }
}
