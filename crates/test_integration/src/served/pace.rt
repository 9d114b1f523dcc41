//! Clocks and gates that sleep a millisecond in each turn.
ghost use Rattle.std.specs.Prelude.{◌≡◌, []};

use super::signal::Signal;
use super::watched::WatchedLine;
use gateway::line::Gate;
use gateway::mem_line::{MemClock, MemLine};
use ghost_history::GhostHistory;
use sef_moment::Moment;
use std::sync::Wait;
use std::time::Duration;
use std::{thread, time};
use venue_worker::Clock;

/// What a session's thread has of the outside, over memory.
pub type SessionIo<'a, T> = (
    WatchedLine<'a, MemLine>,
    PacedClock<'a, T>,
    PacedGate<'a, T>,
);

/// How often a gate looks for what it waits for.
const MOST_LOOKS: u32 = 10_000;

/// A millisecond.
pub fn sleep_a_little<T: time::Clock>(clock: &T) {
    thread::sleep(clock, Duration::from_millis(1));
}

/// A clock that sleeps, and then answers the next millisecond. It signals once seats have progressed this often.
#[derive(Drop)]
pub struct PacedClock<'a, T> {
    clock: T,
    moments: MemClock,
    stirs_left: u64,
    progressed: &'a Signal,
}

impl<'a, T: time::Clock> PacedClock<'a, T> {
    pub fn new(clock: T, moment: Moment, stirs: u64, progressed: &'a Signal) -> PacedClock<'a, T>
        ensures { ⟦<PacedClock<'a, T> as Clock>⟧.answered result ≡ [] }
    {
        PacedClock {
            clock,
            moments: MemClock::from(moment),
            stirs_left: stirs,
            progressed,
        }
    }
}

impl<'a, T: time::Clock> Clock for PacedClock<'a, T> {
    ghost answered = { λ c. ⟦<MemClock as Clock>⟧.answered c.moments };

    fn now(&mut self) -> Moment {
        sleep_a_little(&self.clock);
        self.moments.now()
    }

    fn progressed(&mut self, _participant: usize) {
        self.stirs_left = self.stirs_left.saturating_sub(1);
        if self.stirs_left == 0 {
            self.progressed.give();
        }
    }
}

/// A gate that sleeps, and in one turn, the first once a signal was given, waits for another one.
#[derive(Drop)]
pub struct PacedGate<'a, T> {
    clock: T,
    after: &'a Signal,
    until: &'a Signal,
    has_waited: bool,
    /// It waited, and what it waited for did not come.
    gave_up: &'a Signal,
    past: GhostHistory<bool>,
}

impl<'a, T: time::Clock> PacedGate<'a, T> {
    pub fn new(
        clock: T,
        after: &'a Signal,
        until: &'a Signal,
        gave_up: &'a Signal,
    ) -> PacedGate<'a, T>
        ensures { ⟦<PacedGate<'a, T> as Gate>⟧.passed result ≡ [] }
    {
        PacedGate {
            clock,
            after,
            until,
            has_waited: false,
            gave_up,
            past: GhostHistory::new(),
        }
    }

    fn wait(&mut self)
        ensures { self.new.past ≡ self.old.past }
    {
        if self.has_waited || !self.after.is_given() {
            return;
        }
        self.has_waited = true;
        for _ in 0..MOST_LOOKS {
            if self.until.is_given() {
                return;
            }
            sleep_a_little(&self.clock);
        }
        self.gave_up.give();
    }
}

impl<'a, T: time::Clock> Gate for PacedGate<'a, T> {
    ghost passed = { λ g. g.past };

    fn pass<R: Wait>(&mut self, _rt: &R, _turn: u64) -> bool {
        sleep_a_little(&self.clock);
        self.wait();
        self.past.add(&true);
        true
    }
}
