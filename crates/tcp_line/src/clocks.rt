//! The system's clock, for sessions and for the worker.
ghost use Rattle.std.specs.Prelude.{◌≡◌, ◌/◌, ◌^◌, [], min};
ghost use Rattle.std.specs.Duration.{as_nanos};
ghost use Rattle.sef_moment.specs.Utc.{greatest};

use crate::closing_timer::{ClosingTimer, StepMeter};
use crate::events::{EventKind, EventSender};
use crate::session_wakers::SessionWakers;
use crate::stop::{Stop, StopSource};
use crate::waiting_replies::WaitingReplies;
use crate::waker::IdleWait;
use ghost_history::GhostHistory;
use sef_moment::Moment;
use std::sync::Arc;
use std::time;
use std::time::Duration;
use venue_worker::Clock;

// The moment this long after the start of 1970, or the greatest one.
fn moment_after(elapsed: Duration) -> Moment
    ensures { result ≡ min (as_nanos elapsed / 10 ^ 6) greatest }
{
    let start = Moment::EPOCH;
    let milliseconds = elapsed.as_millis().min(u64::MAX as u128);
    start.plus(milliseconds as u64)
}

/// A time in whole milliseconds.
pub(crate) fn ms_of(time: Duration) -> u64 {
    time.as_millis().min(u64::MAX as u128) as u64
}

/// The system's clock. Where it cannot be read, it repeats its last answer.
pub struct SystemClock<T> {
    clock: T,
    last: Moment,
    past: GhostHistory<Moment>,
}

// Written-out drop (docs/ARCHITECTURE.md).
impl<T: Drop> Drop for SystemClock<T> {
    fn drop(self) {
        let SystemClock {
            clock: _clock,
            last: _last,
            past: _past,
        } = self;
    }
}

impl<T: time::Clock> SystemClock<T> {
    /// A clock that answers `moment` until the system's clock is first read.
    pub fn from(clock: T, moment: Moment) -> SystemClock<T>
        ensures { ⟦<SystemClock<T> as Clock>⟧.answered result ≡ [] }
    {
        SystemClock {
            clock,
            last: moment,
            past: GhostHistory::new(),
        }
    }

    // The last answer.
    fn last(&self) -> Moment {
        self.last
    }
}

impl<T: time::Clock> Clock for SystemClock<T> {
    ghost answered = { λ c. c.past };

    fn now(&mut self) -> Moment {
        if let Ok(elapsed) = self.clock.since_1970() {
            self.last = moment_after(elapsed);
        }
        self.past.add(&self.last);
        self.last
    }
}

/// What a worker's clock shares with its venue.
pub struct VenueShare<S> {
    pub source: S,
    pub stop: Arc<Stop>,
    pub events: EventSender,
    pub waiting: WaitingReplies,
}

// Written-out drop (docs/ARCHITECTURE.md).
impl<S: Drop> Drop for VenueShare<S> {
    fn drop(self) {
        let VenueShare {
            source: _source,
            stop: _stop,
            events: _events,
            waiting: _waiting,
        } = self;
    }
}

/// The worker's clock: the system's clock, which waits before it answers until a session has moved a message, so that
/// no turn is spent on waiting. Wakes the sessions at whose seats the worker moved one. Stops the venue where that is
/// asked.
pub struct WorkerClock<T, S> {
    clock: SystemClock<T>,
    system: T,
    sleeper: IdleWait,
    sessions: SessionWakers,
    share: VenueShare<S>,
    closing: ClosingTimer,
    steps: StepMeter,
    turns: u64,
}

// Whoever drops the clock has no worker: the sessions that were started end.
impl<T: Drop, S: Drop> Drop for WorkerClock<T, S> {
    fn drop(self) {
        let WorkerClock {
            clock: _clock,
            system: _system,
            sleeper,
            sessions,
            share,
            closing: _closing,
            steps: _steps,
            turns: _turns,
        } = self;
        share.stop.finish();
        sessions.wake_all(sleeper.awake());
    }
}

impl<T: time::Clock, S: StopSource> WorkerClock<T, S> {
    /// The worker's clock over a clock.
    pub fn new(
        clock: SystemClock<T>,
        system: T,
        sleeper: IdleWait,
        sessions: SessionWakers,
        share: VenueShare<S>,
    ) -> WorkerClock<T, S>
        ensures { ⟦<WorkerClock<T, S> as Clock>⟧.answered result ≡ ⟦<SystemClock<T> as Clock>⟧.answered clock }
    {
        WorkerClock {
            clock,
            system,
            sleeper,
            sessions,
            share,
            closing: ClosingTimer::new(),
            steps: StepMeter::new(),
            turns: 0,
        }
    }

    // Waits until a session has moved a message. Sessions that wait for a place are woken as others fall asleep, and
    // all before the worker sleeps.
    fn wait(&mut self)
        ensures { self.new.clock ≡ self.old.clock }
    {
        if !self.sessions.admit_until_woken(&self.sleeper) {
            self.sleeper.wait();
        }
    }

    // The time of a clock that never goes back, in milliseconds; the moment's where it cannot be read.
    fn monotonic(&self, at_ms: u64) -> u64 {
        match self.system.monotonic() {
            Ok(time) => ms_of(time),
            Err(_) => at_ms,
        }
    }

    fn send(&mut self, kind: EventKind)
        ensures { self.new.clock ≡ self.old.clock }
    {
        let at_ms = self.clock.last().ms();
        self.share.events.send(at_ms, kind);
    }

    // Every line is over from now on.
    fn finish(&mut self)
        ensures { self.new.clock ≡ self.old.clock }
    {
        self.share.stop.finish();
        self.sessions.wake_all(self.sleeper.awake());
    }

    // Twice a second: whether the clock stepped, and whether a stop is asked.
    fn look(&mut self, moment: u64)
        ensures { self.new.clock ≡ self.old.clock }
    {
        let now = self.monotonic(moment);
        if let Some((step, by_ms)) = self.steps.step_to(moment, now) {
            self.send(EventKind::ClockStepped { step, by_ms });
        }
        if self.share.stop.is_open() && self.share.source.is_asked() {
            self.share.stop.begin();
            self.closing.begin(now);
            self.send(EventKind::Closing);
            self.sessions.wake_all(self.sleeper.awake());
        }
    }

    // While the venue closes: the lines end once what was heard is answered.
    fn look_at_rest(&mut self, moment: u64, has_progressed: bool)
        ensures { self.new.clock ≡ self.old.clock }
    {
        let now = self.monotonic(moment);
        if self.closing.is_at_rest(now, has_progressed) {
            self.send(EventKind::Drained);
            self.finish();
        }
    }

    // What the turn of this moment has to do for the stop.
    fn see_stop(&mut self, moment: u64, has_progressed: bool)
        ensures { self.new.clock ≡ self.old.clock }
    {
        if self.steps.is_due(moment) {
            self.look(moment);
        }
        if self.closing.has_begun() && !self.share.stop.is_over() {
            self.look_at_rest(moment, has_progressed);
        }
    }
}

impl<T: time::Clock, S: StopSource> Clock for WorkerClock<T, S> {
    ghost answered = { λ c. ⟦<SystemClock<T> as Clock>⟧.answered c.clock };

    fn now(&mut self) -> Moment {
        self.turns = self.turns.saturating_add(1);
        let has_progressed = self.sessions.end_turn(self.sleeper.awake());
        self.wait();
        let moment = self.clock.now();
        self.see_stop(moment.ms(), has_progressed);
        moment
    }

    fn progressed(&mut self, participant: usize) {
        self.sessions.progressed(participant, self.sleeper.awake());
    }

    fn waits(&mut self, participant: usize, count: usize) {
        self.share.waiting.set(participant, count);
    }

    fn refused(&mut self) {
        self.share.stop.refuse();
        self.share.stop.begin();
        self.closing = ClosingTimer::new();
        self.send(EventKind::TrailRefused);
        self.sessions.wake_all(self.sleeper.awake());
    }

    fn ended(&mut self) {
        self.share.events.set_turns(self.turns);
        self.sleeper.end();
        if self.share.stop.is_over() {
            return;
        }
        if !self.share.stop.is_refused() {
            self.send(EventKind::WorkerEnded);
        }
        self.finish();
    }
}
