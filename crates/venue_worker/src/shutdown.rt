//! The end of the sessions where the trail takes no more rows.

ghost use Rattle.std.specs.Prelude.{◌≡◌, ◌<◌, ◌-◌, ◌||◌, ◌&&◌, if◌then◌else◌, nat_le, length, ℕ, slice_get, Some};
ghost use Rattle.outbound_queue.specs.declared.queue.Queue.{Queue};
ghost use Rattle.venue_worker.specs.Calls.{IsSameElse};
ghost use Rattle.venue_worker.specs.Turns.{AreServed};
ghost use Rattle.venue_worker.specs.Shutdown.{AreDrained, AreLookedAt, CutsWhere, HasShutDown, IsDrained, IsRound, are_shut_down, is_idle, is_over, is_shut_down};

use crate::clock::{Clock, notify, report_waiting};
use crate::worker::Worker;
use outbound_queue::Queue;
use sef_moment::Moment;
use venue_rules::Keep;

/// Time without progress, in milliseconds, after which a participant is cut: in it each session wrote what it had taken
/// before.
const QUIET_MS: u64 = 500;

/// Time without progress, in milliseconds, after which the rounds end.
const MAX_DRAIN_MS: u64 = 30_000;

impl<'a, K: Keep + Drop> Worker<'a, K> {
    /// Ends the sessions where the trail takes no more rows: each participant is given what it is owed, and is cut once
    /// nothing waits for it and no session took anything for half a second. Makes `rounds` rounds, each after an answer
    /// of the clock; fewer where each sentinel is in its seat, or where no session takes anything for half a minute.
    /// What a participant has not taken by then still waits for it.
    pub fn shut_down<C: Clock>(&mut self, clock: &mut C, rounds: u64)
        ensures only { IsSameElse self.old self.new }
        ensures seen_off { AreDrained self.old self.new }
        ensures served { 0 < rounds → AreServed self.old self.new }
        ensures rounds { HasShutDown rounds (C.answered clock.old) (C.answered clock.new) self.old self.new }
    {
        let mut since = clock.now();
        for _ in 0..rounds {
            let moment = clock.now();
            let idle = time_between(since, moment);
            let moved = self.drain_all(clock, QUIET_MS <= idle);
            report_waiting(clock, self.engine.queues());
            since = last_progress(moved, moment, since);
            let quiet = time_between(since, moment);
            if self.is_over(quiet) {
                return;
            }
        }
    }

    // Whether the rounds end, after this time without progress: also once each participant was given its sentinel.
    fn is_over(&self, quiet: u64) -> bool
        ensures { result ≡ is_over quiet self.now }
    {
        MAX_DRAIN_MS <= quiet || are_shut_down(self.engine.queues())
    }

    // Delivers once to each participant, after cutting it where `may_cut` allows and nothing waits for it; says whether
    // a message was handed over.
    fn drain_all<C: Clock>(&mut self, clock: &mut C, may_cut: bool) -> bool
        ensures only { IsSameElse self.old self.new }
        ensures seen_off { AreDrained self.old self.new }
        ensures looked { AreLookedAt self.old self.new }
        ensures round { IsRound may_cut result self.old self.new }
        ensures clock { C.answered clock.new ≡ C.answered clock.old }
    {
        let mut moved = false;
        let count = self.hands.len();
        for j in 0..count {
            moved |= self.drain(clock, j, may_cut);
        }
        moved
    }

    // Delivers to a participant, after cutting it where `may_cut` allows and nothing waits for it.
    fn drain<C: Clock>(&mut self, clock: &mut C, j: usize, may_cut: bool) -> bool
        requires named { j < length self.old.hands }
        ensures drained { IsDrained j may_cut result self.old self.new }
        ensures clock { C.answered clock.new ≡ C.answered clock.old }
    {
        self.cut_served(j, may_cut);
        let delivered = self.deliver(j);
        notify(clock, j, delivered);
        delivered
    }

    // Cuts a participant for whom nothing waits, where `may_cut` allows.
    fn cut_served(&mut self, j: usize, may_cut: bool)
        requires named { j < length self.old.hands }
        ensures cuts { CutsWhere may_cut self.old self.new j }
    {
        if !self.is_served(j, may_cut) {
            return;
        }
        self.cut(j);
    }

    // Whether nothing waits for a participant that may be cut.
    fn is_served(&self, j: usize, may_cut: bool) -> bool
        requires named { j < length self.now.hands }
        ensures long { length self.now.ledger.queues ≡ length self.now.hands }
        ensures served { (q : Queue) → slice_get self.now.ledger.queues j ≡ Some q → result ≡ (may_cut && is_idle q) }
    {
        may_cut && is_idle(&self.engine.queues()[j])
    }
}

// Whether nothing waits for a participant.
fn is_idle(queue: &Queue) -> bool
    ensures { result ≡ is_idle queue.now }
{
    queue.waiting.is_empty()
}

// The milliseconds between two moments; none where the second is earlier.
fn time_between(since: Moment, moment: Moment) -> u64
    ensures { result ≡ moment - since }
{
    moment.ms().saturating_sub(since.ms())
}

// The moment of the last progress.
fn last_progress(moved: bool, moment: Moment, since: Moment) -> Moment
    ensures { result ≡ (if moved then moment else since) }
{
    if moved { moment } else { since }
}

// Whether a participant was given its sentinel.
fn is_shut_down(queue: &Queue) -> bool
    ensures { result ≡ is_shut_down queue.now }
{
    queue.is_cut && queue.waiting.is_empty()
}

// Whether each of them was.
fn are_shut_down(queues: &[Queue]) -> bool
    ensures { result ≡ are_shut_down queues.now }
{
    queues.iter().all(|queue| is_shut_down(queue))
}
