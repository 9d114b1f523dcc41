//! The engine, and its public calls.

ghost use Rattle.std.specs.Prelude.{◌≡◌, ◌+◌, ◌≤◌, ◌<◌, ◌^◌, ◌∷◌, [], true, false, length, max, slice_get, Some, IfErr, IfOk, OnOk};
ghost use Rattle.std.specs.VecDeque.{deque_len, deque_capacity};
ghost use Rattle.outbound_queue.specs.declared.queue.Queue.{Queue};
ghost use Rattle.venue_rules.specs.Run.{Message};
ghost use Rattle.venue_core.specs.State.{standing};
ghost use Rattle.venue_engine.specs.Ledger.{IsSameLedger};
ghost use Rattle.venue_engine.specs.Queued.{AreEmpty, AreFew, HasPlace, IsPopped};
ghost use Rattle.venue_engine.specs.Step.{Cuts, IsDone, IsDue, IsFront, IsPutBack, IsTick, HasAnswered, IsUndone};

use crate::transaction::{Inner, Parts};
use instruments::Instruments;
use outbound_queue::{Outgoing, Queue};
use sef_moment::{Moment, later};
use std::alloc::{AllocError, Global};
use std::marker::Model;
use venue_core::Venue;
use venue_rules::{EventFault, Keep, Taken};

/// The venue, the keeper of its rows, and a queue of replies for each participant, with the count of rows and the last
/// moment.
///
/// A moment earlier than the last counts as the last. No queue holds more than 65,536 replies.
pub struct Engine<K: Keep + Drop> {
    inner: Inner<K>,
    begun: u64,
    last: Moment,
}

// Written-out drop (docs/ARCHITECTURE.md).
impl<K: Keep + Drop> Drop for Engine<K> {
    fn drop(self) {
        let Engine {
            inner: _inner,
            begun: _begun,
            last: _last,
        } = self;
    }
}

impl<K: Keep + Drop> Model for Engine<K> {
    ghost use Rattle.venue_engine.specs.Ledger.{Ledger};

    ghost Value = { Ledger };

    ghost use Rattle.std.specs.Prelude.{◌≡◌, ◌≤◌, ◌^◌, true, length};
    ghost use Rattle.venue_engine.specs.Ledger.{ledger};
    ghost use Rattle.venue_engine.specs.Queued.{AreFew};

    ghost view = { λ e. ledger (K.rows e.inner.keeper) (K.is_clean e.inner.keeper) (K.refused e.inner.keeper) e.inner.venue e.inner.queues.items e.begun e.inner.count e.last };

    ghost invariant = { λ e. (K.is_clean e.inner.keeper ≡ true → length (K.rows e.inner.keeper) ≡ e.inner.count) × (e.inner.venue.items ≤ e.inner.count) × (e.inner.count ≤ 10 ^ 15) × (length e.inner.queues.items ≤ 32) × AreFew e.inner.queues.items };
}

impl<K: Keep + Drop> Engine<K> {
    /// An engine over a keeper with `count` rows, with an empty queue for each participant.
    pub fn new(
        alloc: Global,
        venue: Venue,
        keeper: K,
        participants: usize,
        count: u64,
        last: Moment,
    ) -> Result<Engine<K>, AllocError>
        requires participants { participants ≤ 32 }
        requires counted { K.is_clean keeper ≡ true → length (K.rows keeper) ≡ count }
        requires items { venue.items ≤ count }
        requires within { count ≤ 10 ^ 15 }
        ensures venue { IfOk result (λ e. (e.market ≡ venue.market) × (e.stands ≡ standing venue.day)) }
        ensures keeper { IfOk result (λ e. (e.rows ≡ K.rows keeper) × (e.is_clean ≡ K.is_clean keeper) × (e.refused ≡ K.refused keeper)) }
        ensures start { IfOk result (λ e. (e.begun ≡ count) × (e.count ≡ count) × (e.last ≡ last)) }
        ensures queues { IfOk result (λ e. (length e.queues ≡ participants) × AreEmpty e.queues) }
    {
        let Ok(queues) = empty_queues(alloc, participants) else {
            drop(venue);
            drop(keeper);
            return Err(AllocError);
        };
        let inner = Inner {
            alloc,
            venue,
            keeper,
            count,
            queues,
        };
        Ok(Engine {
            inner,
            begun: count,
            last,
        })
    }

    /// Whether a held side is due at a moment.
    pub fn due(&self, t: Moment) -> bool
        ensures due { IsDue self.now.stands (max self.now.last t) result }
        ensures few { AreFew self.now.queues }
    {
        let at = later(self.last, t);
        self.inner.venue.due(at)
    }

    /// Answers a message: records its row, applies the answer, and queues the replies. A fault changes nothing.
    ///
    /// `Due`: a held side is due at the moment. `Behind`: the first participant whose queue would pass 65,536 replies.
    /// `TrailRefused`: the keeper refused the row, and its count of refusals rose. `NoMemory`: an allocation failed.
    pub fn answer(&mut self, taken: &Taken, t: Moment) -> Result<(), EventFault>
        requires from { taken.now.from < 32 }
        ensures same { IsSameLedger self.old self.new }
        ensures few { AreFew self.new.queues }
        ensures answered { HasAnswered (Message taken.now (max self.old.last t)) (max self.old.last t) self.old self.new result }
    {
        if self.due(t) {
            return Err(EventFault::Due);
        }
        self.answer_settled(taken, t)
    }

    /// The same where no held side is due at the moment.
    pub fn answer_settled(&mut self, taken: &Taken, t: Moment) -> Result<(), EventFault>
        requires from { taken.now.from < 32 }
        requires due { IsDue self.old.stands (max self.old.last t) false }
        ensures same { IsSameLedger self.old self.new }
        ensures few { AreFew self.new.queues }
        ensures done { OnOk result (IsDone (Message taken.now (max self.old.last t)) (max self.old.last t) false self.old self.new) }
        ensures undone { IfErr result (λ fault. IsUndone (Message taken.now (max self.old.last t)) (max self.old.last t) false fault self.old self.new) }
    {
        let at = later(self.last, t);
        match self.inner.answer(taken, at) {
            Ok(()) => {
                self.last = at;
                Ok(())
            }
            Err(fault) => Err(fault),
        }
    }

    /// Enters the first held side due, and no other, as a message is answered; `false` where none is due, and only the
    /// moment changes.
    pub fn enter_due(&mut self, t: Moment) -> Result<bool, EventFault>
        ensures same { IsSameLedger self.old self.new }
        ensures few { AreFew self.new.queues }
        ensures ticked { IsTick (max self.old.last t) self.old self.new result }
    {
        let at = later(self.last, t);
        if !self.inner.venue.due(at) {
            self.last = at;
            return Ok(false);
        }
        match self.inner.enter_due(at) {
            Ok(()) => {
                self.last = at;
                Ok(true)
            }
            Err(fault) => Err(fault),
        }
    }

    /// Time passes.
    pub fn pass(&mut self, t: Moment)
        ensures passed { self.new ≡ record self.old { last = max self.old.last t } }
        ensures few { AreFew self.new.queues }
    {
        self.last = later(self.last, t);
    }

    /// The last moment.
    pub fn last(&self) -> Moment
        ensures { result ≡ self.now.last }
    {
        self.last
    }

    /// The instruments.
    pub fn instruments(&self) -> &Instruments
        ensures { result.now ≡ self.now.market.instruments }
    {
        self.inner.venue.instruments()
    }

    /// The keeper of the rows.
    pub fn keeper(&self) -> &K
        ensures rows { K.rows result.now ≡ self.now.rows }
        ensures clean { K.is_clean result.now ≡ self.now.is_clean }
        ensures refused { K.refused result.now ≡ self.now.refused }
    {
        &self.inner.keeper
    }

    /// The participants' queues, of at most 65,536 replies each.
    pub fn queues(&self) -> &[Queue]
        ensures queues { result.now ≡ self.now.queues }
        ensures count { length self.now.queues ≤ 32 }
        ensures few { AreFew self.now.queues }
    {
        &self.inner.queues
    }

    /// Takes the front of a participant's queue.
    pub fn take_front(&mut self, j: usize) -> Option<Outgoing>
        requires named { j < length self.old.queues }
        ensures front { IsFront j self.old self.new result }
    {
        pop(&mut self.inner.queues[j])
    }

    /// Puts the front back.
    pub fn put_front(&mut self, j: usize, front: Outgoing)
        requires named { j < length self.old.queues }
        requires place { (q : Queue) → slice_get self.old.queues j ≡ Some q → HasPlace q }
        ensures back { IsPutBack j front self.old self.new }
    {
        push(&mut self.inner.queues[j], front);
    }

    /// Replaces a participant's queue by the one sentinel; later replies to it are dropped. One that was cut stays as
    /// it is.
    pub fn cut(&mut self, j: usize)
        requires named { j < length self.old.queues }
        ensures cuts { Cuts j self.old self.new }
    {
        self.inner.queues[j].cut();
    }

    /// All parts of the engine, as they are.
    pub fn into_parts(self) -> Parts<K>
        ensures venue { (result.venue.market ≡ self.market) × (standing result.venue.day ≡ self.stands) }
        ensures keeper { (K.rows result.keeper ≡ self.rows) × (K.is_clean result.keeper ≡ self.is_clean) × (K.refused result.keeper ≡ self.refused) }
        ensures queues { result.queues.items ≡ self.queues }
        ensures few { AreFew result.queues.items }
    {
        let Engine {
            inner,
            begun: _,
            last: _,
        } = self;
        inner.into_parts()
    }
}

// Takes the front of a queue.
fn pop(queue: &mut Queue) -> Option<Outgoing>
    ensures { IsPopped queue.old queue.new result }
{
    match queue.waiting.pop_front() {
        Some(front) => Some(front),
        None => None,
    }
}

// Puts the front back.
fn push(queue: &mut Queue, front: Outgoing)
    requires { deque_len queue.old.waiting < deque_capacity queue.old.waiting }
    ensures { (queue.new.waiting.items ≡ front ∷ queue.old.waiting.items) × (queue.new.is_cut ≡ queue.old.is_cut) }
{
    queue.waiting.push_front_reserved(front);
}

// An empty queue for each participant.
fn empty_queues(alloc: Global, count: usize) -> Result<Vec<Queue>, AllocError>
    ensures { IfOk result (λ qs. (length qs.items ≡ count) × AreEmpty qs.items) }
{
    let mut queues = Vec::with_capacity(alloc, count)?;
    for _ in 0..count {
        let Ok(queue) = Queue::new(alloc) else {
            drop(queues);
            return Err(AllocError);
        };
        queues.push_reserved(queue);
    }
    Ok(queues)
}
