//! The queue of a session, and the limit that makes a slow consumer.

ghost use Rattle.std.specs.Prelude.{◌≡◌, ◌+◌, ◌≤◌, true, false, [], ◌∷◌, length, if◌then◌else◌, IfOk, OnOk};
ghost use Rattle.std.specs.VecDeque.{deque_len, deque_capacity};
ghost use Rattle.venue_rules.specs.Run.{replies_to};
ghost use Rattle.outbound_queue.specs.Owed.{is_behind};

use crate::outgoing::Outgoing;
use std::alloc::{AllocError, Global};
use std::collections::VecDeque;
use venue_rules::{Reply, Who};

/// Most replies that may wait for a participant.
pub const MAX_QUEUED: usize = 65_536;

/// Replies that wait for a session, and whether it is cut. Capacity for the sentinel is always reserved.
pub struct Queue {
    pub waiting: VecDeque<Outgoing>,
    pub is_cut: bool,
    ghost has_capacity: { 1 ≤ deque_capacity waiting },
}

// Written-out drop (docs/ARCHITECTURE.md).
impl Drop for Queue {
    fn drop(self) {
        let Queue {
            waiting: _waiting,
            is_cut: _is_cut,
        } = self;
    }
}

// The number of replies for a participant.
fn count_to(who: Who, replies: &[Reply]) -> usize
    ensures { result ≡ length (replies_to who replies.now) }
{
    replies.iter().filter(|reply| reply.to == who).count()
}

impl Queue {
    /// An empty queue, with capacity for the sentinel.
    pub fn new(alloc: Global) -> Result<Queue, AllocError>
        ensures { IfOk result (λ q. (q.waiting.items ≡ []) × (q.is_cut ≡ false)) }
    {
        Ok(Queue {
            waiting: VecDeque::with_capacity(alloc, 1)?,
            is_cut: false,
        })
    }

    /// Whether these replies would take this participant, if not cut, past the limit; false without a reply for it.
    pub fn is_behind(&self, who: Who, replies: &[Reply]) -> bool
        ensures { result ≡ is_behind who replies.now self.now.is_cut (length self.now.waiting.items) }
    {
        if self.is_cut {
            return false;
        }
        let count = count_to(who, replies);
        count > 0 && self.waiting.len().saturating_add(count) > MAX_QUEUED
    }

    /// Reserves capacity for this many further messages.
    pub fn reserve(&mut self, more: usize) -> Result<(), AllocError>
        ensures same { (self.new.waiting.items ≡ self.old.waiting.items) × (self.new.is_cut ≡ self.old.is_cut) }
        ensures room { OnOk result (deque_len self.new.waiting + more ≤ deque_capacity self.new.waiting) }
    {
        self.waiting.reserve(more)
    }

    /// Replaces the queue by the sentinel; a queue that is cut stays.
    pub fn cut(&mut self)
        ensures cut { self.new.is_cut ≡ true }
        ensures waiting { self.new.waiting.items ≡ (if self.old.is_cut then self.old.waiting.items else Outgoing.Cut ∷ []) }
    {
        if self.is_cut {
            return;
        }
        self.waiting.clear();
        self.waiting.push_back_reserved(Outgoing::Cut);
        self.is_cut = true;
    }
}
