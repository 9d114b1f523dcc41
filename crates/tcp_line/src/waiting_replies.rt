//! How many replies wait for each session, as its counts have it.

use crate::events::Counts;
use std::alloc::{AllocError, Global};
use std::sync::Arc;

/// The counts of a session, and what was last recorded there.
#[derive(Drop)]
struct Recorded {
    counts: Arc<Counts>,
    waiting: usize,
}

/// The counts of each session, in order.
#[derive(Drop)]
pub struct WaitingReplies {
    sessions: Vec<Recorded>,
}

impl WaitingReplies {
    pub(crate) fn new(alloc: Global) -> WaitingReplies {
        WaitingReplies {
            sessions: Vec::new(alloc),
        }
    }

    /// Adds the next session, for which nothing waits.
    pub(crate) fn add(&mut self, counts: Arc<Counts>) -> Result<(), AllocError> {
        self.sessions.push(Recorded { counts, waiting: 0 })?;
        Ok(())
    }

    /// Records how many replies wait for a session, where that changed.
    pub(crate) fn set(&mut self, session: usize, waiting: usize) {
        let Some(recorded) = self.sessions.get_mut(session) else {
            return;
        };
        if recorded.waiting != waiting {
            recorded.waiting = waiting;
            recorded.counts.set_replies_waiting(waiting as u64);
        }
    }
}
