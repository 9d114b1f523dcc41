//! The stop of a venue, for all its threads.

use std::sync::atomic::{AtomicU64, Ordering};

/// The phases of a venue: it is open; no line reads or accepts any more, and what was heard is answered; every line is
/// over.
const OPEN: u64 = 0;

const CLOSING: u64 = 1;

const OVER: u64 = 2;

/// What asks a venue to stop.
pub trait StopSource {
    /// Whether the venue is to stop. The worker asks every half second; the answer does not wait.
    fn is_asked(&mut self) -> bool;
}

/// A source that never asks.
#[derive(Clone, Copy)]
pub struct NoStop;

impl StopSource for NoStop {
    fn is_asked(&mut self) -> bool {
        false
    }
}

/// The phase of a venue, which the worker's clock sets and each line reads. No contract depends on it.
#[derive(Drop)]
pub struct Stop {
    phase: AtomicU64,
    refused: AtomicU64,
}

impl Stop {
    /// The stop of a venue that is open.
    pub fn new() -> Stop {
        Stop {
            phase: AtomicU64::new(OPEN),
            refused: AtomicU64::new(0),
        }
    }

    pub fn is_open(&self) -> bool {
        self.phase.load(Ordering::SeqCst) == OPEN
    }

    pub fn is_over(&self) -> bool {
        self.phase.load(Ordering::SeqCst) == OVER
    }

    /// From now on no line reads or accepts; what was heard is answered.
    pub fn begin(&self) {
        let _ = self
            .phase
            .compare_exchange(OPEN, CLOSING, Ordering::SeqCst, Ordering::SeqCst);
    }

    /// From now on every line is over.
    pub fn finish(&self) {
        self.phase.store(OVER, Ordering::SeqCst);
    }

    /// The trail refused a row.
    pub fn refuse(&self) {
        self.refused.store(1, Ordering::SeqCst);
    }

    pub fn is_refused(&self) -> bool {
        self.refused.load(Ordering::SeqCst) != 0
    }
}
