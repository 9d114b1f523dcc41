//! What a line may have more of, for its gate.

use std::sync::atomic::{AtomicU64, Ordering};

/// Flags between a line and its gate, which share a thread. No contract depends on them.
#[derive(Drop)]
pub struct DirtyFlag {
    dirty: AtomicU64,
    ahead: AtomicU64,
    batch: AtomicU64,
    drained: AtomicU64,
}

fn word(flag: bool) -> u64 {
    if flag { 1 } else { 0 }
}

impl DirtyFlag {
    pub fn new() -> DirtyFlag {
        DirtyFlag {
            dirty: AtomicU64::new(0),
            ahead: AtomicU64::new(0),
            batch: AtomicU64::new(0),
            drained: AtomicU64::new(0),
        }
    }

    /// Records that the line did something, and may have more to do.
    pub fn note(&self) {
        self.drained.store(0, Ordering::SeqCst);
        self.dirty.store(1, Ordering::SeqCst);
    }

    /// Records that the line has nothing to do until the system wakes its thread: all that waited was given, and
    /// nothing came.
    pub fn clear(&self) {
        self.dirty.store(0, Ordering::SeqCst);
    }

    /// Whether the line may have more to do since the last call.
    pub fn take(&self) -> bool {
        self.dirty.swap(0, Ordering::SeqCst) != 0
    }

    /// Records a new connection, of which nothing was read.
    pub fn begin(&self) {
        self.set_read(false, false);
        self.batch.store(0, Ordering::SeqCst);
    }

    /// Records a read that gave bytes: whether some are held that were read ahead, and whether the system has no more.
    pub fn set_read(&self, is_ahead: bool, is_drained: bool) {
        self.note();
        self.ahead.store(word(is_ahead), Ordering::SeqCst);
        self.drained.store(word(is_drained), Ordering::SeqCst);
    }

    /// Whether bytes are held that were read ahead.
    pub fn is_ahead(&self) -> bool {
        self.ahead.load(Ordering::SeqCst) != 0
    }

    /// Whether the last read took all that the system had, and nothing was written since.
    pub fn is_drained(&self) -> bool {
        self.drained.load(Ordering::SeqCst) != 0
    }

    /// Records whether one system call read more than one read gives.
    pub fn set_batch(&self, is_batch: bool) {
        self.batch.store(word(is_batch), Ordering::SeqCst);
    }

    /// Whether the last system call read more than one read gives.
    pub fn is_batch(&self) -> bool {
        self.batch.load(Ordering::SeqCst) != 0
    }
}
