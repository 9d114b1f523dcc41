//! A signal between threads of a test: that something happened, and how often.

use std::sync::atomic::{AtomicU64, Ordering};

/// How often something happened.
#[derive(Drop)]
pub struct Signal {
    cut_token: AtomicU64,
}

impl Signal {
    pub fn new() -> Signal {
        Signal {
            cut_token: AtomicU64::new(0),
        }
    }

    pub fn give(&self) {
        let _ = self.cut_token.fetch_add(1, Ordering::SeqCst);
    }

    pub fn is_given(&self) -> bool {
        self.times() != 0
    }

    pub fn times(&self) -> u64 {
        self.cut_token.load(Ordering::SeqCst)
    }
}
