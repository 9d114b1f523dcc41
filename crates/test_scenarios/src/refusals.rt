//! The allocation failures that a run may meet.

use anyhow::{Result, ensure};
use std::alloc::AllocError;

/// How many more calls may fail to allocate: as many as allocations that were made to fail, so that no call fails
/// without that cause.
#[derive(Drop)]
pub struct Refusals {
    left: u32,
}

impl Refusals {
    pub fn at_most(left: u32) -> Refusals {
        Refusals { left }
    }

    /// Admits one more failed call. False where no allocation can have failed.
    pub fn admit(&mut self) -> bool {
        let admitted = self.left > 0;
        self.left = self.left.saturating_sub(1);
        admitted
    }

    /// One more call failed. An error where no allocation can have failed.
    pub fn one_more(&mut self) -> Result<()> {
        ensure!(self.admit(), "a call failed, and no allocation did");
        Ok(())
    }
}

/// Why a call has no answer.
#[derive(Clone, Copy, Drop)]
pub enum Trouble {
    /// An allocation failed, and the call changed nothing but the text and what was emitted.
    NoMemory,
    /// An allocation failed, and the call changed what it was to leave.
    Changed,
}

impl From<AllocError> for Trouble {
    fn from(_error: AllocError) -> Trouble {
        Trouble::NoMemory
    }
}
