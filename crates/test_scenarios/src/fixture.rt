//! Who trades what where a transcript does not say it.

use instruments::Instruments;
use participants::Participants;
use std::alloc::{AllocError, Global};
use venue_rules::{fixture_instruments, fixture_participants};

/// The delay between linked orders, in milliseconds.
pub const DELAY: u64 = 15_000;

/// Five participants and two instruments.
pub fn fixture(alloc: Global) -> Result<(Participants, Instruments), AllocError> {
    let participants = fixture_participants(alloc)?;
    match fixture_instruments(alloc, DELAY) {
        Ok(instruments) => Ok((participants, instruments)),
        Err(fault) => {
            drop(participants);
            Err(fault)
        }
    }
}
