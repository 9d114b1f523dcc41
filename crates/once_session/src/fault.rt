//! Why a run stops.

ghost use Rattle.std.specs.Prelude.{◌≡◌};
ghost use Rattle.once_session.specs.declared.fault.OnceFault.TheVariants.{Memory};
ghost use Rattle.once_session.specs.Faults.{fault_of};

use std::alloc::AllocError;
use thiserror::Error;
use venue_rules::EventFault;

/// Failures before the end of the input.
#[derive(Clone, Copy, Debug, PartialEq, Eq, Error)]
pub enum OnceFault {
    /// 1: an allocation failed; also some event faults, see `From`.
    #[error("memory")]
    Memory,
    /// 2: a read failed, or 1,000,000,000 reads were made.
    #[error("input")]
    Input,
    /// 3: a write failed, or there was a reply with the session's numbers used up to 999,999,999.
    #[error("output")]
    Output,
}

impl From<AllocError> for OnceFault {
    ghost from_gives = { λ _ e. e ≡ Memory };

    fn from(_error: AllocError) -> OnceFault {
        OnceFault::Memory
    }
}

/// `Down` is `Output`; every other fault is `Memory`, because the rest do not occur. `Behind` needs 65,536 replies to
/// one message; but all others are cut, the queue is empty before each take, and one sender's orders at one moment do
/// not trade with each other. `Due` needs a delay that is over; but each delay is at least 1,000 ms, and all moments
/// are the same. A list of rows refuses none before the 10^15th.
impl From<EventFault> for OnceFault {
    ghost from_gives = { λ fault e. e ≡ fault_of fault };

    fn from(fault: EventFault) -> OnceFault {
        match fault {
            EventFault::Down(_) => OnceFault::Output,
            EventFault::Behind(_)
            | EventFault::Due
            | EventFault::NoMemory
            | EventFault::TrailRefused => OnceFault::Memory,
        }
    }
}
