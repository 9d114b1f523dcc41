//! Why no explanation was made.

ghost use Rattle.std.specs.Prelude.{◌≡◌};
ghost use Rattle.frame_explanation.specs.declared.fault.ExplainFault.TheVariants.{Memory};

use std::alloc::AllocError;
use thiserror::Error;
use venue_rules::EventFault;

/// Why no explanation was made, or not all of it written.
#[derive(Clone, Copy, Debug, PartialEq, Eq, Error)]
pub enum ExplainFault {
    /// 1: an allocation failed.
    #[error("memory")]
    Memory,
    /// 2: a write failed.
    #[error("output")]
    Output,
}

impl From<AllocError> for ExplainFault {
    ghost from_gives = { λ _ e. e ≡ Memory };

    fn from(_error: AllocError) -> ExplainFault {
        ExplainFault::Memory
    }
}

/// The other faults of an event do not occur: no frame has 65,536 answers, each queue is empty before the next frame,
/// what is due enters before a message is taken, and a list of rows refuses none before the 10^15th.
impl From<EventFault> for ExplainFault {
    ghost from_gives = { λ _ e. e ≡ Memory };

    fn from(fault: EventFault) -> ExplainFault {
        match fault {
            EventFault::Down(_)
            | EventFault::Behind(_)
            | EventFault::Due
            | EventFault::NoMemory
            | EventFault::TrailRefused => ExplainFault::Memory,
        }
    }
}
