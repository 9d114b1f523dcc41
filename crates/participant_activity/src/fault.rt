//! Why not all was printed.

ghost use Rattle.std.specs.Prelude.{◌≡◌};
ghost use Rattle.participant_activity.specs.declared.fault.ActivityFault.TheVariants.{Memory};

use std::alloc::AllocError;
use thiserror::Error;

/// Why not all was printed.
#[derive(Clone, Copy, Debug, PartialEq, Eq, Error)]
pub enum ActivityFault {
    /// An allocation failed.
    #[error("memory")]
    Memory,
    /// A write failed.
    #[error("output")]
    Output,
}

impl From<AllocError> for ActivityFault {
    ghost from_gives = { λ _ fault. fault ≡ Memory };

    fn from(_: AllocError) -> ActivityFault {
        ActivityFault::Memory
    }
}
