//! Why nothing was printed.

ghost use Rattle.std.specs.Prelude.{◌≡◌};
ghost use Rattle.refusal_causes.specs.declared.fault.WhyFault.TheVariants.{Memory};

use std::alloc::AllocError;
use thiserror::Error;

/// Why nothing was printed.
#[derive(Clone, Copy, Debug, PartialEq, Eq, Error)]
pub enum WhyFault {
    /// An allocation failed.
    #[error("memory")]
    Memory,
    /// A write failed.
    #[error("output")]
    Output,
    /// No row has this number.
    #[error("no such row")]
    NoRow,
}

impl From<AllocError> for WhyFault {
    ghost from_gives = { λ _ fault. fault ≡ Memory };

    fn from(_: AllocError) -> WhyFault {
        WhyFault::Memory
    }
}
