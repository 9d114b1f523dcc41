//! Why not all was printed.

ghost use Rattle.std.specs.Prelude.{◌≡◌};
ghost use Rattle.trail_comparison.specs.declared.fault.ComparisonFault.TheVariants.{Memory};

use std::alloc::AllocError;
use thiserror::Error;

/// Why not all was printed.
#[derive(Clone, Copy, Debug, PartialEq, Eq, Error)]
pub enum ComparisonFault {
    /// An allocation failed.
    #[error("memory")]
    Memory,
    /// A write failed.
    #[error("output")]
    Output,
}

impl From<AllocError> for ComparisonFault {
    ghost from_gives = { λ _ fault. fault ≡ Memory };

    fn from(_: AllocError) -> ComparisonFault {
        ComparisonFault::Memory
    }
}
