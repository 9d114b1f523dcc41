//! Why not all was printed.

ghost use Rattle.std.specs.Prelude.{◌≡◌};
ghost use Rattle.trail_digest.specs.declared.fault.DigestFault.TheVariants.{Memory};

use std::alloc::AllocError;
use thiserror::Error;

/// Why not all was printed.
#[derive(Clone, Copy, Debug, PartialEq, Eq, Error)]
pub enum DigestFault {
    /// An allocation failed.
    #[error("memory")]
    Memory,
    /// A write failed.
    #[error("output")]
    Output,
    /// The trail has no row with this number.
    #[error("no such row")]
    NoRow,
}

impl From<AllocError> for DigestFault {
    ghost from_gives = { λ _ fault. fault ≡ Memory };

    fn from(_: AllocError) -> DigestFault {
        DigestFault::Memory
    }
}
