//! Why not all was printed.

ghost use Rattle.std.specs.Prelude.{◌≡◌};
ghost use Rattle.resting_orders.specs.declared.fault.BookFault.TheVariants.{Memory};

use std::alloc::AllocError;
use thiserror::Error;

/// Why not all was printed.
#[derive(Clone, Copy, Debug, PartialEq, Eq, Error)]
pub enum BookFault {
    /// An allocation failed.
    #[error("memory")]
    Memory,
    /// A write failed.
    #[error("output")]
    Output,
    /// No instrument has this symbol.
    #[error("no such instrument")]
    NoInstrument,
}

impl From<AllocError> for BookFault {
    ghost from_gives = { λ _ fault. fault ≡ Memory };

    fn from(_: AllocError) -> BookFault {
        BookFault::Memory
    }
}
