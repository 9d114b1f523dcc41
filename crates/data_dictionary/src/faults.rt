//! Why a dictionary was not written.

ghost use Rattle.std.specs.Prelude.{◌≡◌};
ghost use Rattle.data_dictionary.specs.declared.faults.WriteFault.TheVariants.{Memory};

use std::alloc::AllocError;
use thiserror::Error;

/// Why a dictionary was not written.
#[derive(Clone, Copy, Debug, PartialEq, Eq, Error)]
pub enum WriteFault {
    /// 1: an allocation failed. Nothing was written.
    #[error("memory")]
    Memory,
    /// 2: a write failed.
    #[error("output")]
    Output,
}

impl From<AllocError> for WriteFault {
    ghost from_gives = { λ _ fault. fault ≡ Memory };

    fn from(_: AllocError) -> WriteFault {
        WriteFault::Memory
    }
}
