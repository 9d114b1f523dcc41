//! Why not all was printed.

ghost use Rattle.std.specs.Prelude.{◌≡◌};
ghost use Rattle.trail_answers.specs.declared.fault.AnswersFault.TheVariants.{Memory};

use std::alloc::AllocError;
use thiserror::Error;

/// Why not all was printed.
#[derive(Clone, Copy, Debug, PartialEq, Eq, Error)]
pub enum AnswersFault {
    /// An allocation failed.
    #[error("memory")]
    Memory,
    /// A write failed.
    #[error("output")]
    Output,
    /// No row of the day is about this order.
    #[error("no such order")]
    NoOrder,
    /// No request of the day was sent in this room.
    #[error("no such room")]
    NoRoom,
}

impl From<AllocError> for AnswersFault {
    ghost from_gives = { λ _ fault. fault ≡ Memory };

    fn from(_: AllocError) -> AnswersFault {
        AnswersFault::Memory
    }
}
