//! Why nothing was compared.

ghost use Rattle.std.specs.Prelude.{◌≡◌};
ghost use Rattle.desk_log.specs.declared.fault.LogFault.TheVariants.{Memory};

use crate::frames::FrameFault;
use std::alloc::AllocError;

/// What stands in a file in which no frame goes from the venue to the participant.
#[derive(Clone, Copy)]
pub struct NoLog {
    /// The number of frames, from and to others.
    pub frames: usize,
    /// The first line that begins as a frame and is none, and why.
    pub broken: Option<(usize, FrameFault)>,
}

/// Why nothing was compared.
#[derive(Clone, Copy)]
pub enum LogFault {
    /// An allocation failed.
    Memory,
    /// A write failed.
    Output,
    /// No frame of the file goes from the venue to the participant.
    NoLog(NoLog),
}

impl From<AllocError> for LogFault {
    ghost from_gives = { λ _ fault. fault ≡ Memory };

    fn from(_: AllocError) -> LogFault {
        LogFault::Memory
    }
}
