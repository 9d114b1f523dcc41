//! The end of a program over a trail.

ghost use Rattle.std.specs.Prelude.{◌≡◌};
ghost use Rattle.program_shell.specs.TrailEnd.{end_of_code, end_of_error, end_of_fault};

use sqlite::{Error as StoreError, ErrorCode};
use venue_rules::TrailFault;

/// Why a trail ends a program.
#[derive(Clone, Copy, Debug, PartialEq, Eq, Drop)]
pub enum TrailEnd {
    /// The trail is refused, by the number of its fault.
    Refused(u8),
    /// An allocation failed.
    Memory,
    /// Another process has the trail open, its disk is full or failed, or it was closed.
    Stopped,
}

impl From<TrailFault> for TrailEnd {
    ghost from_gives = { λ fault end. end ≡ end_of_fault fault };

    fn from(fault: TrailFault) -> TrailEnd {
        match fault {
            TrailFault::Refused => TrailEnd::Refused(1),
            TrailFault::OtherFiles => TrailEnd::Refused(2),
            TrailFault::BadRow(_) => TrailEnd::Refused(3),
            TrailFault::OtherVersion => TrailEnd::Refused(4),
            TrailFault::BadDelay(_) => TrailEnd::Refused(5),
            TrailFault::NoMemory => TrailEnd::Memory,
        }
    }
}

impl From<StoreError> for TrailEnd {
    ghost from_gives = { λ error end. end ≡ end_of_error error };

    fn from(error: StoreError) -> TrailEnd {
        match error {
            StoreError::SqliteFailure(code) => end_of_code(code),
            _ => TrailEnd::Refused(1),
        }
    }
}

// What is no database, or cannot be opened, is refused.
fn end_of_code(code: ErrorCode) -> TrailEnd
    ensures { result ≡ end_of_code code }
{
    match code {
        ErrorCode::OutOfMemory => TrailEnd::Memory,
        ErrorCode::DatabaseBusy => TrailEnd::Stopped,
        ErrorCode::SystemIoFailure => TrailEnd::Stopped,
        ErrorCode::DiskFull => TrailEnd::Stopped,
        ErrorCode::Closed => TrailEnd::Stopped,
        _ => TrailEnd::Refused(1),
    }
}
