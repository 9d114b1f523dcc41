//! The program's exit statuses other than 0.

ghost use Rattle.std.specs.Prelude.{◌≡◌};
ghost use Rattle.sef_replay.specs.Failures.{asked_failure, end_failure, open_failure, status_of, trail_failure, words_failure};
ghost use Rattle.sef_replay.specs.declared.failure.Failure.TheVariants.{Stopped as Stops};
ghost use Rattle.sef_replay.specs.declared.failure.Stop.TheVariants.{Memory};

use program_shell::{TrailEnd, WordsFault};
use sqlite::Error as StoreError;
use std::alloc::AllocError;
use thiserror::Error;
use trail_questions::{AskedFault, Unknown};
use venue_rules::TrailFault;

/// The cause of status 1.
#[derive(Clone, Copy, Debug, PartialEq, Eq, Error)]
pub enum Stop {
    /// An allocation failed.
    #[error("memory")]
    Memory,
    /// The file exists and cannot be read.
    #[error("input")]
    Input,
    /// A write failed.
    #[error("output")]
    Output,
    /// Another process has the trail open, the disk failed, or what was opened was not read back as it was.
    #[error("trail")]
    Trail,
}

/// Why the program ends with a status other than 0. Its text goes to standard error.
#[derive(Debug, Drop, Error)]
pub enum Failure {
    /// Status 1.
    #[error("stopped: {0}")]
    Stopped(Stop),
    /// Status 2.
    #[error("command line refused")]
    CommandLine,
    /// Status 3: the number of the trail's fault.
    #[error("trail refused {0}")]
    Trail(u8),
    /// Status 3.
    #[error("{0} refused")]
    Unknown(Unknown),
    /// Status 3: the file under which rows were to be answered.
    #[error("file refused")]
    File,
    /// Status 4: the answer was printed, and it is that what was compared differs.
    #[error("compared, and not the same")]
    Differs,
}

impl Failure {
    /// The exit status.
    pub fn status(&self) -> u8
        ensures { result ≡ status_of self.now }
    {
        match self {
            Failure::Stopped(_) => 1,
            Failure::CommandLine => 2,
            Failure::Trail(_) => 3,
            Failure::Unknown(_) => 3,
            Failure::File => 3,
            Failure::Differs => 4,
        }
    }
}

impl From<AllocError> for Stop {
    ghost from_gives = { λ _ stop. stop ≡ Memory };

    fn from(_: AllocError) -> Stop {
        Stop::Memory
    }
}

impl From<Stop> for Failure {
    ghost from_gives = { λ stop failure. failure ≡ Stops stop };

    fn from(stop: Stop) -> Failure {
        Failure::Stopped(stop)
    }
}

impl From<AskedFault> for Failure {
    ghost from_gives = { λ fault failure. failure ≡ asked_failure fault };

    fn from(fault: AskedFault) -> Failure {
        match fault {
            AskedFault::Memory => Failure::Stopped(Stop::Memory),
            AskedFault::Output => Failure::Stopped(Stop::Output),
            AskedFault::Unknown(what) => Failure::Unknown(what),
            AskedFault::Differs => Failure::Differs,
        }
    }
}

impl From<TrailEnd> for Failure {
    ghost from_gives = { λ end failure. failure ≡ end_failure end };

    fn from(end: TrailEnd) -> Failure {
        match end {
            TrailEnd::Refused(number) => Failure::Trail(number),
            TrailEnd::Memory => Failure::Stopped(Stop::Memory),
            TrailEnd::Stopped => Failure::Stopped(Stop::Trail),
        }
    }
}

impl From<TrailFault> for Failure {
    ghost from_gives = { λ fault failure. failure ≡ trail_failure fault };

    fn from(fault: TrailFault) -> Failure {
        Failure::from(TrailEnd::from(fault))
    }
}

impl From<StoreError> for Failure {
    ghost from_gives = { λ error failure. failure ≡ open_failure error };

    fn from(error: StoreError) -> Failure {
        Failure::from(TrailEnd::from(error))
    }
}

impl From<WordsFault> for Failure {
    ghost from_gives = { λ fault failure. failure ≡ words_failure fault };

    fn from(fault: WordsFault) -> Failure {
        match fault {
            WordsFault::Memory => Failure::Stopped(Stop::Memory),
            WordsFault::Refused => Failure::CommandLine,
        }
    }
}
