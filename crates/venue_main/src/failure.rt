//! The program's exit statuses other than 0.

ghost use Rattle.std.specs.Prelude.{◌≡◌};
ghost use Rattle.venue_main.specs.Failures.{check_failure, end_failure, files_failure, instruments_failure, participants_failure, status_of, trail_failure, words_failure};
ghost use Rattle.venue_main.specs.declared.failure.Failure.TheVariants.{Served as ServesNot, Stopped as Stops};

use crate::check::CheckFault;
use crate::market::FilesFault;
use crate::once::OnceFault;
use crate::serve::ServeFault;
use program_shell::{TrailEnd, WordsFault};
use thiserror::Error;
use venue_rules::TrailFault;

/// Why the program ends with a status other than 0. Its text goes to standard error.
#[derive(Debug, Drop, Error)]
pub enum Failure {
    /// Status 1.
    #[error("stopped: {0}")]
    Stopped(OnceFault),
    /// Status 1: a served venue stopped.
    #[error("stopped: {0}")]
    Served(ServeFault),
    /// Status 2.
    #[error("command line refused")]
    CommandLine,
    /// Status 2: heads of no trail.
    #[error("command line refused\n  --heads without --trail")]
    HeadsWithoutTrail,
    /// Status 2: the file of heads is another file of the venue.
    #[error("command line refused\n  --heads names another file of the venue")]
    SharedHeads,
    /// Status 2: so is the file of counters.
    #[error("command line refused\n  --metrics names another file of the venue")]
    SharedMetrics,
    /// Status 3: the number of the participant file's fault.
    #[error("participants refused {0}")]
    Participants(u8),
    /// Status 3: the number of the instrument file's fault.
    #[error("instruments refused {0}")]
    Instruments(u8),
    /// Status 3: the number of the trail's fault.
    #[error("trail refused {0}")]
    Trail(u8),
}

impl Failure {
    /// The exit status.
    pub fn status(&self) -> u8
        ensures { result ≡ status_of self.now }
    {
        match self {
            Failure::Stopped(_) => 1,
            Failure::Served(_) => 1,
            Failure::CommandLine => 2,
            Failure::HeadsWithoutTrail => 2,
            Failure::SharedHeads => 2,
            Failure::SharedMetrics => 2,
            Failure::Participants(_) => 3,
            Failure::Instruments(_) => 3,
            Failure::Trail(_) => 3,
        }
    }
}

impl From<OnceFault> for Failure {
    ghost from_gives = { λ fault failure. failure ≡ Stops fault };

    fn from(fault: OnceFault) -> Failure {
        Failure::Stopped(fault)
    }
}

impl From<ServeFault> for Failure {
    ghost from_gives = { λ fault failure. failure ≡ ServesNot fault };

    fn from(fault: ServeFault) -> Failure {
        Failure::Served(fault)
    }
}

impl From<participants::FileFault> for Failure {
    ghost from_gives = { λ fault failure. failure ≡ participants_failure fault };

    fn from(fault: participants::FileFault) -> Failure {
        use participants::FileFault;

        match fault {
            FileFault::NotToml => Failure::Participants(1),
            FileFault::Missing => Failure::Participants(2),
            FileFault::Twice => Failure::Participants(3),
            FileFault::UnknownName => Failure::Participants(4),
            FileFault::TooMany => Failure::Participants(5),
            FileFault::BadValue => Failure::Participants(6),
            FileFault::NoMemory => Failure::Stopped(OnceFault::Memory),
        }
    }
}

impl From<instruments::FileFault> for Failure {
    ghost from_gives = { λ fault failure. failure ≡ instruments_failure fault };

    fn from(fault: instruments::FileFault) -> Failure {
        use instruments::FileFault;

        match fault {
            FileFault::NotToml => Failure::Instruments(1),
            FileFault::Missing => Failure::Instruments(2),
            FileFault::Twice => Failure::Instruments(3),
            FileFault::TooMany => Failure::Instruments(5),
            FileFault::BadValue => Failure::Instruments(6),
            FileFault::NoMemory => Failure::Stopped(OnceFault::Memory),
        }
    }
}

impl From<FilesFault> for Failure {
    ghost from_gives = { λ fault failure. failure ≡ files_failure fault };

    fn from(fault: FilesFault) -> Failure {
        match fault {
            FilesFault::Participants(fault) => Failure::from(fault),
            FilesFault::Instruments(fault) => Failure::from(fault),
        }
    }
}

impl From<CheckFault> for Failure {
    ghost from_gives = { λ fault failure. failure ≡ check_failure fault };

    fn from(fault: CheckFault) -> Failure {
        match fault {
            CheckFault::Participants(fault) => Failure::from(fault),
            CheckFault::Instruments(fault) => Failure::from(fault),
            CheckFault::Output => Failure::Stopped(OnceFault::Output),
        }
    }
}

impl From<TrailEnd> for Failure {
    ghost from_gives = { λ end failure. failure ≡ end_failure end };

    fn from(end: TrailEnd) -> Failure {
        match end {
            TrailEnd::Refused(number) => Failure::Trail(number),
            TrailEnd::Memory => Failure::Stopped(OnceFault::Memory),
            TrailEnd::Stopped => Failure::Served(ServeFault::Trail),
        }
    }
}

impl From<TrailFault> for Failure {
    ghost from_gives = { λ fault failure. failure ≡ trail_failure fault };

    fn from(fault: TrailFault) -> Failure {
        Failure::from(TrailEnd::from(fault))
    }
}

impl From<WordsFault> for Failure {
    ghost from_gives = { λ fault failure. failure ≡ words_failure fault };

    fn from(fault: WordsFault) -> Failure {
        match fault {
            WordsFault::Memory => Failure::Stopped(OnceFault::Memory),
            WordsFault::Refused => Failure::CommandLine,
        }
    }
}
