//! Why the program ends with a status other than 0, with what it knows of the cause.

ghost use Rattle.std.specs.Prelude.{◌≡◌, string_bytes, IfSome};
ghost use Rattle.venue_main.specs.Reasons.{IsReason};

use crate::failure::Failure;
use crate::files::{Texts, fault_of};
use crate::once::OnceFault;
use file_diagnosis::{instruments_line, participants_line};
use std::alloc::Global;
use std::io::Error;

/// A failure, and a line on what is at fault, if that is known: the entry of a file, the file or the word.
#[derive(Drop)]
pub struct Refused {
    pub failure: Failure,
    pub reason: Option<String>,
}

impl From<Failure> for Refused {
    ghost from_gives = { λ failure refused. refused.failure ≡ failure };

    fn from(failure: Failure) -> Refused {
        Refused {
            failure,
            reason: None,
        }
    }
}

impl From<OnceFault> for Refused {
    fn from(fault: OnceFault) -> Refused {
        Refused::from(Failure::from(fault))
    }
}

/// The line on the file that is refused, if one is, and if no allocation fails.
fn reason_for(alloc: Global, texts: &Texts, failure: &Failure) -> Option<String>
    ensures { IfSome result (λ line. IsReason texts.now.participants.items texts.now.instruments.items failure.now (string_bytes line)) }
{
    match failure {
        Failure::Participants(_) => participants_line(alloc, &texts.participants),
        Failure::Instruments(_) => instruments_line(alloc, &texts.instruments),
        Failure::Stopped(OnceFault::Input) => match String::from_str(alloc, "standard input") {
            Ok(line) => Some(line),
            Err(_) => None,
        },
        _ => None,
    }
}

impl Refused {
    /// A failure of a command over these files.
    pub fn over(alloc: Global, texts: &Texts, failure: Failure) -> Refused
        ensures failure { result.failure ≡ failure }
        ensures reason { IfSome result.reason (λ line. IsReason texts.now.participants.items texts.now.instruments.items failure (string_bytes line)) }
    {
        let reason = reason_for(alloc, texts, &failure);
        Refused { failure, reason }
    }

    /// A file that cannot be read, with the cause.
    pub fn of_file(alloc: Global, path: &str, error: &Error) -> Refused {
        let failure = Failure::from(fault_of(error));
        let reason = match &failure {
            Failure::Stopped(OnceFault::Input) => format!(in alloc; "{path}: {error}").ok(),
            _ => None,
        };
        Refused { failure, reason }
    }

    /// A command line that is refused, with the word and what is wanted of it.
    pub fn of_command_line(alloc: Global, reason: &str) -> Refused {
        Refused {
            failure: Failure::CommandLine,
            reason: String::from_str(alloc, reason).ok(),
        }
    }
}
