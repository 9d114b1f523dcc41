//! Prints the venue's data dictionaries, for a counterparty's FIX engine.
#![tactic(auto)]

use data_dictionary::{Dictionary, WriteFault, write_dictionary};
use std::io::Write;
use std::process::ExitCode;
use std::{env, io};

const HELP: &str =
    "Prints the venue's data dictionaries (XML, as QuickFIX reads it), for a counterparty's FIX engine

Usage: export_dictionary --transport | --application ..

  --transport    FIXT 1.1: the header, the trailer and the session's messages
  --application  FIX 5.0 SP2: the application messages
  --help         Print help

Example:
  export_dictionary --transport >transport.xml
  export_dictionary --application >application.xml
";

/// Why the program stopped.
enum Failure {
    CommandLine,
    Stopped(WriteFault),
}

impl From<WriteFault> for Failure {
    fn from(fault: WriteFault) -> Failure {
        Failure::Stopped(fault)
    }
}

impl From<io::Error> for Failure {
    fn from(error: io::Error) -> Failure {
        match error.kind() {
            io::ErrorKind::OutOfMemory => Failure::Stopped(WriteFault::Memory),
            _ => Failure::CommandLine,
        }
    }
}

// The dictionary named by a word of the command line.
fn dictionary_named(word: &str) -> Option<Dictionary> {
    match word {
        "--transport" => Some(Dictionary::Transport),
        "--application" => Some(Dictionary::Application),
        _ => None,
    }
}

fn print_help(rt: &HostRuntime) -> Result<(), Failure> {
    match rt.stdout().write_all(HELP.as_bytes()) {
        Ok(()) => Ok(()),
        Err(_) => Err(Failure::Stopped(WriteFault::Output)),
    }
}

// Prints each requested dictionary, in order; or the help.
fn run(rt: &HostRuntime) -> Result<(), Failure> {
    let mut asked = false;
    for word in env::args(rt)?.skip(1) {
        if word.as_str() == "--help" {
            return print_help(rt);
        }
        let Some(dictionary) = dictionary_named(word.as_str()) else {
            return Err(Failure::CommandLine);
        };
        write_dictionary(rt.alloc(), dictionary, &mut rt.stdout())?;
        asked = true;
    }
    if asked {
        Ok(())
    } else {
        Err(Failure::CommandLine)
    }
}

fn main(rt: HostRuntime) -> ExitCode {
    // Where standard error fails too, the failure cannot be reported.
    match run(&rt) {
        Ok(()) => ExitCode::SUCCESS,
        Err(Failure::CommandLine) => {
            let _ = eprintln!(rt; "export_dictionary: command line refused");
            ExitCode::from(2)
        }
        Err(Failure::Stopped(fault)) => {
            let _ = eprintln!(rt; "export_dictionary: stopped: {fault}");
            ExitCode::from(1)
        }
    }
}
