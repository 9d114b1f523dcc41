//! The market of the worked rows, and an empty database.

use crate::scenario::Scenario;
use anyhow::Result;
use audit_trail::{FileText, Files};
use instruments::Instruments;
use participants::Participants;
use sqlite::{Connection, MemStore};
use std::alloc::{AllocError, Global};
use venue_rules::{fixture_instruments, fixture_participants};

const PARTICIPANTS: &str =
    "venue = \"SEF\"\n[[participant]]\nname = \"ALPHA\"\n[[participant]]\nname = \"BETA\"\n[[participant]]\nname = \"GAMMA\"\n[[participant]]\nname = \"DELTA\"\n[[participant]]\nname = \"EPSILON\"\n[[related]]\na = \"BETA\"\nb = \"GAMMA\"\n";

const INSTRUMENTS: &str =
    "[[instrument]]\nsymbol = \"IRS5Y\"\ntick = 2500\nleast = 1\nrfq_life = 30\n[[instrument]]\nsymbol = \"BASIS1Y\"\ntick = 2500\nleast = 1\nrfq_life = 30\n";

/// The second of two instruments has a delay of its own.
const OWN_DELAY: &str =
    "[[instrument]]\nsymbol = \"IRS5Y\"\ntick = 2500\nleast = 1\nrfq_life = 30\n[[instrument]]\nsymbol = \"BASIS1Y\"\ntick = 2500\nleast = 1\nrfq_life = 30\ndelay_ms = 1000\n";

/// The usual delay between linked orders, in milliseconds.
const DEFAULT_DELAY: u64 = 15_000;

// A file's text, filled up with a comment to this many bytes.
fn filled(alloc: Global, text: &str, length: usize) -> Result<FileText, AllocError> {
    let mut bytes = Vec::from_slice(alloc, text.as_bytes())?;
    for _ in text.len()..length {
        bytes.push(b'#')?;
    }
    Ok(FileText::from_vec(bytes))
}

// The texts of both files, each filled up to this many bytes.
fn filled_files(alloc: Global, instruments: &str, length: usize) -> Result<Files, AllocError> {
    let participants = filled(alloc, PARTICIPANTS, length)?;
    let instruments = filled(alloc, instruments, length)?;
    Ok(Files {
        participants,
        instruments,
    })
}

/// The texts of both files.
pub fn make_files(alloc: Global) -> Result<Files, AllocError> {
    filled_files(alloc, INSTRUMENTS, 0)
}

/// The texts of both files that a word names: the usual ones, with no instruments, with a delay of an instrument's own,
/// with instruments that their reader refuses, or filled up with a comment to this many bytes.
pub fn files_named(alloc: Global, name: &str) -> Result<Files> {
    let (instruments, length) = match name {
        "usual" => (INSTRUMENTS, 0),
        "none" => ("", 0),
        "own_delay" => (OWN_DELAY, 0),
        "misread" => ("instrument = 1", 0),
        _ => (INSTRUMENTS, name.parse::<usize>()?),
    };
    Ok(filled_files(alloc, instruments, length)?)
}

/// The texts of both files, made again where an allocation failed.
pub fn files(scenario: &mut Scenario) -> Result<Files> {
    if let Ok(files) = make_files(scenario.alloc) {
        return Ok(files);
    }
    scenario.refused()?;
    Ok(make_files(scenario.alloc)?)
}

/// The content of both files.
#[derive(Drop)]
pub struct Market {
    pub participants: Participants,
    pub instruments: Instruments,
}

/// The content of both files.
pub fn make_market(alloc: Global) -> Result<Market, AllocError> {
    let participants = fixture_participants(alloc)?;
    let instruments = fixture_instruments(alloc, DEFAULT_DELAY)?;
    Ok(Market {
        participants,
        instruments,
    })
}

/// The content of both files, made again where an allocation failed.
pub fn both_read(scenario: &mut Scenario) -> Result<Market> {
    if let Ok(market) = make_market(scenario.alloc) {
        return Ok(market);
    }
    scenario.refused()?;
    Ok(make_market(scenario.alloc)?)
}

/// An empty database in memory, made again where an allocation failed.
pub fn empty(scenario: &mut Scenario) -> Result<Connection<MemStore>> {
    if let Ok(conn) = Connection::open_in_memory(scenario.alloc) {
        return Ok(conn);
    }
    scenario.refused()?;
    Ok(Connection::open_in_memory(scenario.alloc)?)
}
