//! The files of a market, made of the lines of a transcript.

use crate::venue::line::Trouble;
use instruments::{FileFault as InstrumentFault, Instruments};
use participants::{FileFault as ParticipantFault, Participants};
use std::alloc::{AllocError, Global};

/// The texts of a participant file and of an instrument file.
#[derive(Drop)]
pub struct Market {
    participants: Vec<u8>,
    instruments: Vec<u8>,
}

// The entry of a participant.
fn participant(alloc: Global, name: &str) -> Result<String, AllocError> {
    let entry = format!(in alloc; "[[participant]]\nname = \"{name}\"\n")?;
    Ok(entry)
}

// The entries of some participants.
fn participants(alloc: Global, names: &str) -> Result<Vec<u8>, AllocError> {
    let mut entries = Vec::new(alloc);
    for name in names.split_whitespace() {
        entries.extend_from_slice(participant(alloc, name)?.as_bytes())?;
    }
    Ok(entries)
}

// The entry of an instrument, each of its terms on a line.
fn instrument(alloc: Global, symbol: &str, terms: &str) -> Result<Vec<u8>, AllocError> {
    let head = format!(in alloc; "[[instrument]]\nsymbol = \"{symbol}\"\n")?;
    let mut entry = Vec::from_slice(alloc, head.as_bytes())?;
    for term in terms.split_whitespace() {
        entry.extend_from_slice(term.as_bytes())?;
        entry.push(b'\n')?;
    }
    Ok(entry)
}

impl Market {
    /// The venue SEF, without participants and instruments.
    pub fn new(alloc: Global) -> Result<Market, AllocError> {
        Ok(Market {
            participants: Vec::from_slice(alloc, b"venue = \"SEF\"\n")?,
            instruments: Vec::new(alloc),
        })
    }

    /// Adds participants by their names, which spaces divide.
    pub fn add_participants(&mut self, alloc: Global, names: &str) -> Result<(), Trouble> {
        let entries = participants(alloc, names)?;
        self.participants.extend_from_slice(&entries)?;
        Ok(())
    }

    /// Adds a pair of related participants.
    pub fn add_related(&mut self, alloc: Global, names: &str) -> Result<(), Trouble> {
        let Some((one, other)) = names.split_once(' ') else {
            return Err(Trouble::NoCall);
        };
        let entry = format!(in alloc; "[[related]]\na = \"{one}\"\nb = \"{other}\"\n")?;
        self.participants.extend_from_slice(entry.as_bytes())?;
        Ok(())
    }

    /// Adds an instrument by its symbol and its terms, as `tick=2500`.
    pub fn add_instrument(&mut self, alloc: Global, text: &str) -> Result<(), Trouble> {
        let Some((symbol, terms)) = text.split_once(' ') else {
            return Err(Trouble::NoCall);
        };
        let entry = instrument(alloc, symbol, terms)?;
        self.instruments.extend_from_slice(&entry)?;
        Ok(())
    }

    /// The participants.
    pub fn participants(&self, alloc: Global) -> Result<Participants, Trouble> {
        match Participants::read(alloc, &self.participants) {
            Ok(file) => Ok(file),
            Err(ParticipantFault::NoMemory) => Err(Trouble::NoMemory),
            Err(_) => Err(Trouble::NoFile),
        }
    }

    /// The instruments.
    pub fn instruments(&self, alloc: Global) -> Result<Instruments, Trouble> {
        match Instruments::read(alloc, &self.instruments) {
            Ok(file) => Ok(file),
            Err(InstrumentFault::NoMemory) => Err(Trouble::NoMemory),
            Err(_) => Err(Trouble::NoFile),
        }
    }
}
