//! The lines of a transcript.

use crate::emitting::{emit, emit_count};
use crate::files::asking::{ask_instruments, ask_participants};
use crate::files::texts::Files;
use crate::lines::Part;
use crate::refusals::Refusals;
use anyhow::{Result, ensure};
use instruments::{FileFault as InstrumentFault, Instruments};
use participants::{FileFault, Participants};
use std::alloc::{AllocError, Global};

// Reads the text as a file of participants, and begins a new one.
fn read_participants(
    alloc: Global,
    files: &mut Files,
    emitted: &mut Vec<u8>,
) -> Result<(), AllocError> {
    match Participants::read(alloc, &files.text) {
        Ok(file) => {
            let count = file.len();
            drop(files.participants.replace(file));
            emit_count(alloc, count, "participants", emitted)?
        }
        Err(FileFault::NoMemory) => return Err(AllocError),
        Err(fault) => emit(alloc, &fault, emitted)?,
    }
    files.text.clear();
    Ok(())
}

// Reads the text as a file of instruments, and begins a new one.
fn read_instruments(
    alloc: Global,
    files: &mut Files,
    emitted: &mut Vec<u8>,
) -> Result<(), AllocError> {
    match Instruments::read(alloc, &files.text) {
        Ok(file) => {
            let count = file.len();
            drop(files.instruments.replace(file));
            emit_count(alloc, count, "instruments", emitted)?
        }
        Err(InstrumentFault::NoMemory) => return Err(AllocError),
        Err(fault) => emit(alloc, &fault, emitted)?,
    }
    files.text.clear();
    Ok(())
}

// A participant's entry, before and after the number in its name.
const PARTICIPANT: [&str; 2] = ["[[participant]]\nname = \"P", "\"\n"];

// An instrument's entry, before and after the number in its symbol.
const INSTRUMENT: [&str; 2] = [
    "[[instrument]]\nsymbol = \"I",
    "\"\ntick = 1\nleast = 1\nrfq_life = 1\n",
];

// Appends this many entries to the text, numbered from 000 on.
fn add_entries(
    alloc: Global,
    entry: [&str; 2],
    count: u32,
    text: &mut Vec<u8>,
) -> Result<(), AllocError> {
    let [before, behind] = entry;
    for k in 0..count {
        let entry = format!(in alloc; "{before}{k:03}{behind}")?;
        text.extend_from_slice(entry.as_bytes())?;
    }
    Ok(())
}

// What a line does to the text, if it is one that does.
fn write_text(
    alloc: Global,
    files: &mut Files,
    word: &str,
    rest: &str,
) -> Result<bool, AllocError> {
    match word {
        "|" => {
            files.text.extend_from_slice(rest.as_bytes())?;
            files.text.push(b'\n')?
        }
        "+" => files.text.extend_from_slice(rest.as_bytes())?,
        "byte" => match rest.parse::<u8>() {
            Ok(byte) => files.text.push(byte)?,
            Err(_) => return Ok(false),
        },
        "keep" => files.keep(alloc, rest)?,
        "add" => files.add(rest)?,
        "more_participants" => match rest.parse::<u32>() {
            Ok(count) => add_entries(alloc, PARTICIPANT, count, &mut files.text)?,
            Err(_) => return Ok(false),
        },
        "more_instruments" => match rest.parse::<u32>() {
            Ok(count) => add_entries(alloc, INSTRUMENT, count, &mut files.text)?,
            Err(_) => return Ok(false),
        },
        _ => return Ok(false),
    }
    Ok(true)
}

// What the files that were read answer to a line, if one does.
fn ask(
    alloc: Global,
    files: &Files,
    word: &str,
    rest: &str,
    emitted: &mut Vec<u8>,
) -> Result<bool, AllocError> {
    if let Some(file) = &files.participants {
        if ask_participants(alloc, file, word, rest, emitted)? {
            return Ok(true);
        }
    }
    match &files.instruments {
        Some(file) => ask_instruments(alloc, file, word, rest, emitted),
        None => Ok(false),
    }
}

// Runs a line, and appends it with its answers; false where it is no call.
fn run_once(
    alloc: Global,
    files: &mut Files,
    line: &str,
    emitted: &mut Vec<u8>,
) -> Result<bool, AllocError> {
    emitted.extend_from_slice(line.as_bytes())?;
    emitted.push(b'\n')?;
    if line.is_empty() || line.starts_with('#') {
        return Ok(true);
    }
    match line {
        "read participants" => {
            read_participants(alloc, files, emitted)?;
            return Ok(true);
        }
        "read instruments" => {
            read_instruments(alloc, files, emitted)?;
            return Ok(true);
        }
        _ => {}
    }
    let (word, rest) = line.split_once(' ').unwrap_or((line, ""));
    if write_text(alloc, files, word, rest)? {
        return Ok(true);
    }
    ask(alloc, files, word, rest, emitted)
}

impl Part for Files {
    fn begin(alloc: Global) -> Result<Files> {
        Ok(Files {
            text: Vec::new(alloc),
            kept: Vec::new(alloc),
            participants: None,
            instruments: None,
        })
    }

    // Runs a line again where an allocation failed. The failed call changed nothing but the text that it was to write,
    // which is put back.
    fn run_line(
        &mut self,
        alloc: Global,
        line: &str,
        emitted: &mut Vec<u8>,
        refusals: &mut Refusals,
    ) -> Result<()> {
        let (answers, text) = (emitted.len(), self.text.len());
        let known = match run_once(alloc, self, line, emitted) {
            Ok(known) => known,
            Err(AllocError) => {
                refusals.one_more()?;
                emitted.truncate(answers);
                self.text.truncate(text);
                run_once(alloc, self, line, emitted)?
            }
        };
        ensure!(known, "no call: {line}");
        Ok(())
    }
}
