//! The lines of a transcript.

use crate::bytes::cutting::ask_frames;
use crate::bytes::fields::{add_numbers, ask_fields};
use crate::bytes::moments::ask_moments;
use crate::bytes::state::State;
use crate::bytes::writing::emit_written;
use crate::lines::Part;
use crate::refusals::{Refusals, Trouble};
use anyhow::{Result, bail, ensure};
use std::alloc::{AllocError, Global};
use std::mem;

// What a line does to the text, if it is one that does.
fn write_text(state: &mut State, word: &str, rest: &str) -> Result<bool, Trouble> {
    match word {
        "times" => {
            let (times, bytes) = rest.split_once(' ').unwrap_or((rest, ""));
            match times.parse::<u32>() {
                Ok(times) => state.add_times(times, bytes)?,
                Err(_) => return Ok(false),
            }
        }
        "byte" => match rest.parse::<u8>() {
            Ok(byte) => state.text.extend_from_slice(&[byte])?,
            Err(_) => return Ok(false),
        },
        "numbers" => match rest.parse::<u64>() {
            Ok(count) => add_numbers(count, &mut state.text)?,
            Err(_) => return Ok(false),
        },
        _ => return Ok(false),
    }
    Ok(true)
}

// Makes a call, and appends what is answered; false where it is no call.
fn ask(
    alloc: Global,
    state: &mut State,
    word: &str,
    rest: &str,
    emitted: &mut Vec<u8>,
) -> Result<bool, Trouble> {
    if word == "written" {
        emit_written(alloc, emitted)?;
        return Ok(true);
    }
    if ask_moments(alloc, word, rest, emitted)? || ask_fields(alloc, state, word, rest, emitted)? {
        return Ok(true);
    }
    ask_frames(alloc, state, word, rest, emitted)
}

// Runs a line, and appends it with its answers; false where it is no call. Each call takes the text before it.
fn run_once(
    alloc: Global,
    state: &mut State,
    line: &str,
    emitted: &mut Vec<u8>,
) -> Result<bool, Trouble> {
    emitted.extend_from_slice(line.as_bytes())?;
    emitted.extend_from_slice(b"\n")?;
    if line.is_empty() {
        return Ok(true);
    }
    if line.starts_with('#') {
        drop(mem::replace(state, State::new(alloc)));
        return Ok(true);
    }
    let (word, rest) = line.split_once(' ').unwrap_or((line, ""));
    if write_text(state, word, rest)? {
        return Ok(true);
    }
    let known = ask(alloc, state, word, rest, emitted)?;
    state.text.clear();
    Ok(known)
}

impl Part for State {
    fn begin(alloc: Global) -> Result<State> {
        Ok(State::new(alloc))
    }

    // Where an allocation failed, puts the text back as it was, and runs the line again.
    fn run_line(
        &mut self,
        alloc: Global,
        line: &str,
        emitted: &mut Vec<u8>,
        refusals: &mut Refusals,
    ) -> Result<()> {
        let (answers, text) = (emitted.len(), self.text.len());
        let mut outcome = run_once(alloc, self, line, emitted);
        if let Err(Trouble::NoMemory) = outcome {
            refusals.one_more()?;
            emitted.truncate(answers);
            self.text.truncate(text);
            outcome = run_once(alloc, self, line, emitted);
        }
        match outcome {
            Ok(known) => ensure!(known, "no call: {line}"),
            Err(Trouble::NoMemory) => return Err(AllocError.into()),
            Err(Trouble::Changed) => bail!("a refused call changed what was to stay"),
        }
        Ok(())
    }
}
