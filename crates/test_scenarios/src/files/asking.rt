//! What is asked of the files that were read.

use crate::emitting::{emit, emit_whether};
use crate::files::emitting::{emit_instruments, emit_participants, emit_place};
use instruments::{DelayFault, Instruments};
use participants::{Participants, Who};
use std::alloc::{AllocError, Global};

// The numbers of a text, with a space between; an empty text has none.
fn numbers_in(alloc: Global, text: &str) -> Result<Option<Vec<u64>>, AllocError> {
    let mut numbers = Vec::new(alloc);
    if text.is_empty() {
        return Ok(Some(numbers));
    }
    for word in text.split(' ') {
        match word.parse::<u64>() {
            Ok(number) => numbers.push(number)?,
            Err(_) => return Ok(None),
        }
    }
    Ok(Some(numbers))
}

// The participants of a text, by their places, with a space between.
fn all_in(alloc: Global, text: &str) -> Result<Option<Vec<Who>>, AllocError> {
    let mut all = Vec::new(alloc);
    for word in text.split(' ') {
        match word.parse::<u32>() {
            Ok(place) => all.push(Who::of(place))?,
            Err(_) => return Ok(None),
        }
    }
    Ok(Some(all))
}

// Whether two participants are related, or three of the recipients unrelated to the requester, who comes first.
fn emit_of_places(
    alloc: Global,
    file: &Participants,
    word: &str,
    text: &str,
    emitted: &mut Vec<u8>,
) -> Result<bool, AllocError> {
    let answer = match (word, all_in(alloc, text)?.as_deref()) {
        ("related", Some([a, b])) => file.related(*a, *b),
        ("unrelated", Some([requester, recipients @ ..])) => {
            file.three_unrelated(*requester, recipients)
        }
        _ => return Ok(false),
    };
    emit_whether(answer, emitted)?;
    Ok(true)
}

/// What a file of participants answers to a line, if it is one that it answers.
pub fn ask_participants(
    alloc: Global,
    file: &Participants,
    word: &str,
    rest: &str,
    emitted: &mut Vec<u8>,
) -> Result<bool, AllocError> {
    match word {
        "participants" => emit_participants(alloc, file, emitted)?,
        "find" => {
            let found = file.find(rest.as_bytes()).map(|who| who.place());
            emit_place(alloc, found, emitted)?
        }
        "related" | "unrelated" => return emit_of_places(alloc, file, word, rest, emitted),
        _ => return Ok(false),
    }
    Ok(true)
}

fn emit_delay(
    alloc: Global,
    file: &Instruments,
    text: &str,
    emitted: &mut Vec<u8>,
) -> Result<bool, AllocError> {
    let Ok(place) = text.parse::<u32>() else {
        return Ok(false);
    };
    if place as usize >= file.len() {
        return Ok(false);
    }
    emit(alloc, &file.delay(place), emitted)?;
    Ok(true)
}

fn emit_with_delays(
    alloc: Global,
    file: &Instruments,
    text: &str,
    emitted: &mut Vec<u8>,
) -> Result<bool, AllocError> {
    let Some(delays) = numbers_in(alloc, text)? else {
        return Ok(false);
    };
    match file.with_delays(alloc, &delays) {
        Ok(other) => {
            let is_emitted = emit_instruments(alloc, &other, emitted);
            drop(other);
            is_emitted?
        }
        Err(DelayFault::NoMemory) => return Err(AllocError),
        Err(fault) => emit(alloc, &fault, emitted)?,
    }
    Ok(true)
}

/// What a file of instruments answers to a line, if it is one that it answers.
pub fn ask_instruments(
    alloc: Global,
    file: &Instruments,
    word: &str,
    rest: &str,
    emitted: &mut Vec<u8>,
) -> Result<bool, AllocError> {
    match word {
        "instruments" => emit_instruments(alloc, file, emitted)?,
        "symbol" => emit_place(alloc, file.find(rest.as_bytes()), emitted)?,
        "delay" => return emit_delay(alloc, file, rest, emitted),
        "delays" => return emit_with_delays(alloc, file, rest, emitted),
        _ => return Ok(false),
    }
    Ok(true)
}
