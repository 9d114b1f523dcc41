//! Answers as lines of a transcript.

use crate::emitting::{emit, emit_line};
use instruments::{Instrument, Instruments};
use participants::{Participants, Who};
use std::alloc::{AllocError, Global};

/// Appends a place, or none.
pub fn emit_place(
    alloc: Global,
    place: Option<u32>,
    emitted: &mut Vec<u8>,
) -> Result<(), AllocError> {
    match place {
        Some(place) => emit(alloc, &place, emitted),
        None => emit_line("none", emitted),
    }
}

fn emit_name(word: &str, name: &[u8], emitted: &mut Vec<u8>) -> Result<(), AllocError> {
    emitted.extend_from_slice(b"  ")?;
    emitted.extend_from_slice(word.as_bytes())?;
    emitted.extend_from_slice(name)?;
    emitted.extend_from_slice(b"\n")
}

fn emit_names(file: &Participants, emitted: &mut Vec<u8>) -> Result<(), AllocError> {
    for place in 0..file.len() as u32 {
        emit_name("", file.name(Who::of(place)), emitted)?;
    }
    Ok(())
}

fn emit_pairs(alloc: Global, file: &Participants, emitted: &mut Vec<u8>) -> Result<(), AllocError> {
    for (a, b) in file.pairs() {
        let (a, b) = (a.place(), b.place());
        emit_line(format!(in alloc; "related {a} {b}")?.as_str(), emitted)?;
    }
    Ok(())
}

/// Appends the venue's name, the participants, and the related pairs by their places.
pub fn emit_participants(
    alloc: Global,
    file: &Participants,
    emitted: &mut Vec<u8>,
) -> Result<(), AllocError> {
    emit_name("venue ", file.venue(), emitted)?;
    emit_names(file, emitted)?;
    emit_pairs(alloc, file, emitted)
}

fn emit_instrument(
    alloc: Global,
    row: &Instrument,
    emitted: &mut Vec<u8>,
) -> Result<(), AllocError> {
    let (tick, least, life, delay) = (row.tick, row.least, row.request_life, row.delay);
    emitted.extend_from_slice(b"  ")?;
    emitted.extend_from_slice(row.symbol.as_slice())?;
    let rest = format!(in alloc; " tick {tick} least {least} life {life} delay {delay}\n")?;
    emitted.extend_from_slice(rest.as_bytes())
}

/// Appends each instrument's symbol, tick, least quantity, life of a request and delay.
pub fn emit_instruments(
    alloc: Global,
    file: &Instruments,
    emitted: &mut Vec<u8>,
) -> Result<(), AllocError> {
    for place in 0..file.len() as u32 {
        emit_instrument(alloc, file.get(place), emitted)?;
    }
    Ok(())
}
