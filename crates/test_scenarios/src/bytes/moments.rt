//! Moments, read and printed.

use crate::bytes::emitting::emit_last;
use crate::emitting::{emit, emit_line};
use crate::moments::moment_in;
use sef_moment::{Moment, later, print_utc, read_utc};
use std::alloc::{AllocError, Global};

fn later_in(text: &str) -> Option<Moment> {
    let (a, b) = text.split_once(' ')?;
    Some(later(moment_in(a)?, moment_in(b)?))
}

fn sum_in(text: &str) -> Option<Moment> {
    let (moment, more) = text.split_once(' ')?;
    Some(moment_in(moment)?.plus(more.parse::<u64>().ok()?))
}

fn emit_moment(
    alloc: Global,
    moment: Option<Moment>,
    emitted: &mut Vec<u8>,
) -> Result<(), AllocError> {
    match moment {
        Some(moment) => emit_last(alloc, "", &print_utc(moment), emitted),
        None => emit_line("no moment", emitted),
    }
}

fn emit_read(alloc: Global, text: &[u8], emitted: &mut Vec<u8>) -> Result<(), AllocError> {
    match read_utc(text) {
        Ok(moment) => emit(alloc, &moment.ms(), emitted),
        Err(fault) => emit(alloc, &fault, emitted),
    }
}

/// Answers a call of moments, if it is one.
pub fn ask_moments(
    alloc: Global,
    word: &str,
    rest: &str,
    emitted: &mut Vec<u8>,
) -> Result<bool, AllocError> {
    match word {
        "utc" => emit_read(alloc, rest.as_bytes(), emitted)?,
        "moment" => emit_moment(alloc, moment_in(rest), emitted)?,
        "plus" => emit_moment(alloc, sum_in(rest), emitted)?,
        "later" => emit_moment(alloc, later_in(rest), emitted)?,
        _ => return Ok(false),
    }
    Ok(true)
}
