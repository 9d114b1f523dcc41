//! Lists of fields, and what is got of them.

use crate::bytes::cutting::pieces_in;
use crate::bytes::emitting::emit_last;
use crate::bytes::forms::{Form, emit_got, emit_text, form_in, got, read};
use crate::bytes::groups::{emit_parties, emit_symbols};
use crate::bytes::state::State;
use crate::emitting::{emit, emit_count, emit_line};
use crate::refusals::Trouble;
use fix_fields::{
    FieldFault, Fields, append_number, read_identifier, read_integer, read_text, split,
};
use std::alloc::{AllocError, Global};

// Appends why a body is no list of fields.
fn emit_fault(alloc: Global, fault: FieldFault, emitted: &mut Vec<u8>) -> Result<(), AllocError> {
    match fault {
        FieldFault::NoMemory => Err(AllocError),
        fault => emit(alloc, &fault, emitted),
    }
}

/// Appends this many fields, with the numbers from 0 on. A refused one leaves the text.
pub fn add_numbers(count: u64, text: &mut Vec<u8>) -> Result<(), Trouble> {
    for number in 0..count {
        let before = text.len();
        if append_number(text, 34, number).is_err() {
            return Err(if text.len() == before {
                Trouble::NoMemory
            } else {
                Trouble::Changed
            });
        }
    }
    Ok(())
}

// Whether the fields have the numbers from 0 on.
fn are_numbers(fields: &Fields<'_>) -> bool {
    for (place, field) in fields.as_slice().iter().enumerate() {
        if read_integer(field.value, 0, 1_000_000_000) != Ok(place as u64) {
            return false;
        }
    }
    true
}

// What is asked of the fields of a text.
#[derive(Clone, Copy)]
enum Asked {
    Count,
    Numbers,
    Symbols,
    Parties,
    Value(u32, Form),
}

// A call and its text.
fn asked_in<'a>(word: &str, rest: &'a str) -> Option<(Asked, &'a str)> {
    let asked = match word {
        "fields" => Asked::Count,
        "numbered" => Asked::Numbers,
        "symbols" => Asked::Symbols,
        "parties" => Asked::Parties,
        "get" => {
            let (tag, rest) = rest.split_once(' ')?;
            let (form, text) = form_in(rest)?;
            return Some((Asked::Value(tag.parse::<u32>().ok()?, form), text));
        }
        _ => return None,
    };
    Some((asked, rest))
}

fn emit_asked(
    alloc: Global,
    fields: &Fields<'_>,
    asked: Asked,
    emitted: &mut Vec<u8>,
) -> Result<(), AllocError> {
    match asked {
        Asked::Count => emit_count(alloc, fields.len(), "fields", emitted),
        Asked::Numbers if are_numbers(fields) => emit_line("the numbers from 0 on", emitted),
        Asked::Numbers => emit_line("other numbers", emitted),
        Asked::Symbols => emit_symbols(alloc, fields, emitted),
        Asked::Parties => emit_parties(alloc, fields.as_slice(), emitted),
        Asked::Value(tag, form) => emit_got(alloc, got(fields, tag, form), emitted),
    }
}

// Reads bodies in turn with one reader, and prints each fault, then how many fields the last has and its value of a
// tag.
fn emit_turns(
    alloc: Global,
    tag: u32,
    bodies: &[Vec<u8>],
    emitted: &mut Vec<u8>,
) -> Result<(), AllocError> {
    let mut fields = Fields::new(alloc);
    for body in bodies {
        if let Err(fault) = fields.read(body) {
            emit_fault(alloc, fault, emitted)?;
        }
    }
    emit_count(alloc, fields.len(), "fields", emitted)?;
    match fields.get(tag) {
        Some(value) => emit_last(alloc, "", value, emitted),
        None => emit_line("none", emitted),
    }
}

// Prints a value in the form that the text begins with.
fn emit_value(
    alloc: Global,
    state: &mut State,
    text: &str,
    emitted: &mut Vec<u8>,
) -> Result<bool, AllocError> {
    let Some((form, text)) = form_in(text) else {
        return Ok(false);
    };
    state.add(text)?;
    let read = match read(form, &state.text) {
        Ok(number) => Ok(Some(number)),
        Err(fault) => Err(fault),
    };
    emit_got(alloc, read, emitted)?;
    Ok(true)
}

fn ask_turns(alloc: Global, rest: &str, emitted: &mut Vec<u8>) -> Result<bool, AllocError> {
    let (tag, bodies) = rest.split_once(' ').unwrap_or((rest, ""));
    let Ok(tag) = tag.parse::<u32>() else {
        return Ok(false);
    };
    let bodies = pieces_in(alloc, bodies)?;
    emit_turns(alloc, tag, &bodies, emitted)?;
    Ok(true)
}

/// Answers a call of fields and their values, if it is one.
pub fn ask_fields(
    alloc: Global,
    state: &mut State,
    word: &str,
    rest: &str,
    emitted: &mut Vec<u8>,
) -> Result<bool, AllocError> {
    if let Some((asked, text)) = asked_in(word, rest) {
        state.add(text)?;
        match split(alloc, &state.text) {
            Ok(fields) => emit_asked(alloc, &fields, asked, emitted)?,
            Err(fault) => emit_fault(alloc, fault, emitted)?,
        }
        return Ok(true);
    }
    match word {
        "value" => return emit_value(alloc, state, rest, emitted),
        "turns" => return ask_turns(alloc, rest, emitted),
        "identifier" => {
            state.add(rest)?;
            emit_text(alloc, read_identifier(&state.text), emitted)?
        }
        "text" => {
            state.add(rest)?;
            emit_text(alloc, read_text(&state.text), emitted)?
        }
        _ => return Ok(false),
    }
    Ok(true)
}
