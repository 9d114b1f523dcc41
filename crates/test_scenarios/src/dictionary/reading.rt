//! Bodies as the dictionary reads and prints them.

use crate::emitting::{emit_line, end_line};
use crate::refusals::Trouble;
use crate::texts::bytes_in;
use fix_decoder::{read_app, read_message};
use fix_dictionary::{App, Message};
use fix_encoder::{print_app, print_message};
use fix_fields::{FieldFault, Fields, split};
use fix_validation::DictFault;
use std::alloc::{AllocError, Global};

/// The content of the buffer before a body is printed.
const BEFORE: &[u8] = b"  ";

// How a body is read.
#[derive(Clone, Copy)]
enum Form {
    // A message with its header.
    Message,
    // An application message without a header, of which a copy is printed.
    App,
}

// What a body is read as.
#[derive(Drop)]
enum Reading {
    Message(Message),
    App(App),
}

fn read(alloc: Global, form: Form, fields: &Fields) -> Result<Reading, DictFault> {
    Ok(match form {
        Form::Message => Reading::Message(read_message(alloc, fields)?),
        Form::App => Reading::App(read_app(alloc, fields)?),
    })
}

fn print_copy(alloc: Global, app: &App, text: &mut Vec<u8>) -> Result<(), AllocError> {
    let copy = app.copy(alloc)?;
    let printed = print_app(&copy, text);
    drop(copy);
    printed
}

fn print(alloc: Global, reading: &Reading, text: &mut Vec<u8>) -> Result<(), AllocError> {
    match reading {
        Reading::Message(message) => print_message(message, text),
        Reading::App(app) => print_copy(alloc, app, text),
    }
}

// Appends what is printed. A print that fails to allocate appends nothing to its vector.
fn emit_printed(alloc: Global, reading: &Reading, emitted: &mut Vec<u8>) -> Result<(), Trouble> {
    let mut text = Vec::from_slice(alloc, BEFORE)?;
    if print(alloc, reading, &mut text).is_err() {
        return Err(if text.as_slice() == BEFORE {
            Trouble::NoMemory
        } else {
            Trouble::Changed
        });
    }
    Ok(end_line(&text, emitted)?)
}

fn emit_fault(alloc: Global, fault: DictFault, emitted: &mut Vec<u8>) -> Result<(), AllocError> {
    let (kind, tag) = match fault {
        DictFault::Twice(tag) => ("twice", tag),
        DictFault::Count(tag) => ("count", tag),
        DictFault::Missing(tag) => ("missing", tag),
        DictFault::Format(tag) => ("format", tag),
        DictFault::Range(tag) => ("range", tag),
        DictFault::NoMemory => return Err(AllocError),
    };
    emit_line(format!(in alloc; "{kind} {tag}")?.as_str(), emitted)
}

fn emit_fields(
    alloc: Global,
    form: Form,
    fields: &Fields,
    emitted: &mut Vec<u8>,
) -> Result<(), Trouble> {
    match read(alloc, form, fields) {
        Ok(reading) => {
            let is_emitted = emit_printed(alloc, &reading, emitted);
            drop(reading);
            is_emitted
        }
        Err(fault) => Ok(emit_fault(alloc, fault, emitted)?),
    }
}

/// Appends what the dictionary answers to the body of a line; false where it has none.
pub fn answer(alloc: Global, line: &str, emitted: &mut Vec<u8>) -> Result<bool, Trouble> {
    let (form, text) = match line.split_once(' ') {
        Some(("message", text)) => (Form::Message, text),
        Some(("app", text)) => (Form::App, text),
        _ => return Ok(false),
    };
    let body = bytes_in(alloc, text)?;
    match split(alloc, &body) {
        Ok(fields) => emit_fields(alloc, form, &fields, emitted)?,
        Err(FieldFault::NoMemory) => return Err(Trouble::NoMemory),
        Err(_) => emit_line("no fields", emitted)?,
    }
    Ok(true)
}
