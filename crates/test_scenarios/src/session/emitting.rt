//! Answers as lines of a transcript.

use crate::emitting::{Answered, emit_bytes, emit_line, emit_step};
use crate::session::running::{Answer, Look};
use fix_dictionary::Item;
use fix_encoder::print_app;
use std::alloc::{AllocError, Global};

fn emit_look(alloc: Global, look: Look, emitted: &mut Vec<u8>) -> Result<(), AllocError> {
    let line = if look.up { "up" } else { "down" };
    let ready = look.ready;
    let text = match look.first {
        Some(first) => format!(in alloc; "{line}, {ready} ready, first {first}")?,
        None => format!(in alloc; "{line}, {ready} ready")?,
    };
    emit_line(text.as_str(), emitted)
}

fn emit_item(alloc: Global, item: &Item, emitted: &mut Vec<u8>) -> Result<(), AllocError> {
    let number = item.number.get();
    let era = item.era;
    let front = if era == 1 {
        format!(in alloc; "{number}: ")?
    } else {
        format!(in alloc; "era {era}, {number}: ")?
    };
    let mut text = Vec::from_slice(alloc, front.as_bytes())?;
    print_app(item.app.get(), &mut text)?;
    emit_bytes(&text, emitted)
}

impl Answered for Answer {
    fn emit(&self, alloc: Global, emitted: &mut Vec<u8>) -> Result<(), AllocError> {
        match self {
            Answer::Nothing => Ok(()),
            Answer::Step(step) => emit_step(alloc, *step, emitted),
            Answer::Wire(wire) if wire.is_empty() => emit_line("nothing", emitted),
            Answer::Wire(wire) => emit_bytes(wire, emitted),
            Answer::Popped(None) => emit_line("none", emitted),
            Answer::Popped(Some(item)) => emit_item(alloc, item, emitted),
            Answer::Look(look) => emit_look(alloc, *look, emitted),
            Answer::Taken(taken) => emit_line(taken.text(alloc)?.as_str(), emitted),
            Answer::Full => emit_line("full", emitted),
        }
    }
}
