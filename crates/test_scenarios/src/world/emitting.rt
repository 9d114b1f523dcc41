//! Answers as lines of a transcript.

use crate::emitting::{Answered, emit, emit_bytes, emit_line, emit_step};
use crate::moments::START;
use crate::world::reading::NAMES;
use crate::world::running::{Answer, Outcome};
use std::alloc::{AllocError, Global};
use venue_rules::{EventFault, TrailRow, Who};

// The name of a participant.
fn name_of(who: Who) -> &'static str {
    let place = who.place() as usize;
    if place < NAMES.len() {
        NAMES[place]
    } else {
        "nobody"
    }
}

fn emit_fault(alloc: Global, fault: &EventFault, emitted: &mut Vec<u8>) -> Result<(), AllocError> {
    match fault {
        EventFault::Behind(who) => {
            let name = name_of(*who);
            let line = format!(in alloc; "behind: {name}")?;
            emit_line(line.as_str(), emitted)
        }
        EventFault::Down(who) => {
            let name = name_of(*who);
            let line = format!(in alloc; "down: {name}")?;
            emit_line(line.as_str(), emitted)
        }
        EventFault::TrailRefused => emit_line("the trail refused", emitted),
        EventFault::Due => emit_line("a held side is due", emitted),
        EventFault::NoMemory => emit_line("no memory", emitted),
    }
}

// A row: its number, its moment in milliseconds after the start, and the message, or that it is a tick.
fn emit_row(alloc: Global, row: &TrailRow, emitted: &mut Vec<u8>) -> Result<(), AllocError> {
    let n = row.n;
    let after = row.moment.ms().saturating_sub(START);
    if row.who == 0 {
        let line = format!(in alloc; "{n} at {after}: tick")?;
        return emit_line(line.as_str(), emitted);
    }
    let name = name_of(Who::of(row.who - 1));
    let era = row.era;
    let number = row.number;
    let front = format!(in alloc; "{n} at {after}: {name} era {era} number {number} ")?;
    let mut line = Vec::from_slice(alloc, front.as_bytes())?;
    line.extend_from_slice(row.text.as_slice())?;
    emit_bytes(&line, emitted)
}

fn emit_rows(alloc: Global, rows: &[TrailRow], emitted: &mut Vec<u8>) -> Result<(), AllocError> {
    if rows.is_empty() {
        return emit_line("none", emitted);
    }
    for row in rows {
        emit_row(alloc, row, emitted)?;
    }
    Ok(())
}

/// An answer of a world, and the world, whose rows it may print.
#[derive(Clone, Copy)]
pub struct Emitted<'a> {
    pub world: &'a Outcome,
    pub answer: &'a Answer,
}

impl Answered for Emitted<'_> {
    fn emit(&self, alloc: Global, emitted: &mut Vec<u8>) -> Result<(), AllocError> {
        match self.answer {
            Answer::Nothing => Ok(()),
            Answer::Step(step) => emit_step(alloc, *step, emitted),
            Answer::Wire(wire) if wire.is_empty() => emit_line("nothing", emitted),
            Answer::Wire(wire) => emit_bytes(wire, emitted),
            Answer::Count(count) => emit(alloc, count, emitted),
            Answer::Rows => emit_rows(alloc, self.world.keeper().rows(), emitted),
            Answer::Fault(fault) => emit_fault(alloc, fault, emitted),
            Answer::Unknown => emit_line("nobody", emitted),
        }
    }
}
