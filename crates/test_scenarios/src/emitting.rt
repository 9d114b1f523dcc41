//! Answers as lines of a transcript.

use crate::refusals::Refusals;
use crate::texts::append_with;
use fix_session::{Step, Why};
use std::alloc::{AllocError, Global};
use std::fmt::Display;

/// Appends an indented line.
pub fn emit_line(text: &str, emitted: &mut Vec<u8>) -> Result<(), AllocError> {
    emitted.extend_from_slice(b"  ")?;
    emitted.extend_from_slice(text.as_bytes())?;
    emitted.extend_from_slice(b"\n")
}

/// Appends a number, or why there is none, or what else prints itself.
pub fn emit<T: Display>(alloc: Global, value: &T, emitted: &mut Vec<u8>) -> Result<(), AllocError> {
    emit_line(format!(in alloc; "{value}")?.as_str(), emitted)
}

/// Appends how many of something there are.
pub fn emit_count(
    alloc: Global,
    count: usize,
    things: &str,
    emitted: &mut Vec<u8>,
) -> Result<(), AllocError> {
    emit_line(format!(in alloc; "{count} {things}")?.as_str(), emitted)
}

/// Appends yes or no.
pub fn emit_whether(answer: bool, emitted: &mut Vec<u8>) -> Result<(), AllocError> {
    emit_line(if answer { "yes" } else { "no" }, emitted)
}

/// Appends bytes with `|` for SOH, and the end of a line.
pub fn end_line(bytes: &[u8], emitted: &mut Vec<u8>) -> Result<(), AllocError> {
    append_with(bytes, 1, b'|', emitted)?;
    emitted.extend_from_slice(b"\n")
}

/// Appends bytes as an indented line, with `|` for SOH.
pub fn emit_bytes(bytes: &[u8], emitted: &mut Vec<u8>) -> Result<(), AllocError> {
    emitted.extend_from_slice(b"  ")?;
    end_line(bytes, emitted)
}

fn reason(why: Why) -> &'static str {
    match why {
        Why::NotLogon => "not a Logon",
        Why::WrongComp => "wrong CompIDs",
        Why::BadLogon => "bad Logon",
        Why::NoNumber => "no number",
        Why::TooLow => "too low",
        Why::PeerLogout => "logged out",
        Why::Silent => "silent",
        Why::NumbersSpent => "numbers spent",
        Why::Reset => "reset",
        Why::NumbersRestarted => "numbers restarted",
    }
}

/// Appends what a step of a session came to.
pub fn emit_step(alloc: Global, step: Step, emitted: &mut Vec<u8>) -> Result<(), AllocError> {
    match step {
        Step::Idle => emit_line("idle", emitted),
        Step::Did => emit_line("did", emitted),
        Step::App(number) => {
            let number = number.get();
            emit_line(format!(in alloc; "ready {number}")?.as_str(), emitted)
        }
        Step::Dropped(why) => {
            let why = reason(why);
            emit_line(format!(in alloc; "dropped: {why}")?.as_str(), emitted)
        }
    }
}

/// An answer that has lines of a transcript.
pub trait Answered {
    /// Appends its lines, if it has any.
    fn emit(&self, alloc: Global, emitted: &mut Vec<u8>) -> Result<(), AllocError>;
}

/// Appends the lines of an answer, again where an allocation failed.
pub fn emit_again<A: Answered>(
    alloc: Global,
    answer: &A,
    emitted: &mut Vec<u8>,
    refusals: &mut Refusals,
) -> anyhow::Result<()> {
    let before = emitted.len();
    if answer.emit(alloc, emitted).is_ok() {
        return Ok(());
    }
    refusals.one_more()?;
    emitted.truncate(before);
    Ok(answer.emit(alloc, emitted)?)
}

/// Takes back the last answer, which begins at `last`, where the one before it is the same; `start` is where the first
/// begins.
pub fn emit_once(emitted: &mut Vec<u8>, start: usize, last: usize) {
    let answers = emitted.get(start..).unwrap_or(&[]);
    let (before, answer) = match answers.split_at_checked(last.saturating_sub(start)) {
        Some(parts) => parts,
        None => return,
    };
    if before.ends_with(answer) {
        emitted.truncate(last);
    }
}
