//! Frames, cut out of a stream and written.

ghost use Rattle.std.specs.Prelude.{◌≡◌, IfOk};
ghost use Rattle.fix_frame.specs.Frame.{IsBody};

use crate::bytes::emitting::emit_last;
use crate::bytes::state::State;
use crate::emitting::{emit, emit_count, emit_line, emit_once};
use crate::refusals::Trouble;
use crate::texts::bytes_in;
use fix_frame::{Cut, Cutter, FrameFault, frame_bodies, write_frame};
use std::alloc::{AllocError, Global};

/// The content of the buffer before a frame is written.
const BEFORE: &[u8] = b"ab";

// Appends a cut and the bytes that it took; of a frame also the range of its body.
fn emit_cut(
    alloc: Global,
    cut: &Cut,
    taken: &[u8],
    emitted: &mut Vec<u8>,
) -> Result<(), AllocError> {
    match cut {
        Cut::Skipped(count) => emit_line(format!(in alloc; "skipped {count}")?.as_str(), emitted),
        Cut::Frame { body } => {
            let (start, end) = (body.start, body.end);
            let words = format!(in alloc; "{start} to {end} of ")?;
            emit_last(alloc, words.as_str(), taken, emitted)
        }
        Cut::Open => emit_line("open", emitted),
    }
}

// Takes what is at the front, and prints it. What cannot be printed is put back, and so is what is only looked at.
fn emit_front(
    alloc: Global,
    cutter: &mut Cutter,
    is_taken: bool,
    emitted: &mut Vec<u8>,
) -> Result<(), AllocError> {
    let cut = cutter.next();
    let is_emitted = emit_cut(alloc, &cut, cutter.taken(), emitted);
    if is_emitted.is_err() || !is_taken {
        cutter.back();
    }
    is_emitted
}

// Pushes the text. A refused push leaves what is held.
fn push(state: &mut State) -> Result<(), Trouble> {
    let held = state.cutter.held();
    if state.cutter.push(&state.text).is_ok() {
        return Ok(());
    }
    Err(if state.cutter.held() == held {
        Trouble::NoMemory
    } else {
        Trouble::Changed
    })
}

/// What a stream gave: bytes passed over, frames, and the most bytes that were held.
#[derive(Clone, Copy)]
struct Seen {
    skipped: usize,
    frames: usize,
    most_held: usize,
}

// Takes all whole frames, and prints their bodies; of equal ones in succession, one.
fn take_all(
    alloc: Global,
    cutter: &mut Cutter,
    seen: &mut Seen,
    start: usize,
    emitted: &mut Vec<u8>,
) -> Result<(), AllocError> {
    seen.most_held = seen.most_held.max(cutter.held());
    for _ in 0..1_000_000 {
        match cutter.next() {
            Cut::Skipped(count) => seen.skipped = seen.skipped.saturating_add(count),
            Cut::Frame { body } => {
                seen.frames = seen.frames.saturating_add(1);
                let body = &cutter.taken()[body.start..body.end];
                let last = emitted.len();
                emit_last(alloc, "", body, emitted)?;
                emit_once(emitted, start, last)
            }
            Cut::Open => break,
        }
    }
    seen.most_held = seen.most_held.max(cutter.held());
    Ok(())
}

// Pushes the bytes into a new cutter in pieces of this size, takes all whole frames after each, and prints the bodies
// and counts.
fn emit_pieces(
    alloc: Global,
    bytes: &[u8],
    size: usize,
    emitted: &mut Vec<u8>,
) -> Result<(), AllocError> {
    let mut cutter = Cutter::new(alloc);
    let mut seen = Seen {
        skipped: 0,
        frames: 0,
        most_held: 0,
    };
    let start = emitted.len();
    for piece in bytes.chunks(size.max(1)) {
        cutter.push(piece)?;
        take_all(alloc, &mut cutter, &mut seen, start, emitted)?;
    }
    emit_count(alloc, seen.frames, "frames", emitted)?;
    emit_count(alloc, seen.skipped, "bytes skipped", emitted)?;
    emit_count(alloc, seen.most_held, "bytes held at most", emitted)
}

/// The pieces of a text, with a space between and SOH for `|`; an empty text has none.
pub fn pieces_in(alloc: Global, text: &str) -> Result<Vec<Vec<u8>>, AllocError> {
    let mut pieces = Vec::new(alloc);
    if text.is_empty() {
        return Ok(pieces);
    }
    for word in text.split(' ') {
        pieces.push(bytes_in(alloc, word)?)?;
    }
    Ok(pieces)
}

fn emit_bodies(alloc: Global, text: &str, emitted: &mut Vec<u8>) -> Result<(), AllocError> {
    let pieces = pieces_in(alloc, text)?;
    let bodies = frame_bodies(alloc, &pieces)?;
    emit_count(alloc, bodies.len(), "bodies", emitted)?;
    for body in &bodies {
        emit_last(alloc, "", body, emitted)?;
    }
    Ok(())
}

// The body of a message with this after `35=`.
fn body_of(alloc: Global, middle: &[u8]) -> Result<Vec<u8>, AllocError>
    ensures { IfOk result (λ body. IsBody body.items) }
{
    let mut body = Vec::from_slice(alloc, b"35=")?;
    body.extend_from_slice(middle)?;
    body.push(1)?;
    Ok(body)
}

// Writes a frame after other bytes, and prints all. A refused write leaves the bytes.
fn emit_frame(alloc: Global, middle: &[u8], emitted: &mut Vec<u8>) -> Result<(), Trouble> {
    let body = body_of(alloc, middle)?;
    let mut out = Vec::from_slice(alloc, BEFORE)?;
    let written = write_frame(&body, &mut out);
    let is_unchanged = out.as_slice() == BEFORE;
    match written {
        Ok(()) => {}
        Err(FrameFault::NoMemory) if is_unchanged => return Err(Trouble::NoMemory),
        Err(FrameFault::NoMemory) => return Err(Trouble::Changed),
        Err(fault) => emit(alloc, &fault, emitted)?,
    }
    Ok(emit_last(alloc, "", &out, emitted)?)
}

/// Answers a call of frames, if it is one.
pub fn ask_frames(
    alloc: Global,
    state: &mut State,
    word: &str,
    rest: &str,
    emitted: &mut Vec<u8>,
) -> Result<bool, Trouble> {
    match word {
        "push" => {
            state.add(rest)?;
            push(state)?
        }
        "next" => emit_front(alloc, &mut state.cutter, true, emitted)?,
        "look" => emit_front(alloc, &mut state.cutter, false, emitted)?,
        "held" => emit(alloc, &state.cutter.held(), emitted)?,
        "clear" => state.cutter.clear(),
        "pieces" => match rest.parse::<usize>() {
            Ok(size) => emit_pieces(alloc, &state.text, size, emitted)?,
            Err(_) => return Ok(false),
        },
        "bodies" => emit_bodies(alloc, rest, emitted)?,
        "frame" => {
            state.add(rest)?;
            emit_frame(alloc, &state.text, emitted)?
        }
        _ => return Ok(false),
    }
    Ok(true)
}
