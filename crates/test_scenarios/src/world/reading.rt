//! Participants by their names, and the frames of their messages.

use crate::texts::bytes_in;
use fix_frame::{FrameFault, write_frame};
use std::alloc::{AllocError, Global};
use venue_rules::Who;

/// The participants, by their places.
pub const NAMES: [&str; 5] = ["ALPHA", "BETA", "GAMMA", "DELTA", "EPSILON"];

/// The participant of this name.
pub fn who_in(name: &str) -> Option<Who> {
    for place in 0..NAMES.len() {
        if NAMES[place] == name {
            return Some(Who::of(place as u32));
        }
    }
    None
}

/// The frame of a message of a participant: its type, its header with this number, and its other fields. None where the
/// text is no message.
pub fn frame_of(
    alloc: Global,
    who: Who,
    number: u64,
    text: &str,
) -> Result<Option<Vec<u8>>, AllocError> {
    let Some((kind, rest)) = text.split_once('|') else {
        return Ok(None);
    };
    let place = who.place() as usize;
    if !kind.starts_with("35=") || !text.ends_with('|') || place >= NAMES.len() {
        return Ok(None);
    }
    let name = NAMES[place];
    let spelled = format!(in alloc;
        "{kind}|49={name}|56=SEF|34={number}|52=20250303-14:30:00|{rest}"
    )?;
    let body = bytes_in(alloc, spelled.as_str())?;
    framed(alloc, &body)
}

// The frame of a body, or none where it is too long, or none at all.
fn framed(alloc: Global, body: &[u8]) -> Result<Option<Vec<u8>>, AllocError> {
    let mut frame = Vec::new(alloc);
    if !body.starts_with(b"35=") || body.last() != Some(&1) {
        return Ok(None);
    }
    match write_frame(body, &mut frame) {
        Ok(()) => Ok(Some(frame)),
        Err(FrameFault::TooLong) => Ok(None),
        Err(FrameFault::NoMemory) => Err(AllocError),
    }
}
