//! A log, read.

ghost use Rattle.std.specs.Prelude.{◌≡◌, IfOk, length};
ghost use Rattle.desk_log.specs.Reading as specs;

use crate::frames::{BrokenFrame, Span};
use crate::numbered::{Ends, Numbered, Place, logged_in, numbered_in};
use crate::once::{Conflict, conflict_in, first_in, listed};
use crate::scanning::scan_log;
use std::alloc::{AllocError, Global};

/// What was read of a log.
#[derive(Drop)]
pub struct Reading {
    /// The number of frames, of both directions.
    pub bodies: usize,
    /// The number of bytes that belong to no frame.
    pub outside: usize,
    /// The first place at which something begins as a frame and is none.
    pub broken: Option<BrokenFrame>,
    /// The frames from the one to the other.
    pub frames: Vec<Numbered>,
    /// The application messages among them.
    pub logged: Vec<(Place, Span)>,
    /// Each of these once, by era and number.
    pub once: Vec<(Place, Span)>,
    /// Two of one place with different texts.
    pub conflict: Option<Conflict>,
}

/// Reads a log.
pub(crate) fn read(alloc: Global, ends: &Ends, log: &[u8]) -> Result<Reading, AllocError>
    ensures { IfOk result (λ reading. specs.IsReading ends.now.from.now ends.now.to.now log.now reading) }
{
    let found = scan_log(alloc, log)?;
    let frames = numbered_in(alloc, ends, log, &found.bodies)?;
    let logged = logged_in(alloc, &frames)?;
    let kept = first_in(alloc, &logged)?;
    let once = listed(alloc, &kept)?;
    let conflict = conflict_in(alloc, log, &kept, &logged)?;
    Ok(Reading {
        bodies: found.bodies.len(),
        outside: found.outside,
        broken: found.broken,
        frames,
        logged,
        once,
        conflict,
    })
}
