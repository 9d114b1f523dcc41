//! Frames through the world, and through the sessions alone and the venue alone, for comparison.

use crate::differential::apart::Apart;
use crate::differential::batch::{Outcome, Stage, run_all};
use crate::differential::market::Market;
use crate::differential::sessions::Sessions;
use crate::differential::together::{Together, resume_all};
use crate::differential::{SESSIONS, Turn, VENUE, WORLD};
use crate::fixture::DELAY;
use crate::moments::start;
use crate::texts::bytes_in;
use crate::times::middle_of;
use anyhow::{Result, bail};
use participants::Participants;
use sef_moment::Moment;
use std::alloc::{AllocError, Global};
use std::str;
use venue_core::Venue;
use venue_rules::fixture_instruments;
use venue_world::{ListTrail, World};

/// How many of the last batches are looked at.
const LAST: usize = 11;

fn new_world(alloc: Global, participants: Participants) -> Result<Together, AllocError> {
    let instruments = fixture_instruments(alloc, DELAY)?;
    World::new(alloc, participants, instruments, ListTrail::new(alloc))
}

// A world of these participants, with each line up.
fn together_of(alloc: Global, file: &str, t: Moment) -> Result<Together> {
    let participants = Participants::read(alloc, file.as_bytes())?;
    let mut world = new_world(alloc, participants)?;
    if let Err(fault) = resume_all(&mut world, t) {
        drop(world);
        return Err(fault);
    }
    Ok(world)
}

// Their sessions, with each line up, and a venue.
fn apart_of(alloc: Global, file: &str, t: Moment) -> Result<Apart> {
    let participants = Participants::read(alloc, file.as_bytes())?;
    let sessions = Sessions::open(alloc, &participants, t)?;
    let instruments = fixture_instruments(alloc, DELAY)?;
    let venue = Venue::open(alloc, participants, instruments)?;
    Ok(Apart {
        sessions,
        market: Market::of(venue),
    })
}

fn stage_of(alloc: Global, file: &str) -> Result<Stage> {
    let moment = start();
    let together = together_of(alloc, file, moment)?;
    let apart = match apart_of(alloc, file, moment) {
        Ok(apart) => apart,
        Err(fault) => {
            drop(together);
            return Err(fault);
        }
    };
    Ok(Stage {
        together,
        apart,
        moment,
        outcome: Outcome {
            frames: 0,
            replies: 0,
            written: 0,
        },
        times: Vec::new(alloc),
    })
}

fn with_times(alloc: Global, counts: &str, times: &[Turn]) -> Result<String, AllocError> {
    let last = &times[times.len().saturating_sub(LAST)..];
    let world = middle_of(alloc, last, WORLD)?;
    let sessions = middle_of(alloc, last, SESSIONS)?;
    let venue = middle_of(alloc, last, VENUE)?;
    format!(in alloc; "{counts}\nworld {world} sessions {sessions} venue {venue}")
}

// Runs these lines; their counts as a text.
fn scenario(rt: &HostRuntime, stage: &mut Stage, lines: &str, is_timed: bool) -> Result<String> {
    run_all(rt, stage, lines)?;
    let outcome = stage.outcome;
    let counts = format!(in rt.alloc();
        "frames: {}, replies: {}, bytes written: {}",
        outcome.frames, outcome.replies, outcome.written
    )?;
    if !is_timed {
        return Ok(counts);
    }
    Ok(with_times(rt.alloc(), counts.as_str(), &stage.times)?)
}

/// How many frames and replies there were and how many bytes were written; where it is timed, on a second line the
/// nanoseconds of a frame. The input is a participant file, an empty line, and a line for each frame.
pub(crate) fn emitted_of(rt: &HostRuntime, input: &str, is_timed: bool) -> Result<String> {
    let Some((file, lines)) = input.split_once("\n\n") else {
        bail!("no empty line after the participant file");
    };
    let mut stage = stage_of(rt.alloc(), file)?;
    let emitted = scenario(rt, &mut stage, lines, is_timed);
    drop(stage);
    emitted
}

// The lines that are no answer.
fn asked_in(alloc: Global, lines: &str) -> Result<String, AllocError> {
    let mut asked = String::new(alloc);
    for line in lines.lines() {
        if !line.starts_with("  ") {
            asked.push_str(line)?;
            asked.push('\n')?;
        }
    }
    Ok(asked)
}

/// Appends the lines of a part, and below them how many frames and replies there were and how many bytes were written.
pub(crate) fn run_part(rt: &HostRuntime, lines: &str, emitted: &mut Vec<u8>) -> Result<()> {
    let asked = asked_in(rt.alloc(), lines)?;
    emitted.extend_from_slice(asked.as_bytes())?;
    let bytes = bytes_in(rt.alloc(), asked.as_str())?;
    let counts = emitted_of(rt, str::from_utf8(&bytes)?, false)?;
    emitted.extend_from_slice(b"  ")?;
    emitted.extend_from_slice(counts.as_bytes())?;
    emitted.extend_from_slice(b"\n")?;
    Ok(())
}
