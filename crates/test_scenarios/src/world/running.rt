//! Calls that are made of a world.

use crate::fixture::fixture;
use crate::moments::moment_after;
use crate::refusals::Refusals;
use crate::texts::{bytes_in, word_in};
use crate::world::filling::fill;
use crate::world::keeper::FaultyTrail;
use crate::world::reading::{frame_of, who_in};
use anyhow::{Result, bail, ensure};
use fix_session::Step;
use sef_moment::Moment;
use std::alloc::{AllocError, Global};
use std::mem;
use venue_rules::{EventFault, Who};
use venue_world::{Event, Piece, World};

/// A world whose keeper may refuse a row.
pub type Outcome = World<FaultyTrail>;

/// What a call gives.
#[derive(Drop)]
pub enum Answer {
    Nothing,
    Step(Step),
    Wire(Vec<u8>),
    Count(usize),
    Rows,
    Fault(EventFault),
    /// It names a participant that there is not.
    Unknown,
}

/// The fixture's world, in which nothing has happened; its keeper refuses the row of this number once.
pub fn new_world(alloc: Global, refuses: Option<u64>) -> Result<Outcome, AllocError> {
    let (participants, instruments) = fixture(alloc)?;
    World::new(
        alloc,
        participants,
        instruments,
        FaultyTrail::new(alloc, refuses),
    )
}

// A new world in the place of this one.
fn renew(alloc: Global, world: &mut Outcome, refuses: Option<u64>) -> Result<Answer, AllocError> {
    let begun = new_world(alloc, refuses)?;
    drop(mem::replace(world, begun));
    Ok(Answer::Nothing)
}

/// What came of an event or a call.
pub fn answer_of(fault: EventFault) -> Result<Answer, AllocError> {
    match fault {
        EventFault::NoMemory => Err(AllocError),
        fault => Ok(Answer::Fault(fault)),
    }
}

// One event. One that names nobody that there is, is not given.
fn give(world: &mut Outcome, event: Event<'_>) -> Result<Answer, AllocError> {
    if !world.names(&event) {
        return Ok(Answer::Unknown);
    }
    match world.event(event) {
        Ok(()) => Ok(Answer::Nothing),
        Err(fault) => answer_of(fault),
    }
}

fn step(world: &mut Outcome, who: Who, t: Moment) -> Result<Answer, AllocError> {
    if !world.has(who) {
        return Ok(Answer::Unknown);
    }
    match world.step(who, t) {
        Ok(step) => Ok(Answer::Step(step)),
        Err(fault) => answer_of(fault),
    }
}

fn wire(world: &mut Outcome, who: Who) -> Answer {
    if !world.has(who) {
        return Answer::Unknown;
    }
    Answer::Wire(world.take_wire(who))
}

fn queued(world: &Outcome, who: Who) -> Answer {
    if !world.has(who) {
        return Answer::Unknown;
    }
    Answer::Count(world.queued(who))
}

// The frame of a message comes: its number, and then its fields.
fn hear(
    alloc: Global,
    world: &mut Outcome,
    who: Who,
    text: &str,
) -> Result<Option<Answer>, AllocError> {
    let (number, message) = word_in(text);
    let Ok(number) = number.parse::<u64>() else {
        return Ok(None);
    };
    match frame_of(alloc, who, number, message)? {
        Some(frame) => Ok(Some(give(world, Event::Piece(who, Piece::of(&frame)))?)),
        None => Ok(None),
    }
}

// What a participant's call at a moment gives, if it is one.
fn ask_at(
    world: &mut Outcome,
    word: &str,
    who: Who,
    after: &str,
) -> Result<Option<Answer>, AllocError> {
    let Some(t) = moment_after(after) else {
        return Ok(None);
    };
    let event = match word {
        "step" => return Ok(Some(step(world, who, t)?)),
        "tick" => Event::Tick(who, t),
        "resume" => Event::Resume(who, t),
        "take" => Event::Take(who, t),
        "collect" => Event::Collect(who, t),
        _ => return Ok(None),
    };
    Ok(Some(give(world, event)?))
}

// What a participant's call gives, if it is one.
fn ask_of(
    alloc: Global,
    world: &mut Outcome,
    word: &str,
    who: Who,
    rest: &str,
) -> Result<Option<Answer>, AllocError> {
    let event = match word {
        "piece" => {
            let bytes = bytes_in(alloc, rest)?;
            return Ok(Some(give(world, Event::Piece(who, Piece::of(&bytes)))?));
        }
        "message" => return hear(alloc, world, who, rest),
        "fill" => return fill(alloc, world, who, rest),
        "wire" => return Ok(Some(wire(world, who))),
        "queued" => return Ok(Some(queued(world, who))),
        "break" => Event::Break(who),
        "hand" => Event::Hand(who),
        "deliver" => Event::Deliver(who),
        "cut" => Event::Cut(who),
        _ => return ask_at(world, word, who, rest),
    };
    Ok(Some(give(world, event)?))
}

// What the call of a line gives, if it is one.
fn ask(alloc: Global, world: &mut Outcome, line: &str) -> Result<Option<Answer>, AllocError> {
    let (word, rest) = word_in(line);
    match word {
        "refuses" => return Ok(Some(renew(alloc, world, rest.parse::<u64>().ok())?)),
        "rows" => return Ok(Some(Answer::Rows)),
        "count" => return Ok(Some(Answer::Count(row_count(world)))),
        "venue" => {
            return match moment_after(rest) {
                Some(t) => Ok(Some(give(world, Event::VenueTick(t))?)),
                None => Ok(None),
            };
        }
        _ if line.starts_with('#') => return Ok(Some(renew(alloc, world, None)?)),
        _ => {}
    }
    let (name, rest) = word_in(rest);
    match who_in(name) {
        Some(who) => ask_of(alloc, world, word, who, rest),
        None => Ok(None),
    }
}

// How many rows there are.
fn row_count(world: &Outcome) -> usize {
    world.keeper().rows().len()
}

/// The answer to the call of a line. A call that fails to allocate changes nothing, and is made again.
pub fn scenario(
    alloc: Global,
    world: &mut Outcome,
    line: &str,
    refusals: &mut Refusals,
) -> Result<Answer> {
    let before = row_count(world);
    let answer = match ask(alloc, world, line) {
        Ok(answer) => answer,
        Err(AllocError) => {
            refusals.one_more()?;
            ensure!(row_count(world) == before, "a refused call recorded a row");
            ask(alloc, world, line)?
        }
    };
    match answer {
        Some(answer) => Ok(answer),
        None => bail!("no call: {line}"),
    }
}
