//! A message that is sent again and again, so that many replies wait.

use crate::moments::moment_after;
use crate::texts::word_in;
use crate::world::reading::frame_of;
use crate::world::running::{Answer, Outcome, answer_of};
use sef_moment::Moment;
use std::alloc::{AllocError, Global};
use venue_rules::Who;
use venue_world::{Event, Piece};

/// What is sent again and again: the message, the number of the first, how many, and when.
#[derive(Clone, Copy)]
struct Filling<'a> {
    first: u64,
    count: u64,
    t: Moment,
    text: &'a str,
}

// The first number, how many, the moment, and the message.
fn filling_in(text: &str) -> Option<Filling<'_>> {
    let (first, rest) = word_in(text);
    let (count, rest) = word_in(rest);
    let (after, text) = word_in(rest);
    Some(Filling {
        first: first.parse::<u64>().ok()?,
        count: count.parse::<u64>().ok()?,
        t: moment_after(after)?,
        text,
    })
}

// The message of this number is sent, received, handed and taken, as one run of a world; the first fault is the answer.
fn send_one(
    alloc: Global,
    world: &mut Outcome,
    who: Who,
    filling: &Filling<'_>,
    number: u64,
) -> Result<Answer, AllocError> {
    let Some(frame) = frame_of(alloc, who, number, filling.text)? else {
        return Ok(Answer::Unknown);
    };
    if !world.has(who) {
        return Ok(Answer::Unknown);
    }
    let events = [
        Event::Piece(who, Piece::of(&frame)),
        Event::Step(who, filling.t),
        Event::Hand(who),
        Event::Take(who, filling.t),
    ];
    for result in world.run(alloc, &events)? {
        if let Err(fault) = result {
            return answer_of(fault);
        }
    }
    Ok(Answer::Nothing)
}

// `count` of them; the first answer that is a fault ends it.
fn send_all(
    alloc: Global,
    world: &mut Outcome,
    who: Who,
    filling: &Filling<'_>,
) -> Result<Answer, AllocError> {
    for sent in 0..filling.count {
        let number = filling.first.saturating_add(sent);
        match send_one(alloc, world, who, filling, number)? {
            Answer::Nothing => {}
            answer => return Ok(answer),
        }
    }
    Ok(Answer::Nothing)
}

/// The messages that a text states; none where it states none.
pub fn fill(
    alloc: Global,
    world: &mut Outcome,
    who: Who,
    text: &str,
) -> Result<Option<Answer>, AllocError> {
    match filling_in(text) {
        Some(filling) => Ok(Some(send_all(alloc, world, who, &filling)?)),
        None => Ok(None),
    }
}
