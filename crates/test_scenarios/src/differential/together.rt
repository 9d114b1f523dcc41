//! The world: sessions, seats, queues, venue and trail together.

use crate::differential::sent::Sent;
use anyhow::{Result, bail};
use sef_moment::Moment;
use venue_rules::Who;
use venue_world::{Event, ListTrail, Piece, World};

/// A world with a trail in memory.
pub(crate) type Together = World<ListTrail>;

/// The most participants that a world has.
const MOST: u32 = 32;

fn resume(world: &mut Together, who: Who, t: Moment) -> Result<()> {
    if world.has(who) {
        world.event(Event::Resume(who, t))?;
    }
    Ok(())
}

/// Each participant's line comes up.
pub(crate) fn resume_all(world: &mut Together, t: Moment) -> Result<()> {
    for place in 0..MOST {
        resume(world, Who::of(place), t)?;
    }
    Ok(())
}

// A frame comes, its session receives it, and the message that it made ready is handed to the venue, which takes it.
fn take(world: &mut Together, sent: &Sent, t: Moment) -> Result<()> {
    let who = sent.from;
    if !world.has(who) {
        bail!("a frame of nobody");
    }
    world.event(Event::Piece(who, Piece::of(&sent.frame)))?;
    world.event(Event::Step(who, t))?;
    world.event(Event::Hand(who))?;
    world.event(Event::Take(who, t))?;
    Ok(())
}

// A reply is delivered and collected, and what the session wrote is appended.
fn collect(world: &mut Together, to: Who, t: Moment, written: &mut Vec<u8>) -> Result<()> {
    if !world.has(to) {
        bail!("a reply to nobody");
    }
    world.event(Event::Deliver(to))?;
    world.event(Event::Collect(to, t))?;
    written.extend_from_slice(&world.take_wire(to))?;
    Ok(())
}

/// A frame goes through the world, and so do the replies.
pub(crate) fn scenario(
    world: &mut Together,
    sent: &Sent,
    t: Moment,
    written: &mut Vec<u8>,
) -> Result<()> {
    take(world, sent, t)?;
    for to in &sent.emitted {
        collect(world, *to, t, written)?;
    }
    Ok(())
}
