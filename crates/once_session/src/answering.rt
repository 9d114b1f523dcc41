//! Processing of a stream's frames, one after another.

ghost use Rattle.std.specs.Prelude.{◌≡◌, ◌<◌, [], ℕ, length, IfOk, IfErr, OnOk};
ghost use Rattle.std.specs.Io.KnownBytes.{Keeps};
ghost use Rattle.venue_world.specs.Side.{wire_taken};
ghost use Rattle.venue_world.specs.World.{at as at_place};
ghost use Rattle.once_session.specs.Acts.{IsAnswered, OfFirst};
ghost use Rattle.once_session.specs.Outcome.{UnlessOutput};
ghost use Rattle.once_session.specs.Course.{Answers, IsAllHeard, IsEmptied, IsFree, IsHeard, IsSomewhere, OfBoth, Replies, RepliesOnce, Takes, Went, Wrote, WroteOn};
ghost use Rattle.once_session.specs.declared.fault.OnceFault.TheVariants.{Output};

use crate::fault::OnceFault;
use crate::sender::first;
use fix_session::Step;
use fix_session::laws::{idle_at_the_end, one_reader, steps_shorten};
use sef_moment::Moment;
use std::io::Write;
use venue_world::{Event, ListTrail, World};

/// Has the session process each whole frame, and writes what it queues before the next frame. On a line that is down no
/// frame is processed.
pub fn answer_frames<W: Write>(
    world: &mut World<ListTrail>,
    writer: &mut W,
    at: Moment,
) -> Result<(), OnceFault>
    requires somewhere { IsSomewhere world.old }
    requires answered { OfFirst IsAnswered world.old.sides }
    ensures wrote { OnOk result (Wrote at world.old world.new [] (W.contents writer.old) (W.contents writer.new)) }
    ensures answered { OnOk result (OfFirst IsAnswered world.new.sides) }
    ensures heard { OnOk result (OfFirst IsAllHeard world.new.sides) }
    ensures stopped { IfErr result (λ fault. UnlessOutput fault (WroteOn at world.old [] (W.contents writer.old) (W.contents writer.new))) }
{
    one_reader();
    loop {
        match answer_frame(world, writer, at)? {
            Step::Idle => return Ok(()),
            _ => {}
        }
    }
}

/// Processes one frame: a step, the take of its message, if any, and the write of what is queued.
fn answer_frame<W: Write>(
    world: &mut World<ListTrail>,
    writer: &mut W,
    at: Moment,
) -> Result<Step, OnceFault>
    requires somewhere { IsSomewhere world.old }
    requires answered { OfFirst IsAnswered world.old.sides }
    ensures wrote { OnOk result (Wrote at world.old world.new [] (W.contents writer.old) (W.contents writer.new)) }
    ensures answered { IfOk result (λ answer. OfBoth (Answers answer) world.old.sides world.new.sides) }
    ensures unwritten { IfErr result (λ fault. UnlessOutput fault (Keeps (W.contents writer.old) (W.contents writer.new))) }
{
    one_reader();
    idle_at_the_end();
    steps_shorten();
    let answer = world.step(first(), at)?;
    take_ready(world, at)?;
    send_replies(world, at)?;
    write_queued(world, writer)?;
    Ok(answer)
}

/// Hands the first ready message to the venue, if any, which takes it.
fn take_ready(world: &mut World<ListTrail>, at: Moment) -> Result<(), OnceFault>
    requires somewhere { IsSomewhere world.old }
    requires heard { OfFirst IsHeard world.old.sides }
    ensures went { OnOk result (Went at world.old world.new [] []) }
    ensures taken { OnOk result (OfBoth Takes world.old.sides world.new.sides) }
{
    one_reader();
    world.event(Event::Hand(first()))?;
    world.event(Event::Take(first(), at))?;
    Ok(())
}

/// Has the session send each reply that waits. `Output` where its numbers are used up.
fn send_replies(world: &mut World<ListTrail>, at: Moment) -> Result<(), OnceFault>
    requires somewhere { IsSomewhere world.old }
    requires free { OfFirst IsFree world.old.sides }
    ensures went { OnOk result (Went at world.old world.new [] []) }
    ensures sent { OnOk result (OfBoth Replies world.old.sides world.new.sides) }
    ensures all { OnOk result (OfFirst IsEmptied world.new.sides) }
{
    one_reader();
    while world.queued(first()) > 0 {
        send_reply(world, at)?;
    }
    Ok(())
}

/// Has the session send the first reply that waits.
fn send_reply(world: &mut World<ListTrail>, at: Moment) -> Result<(), OnceFault>
    requires somewhere { IsSomewhere world.old }
    requires free { OfFirst IsFree world.old.sides }
    ensures went { OnOk result (Went at world.old world.new [] []) }
    ensures sent { OnOk result (OfBoth RepliesOnce world.old.sides world.new.sides) }
{
    one_reader();
    world.event(Event::Deliver(first()))?;
    world.event(Event::Collect(first(), at))?;
    Ok(())
}

/// Writes the frames that the session queued.
fn write_queued<W: Write>(world: &mut World<ListTrail>, writer: &mut W) -> Result<(), OnceFault>
    requires first { 0 < length world.old.sides }
    ensures wrote { OnOk result ((t : ℕ) → Wrote t world.old world.new [] (W.contents writer.old) (W.contents writer.new)) }
    ensures sides { world.new.sides ≡ at_place 0 wire_taken world.old.sides }
    ensures fault { IfErr result (λ fault. fault ≡ Output) }
{
    let queued = world.take_wire(first());
    match writer.write_all(&queued) {
        Ok(()) => Ok(()),
        Err(_) => Err(OnceFault::Output),
    }
}
