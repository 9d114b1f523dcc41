//! What sessions and venue answer to frames, one after another.

ghost use Rattle.std.specs.Prelude.{◌≡◌, ℕ, ◌<◌, ◌∷◌, ◌++◌, [], length, map, true, OnOk, IfOk, None};
ghost use Rattle.frame_explanation.specs.Hearing as hearing;

use crate::fault::ExplainFault;
use crate::log_items::{Heard, LogItem, Sent, Source};
use fix_session::Step;
use participants::Who;
use sef_moment::Moment;
use std::alloc::{AllocError, Global};
use venue_rules::EventFault;
use venue_world::{Event, ListTrail, Piece, World};

/// The most held sides that enter at one moment, and one more.
const HELD: u32 = 1_001;

/// A new connection.
fn connect(world: &mut World<ListTrail>, who: Who, at: Moment) -> Result<(), ExplainFault>
    requires { who < length world.old.sides }
    ensures did { OnOk result (hearing.Did world.old world.new (hearing.connects true who at) [] []) }
    ensures sides { length world.new.sides ≡ length world.old.sides }
{
    world.event(Event::Break(who))?;
    world.event(Event::Resume(who, at))?;
    Ok(())
}

/// A new connection, where one begins.
fn connect_if(
    world: &mut World<ListTrail>,
    connects: bool,
    who: Who,
    at: Moment,
) -> Result<(), ExplainFault>
    requires { who < length world.old.sides }
    ensures did { OnOk result (hearing.Did world.old world.new (hearing.connects connects who at) [] []) }
    ensures sides { length world.new.sides ≡ length world.old.sides }
{
    if !connects {
        return Ok(());
    }
    connect(world, who, at)
}

/// The bytes of a frame arrive, and the session processes it.
fn arrive(
    world: &mut World<ListTrail>,
    who: Who,
    bytes: &[u8],
    at: Moment,
) -> Result<Step, ExplainFault>
    requires { who < length world.old.sides }
    ensures did { IfOk result (λ step. hearing.Did world.old world.new (hearing.arrives who at bytes.now) (step ∷ []) []) }
    ensures sides { length world.new.sides ≡ length world.old.sides }
{
    world.event(Event::Piece(who, Piece::of(bytes)))?;
    Ok(world.step(who, at)?)
}

/// The venue takes the message in the seat, if any; or the first held side that is due enters, and it does not.
fn take_or_tick(world: &mut World<ListTrail>, who: Who, at: Moment) -> Result<bool, ExplainFault>
    requires { who < length world.old.sides }
    ensures did { IfOk result (λ taken. hearing.Did world.old world.new (hearing.take_or_tick taken who at) [] []) }
    ensures sides { length world.new.sides ≡ length world.old.sides }
{
    match world.event(Event::Take(who, at)) {
        Ok(()) => Ok(true),
        Err(EventFault::Due) => {
            world.event(Event::VenueTick(at))?;
            Ok(false)
        }
        Err(fault) => Err(ExplainFault::from(fault)),
    }
}

/// The held sides that are due enter, and then the venue takes the message in the seat, if any.
fn take_due(world: &mut World<ListTrail>, who: Who, at: Moment) -> Result<(), ExplainFault>
    requires { who < length world.old.sides }
    ensures did { OnOk result ((due : ℕ) × hearing.Did world.old world.new (hearing.ticks due at ++ hearing.take_or_tick true who at) [] []) }
    ensures sides { length world.new.sides ≡ length world.old.sides }
{
    for _side in 0..HELD {
        if take_or_tick(world, who, at)? {
            return Ok(());
        }
    }
    Err(ExplainFault::Memory)
}

/// The venue takes the message that is ready, if any, after the held sides that are due.
fn take(world: &mut World<ListTrail>, who: Who, at: Moment) -> Result<(), ExplainFault>
    requires { who < length world.old.sides }
    ensures did { OnOk result ((due : ℕ) × hearing.Did world.old world.new (hearing.takes due who at) [] []) }
    ensures sides { length world.new.sides ≡ length world.old.sides }
{
    world.event(Event::Hand(who))?;
    take_due(world, who, at)
}

/// A participant's session sends the first reply that waits.
fn send_reply(world: &mut World<ListTrail>, who: Who, at: Moment) -> Result<(), ExplainFault>
    requires { who < length world.old.sides }
    ensures did { OnOk result (hearing.Did world.old world.new (hearing.replies 1 who at) [] []) }
    ensures sides { length world.new.sides ≡ length world.old.sides }
{
    world.event(Event::Deliver(who))?;
    world.event(Event::Collect(who, at))?;
    Ok(())
}

/// A participant's session sends each reply that waits, and what it queued is taken.
fn send_all(world: &mut World<ListTrail>, who: Who, at: Moment) -> Result<Sent, ExplainFault>
    requires { who < length world.old.sides }
    ensures to { IfOk result (λ sent. sent.to ≡ who) }
    ensures sends { IfOk result (λ sent. hearing.Sends at world.old world.new who sent.bytes.items) }
    ensures sides { length world.new.sides ≡ length world.old.sides }
{
    let waiting = world.queued(who);
    for _reply in 0..waiting {
        send_reply(world, who, at)?;
    }
    let bytes = world.take_wire(who);
    Ok(Sent { to: who, bytes })
}

fn push_sent(sent: &mut Vec<Sent>, one: Sent) -> Result<(), AllocError>
    ensures { OnOk result (sent.new.items ≡ sent.old.items ++ one ∷ []) }
{
    sent.push(one)?;
    Ok(())
}

/// Each participant's session sends what waits for it.
fn send_each(
    alloc: Global,
    world: &mut World<ListTrail>,
    count: u32,
    at: Moment,
) -> Result<Vec<Sent>, ExplainFault>
    requires { count ≡ length world.old.sides }
    ensures sends { IfOk result (λ sent. hearing.SendsEach at 0 world.old world.new sent.items) }
    ensures each { IfOk result (λ sent. length sent.items ≡ count) }
    ensures sides { length world.new.sides ≡ length world.old.sides }
{
    let mut sent = Vec::new(alloc);
    for place in 0..count {
        let one = send_all(world, Who::of(place), at)?;
        push_sent(&mut sent, one)?;
    }
    Ok(sent)
}

/// A session hears a frame, the venue takes its message, and each participant is sent the answers.
fn hear_frame(
    alloc: Global,
    world: &mut World<ListTrail>,
    count: u32,
    listed: LogItem,
) -> Result<Heard, ExplainFault>
    requires { count ≡ length world.old.sides }
    ensures item { IfOk result (λ heard. heard.item ≡ listed) }
    ensures hears { IfOk result (λ heard. hearing.HearsIf world.old world.new listed heard.step heard.sent.items) }
    ensures sides { length world.new.sides ≡ length world.old.sides }
{
    let who = listed.who;
    let at = listed.moment;
    if !world.has(who) {
        return Err(ExplainFault::Memory);
    }
    connect_if(world, listed.connects, who, at)?;
    let step = arrive(world, who, &listed.text, at)?;
    take(world, who, at)?;
    let sent = send_each(alloc, world, count, at)?;
    Ok(Heard {
        item: listed,
        step: Some(step),
        sent,
    })
}

fn unheard(alloc: Global, listed: LogItem) -> Heard
    ensures item { result.item ≡ listed }
    ensures step { result.step ≡ None }
    ensures sent { result.sent.items ≡ [] }
{
    Heard {
        item: listed,
        step: None,
        sent: Vec::new(alloc),
    }
}

/// What is answered to what a log has there.
fn hear(
    alloc: Global,
    world: &mut World<ListTrail>,
    count: u32,
    listed: LogItem,
) -> Result<Heard, ExplainFault>
    requires { count ≡ length world.old.sides }
    ensures item { IfOk result (λ heard. heard.item ≡ listed) }
    ensures hears { IfOk result (λ heard. hearing.HearsAs listed.source world.old world.new listed heard.step heard.sent.items) }
    ensures sides { length world.new.sides ≡ length world.old.sides }
{
    match listed.source {
        Source::Participant => hear_frame(alloc, world, count, listed),
        Source::Assumed => hear_frame(alloc, world, count, listed),
        Source::Venue => Ok(unheard(alloc, listed)),
        Source::Broken => Ok(unheard(alloc, listed)),
    }
}

fn push_heard(heard: &mut Vec<Heard>, one: Heard) -> Result<(), AllocError>
    ensures { OnOk result (heard.new.items ≡ heard.old.items ++ one ∷ []) }
{
    heard.push(one)?;
    Ok(())
}

/// What is answered to all that a log has, in order.
pub(crate) fn hear_all(
    alloc: Global,
    world: &mut World<ListTrail>,
    count: u32,
    listed: Vec<LogItem>,
) -> Result<Vec<Heard>, ExplainFault>
    requires { count ≡ length world.old.sides }
    ensures item { IfOk result (λ heard. map hearing.item_of heard.items ≡ listed.items) }
    ensures hears { IfOk result (λ heard. hearing.HearsAll world.old world.new heard.items) }
{
    let mut all = Vec::new(alloc);
    for one in listed {
        let heard = hear(alloc, world, count, one)?;
        push_heard(&mut all, heard)?;
    }
    Ok(all)
}
