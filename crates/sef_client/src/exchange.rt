//! One turn of a counterparty with its line.

ghost use Rattle.std.specs.Prelude.{◌≡◌, MatchResult};
ghost use Rattle.sef_client.specs.Heard.{Grows};
ghost use Rattle.sef_client.specs.Emitted.{Stopped, Unfaulted};

use crate::fault::Stop;
use crate::party::{Link, Party};
use crate::reading::message_in;
use fix_frame::{Cut, Cutter};
use gateway::line::{Accept, Line, Read};
use gateway::piece::READ_SIZE;
use sef_moment::Moment;
use std::alloc::{AllocError, Global};
use std::sync::Wait;

/// Asks for a connection where one is wanted; on an open one, writes what waits, and reads once.
pub(crate) fn exchange<R: Wait, L: Line>(
    rt: &R,
    alloc: Global,
    line: &mut L,
    incoming: &mut Cutter,
    party: &mut Party,
    t: Moment,
) -> Result<(), Stop>
    ensures emitted { MatchResult result (λ _. Unfaulted (L.said line.old) (L.said line.new)) (Stopped (L.said line.old) (L.said line.new)) }
    ensures heard { Grows party.old.heard party.new.heard }
{
    match party.link() {
        Link::Down => Ok(()),
        Link::Calling => call(rt, line, incoming, party),
        Link::Closing => {
            write_out(rt, line, party)?;
            party.give_up();
            Ok(())
        }
        Link::Open | Link::Greeting | Link::LoggedOn | Link::Leaving => {
            write_out(rt, line, party)?;
            receive_once(rt, alloc, line, incoming, party, t)
        }
    }
}

// Asks the line for a connection.
fn call<R: Wait, L: Line>(
    rt: &R,
    line: &mut L,
    incoming: &mut Cutter,
    party: &mut Party,
) -> Result<(), Stop>
    ensures emitted { MatchResult result (λ _. Unfaulted (L.said line.old) (L.said line.new)) (Stopped (L.said line.old) (L.said line.new)) }
    ensures heard { party.new.heard ≡ party.old.heard }
{
    match line.accept(rt) {
        Accept::Up => {
            incoming.clear();
            party.connected();
            Ok(())
        }
        Accept::Quiet => Ok(()),
        Accept::Over => Ok(()),
        Accept::Fault => Err(Stop::LineFault),
    }
}

// Writes what waits, if anything.
fn write_out<R: Wait, L: Line>(rt: &R, line: &mut L, party: &mut Party) -> Result<(), Stop>
    ensures emitted { MatchResult result (λ _. Unfaulted (L.said line.old) (L.said line.new)) (Stopped (L.said line.old) (L.said line.new)) }
    ensures heard { party.new.heard ≡ party.old.heard }
{
    if party.waiting().is_empty() {
        return Ok(());
    }
    match line.write(rt, party.waiting()) {
        Ok(()) => {
            party.wrote();
            Ok(())
        }
        Err(_) => Err(Stop::LineFault),
    }
}

// Reads once, and receives the messages that came.
fn receive_once<R: Wait, L: Line>(
    rt: &R,
    alloc: Global,
    line: &mut L,
    incoming: &mut Cutter,
    party: &mut Party,
    t: Moment,
) -> Result<(), Stop>
    ensures emitted { MatchResult result (λ _. Unfaulted (L.said line.old) (L.said line.new)) (Stopped (L.said line.old) (L.said line.new)) }
    ensures heard { Grows party.old.heard party.new.heard }
{
    let mut buffer = [0; READ_SIZE];
    match line.read(rt, &mut buffer) {
        Read::Got { count } => match receive_piece(alloc, incoming, party, &buffer[..count], t) {
            Ok(()) => Ok(()),
            Err(_) => Err(Stop::NoMemory),
        },
        Read::Quiet => Ok(()),
        Read::Ended => {
            party.give_up();
            Ok(())
        }
        Read::Fault => Err(Stop::LineFault),
    }
}

// Receives the messages that this piece completes.
fn receive_piece(
    alloc: Global,
    incoming: &mut Cutter,
    party: &mut Party,
    piece: &[u8],
    t: Moment,
) -> Result<(), AllocError>
    ensures heard { Grows party.old.heard party.new.heard }
{
    incoming.push(piece)?;
    loop {
        match incoming.next() {
            Cut::Skipped(_) => {}
            Cut::Frame { body } => {
                receive_body(alloc, party, &incoming.taken()[body.start..body.end], t)?;
            }
            Cut::Open => return Ok(()),
        }
    }
}

// Receives the message of a body, if it spells one.
fn receive_body(alloc: Global, party: &mut Party, body: &[u8], t: Moment) -> Result<(), AllocError>
    ensures heard { Grows party.old.heard party.new.heard }
{
    match message_in(alloc, body)? {
        Some(message) => party.receive(message, t),
        None => Ok(()),
    }
}
