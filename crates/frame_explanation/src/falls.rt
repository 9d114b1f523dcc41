//! Where the number of a sender falls.

ghost use Rattle.std.specs.Prelude.{◌≡◌, ◌++◌, OnOk, IfOk, None, length};
ghost use Rattle.frame_explanation.specs.Falls as falls;
ghost use Rattle.frame_explanation.specs.Listing as listing;

use crate::bodies::Direction;
use crate::listing::{is_repeat, is_reset, number_in};
use crate::log_items::{Heard, LogItem, Source};
use crate::parts::{Part, append_parts};
use crate::pieces::value_in;
use participants::{Participants, Who};
use std::alloc::AllocError;
use trade_blotter::name_at;

/// One side of a participant's session.
#[derive(Clone, Copy)]
struct Flow {
    direction: Direction,
    who: Who,
}

/// Whether a frame of a participant is of this side.
fn is_by(flow: &Flow, item: &LogItem) -> bool
    ensures { result ≡ falls.is_by flow.now.direction flow.now.who item.now }
{
    match flow.direction {
        Direction::Came => item.who.place() == flow.who.place(),
        Direction::Sent => false,
    }
}

fn is_the(found: Option<Who>, who: Who) -> bool
    ensures { result ≡ falls.is_the found who }
{
    match found {
        Some(other) => other.place() == who.place(),
        None => false,
    }
}

/// Whether a frame of the venue is of this side.
fn is_to(flow: &Flow, names: &Participants, item: &LogItem) -> bool
    ensures { result ≡ falls.is_to flow.now.direction names.now flow.now.who item.now }
{
    match flow.direction {
        Direction::Came => false,
        Direction::Sent => is_the(names.find(value_in(b"56=", &item.body)), flow.who),
    }
}

fn flows(names: &Participants, flow: &Flow, item: &LogItem) -> bool
    ensures { result ≡ falls.flows_as item.now.source names.now flow.now.direction flow.now.who item.now }
{
    match item.source {
        Source::Participant => is_by(flow, item),
        Source::Venue => is_to(flow, names, item),
        Source::Assumed => false,
        Source::Broken => false,
    }
}

/// Whether a frame has a number of its own.
fn is_numbered(body: &[u8]) -> bool
    ensures { result ≡ falls.is_numbered body.now }
{
    number_in(body) > 0 && !is_repeat(body) && !is_reset(body)
}

fn counts_on(names: &Participants, flow: &Flow, item: &LogItem) -> bool
    ensures { result ≡ falls.counts_on names.now flow.now.direction flow.now.who item.now }
{
    flows(names, flow, item) && is_numbered(&item.body)
}

fn asks_reset(body: &[u8]) -> bool
    ensures { result ≡ falls.asks_reset body.now }
{
    value_in(b"141=", body) == b"Y".as_slice()
}

fn unasked(direction: Direction) -> &'static [u8]
    ensures { result.now ≡ falls.unasked direction }
{
    match direction {
        Direction::Came => b"reset, another store, or a repeat without 43=Y",
        Direction::Sent => b"restart or reset",
    }
}

fn cause(direction: Direction, reset: bool) -> &'static [u8]
    ensures { result.now ≡ falls.cause direction reset }
{
    if reset {
        b"reset (141=Y)"
    } else {
        unasked(direction)
    }
}

fn subject(direction: Direction) -> &'static [u8]
    ensures { result.now ≡ falls.subject direction }
{
    match direction {
        Direction::Came => b": the number of ",
        Direction::Sent => b": the venue's number to ",
    }
}

fn consequence(direction: Direction) -> &'static [u8]
    ensures { result.now ≡ falls.consequence direction }
{
    match direction {
        Direction::Came => b"\n",
        Direction::Sent => b"; what it resends is new to the venue\n",
    }
}

/// Appends that the number of a frame is below the last one of its side.
fn append_fall<'a>(
    out: &mut Vec<u8>,
    flow: &Flow,
    name: &'a [u8],
    last: u64,
    item: &'a LogItem,
) -> Result<(), AllocError>
    ensures { OnOk result (out.new.items ≡ out.old.items ++ falls.fall_line flow.now.direction item.now.number name.now last (listing.number_in item.now.body.items) (falls.cause flow.now.direction (falls.asks_reset item.now.body.items))) }
{
    append_parts(
        out,
        &[
            Part::Bytes(b"    frame "),
            Part::Number(item.number),
            Part::Bytes(subject(flow.direction)),
            Part::Bytes(name),
            Part::Bytes(b" fell from "),
            Part::Number(last),
            Part::Bytes(b" to "),
            Part::Number(number_in(&item.body)),
            Part::Bytes(b": "),
            Part::Bytes(cause(flow.direction, asks_reset(&item.body))),
            Part::Bytes(consequence(flow.direction)),
        ],
    )
}

/// Appends a fall below the last number, if it is one.
fn append_fall_below(
    out: &mut Vec<u8>,
    names: &Participants,
    flow: &Flow,
    last: u64,
    item: &LogItem,
) -> Result<(), AllocError>
    ensures { OnOk result (out.new.items ≡ out.old.items ++ falls.fall_below names.now flow.now.direction flow.now.who last item.now) }
{
    if number_in(&item.body) >= last {
        return Ok(());
    }
    append_fall(out, flow, name_at(names, flow.who), last, item)
}

fn append_fall_behind(
    out: &mut Vec<u8>,
    names: &Participants,
    flow: &Flow,
    last: Option<u64>,
    item: &LogItem,
) -> Result<(), AllocError>
    ensures { OnOk result (out.new.items ≡ out.old.items ++ falls.fall_behind names.now flow.now.direction flow.now.who last item.now) }
{
    match last {
        Some(last) => append_fall_below(out, names, flow, last, item),
        None => Ok(()),
    }
}

/// Appends a fall at a frame, if there is one, and returns the last number of the side.
fn next_fall(
    out: &mut Vec<u8>,
    names: &Participants,
    flow: &Flow,
    last: Option<u64>,
    item: &LogItem,
) -> Result<Option<u64>, AllocError>
    ensures fall { OnOk result (out.new.items ≡ out.old.items ++ falls.fall_at names.now flow.now.direction flow.now.who last item.now) }
    ensures last { IfOk result (λ next. next ≡ falls.last_at names.now flow.now.direction flow.now.who last item.now) }
{
    if !counts_on(names, flow, item) {
        return Ok(last);
    }
    append_fall_behind(out, names, flow, last, item)?;
    Ok(Some(number_in(&item.body)))
}

/// Appends the falls of one side of a session.
fn append_flow(
    out: &mut Vec<u8>,
    names: &Participants,
    flow: &Flow,
    heard: &[Heard],
) -> Result<(), AllocError>
    ensures { OnOk result (out.new.items ≡ out.old.items ++ falls.falls_from names.now flow.now.direction flow.now.who None heard.now) }
{
    let mut last = None;
    for one in heard {
        last = next_fall(out, names, flow, last, &one.item)?;
    }
    Ok(())
}

/// Appends the falls of a participant's session.
fn append_session(
    out: &mut Vec<u8>,
    names: &Participants,
    who: Who,
    heard: &[Heard],
) -> Result<(), AllocError>
    ensures { OnOk result (out.new.items ≡ out.old.items ++ falls.falls_of names.now heard.now who) }
{
    let sent = Flow {
        direction: Direction::Sent,
        who,
    };
    let came = Flow {
        direction: Direction::Came,
        who,
    };
    append_flow(out, names, &sent, heard)?;
    append_flow(out, names, &came, heard)
}

/// Appends the falls of each participant's session.
pub(crate) fn append_falls(
    out: &mut Vec<u8>,
    names: &Participants,
    heard: &[Heard],
) -> Result<(), AllocError>
    ensures { OnOk result (out.new.items ≡ out.old.items ++ falls.falls_below names.now heard.now (length names.now.names)) }
{
    for place in 0..names.len() {
        append_session(out, names, Who::of(place as u32), heard)?;
    }
    Ok(())
}
