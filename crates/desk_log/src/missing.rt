//! The numbers that no frame of a log has.

ghost use Rattle.std.specs.Prelude.{◌≡◌, ◌++◌, IfOk, None, OnOk};
ghost use Rattle.desk_log.specs.Missing as specs;

use crate::frames::Span;
use crate::numbered::{Numbered, Place};
use std::alloc::{AllocError, Global};

/// Numbers of an era that no frame has.
#[derive(Clone, Copy)]
pub struct Missing {
    pub era: usize,
    pub first: u64,
    /// The next number that a frame has.
    pub next: u64,
}

fn has(era: usize, n: u64, frame: &Numbered) -> bool
    ensures { result ≡ specs.has era n frame.now }
{
    frame.place.era == era && (frame.place.number <= n && n < frame.next)
}

fn led_on(era: usize, n: u64, frame: &Numbered) -> u64
    ensures { result ≡ specs.led_on era n frame.now }
{
    if has(era, n, frame) { frame.next } else { n }
}

/// The number to which the frames lead on from this one.
#[tactic(auto, using(crate::proofs::Gaps::due_more))]
fn due_behind(era: usize, n: u64, frames: &[Numbered]) -> u64
    ensures { result ≡ specs.due_behind era n frames.now }
{
    let mut due = n;
    for frame in frames {
        due = led_on(era, due, frame);
    }
    due
}

/// The first number, from this one on, that no frame has, found in at most this many passes through the frames.
fn first_missing(era: usize, frames: &[Numbered], times: usize, n: u64) -> Option<u64>
    ensures { result ≡ specs.first_missing era frames.now times n }
{
    let mut left = times;
    let mut due = n;
    'times: while left > 0 {
        let later = due_behind(era, due, frames);
        if later == due {
            return Some(due);
        }
        left -= 1;
        due = later;
    }
    None
}

fn lesser(found: Option<u64>, n: u64) -> Option<u64>
    ensures { result ≡ specs.lesser found n }
{
    match found {
        None => Some(n),
        Some(m) => { if n < m { Some(n) } else { Some(m) } }
    }
}

fn is_above(era: usize, n: u64, frame: &Numbered) -> bool
    ensures { result ≡ specs.is_above era n frame.now }
{
    frame.place.era == era && n < frame.place.number
}

fn nearer(era: usize, n: u64, found: Option<u64>, frame: &Numbered) -> Option<u64>
    ensures { result ≡ specs.nearer era n found frame.now }
{
    if is_above(era, n, frame) {
        lesser(found, frame.place.number)
    } else {
        found
    }
}

/// The least number above this one that is a frame's own.
#[tactic(auto, using(crate::proofs::Gaps::nearest_more))]
fn nearest(era: usize, n: u64, frames: &[Numbered]) -> Option<u64>
    ensures { result ≡ specs.nearest era n None frames.now }
{
    let mut found = None;
    for frame in frames {
        found = nearer(era, n, found, frame);
    }
    found
}

fn missing_to(era: usize, first: u64, next: Option<u64>) -> Option<Missing>
    ensures { result ≡ specs.missing_to era first next }
{
    match next {
        None => None,
        Some(next) => Some(Missing { era, first, next }),
    }
}

/// The first numbers that no frame has, from a place on in its era, before one that a frame has.
fn missing_from(frames: &[Numbered], from: Place) -> Option<Missing>
    ensures { result ≡ specs.missing_from frames.now from }
{
    match first_missing(from.era, frames, frames.len() + 1, from.number) {
        None => None,
        Some(first) => missing_to(from.era, first, nearest(from.era, first, frames)),
    }
}

fn place_from(earlier: Option<(Place, Span)>) -> Place
    ensures { result ≡ specs.place_from earlier }
{
    match earlier {
        None => Place { era: 1, number: 1 },
        Some(message) => message.0,
    }
}

fn is_before(missing: Missing, later: Option<(Place, Span)>) -> bool
    ensures { result ≡ specs.is_before missing later }
{
    match later {
        None => true,
        Some(message) => { missing.era != message.0.era || missing.next <= message.0.number }
    }
}

fn if_before(missing: Option<Missing>, later: Option<(Place, Span)>) -> Option<Missing>
    ensures { result ≡ specs.if_before missing later }
{
    match missing {
        None => None,
        Some(found) => {
            if is_before(found, later) {
                Some(found)
            } else {
                None
            }
        }
    }
}

/// The first numbers that no frame has, from a place on, before a message.
fn next_gap(frames: &[Numbered], later: Option<(Place, Span)>, from: Place) -> Option<Missing>
    ensures { result ≡ specs.if_before (specs.missing_from frames.now from) later }
{
    if_before(missing_from(frames, from), later)
}

/// Appends the numbers that no frame has, from a place on in its era, before a message.
#[tactic(auto, using(crate::proofs::Gaps::gap_more, crate::proofs::Gaps::no_gap, crate::proofs::Gaps::times_over))]
fn append_gaps_from(
    found: &mut Vec<Missing>,
    frames: &[Numbered],
    later: Option<(Place, Span)>,
    from: Place,
) -> Result<(), AllocError>
    ensures { OnOk result (found.new.items ≡ found.old.items ++ specs.gaps_from frames.now later from) }
{
    let mut place = from;
    let mut left = frames.len() + 1;
    'gaps: while left > 0 {
        let Some(gap) = next_gap(frames, later, place) else {
            return Ok(());
        };
        found.push(gap)?;
        left -= 1;
        place = Place {
            era: gap.era,
            number: gap.next,
        };
    }
    Ok(())
}

fn is_era(era: usize, later: Option<(Place, Span)>) -> bool
    ensures { result ≡ specs.is_era era later }
{
    match later {
        None => true,
        Some(message) => era == message.0.era,
    }
}

fn first_of(later: Option<(Place, Span)>) -> Place
    ensures { result ≡ specs.first_of later }
{
    match later {
        None => Place { era: 0, number: 1 },
        Some(message) => Place {
            era: message.0.era,
            number: 1,
        },
    }
}

/// Whether two messages of a log are of one era; those before the first and behind the last may be.
pub(crate) fn in_one_era(earlier: Option<(Place, Span)>, later: Option<(Place, Span)>) -> bool
    ensures { result ≡ specs.is_era (specs.place_from earlier).era later }
{
    is_era(place_from(earlier).era, later)
}

/// The numbers that no frame has between two messages of a log, that may not be there.
pub(crate) fn gaps_between(
    alloc: Global,
    frames: &[Numbered],
    earlier: Option<(Place, Span)>,
    later: Option<(Place, Span)>,
) -> Result<Vec<Missing>, AllocError>
    ensures { IfOk result (λ gaps. gaps.items ≡ specs.gaps_between frames.now earlier later) }
{
    let mut gaps = Vec::new(alloc);
    append_gaps_from(&mut gaps, frames, later, place_from(earlier))?;
    if !in_one_era(earlier, later) {
        append_gaps_from(&mut gaps, frames, later, first_of(later))?;
    }
    Ok(gaps)
}
