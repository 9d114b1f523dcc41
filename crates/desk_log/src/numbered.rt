//! The frames of a log from one side to the other, by era and number.

ghost use Rattle.std.specs.Prelude.{◌≡◌, ◌+◌, ◌≤◌, ◌<◌, ◌^◌, ◌++◌, IfOk, IfSome, OnOk};
ghost use Rattle.desk_log.specs.Numbered as numbered;

use crate::bodies::{begins_era, is_between, is_session, next_in, number_in, text_of};
use crate::frames::Span;
use std::alloc::{AllocError, Global};

/// An era and a number in it.
#[derive(Clone, Copy, PartialEq, Eq, PartialOrd, Ord)]
pub struct Place {
    pub era: usize,
    pub number: u64,
}

/// A frame from one side to the other.
#[derive(Clone, Copy)]
pub struct Numbered {
    pub place: Place,
    /// The number that is due behind it, and above its own.
    pub next: u64,
    pub session: bool,
    pub body: Span,
}

/// Whose frames to whom.
#[derive(Clone, Copy)]
pub struct Ends<'a> {
    pub from: &'a [u8],
    pub to: &'a [u8],
}

/// The bytes of a body.
pub(crate) fn body_at<'a>(log: &'a [u8], span: Span) -> &'a [u8]
    ensures { result.now ≡ numbered.body_at log.now span }
{
    let Some(rest) = log.get(span.start..) else {
        return &[];
    };
    match rest.get(..span.end.saturating_sub(span.start)) {
        Some(body) => body,
        None => rest,
    }
}

/// The application text of a message.
pub(crate) fn text_at(alloc: Global, log: &[u8], span: Span) -> Result<Vec<u8>, AllocError>
    ensures { IfOk result (λ text. text.items ≡ numbered.text_at log.now span) }
{
    text_of(alloc, body_at(log, span))
}

fn number_between(ends: &Ends, body: &[u8]) -> Option<u64>
    ensures number { result ≡ numbered.number_between ends.now.from.now ends.now.to.now body.now }
    ensures bound { IfSome result (λ n. n ≤ 999_999_999) }
{
    if is_between(ends.from, ends.to, body) {
        number_in(body)
    } else {
        None
    }
}

fn begins(latest: Place, number: u64, body: &[u8]) -> bool
    ensures { result ≡ numbered.begins latest number body.now }
{
    latest.era == 0 || begins_era(latest.number, number, body)
}

/// The latest era and the greatest number in it, with one more frame.
fn latest_with(latest: Place, number: u64, body: &[u8]) -> Place
    requires { latest.era + 1 < 2 ^ 64 }
    ensures latest { result ≡ numbered.latest_with latest number body.now }
    ensures bound { result.era ≤ latest.era + 1 }
{
    if begins(latest, number, body) {
        Place {
            era: latest.era + 1,
            number,
        }
    } else {
        Place {
            era: latest.era,
            number: latest.number.max(number),
        }
    }
}

/// The number behind those that a frame has: its own, and those that a gap fill passes.
fn behind_in(number: u64, body: &[u8]) -> u64
    requires { number ≤ 999_999_999 }
    ensures { result ≡ numbered.behind_in number body.now }
{
    next_in(number, body).max(number + 1)
}

fn numbered_as(era: usize, number: u64, body: &[u8], span: Span) -> Numbered
    requires { number ≤ 999_999_999 }
    ensures { result ≡ numbered.numbered_as era number body.now span }
{
    Numbered {
        place: Place { era, number },
        next: behind_in(number, body),
        session: is_session(body),
        body: span,
    }
}

/// Appends the frame with this body, if it is from the one to the other. Returns the latest era and its greatest
/// number.
fn append_numbered(
    ends: &Ends,
    log: &[u8],
    latest: Place,
    span: Span,
    found: &mut Vec<Numbered>,
) -> Result<Place, AllocError>
    requires { latest.era + 1 < 2 ^ 64 }
    ensures found { OnOk result (found.new.items ≡ found.old.items ++ numbered.numbered_if latest (numbered.number_between ends.now.from.now ends.now.to.now (numbered.body_at log.now span)) (numbered.body_at log.now span) span) }
    ensures latest { IfOk result (λ later. later ≡ numbered.latest_behind latest (numbered.number_between ends.now.from.now ends.now.to.now (numbered.body_at log.now span)) (numbered.body_at log.now span)) }
    ensures bound { IfOk result (λ later. later.era ≤ latest.era + 1) }
{
    let body = body_at(log, span);
    match number_between(ends, body) {
        Some(number) => {
            let later = latest_with(latest, number, body);
            found.push(numbered_as(later.era, number, body, span))?;
            Ok(later)
        }
        None => Ok(latest),
    }
}

/// The frames with these bodies, from the one to the other, in their order.
#[tactic(auto, using(crate::proofs::Numbering::numbered_more))]
pub(crate) fn numbered_in(
    alloc: Global,
    ends: &Ends,
    log: &[u8],
    bodies: &[Span],
) -> Result<Vec<Numbered>, AllocError>
    ensures { IfOk result (λ found. found.items ≡ numbered.numbered_in ends.now.from.now ends.now.to.now log.now bodies.now) }
{
    let mut found = Vec::new(alloc);
    let mut latest = Place { era: 0, number: 0 };
    for span in bodies {
        latest = append_numbered(ends, log, latest, *span, &mut found)?;
    }
    Ok(found)
}

/// The application messages among the frames, in their order.
pub(crate) fn logged_in(
    alloc: Global,
    frames: &[Numbered],
) -> Result<Vec<(Place, Span)>, AllocError>
    ensures { IfOk result (λ logged. logged.items ≡ numbered.logged_in frames.now) }
{
    let mut logged = Vec::new(alloc);
    for frame in frames {
        if !frame.session {
            logged.push((frame.place, frame.body))?;
        }
    }
    Ok(logged)
}
