//! The frames of a log, and what belongs to none.

ghost use Rattle.std.specs.Prelude.{◌≡◌, ◌+◌, ◌<◌, ◌≤◌, ◌^◌, ◌++◌, IfOk, OnOk, length};
ghost use Rattle.desk_log.specs.Frames as frames;
ghost use Rattle.desk_log.specs.Scan as specs;

use crate::frames::{BrokenFrame, Look, Span, TRAILER_LENGTH, look_at};
use std::alloc::{AllocError, Global};

/// What was found in a log up to a place at which no frame goes on.
#[derive(Drop)]
pub struct Scan {
    pub bodies: Vec<Span>,
    /// The number of bytes that belong to no frame.
    pub outside: usize,
    /// The first place at which something begins as a frame and is none.
    pub broken: Option<BrokenFrame>,
}

fn push_body(bodies: &mut Vec<Span>, at: usize, look: Look) -> Result<(), AllocError>
    requires { specs.IsBelow (2 ^ 63) at look }
    ensures { OnOk result (bodies.new.items ≡ bodies.old.items ++ frames.spans at look) }
{
    match look {
        Look::Frame(start, end) => {
            bodies.push(Span {
                start: at + start,
                end: at + end,
            })?;
            Ok(())
        }
        Look::Broken(_) => Ok(()),
        Look::Nothing => Ok(()),
    }
}

fn outside_of(look: Look) -> usize
    ensures count { result ≡ frames.outside_of look }
    ensures bound { result ≤ 1 }
{
    match look {
        Look::Frame(_, _) => 0,
        Look::Broken(_) => 1,
        Look::Nothing => 1,
    }
}

fn first_of(first: Option<BrokenFrame>, at: usize, look: Look) -> Option<BrokenFrame>
    ensures { result ≡ frames.either first (specs.broken_at at look) }
{
    if first.is_some() {
        return first;
    }
    match look {
        Look::Frame(_, _) => None,
        Look::Broken(fault) => Some(BrokenFrame { at, fault }),
        Look::Nothing => None,
    }
}

/// The place behind the frame that begins at a place, or behind the byte there.
fn behind(at: usize, look: Look) -> usize
    requires { specs.IsBelow (2 ^ 63) at look }
    ensures { result ≡ at + 1 + frames.inside look }
{
    match look {
        Look::Frame(_, end) => at + end + TRAILER_LENGTH,
        Look::Broken(_) => at + 1,
        Look::Nothing => at + 1,
    }
}

/// Takes the frame that begins at a place, or the byte there. Returns the place behind it.
fn take(scan: &mut Scan, at: usize, log: &[u8]) -> Result<usize, AllocError>
    requires low { at < length log.now }
    requires few { scan.old.outside ≤ at }
    ensures bodies { IfOk result (λ next. specs.bodies_with scan.new.bodies.items next log.now ≡ specs.bodies_with scan.old.bodies.items at log.now) }
    ensures outside { IfOk result (λ next. specs.outside_with scan.new.outside next log.now ≡ specs.outside_with scan.old.outside at log.now) }
    ensures broken { IfOk result (λ next. specs.broken_with scan.new.broken next log.now ≡ specs.broken_with scan.old.broken at log.now) }
    ensures within { IfOk result (λ next. (at < next) × (next ≤ length log.now)) }
    ensures few { IfOk result (λ next. scan.new.outside ≤ next) }
{
    let look = look_at(&log[at..]);
    push_body(&mut scan.bodies, at, look)?;
    scan.outside += outside_of(look);
    scan.broken = first_of(scan.broken, at, look);
    Ok(behind(at, look))
}

/// The frames of a log, and what belongs to none.
pub(crate) fn scan_log(alloc: Global, log: &[u8]) -> Result<Scan, AllocError>
    ensures bodies { IfOk result (λ scan. scan.bodies.items ≡ frames.bodies_in log.now) }
    ensures outside { IfOk result (λ scan. scan.outside ≡ frames.outside log.now) }
    ensures broken { IfOk result (λ scan. scan.broken ≡ frames.first_broken log.now) }
{
    let mut scan = Scan {
        bodies: Vec::new(alloc),
        outside: 0,
        broken: None,
    };
    let mut at = 0;
    while at < log.len() {
        at = take(&mut scan, at, log)?;
    }
    Ok(scan)
}
