//! Times requests for quotes, quotes and hits.

use crate::book::facility::Facility;
use crate::book::messages::{hit_of, quote_of, request_of};
use crate::times::since;
use anyhow::{Result, anyhow};
use participants::Who;
use std::time::Instant;

/// How many rooms are open before each request.
const OPEN: u64 = 4;

fn time_request(rt: &HostRuntime, facility: &mut Facility, n: u64) -> Result<u64> {
    let request = request_of(rt.alloc(), n)?;
    let start = Instant::now(rt)?;
    facility.ask(Who::of(0), &request)?;
    since(rt, start)
}

fn time_quote(rt: &HostRuntime, facility: &mut Facility, n: u64) -> Result<u64> {
    let quote = quote_of(rt.alloc(), n)?;
    let start = Instant::now(rt)?;
    let first = facility.quote(Who::of(3), &quote)?;
    let spent = since(rt, start)?;
    if !first {
        return Err(anyhow!("not the first"));
    }
    Ok(spent)
}

fn time_hit(rt: &HostRuntime, facility: &mut Facility, n: u64) -> Result<u64> {
    let hit = hit_of(n);
    let start = Instant::now(rt)?;
    let maker = facility.hit(Who::of(0), &hit)?;
    let spent = since(rt, start)?;
    if maker.place() != 3 {
        return Err(anyhow!("another maker"));
    }
    Ok(spent)
}

// The n-th request, the quote in the room of the second before it, and the hit that ends the room of the fourth before
// it.
fn scenario(rt: &HostRuntime, facility: &mut Facility, n: u64) -> Result<[u64; 3]> {
    let request = time_request(rt, facility, n)?;
    let quote = if OPEN / 2 < n {
        time_quote(rt, facility, n - OPEN / 2)?
    } else {
        0
    };
    let hit = if OPEN < n {
        time_hit(rt, facility, n - OPEN)?
    } else {
        0
    };
    Ok([request, quote, hit])
}

/// The times of a request, a quote and a hit, after `gone` rooms came and went.
pub(crate) fn time_rooms(
    rt: &HostRuntime,
    facility: &mut Facility,
    gone: u64,
    timed: u64,
) -> Result<Vec<[u64; 3]>> {
    let mut turns = Vec::new(rt.alloc());
    let before = gone.saturating_add(OPEN);
    for turn in 0..before.saturating_add(timed) {
        let took = scenario(rt, facility, turn.saturating_add(1))?;
        if before <= turn {
            turns.push(took)?;
        }
    }
    Ok(turns)
}
