//! Times that are measured, in nanoseconds.

use anyhow::Result;
use std::alloc::{AllocError, Global};
use std::time::Instant;

/// How many nanoseconds passed since then.
pub fn since(rt: &HostRuntime, start: Instant) -> Result<u64> {
    let spent = start.elapsed(rt)?;
    Ok(u64::try_from(spent.as_nanos()).unwrap_or(u64::MAX))
}

/// The median time of a kind, on which other work of the machine has little influence. A turn has the time of each
/// kind, by its place.
pub fn middle_of<const N: usize>(
    alloc: Global,
    turns: &[[u64; N]],
    kind: usize,
) -> Result<u64, AllocError> {
    let mut times = Vec::new(alloc);
    for turn in turns {
        times.push(turn.get(kind).copied().unwrap_or(0))?;
    }
    times.sort_unstable();
    Ok(times.get(times.len() / 2).copied().unwrap_or(0))
}

/// Prints the middle time of each kind, by these names.
pub fn emit_middles<const N: usize>(
    rt: &HostRuntime,
    turns: &[[u64; N]],
    names: &[&str],
) -> Result<()> {
    for (kind, name) in names.iter().enumerate() {
        let middle = middle_of(rt.alloc(), turns, kind)?;
        println!(rt; "{} {middle}", *name)?;
    }
    Ok(())
}
