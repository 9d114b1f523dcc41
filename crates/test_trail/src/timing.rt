//! How fast a trail records rows in memory, one transaction each.

use crate::items::Sent;
use crate::market::make_files;
use crate::steps::record_next;
use anyhow::{Result, anyhow, ensure};
use audit_trail::Trail;
use sqlite::{Alter, Connection};
use std::mem::drop;
use std::time::Instant;

/// An order of 95 bytes, which is near the mean.
const ORDER: Sent = Sent {
    who: 1,
    era: 1,
    number: 2,
    later: 0,
    text: "35=D\x0111=order-0001\x01583=link-0001\x0155=IRS5Y\x0154=1\x0138=100\x0140=2\x0144=2.5\x0159=0\x0160=20250303-14:30:00.000\x01",
};

// The microseconds in which this many rows are recorded in a trail, which is dropped.
fn time_over<S: Alter + Drop>(rt: &HostRuntime, mut trail: Trail<S>, rows: u64) -> Result<u64> {
    let start = Instant::now(rt)?;
    for _ in 0..rows {
        ensure!(
            record_next(rt.alloc(), &mut trail, &ORDER),
            "a row was refused"
        );
    }
    let taken = start.elapsed(rt)?;
    drop(trail);
    Ok(
        taken
            .as_secs()
            .saturating_mul(1_000_000)
            .saturating_add(u64::from(taken.subsec_micros())),
    )
}

/// Makes a trail in memory, and prints the microseconds in which this many rows are recorded.
pub fn time(rt: &HostRuntime, rows: u64) -> Result<u64> {
    let alloc = rt.alloc();
    let files = make_files(alloc)?;
    let conn = Connection::open_in_memory(alloc)?;
    let Ok(trail) = Trail::create(alloc, conn, &files) else {
        return Err(anyhow!("no trail was made"));
    };
    time_over(rt, trail, rows)
}
