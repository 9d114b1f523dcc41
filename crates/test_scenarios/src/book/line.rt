//! The lines of a transcript.

use crate::book::filling::fill;
use crate::book::finding::find;
use crate::book::measuring::try_all;
use crate::book::running::scenario;
use anyhow::{Result, bail};

// Appends a call with its answers; a line that is an answer is skipped.
fn run_line(rt: &HostRuntime, line: &str, emitted: &mut Vec<u8>) -> Result<()> {
    if line.starts_with("  ") {
        return Ok(());
    }
    emitted.extend_from_slice(line.as_bytes())?;
    emitted.extend_from_slice(b"\n")?;
    if line.starts_with('#') {
        return Ok(());
    }
    let alloc = rt.alloc();
    match line.split_once(' ').unwrap_or((line, "")) {
        ("stream", requests) => scenario(alloc, requests.parse::<u64>()?, emitted),
        ("fill", _) => fill(alloc, emitted),
        ("find", orders) => find(alloc, orders.parse::<u64>()?, emitted),
        ("time", _) => try_all(rt),
        _ => bail!("no call: {line}"),
    }
}

/// Appends the calls of a part, with the answers of both books.
pub(crate) fn run_part(rt: &HostRuntime, lines: &str, emitted: &mut Vec<u8>) -> Result<()> {
    for line in lines.lines() {
        run_line(rt, line, emitted)?;
    }
    Ok(())
}
