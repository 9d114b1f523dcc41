//! The parts of a transcript.

use crate::bytes::state::State;
use crate::dictionary::Dictionary;
use crate::files::texts::Files;
use crate::refusals::Refusals;
use crate::texts::write_again;
use crate::venue::line::Scenario;
use crate::world::running::Outcome;
use crate::{book, differential, lines};
use anyhow::{Result, bail};
use fix_session::Session;
use resend_store::Store;

/// The first word of a line that begins a part; the part's name follows.
const BEGINS: &str = "part ";

fn run_part(
    rt: &HostRuntime,
    name: &str,
    lines: &str,
    emitted: &mut Vec<u8>,
    refusals: &mut Refusals,
) -> Result<()> {
    let alloc = rt.alloc();
    match name {
        "bytes" => lines::run_part::<State>(alloc, lines, emitted, refusals),
        "dictionary" => lines::run_part::<Dictionary>(alloc, lines, emitted, refusals),
        "store" => lines::run_part::<Store>(alloc, lines, emitted, refusals),
        "session" => lines::run_part::<Session>(alloc, lines, emitted, refusals),
        "files" => lines::run_part::<Files>(alloc, lines, emitted, refusals),
        "book" => book::line::run_part(rt, lines, emitted),
        "venue" => lines::run_part::<Scenario>(alloc, lines, emitted, refusals),
        "world" => lines::run_part::<Outcome>(alloc, lines, emitted, refusals),
        "differential" => differential::running::run_part(rt, lines, emitted),
        _ => bail!("no part: {name}"),
    }
}

fn append_parts(
    rt: &HostRuntime,
    parts: &str,
    emitted: &mut Vec<u8>,
    refusals: &mut Refusals,
) -> Result<()> {
    for part in parts.split("\npart ") {
        let (name, lines) = part.split_once('\n').unwrap_or((part, ""));
        write_again(BEGINS, name, emitted, refusals)?;
        run_part(rt, name, lines, emitted, refusals)?;
    }
    Ok(())
}

/// The transcript with the answers that came, part by part. One that does not begin with a part is one of a world.
pub fn emitted_transcript(
    rt: &HostRuntime,
    transcript: &str,
    refusals: &mut Refusals,
) -> Result<Vec<u8>> {
    let mut emitted = Vec::new(rt.alloc());
    match transcript.strip_prefix(BEGINS) {
        Some(parts) => append_parts(rt, parts, &mut emitted, refusals)?,
        None => lines::run_part::<Outcome>(rt.alloc(), transcript, &mut emitted, refusals)?,
    }
    Ok(emitted)
}
