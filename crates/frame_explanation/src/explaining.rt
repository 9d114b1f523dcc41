//! A log of frames, explained.

ghost use Rattle.std.specs.Prelude.{◌≡◌, ℕ, length, IfErr, IfOk, List, OnOk};
ghost use Rattle.std.specs.Io.KnownBytes.{Appends, Keeps};
ghost use Rattle.fix_session.specs.Reader.{Reader};
ghost use Rattle.frame_explanation.specs.Explanation.{Explains, Hears, IsOf, UnlessOutput, explanation};
ghost use Rattle.frame_explanation.specs.declared.fault.ExplainFault.TheVariants.{Output};

use crate::fault::ExplainFault;
use crate::frames::{found_in, separated};
use crate::hearing::hear_all;
use crate::listing::list_log;
use crate::log_items::{Heard, LogItem};
use crate::summary::append_summary;
use crate::text::{append_all_heard, append_head};
use instruments::Instruments;
use participants::Participants;
use std::alloc::{AllocError, Global};
use std::io::Write;
use venue_world::{ListTrail, World};

fn count_of(participants: &Participants) -> u32
    ensures { result ≡ length participants.now.names }
{
    participants.len() as u32
}

/// What a new venue answers to what is listed of a log.
fn answered(
    alloc: Global,
    participants: Participants,
    instruments: Instruments,
    listed: Vec<LogItem>,
) -> Result<Vec<Heard>, ExplainFault>
    ensures { IfOk result (λ heard. Hears (record { participants = participants; instruments = instruments }) listed.items heard.items) }
{
    let count = count_of(&participants);
    let mut world = World::new(alloc, participants, instruments, ListTrail::new(alloc))?;
    hear_all(alloc, &mut world, count, listed)
}

/// What a log has, in order, and what is answered.
fn heard_of(
    alloc: Global,
    log: &[u8],
    names: &Participants,
    participants: Participants,
    instruments: Instruments,
) -> Result<Vec<Heard>, ExplainFault>
    ensures { IfOk result (λ heard. IsOf (record { participants = participants; instruments = instruments }) names.now log.now heard.items) }
{
    let found = found_in(alloc, log)?;
    let listed = list_log(alloc, names, log, &found)?;
    answered(alloc, participants, instruments, listed)
}

fn text_of(
    alloc: Global,
    log: &[u8],
    names: &Participants,
    heard: &[Heard],
) -> Result<Vec<u8>, AllocError>
    ensures { (r : Reader) → IfOk result (λ text. text.items ≡ explanation r names.now log.now heard.now) }
{
    let mut text = Vec::new(alloc);
    let found = found_in(alloc, log)?;
    append_head(&mut text, log, &found)?;
    append_summary(alloc, &mut text, names, heard)?;
    append_all_heard(alloc, &mut text, names, heard)?;
    Ok(text)
}

/// The explanation of a log of FIX frames, with SOH or, where it has none, | behind each field. Of each frame: its
/// fields by name, its fault or its message in words, and what a new venue of these participants and instruments
/// answers. Each session begins where its first frame finds it. The names are those of the participants.
fn explained(
    alloc: Global,
    log: &[u8],
    names: &Participants,
    participants: Participants,
    instruments: Instruments,
) -> Result<Vec<u8>, ExplainFault>
    ensures { IfOk result (λ text. Explains (record { participants = participants; instruments = instruments }) names.now log.now text.items) }
{
    let log = separated(alloc, log)?;
    let heard = heard_of(alloc, &log, names, participants, instruments)?;
    Ok(text_of(alloc, &log, names, &heard)?)
}

/// Writes the explanation of a log.
pub fn explain<W: Write>(
    alloc: Global,
    log: &[u8],
    names: &Participants,
    participants: Participants,
    instruments: Instruments,
    writer: &mut W,
) -> Result<(), ExplainFault>
    ensures written { OnOk result ((text : List ℕ) × Explains (record { participants = participants; instruments = instruments }) names.now log.now text × Appends (W.contents writer.old) (W.contents writer.new) text) }
    ensures unwritten { IfErr result (λ fault. UnlessOutput fault (Keeps (W.contents writer.old) (W.contents writer.new))) }
{
    let text = explained(alloc, log, names, participants, instruments)?;
    match writer.write_all(&text) {
        Ok(()) => flush(writer),
        Err(_) => Err(ExplainFault::Output),
    }
}

fn flush<W: Write>(writer: &mut W) -> Result<(), ExplainFault>
    ensures kept { Keeps (W.contents writer.old) (W.contents writer.new) }
    ensures fault { IfErr result (λ fault. fault ≡ Output) }
{
    match writer.flush() {
        Ok(()) => Ok(()),
        Err(_) => Err(ExplainFault::Output),
    }
}
