//! A desk's own log of messages against what it was owed.

ghost use Rattle.std.specs.Prelude.{◌≤◌, All, length, IfErr, OnOk};
ghost use Rattle.venue_core.specs.Plan.{most_items};
ghost use Rattle.venue_core.specs.Replay.{IsItem};
ghost use Rattle.trail_questions.specs.Against.{AgreesWith, DiffersFrom, IsUnknownDesk};
ghost use Rattle.trail_questions.specs.Ending.{Fails, market_of};

use crate::answers::named;
use crate::fault::{AskedFault, BrokenLine, NoLog, Unknown};
use desk_log::{Comparison, FrameFault, LogFault, NoLog as NoLogThere, print_comparison};
use fix_dictionary::Identifier;
use instruments::Instruments;
use participants::Participants;
use std::alloc::Global;
use std::io::Write;
use venue_rules::TrailRow;

/// What a log lacks, as the refusal says it.
fn lack_of(there: NoLogThere) -> NoLog {
    let broken = match there.broken {
        Some((line, FrameFault::Length)) => Some(BrokenLine::Length(line as u64)),
        Some((line, FrameFault::Checksum)) => Some(BrokenLine::Checksum(line as u64)),
        None => None,
    };
    NoLog {
        frames: there.frames as u64,
        broken,
    }
}

/// Compares a desk's log with what it was owed, and prints how they agree.
pub(crate) fn print_against<W: Write>(
    alloc: Global,
    participants: Participants,
    instruments: Instruments,
    rows: &[TrailRow],
    desk: Identifier,
    log: &[u8],
    writer: &mut W,
) -> Result<(), AskedFault>
    requires kept { All IsItem rows.now }
    requires few { length rows.now ≤ most_items }
    ensures emitted { OnOk result (AgreesWith desk log.now (market_of participants instruments) rows.now (W.contents writer.old) (W.contents writer.new)) }
    ensures failed { IfErr result (Fails ⊥ (DiffersFrom desk log.now (market_of participants instruments) rows.now (W.contents writer.old) (W.contents writer.new))
        (IsUnknownDesk desk log.now (market_of participants instruments)) (W.contents writer.old) (W.contents writer.new)) }
{
    let Some(who) = participants.find(desk.as_slice()) else {
        return Err(AskedFault::Unknown(Unknown::Recipient));
    };
    match print_comparison(alloc, participants, instruments, rows, who, log, writer) {
        Ok(Comparison::All) => Ok(()),
        Ok(Comparison::FirstPart) | Ok(Comparison::Differs) => Err(AskedFault::Differs),
        Err(LogFault::Memory) => Err(AskedFault::Memory),
        Err(LogFault::Output) => Err(AskedFault::Output),
        Err(LogFault::NoLog(lack)) => Err(AskedFault::Unknown(Unknown::Log(lack_of(lack)))),
    }
}
