//! Why a message was refused.

ghost use Rattle.std.specs.Prelude.{◌≤◌, All, length, IfErr, OnOk};
ghost use Rattle.refusal_causes.specs.Printed.{EmitsWhy};
ghost use Rattle.venue_core.specs.Plan.{most_items};
ghost use Rattle.venue_core.specs.Replay.{IsItem};
ghost use Rattle.trail_questions.specs.Ending.{Fails, market_of};
ghost use Rattle.trail_questions.specs.Why.{IsUnknownWhy};

use crate::fault::{AskedFault, Unknown};
use instruments::Instruments;
use participants::Participants;
use refusal_causes::{WhyFault, print_why};
use std::alloc::Global;
use std::io::Write;
use venue_rules::TrailRow;

/// Prints why the message of a row was refused, or that it was not.
pub(crate) fn print_why_at<W: Write>(
    alloc: Global,
    participants: Participants,
    instruments: Instruments,
    rows: &[TrailRow],
    number: u64,
    writer: &mut W,
) -> Result<(), AskedFault>
    requires kept { All IsItem rows.now }
    requires few { length rows.now ≤ most_items }
    ensures emitted { OnOk result (EmitsWhy (market_of participants instruments) rows.now number (W.contents writer.old) (W.contents writer.new)) }
    ensures failed { IfErr result (Fails ⊥ ⊥ (IsUnknownWhy number rows.now) (W.contents writer.old) (W.contents writer.new)) }
{
    match print_why(alloc, participants, instruments, rows, number, writer) {
        Ok(()) => Ok(()),
        Err(WhyFault::Memory) => Err(AskedFault::Memory),
        Err(WhyFault::Output) => Err(AskedFault::Output),
        Err(WhyFault::NoRow) => Err(AskedFault::Unknown(Unknown::Row)),
    }
}
