//! The evidence for a trade, or for all.

ghost use Rattle.std.specs.Prelude.{◌≤◌, All, length, IfErr, OnOk};
ghost use Rattle.trade_reconstruction.specs.Emitted.{EmitsTrade};
ghost use Rattle.trail_digest.specs.Trail.{trail_of};
ghost use Rattle.venue_core.specs.Plan.{most_items};
ghost use Rattle.venue_core.specs.Replay.{IsItem};
ghost use Rattle.trail_questions.specs.Ending.{Fails, IsNever, market_of};
ghost use Rattle.trail_questions.specs.Evidence.{BeginsEvidences, EmitsEvidences, IsUnknownTrade};

use crate::fault::{AskedFault, Unknown};
use crate::headed::write_head;
use instruments::Instruments;
use participants::Participants;
use std::alloc::Global;
use std::io::Write;
use trade_blotter::PrintFault;
use trade_reconstruction::{EvidenceFault, print_all_evidence, print_evidence};
use trail_digest::{Contents, HeadForm};
use venue_rules::TrailRow;

/// Prints the evidence for the trade with this number.
pub(crate) fn print_evidence_for<W: Write>(
    alloc: Global,
    participants: Participants,
    instruments: Instruments,
    rows: &[TrailRow],
    number: u64,
    writer: &mut W,
) -> Result<(), AskedFault>
    requires kept { All IsItem rows.now }
    requires few { length rows.now ≤ most_items }
    ensures emitted { OnOk result (EmitsTrade (market_of participants instruments) rows.now number (W.contents writer.old) (W.contents writer.new)) }
    ensures failed { IfErr result (Fails ⊥ ⊥ (IsUnknownTrade number (market_of participants instruments) rows.now) (W.contents writer.old) (W.contents writer.new)) }
{
    match print_evidence(alloc, participants, instruments, rows, number, writer) {
        Ok(()) => Ok(()),
        Err(EvidenceFault::Memory) => Err(AskedFault::Memory),
        Err(EvidenceFault::Output) => Err(AskedFault::Output),
        Err(EvidenceFault::NoTrade) => Err(AskedFault::Unknown(Unknown::Trade)),
    }
}

/// Prints the evidence for each trade of the day behind its own head, trade by trade.
#[tactic(auto, using(crate::proofs::UnderHead::head_failed))]
pub(crate) fn print_evidence_for_all<W: Write>(
    alloc: Global,
    participants: Participants,
    instruments: Instruments,
    trail: &Contents<'_>,
    writer: &mut W,
) -> Result<(), AskedFault>
    requires kept { All IsItem (trail_of trail.now).rows }
    requires few { length (trail_of trail.now).rows ≤ most_items }
    ensures emitted { OnOk result (EmitsEvidences (market_of participants instruments) (trail_of trail.now) (W.contents writer.old) (W.contents writer.new)) }
    ensures failed { IfErr result (Fails (BeginsEvidences (market_of participants instruments) (trail_of trail.now) (W.contents writer.old) (W.contents writer.new)) ⊥ IsNever (W.contents writer.old) (W.contents writer.new)) }
{
    if let Err(fault) = write_head(alloc, Some(HeadForm::Line), trail, writer) {
        return Err(fault);
    }
    match print_all_evidence(alloc, participants, instruments, trail.rows, writer) {
        Ok(()) => Ok(()),
        Err(PrintFault::Memory) => Err(AskedFault::Memory),
        Err(PrintFault::Output) => Err(AskedFault::Output),
    }
}
