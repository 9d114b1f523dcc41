//! The day as one page.

ghost use Rattle.std.specs.Prelude.{◌≤◌, All, length, IfErr, OnOk};
ghost use Rattle.day_page.specs.Printed.{EmitsPage};
ghost use Rattle.trail_digest.specs.Trail.{trail_of};
ghost use Rattle.venue_core.specs.Plan.{most_items};
ghost use Rattle.venue_core.specs.Replay.{IsItem};
ghost use Rattle.trail_questions.specs.Ending.{Fails, IsNever, market_of};

use crate::fault::AskedFault;
use day_page::print_page;
use instruments::Instruments;
use participants::Participants;
use std::alloc::Global;
use std::io::Write;
use trade_blotter::PrintFault;
use trail_digest::Contents;

/// Prints the day as one page.
pub(crate) fn print_page_of<W: Write>(
    alloc: Global,
    participants: Participants,
    instruments: Instruments,
    trail: &Contents<'_>,
    writer: &mut W,
) -> Result<(), AskedFault>
    requires kept { All IsItem (trail_of trail.now).rows }
    requires few { length (trail_of trail.now).rows ≤ most_items }
    ensures emitted { OnOk result (EmitsPage (market_of participants instruments) (trail_of trail.now) (W.contents writer.old) (W.contents writer.new)) }
    ensures failed { IfErr result (Fails ⊥ ⊥ IsNever (W.contents writer.old) (W.contents writer.new)) }
{
    match print_page(alloc, participants, instruments, trail, writer) {
        Ok(()) => Ok(()),
        Err(PrintFault::Memory) => Err(AskedFault::Memory),
        Err(PrintFault::Output) => Err(AskedFault::Output),
    }
}
