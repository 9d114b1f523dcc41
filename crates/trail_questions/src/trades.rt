//! The table of a day's trades.

ghost use Rattle.std.specs.Prelude.{◌≤◌, All, length, IfErr, OnOk};
ghost use Rattle.trade_table.specs.Table.{BeginsTable, EmitsTable};
ghost use Rattle.venue_core.specs.Plan.{most_items};
ghost use Rattle.venue_core.specs.Replay.{IsItem};
ghost use Rattle.trail_questions.specs.Ending.{Fails, IsNever, market_of};

use crate::fault::AskedFault;
use instruments::Instruments;
use participants::Participants;
use std::alloc::Global;
use std::io::Write;
use trade_blotter::PrintFault;
use trade_table::print_trade_table;
use venue_rules::TrailRow;

/// Prints the table of the trades, with how each was made.
pub(crate) fn print_table_of<W: Write>(
    alloc: Global,
    participants: Participants,
    instruments: Instruments,
    rows: &[TrailRow],
    writer: &mut W,
) -> Result<(), AskedFault>
    requires kept { All IsItem rows.now }
    requires few { length rows.now ≤ most_items }
    ensures emitted { OnOk result (EmitsTable (market_of participants instruments) rows.now (W.contents writer.old) (W.contents writer.new)) }
    ensures failed { IfErr result (Fails (BeginsTable (market_of participants instruments) rows.now (W.contents writer.old) (W.contents writer.new)) ⊥
        IsNever (W.contents writer.old) (W.contents writer.new)) }
{
    match print_trade_table(alloc, participants, instruments, rows, writer) {
        Ok(()) => Ok(()),
        Err(PrintFault::Memory) => Err(AskedFault::Memory),
        Err(PrintFault::Output) => Err(AskedFault::Output),
    }
}
