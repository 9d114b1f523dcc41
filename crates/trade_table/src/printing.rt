//! The table of a day's trades, written.

ghost use Rattle.std.specs.Prelude.{◌≡◌, ◌≤◌, All, IfErr, OnOk, length};
ghost use Rattle.std.specs.List.{flat_map};
ghost use Rattle.std.specs.Io.KnownBytes.{Appends, Keeps};
ghost use Rattle.trade_blotter.specs.Printing.{AppendsSome};
ghost use Rattle.trade_blotter.specs.declared.printing.PrintFault.TheVariants.{Memory, Output};
ghost use Rattle.venue_core.specs.Plan.{most_items};
ghost use Rattle.venue_core.specs.Replay.{IsItem};
ghost use Rattle.venue_core.specs.VenueFacts.{IsHistory};
ghost use Rattle.venue_rules.specs.Facts.{History, no_history};
ghost use Rattle.venue_rules.specs.Readings.{trade_facts};
ghost use Rattle.trade_table.specs.Table.{BeginsOf, BeginsTable, EmitsTable, table_of, table_row, table_rows};

use crate::execution::Execution;
use crate::executions::executions;
use crate::fields::{names_text, row_of};
use instruments::Instruments;
use participants::Participants;
use std::alloc::Global;
use std::io::Write;
use trade_blotter::PrintFault;
use venue_core::{Venue, rows_emit_their_inputs};
use venue_rules::{TradeFact, TrailRow};

fn write_text<W: Write>(text: &[u8], writer: &mut W) -> Result<(), PrintFault>
    ensures written { OnOk result (Appends (W.contents writer.old) (W.contents writer.new) text.now) }
    ensures output { IfErr result (λ fault. fault ≡ Output) }
{
    match writer.write_all(text) {
        Ok(()) => Ok(()),
        Err(_) => Err(PrintFault::Output),
    }
}

/// Writes the row of one trade.
fn print_row<W: Write>(
    alloc: Global,
    venue: &Venue,
    executions: &[Execution],
    trade: &TradeFact,
    writer: &mut W,
) -> Result<(), PrintFault>
    ensures emitted { (h : History) → IsHistory venue.now h → OnOk result (Appends (W.contents writer.old) (W.contents writer.new) (table_row venue.now.market h executions.now trade.now)) }
    ensures unwritten { IfErr result (λ fault. fault ≡ Memory → Keeps (W.contents writer.old) (W.contents writer.new)) }
{
    let text = row_of(alloc, venue, executions, trade)?;
    write_text(&text, writer)
}

/// Writes the rows of the day's trades, in order.
fn print_rows<W: Write>(
    alloc: Global,
    venue: &Venue,
    executions: &[Execution],
    writer: &mut W,
) -> Result<(), PrintFault>
    ensures emitted { (h : History) → IsHistory venue.now h → OnOk result (Appends (W.contents writer.old) (W.contents writer.new) (table_rows venue.now.market h executions.now)) }
    ensures begun { (h : History) → IsHistory venue.now h
        → IfErr result (λ fault. fault ≡ Memory → AppendsSome (W.contents writer.old) (W.contents writer.new) (table_row venue.now.market h executions.now) (trade_facts h.facts)) }
{
    for trade in venue.trades() {
        print_row(alloc, venue, executions, trade, writer)?;
    }
    Ok(())
}

/// Writes the names of the fields, and then the rows of the day's trades.
fn print_table<W: Write>(
    alloc: Global,
    venue: &Venue,
    executions: &[Execution],
    writer: &mut W,
) -> Result<(), PrintFault>
    ensures emitted { (h : History) → IsHistory venue.now h → OnOk result (Appends (W.contents writer.old) (W.contents writer.new) (table_of venue.now.market h executions.now)) }
    ensures begun { (h : History) → IsHistory venue.now h → IfErr result (λ fault. fault ≡ Memory → BeginsOf venue.now.market h executions.now (W.contents writer.old) (W.contents writer.new)) }
{
    let names = names_text(alloc)?;
    write_text(&names, writer)?;
    print_rows(alloc, venue, executions, writer)
}

/// Writes the table of an empty venue that processes the inputs of a trail's rows.
fn print_day<W: Write>(
    alloc: Global,
    venue: &mut Venue,
    rows: &[TrailRow],
    writer: &mut W,
) -> Result<(), PrintFault>
    requires kept { All IsItem rows.now }
    requires few { length rows.now ≤ most_items }
    requires fresh { IsHistory venue.old no_history }
    requires first { venue.old.items ≡ 0 }
    ensures emitted { OnOk result (EmitsTable venue.old.market rows.now (W.contents writer.old) (W.contents writer.new)) }
    ensures begun { IfErr result (λ fault. fault ≡ Memory → BeginsTable venue.old.market rows.now (W.contents writer.old) (W.contents writer.new)) }
{
    rows_emit_their_inputs();
    let mut known = Vec::new(alloc);
    let executions = executions(alloc, venue, &mut known, rows)?;
    print_table(alloc, venue, &executions, writer)
}

/// Writes the names of the fields, and then a row for each trade of the day in a trail's rows, in order, on a venue of
/// these participants and instruments: the fields of the trade list, and then
/// `moment_utc,row,buy_order,sell_order,buy_id,sell_id,quote,quote_id,aggressor,cross`. Each row ends in CR LF. The
/// trail's rows are walked once. Where an allocation fails, nothing was written, or the names and the rows of the first
/// trades, each whole.
pub fn print_trade_table<W: Write>(
    alloc: Global,
    participants: Participants,
    instruments: Instruments,
    rows: &[TrailRow],
    writer: &mut W,
) -> Result<(), PrintFault>
    requires kept { All IsItem rows.now }
    requires few { length rows.now ≤ most_items }
    ensures emitted { OnOk result (EmitsTable (record { participants = participants; instruments = instruments }) rows.now (W.contents writer.old) (W.contents writer.new)) }
    ensures begun { IfErr result (λ fault. fault ≡ Memory → BeginsTable (record { participants = participants; instruments = instruments }) rows.now (W.contents writer.old) (W.contents writer.new)) }
{
    let mut venue = Venue::open(alloc, participants, instruments)?;
    let printed = print_day(alloc, &mut venue, rows, writer);
    drop(venue);
    printed
}
