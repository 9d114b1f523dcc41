//! The evidence for all trades of a day.

ghost use Rattle.std.specs.Prelude.{◌≡◌, ◌++◌, ◌∷◌, ◌≤◌, true, codes, map, All, length, IfErr, OnOk, IfOk};
ghost use Rattle.std.specs.List.{flat_map};
ghost use Rattle.std.specs.Io.KnownBytes.{Appends, Keeps};
ghost use Rattle.venue_rules.specs.Facts.{no_history};
ghost use Rattle.venue_core.specs.Plan.{most_items};
ghost use Rattle.venue_core.specs.Replay.{IsItem};
ghost use Rattle.venue_core.specs.VenueFacts.{IsHistory};
ghost use Rattle.trade_blotter.specs.Printing.{AppendsSome};
ghost use Rattle.trade_blotter.specs.declared.printing.PrintFault.TheVariants.{Memory, Output};
ghost use Rattle.trade_reconstruction.specs.Emitted.{BeginsJoined, BeginsTrades, EmitsTrades, evidence_behind, evidence_by, joined};
ghost use Rattle.trade_reconstruction.specs.Notes.{are_aligned};

use crate::evidence::evidence_for;
use crate::gathering::{Day, gather};
use crate::laws::{
    each_book_trade_has_its_orders, each_room_trade_has_its_request, each_trade_has_its_row,
};
use crate::notes::are_aligned;
use instruments::Instruments;
use participants::Participants;
use std::alloc::{AllocError, Global};
use std::io::Write;
use trade_blotter::{PrintFault, append};
use venue_core::{Venue, rows_emit_their_inputs};
use venue_rules::{TradeFact, TrailRow};

fn write_text<W: Write>(text: &[u8], writer: &mut W) -> Result<(), PrintFault>
    ensures written { OnOk result (Appends (W.contents writer.old) (W.contents writer.new) text.now) }
    ensures output { IfErr result (λ fault. fault ≡ Output) }
{
    match writer.write_all(text) {
        Ok(()) => Ok(()),
        Err(_) => Err(PrintFault::Output),
    }
}

/// An empty line and the evidence for a trade.
fn text_behind(
    alloc: Global,
    venue: &Venue,
    rows: &[TrailRow],
    day: &Day,
    is_aligned: bool,
    trade: &TradeFact,
) -> Result<Vec<u8>, AllocError>
    requires aligned { is_aligned ≡ true → are_aligned day.now.notes.items ≡ true }
    ensures { IfOk result (λ text. text.items ≡ evidence_behind venue.now.market rows.now day.now.words day.now.notes.items trade.now) }
{
    let evidence = evidence_for(alloc, venue, rows, day, is_aligned, trade)?;
    let mut text = Vec::new(alloc);
    append(&mut text, &[b"\n", &evidence])?;
    Ok(text)
}

/// Writes an empty line and the evidence for a trade.
fn print_next<W: Write>(
    alloc: Global,
    venue: &Venue,
    rows: &[TrailRow],
    day: &Day,
    is_aligned: bool,
    trade: &TradeFact,
    writer: &mut W,
) -> Result<(), PrintFault>
    requires aligned { is_aligned ≡ true → are_aligned day.now.notes.items ≡ true }
    ensures emitted { OnOk result (Appends (W.contents writer.old) (W.contents writer.new) (evidence_behind venue.now.market rows.now day.now.words day.now.notes.items trade.now)) }
    ensures unwritten { IfErr result (λ fault. fault ≡ Memory → Keeps (W.contents writer.old) (W.contents writer.new)) }
{
    let text = text_behind(alloc, venue, rows, day, is_aligned, trade)?;
    write_text(&text, writer)
}

/// Writes the evidence for these trades, one by one, each behind an empty line.
fn print_behind<W: Write>(
    alloc: Global,
    venue: &Venue,
    rows: &[TrailRow],
    day: &Day,
    is_aligned: bool,
    trades: &[TradeFact],
    writer: &mut W,
) -> Result<(), PrintFault>
    requires aligned { is_aligned ≡ true → are_aligned day.now.notes.items ≡ true }
    ensures emitted { OnOk result (Appends (W.contents writer.old) (W.contents writer.new) (flat_map (evidence_behind venue.now.market rows.now day.now.words day.now.notes.items) trades.now)) }
    ensures begun { IfErr result (λ fault. fault ≡ Memory → AppendsSome (W.contents writer.old) (W.contents writer.new) (evidence_behind venue.now.market rows.now day.now.words day.now.notes.items) trades.now) }
{
    for trade in trades {
        print_next(alloc, venue, rows, day, is_aligned, trade, writer)?;
    }
    Ok(())
}

/// Writes the evidence for a trade.
fn print_first<W: Write>(
    alloc: Global,
    venue: &Venue,
    rows: &[TrailRow],
    day: &Day,
    is_aligned: bool,
    trade: &TradeFact,
    writer: &mut W,
) -> Result<(), PrintFault>
    requires aligned { is_aligned ≡ true → are_aligned day.now.notes.items ≡ true }
    ensures emitted { OnOk result (Appends (W.contents writer.old) (W.contents writer.new) (evidence_by venue.now.market rows.now day.now.words day.now.notes.items trade.now)) }
    ensures unwritten { IfErr result (λ fault. fault ≡ Memory → Keeps (W.contents writer.old) (W.contents writer.new)) }
{
    let text = evidence_for(alloc, venue, rows, day, is_aligned, trade)?;
    write_text(&text, writer)
}

/// Writes the evidence for a trade, and for the trades behind it.
fn print_from<W: Write>(
    alloc: Global,
    venue: &Venue,
    rows: &[TrailRow],
    day: &Day,
    first: &TradeFact,
    rest: &[TradeFact],
    writer: &mut W,
) -> Result<(), PrintFault>
    ensures emitted { OnOk result (Appends (W.contents writer.old) (W.contents writer.new) (joined (map (evidence_by venue.now.market rows.now day.now.words day.now.notes.items) (first.now ∷ rest.now)))) }
    ensures begun { IfErr result (λ fault. fault ≡ Memory → BeginsJoined (W.contents writer.old) (W.contents writer.new) (map (evidence_by venue.now.market rows.now day.now.words day.now.notes.items) (first.now ∷ rest.now))) }
{
    let is_aligned = are_aligned(&day.notes);
    print_first(alloc, venue, rows, day, is_aligned, first, writer)?;
    print_behind(alloc, venue, rows, day, is_aligned, rest, writer)
}

/// Writes the evidence for these trades, one after the other, or a line where there are none.
fn print_joined<W: Write>(
    alloc: Global,
    venue: &Venue,
    rows: &[TrailRow],
    day: &Day,
    trades: &[TradeFact],
    writer: &mut W,
) -> Result<(), PrintFault>
    ensures emitted { OnOk result (Appends (W.contents writer.old) (W.contents writer.new) (joined (map (evidence_by venue.now.market rows.now day.now.words day.now.notes.items) trades.now))) }
    ensures begun { IfErr result (λ fault. fault ≡ Memory → BeginsJoined (W.contents writer.old) (W.contents writer.new) (map (evidence_by venue.now.market rows.now day.now.words day.now.notes.items) trades.now)) }
{
    match trades.split_first() {
        Some((first, rest)) => print_from(alloc, venue, rows, day, first, rest, writer),
        None => write_text(b"no trades\n", writer),
    }
}

/// Writes the evidence for all trades, from an empty venue that processes the inputs of a trail's rows.
fn print_day<W: Write>(
    alloc: Global,
    venue: &mut Venue,
    rows: &[TrailRow],
    writer: &mut W,
) -> Result<(), PrintFault>
    requires kept { All IsItem rows.now }
    requires few { length rows.now ≤ most_items }
    requires fresh { IsHistory venue.old no_history }
    requires first { venue.old.items ≡ 0 }
    ensures emitted { OnOk result (EmitsTrades venue.old.market rows.now (W.contents writer.old) (W.contents writer.new)) }
    ensures begun { IfErr result (λ fault. fault ≡ Memory → BeginsTrades venue.old.market rows.now (W.contents writer.old) (W.contents writer.new)) }
{
    rows_emit_their_inputs();
    each_room_trade_has_its_request();
    each_book_trade_has_its_orders();
    each_trade_has_its_row();
    let day = gather(alloc, venue, rows, None)?;
    print_joined(alloc, venue, rows, &day, venue.trades(), writer)
}

/// Writes the evidence for each trade of the day in a trail's rows, in order, with an empty line between two, on a
/// venue of these participants and instruments: each the text that `print_evidence` writes for it. The rows are
/// replayed once, and one trade's text at a time is in memory. Of a day without trades a line says so. Where an
/// allocation fails, nothing was written, or the evidence for the first trades, each whole.
pub fn print_all_evidence<W: Write>(
    alloc: Global,
    participants: Participants,
    instruments: Instruments,
    rows: &[TrailRow],
    writer: &mut W,
) -> Result<(), PrintFault>
    requires kept { All IsItem rows.now }
    requires few { length rows.now ≤ most_items }
    ensures emitted { OnOk result (EmitsTrades (record { participants = participants; instruments = instruments }) rows.now (W.contents writer.old) (W.contents writer.new)) }
    ensures begun { IfErr result (λ fault. fault ≡ Memory → BeginsTrades (record { participants = participants; instruments = instruments }) rows.now (W.contents writer.old) (W.contents writer.new)) }
{
    let mut venue = Venue::open(alloc, participants, instruments)?;
    let printed = print_day(alloc, &mut venue, rows, writer);
    drop(venue);
    printed
}
