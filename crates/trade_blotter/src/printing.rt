//! A day's trades, written as lines or as a table for a spreadsheet.
ghost use Rattle.std.specs.Prelude.{◌≡◌, IfErr, OnOk};
ghost use Rattle.std.specs.List.{flat_map};
ghost use Rattle.std.specs.Io.KnownBytes.{Appends, Keeps};
ghost use Rattle.venue_rules.specs.Facts.{History};
ghost use Rattle.venue_rules.specs.Readings.{trade_facts};
ghost use Rattle.venue_core.specs.VenueFacts.{IsHistory};
ghost use Rattle.trade_blotter.specs.Line.{trade_lines};
ghost use Rattle.trade_blotter.specs.Printing.{AppendsSome, BeginsLines, BeginsTable, trade_text};
ghost use Rattle.trade_blotter.specs.Table.{trade_table};
ghost use Rattle.trade_blotter.specs.declared.printing.PrintFault.TheVariants.{Memory, Output};

use crate::form::Form;
use crate::line::make_line;
use crate::table::{make_row, names_text};
use std::alloc::{AllocError, Global};
use std::io::Write;
use thiserror::Error;
use venue_core::Venue;
use venue_rules::TradeFact;

/// Why not all was written.
#[derive(Clone, Copy, Debug, PartialEq, Eq, Error)]
pub enum PrintFault {
    /// An allocation failed.
    #[error("memory")]
    Memory,
    /// A write failed.
    #[error("output")]
    Output,
}

impl From<AllocError> for PrintFault {
    ghost from_gives = { λ _ fault. fault ≡ Memory };

    fn from(_: AllocError) -> PrintFault {
        PrintFault::Memory
    }
}

/// Makes the text of a trade; earlier bytes are cleared.
fn make_text(
    alloc: Global,
    venue: &Venue,
    form: Form,
    trade: &TradeFact,
    text: &mut Vec<u8>,
) -> Result<(), AllocError>
    ensures { (h : History) → IsHistory venue.now h → OnOk result (text.new.items ≡ trade_text form venue.now.market h trade.now) }
{
    match form {
        Form::Line => make_line(alloc, venue, trade, text),
        Form::Row => make_row(alloc, venue, trade, text),
    }
}

fn write_text<W: Write>(text: &[u8], writer: &mut W) -> Result<(), PrintFault>
    ensures written { OnOk result (Appends (W.contents writer.old) (W.contents writer.new) text.now) }
    ensures output { IfErr result (λ fault. fault ≡ Output) }
{
    match writer.write_all(text) {
        Ok(()) => Ok(()),
        Err(_) => Err(PrintFault::Output),
    }
}

/// Writes the text of one trade, which is made in `text`.
fn print_trade<W: Write>(
    alloc: Global,
    venue: &Venue,
    form: Form,
    trade: &TradeFact,
    text: &mut Vec<u8>,
    writer: &mut W,
) -> Result<(), PrintFault>
    ensures emitted { (h : History) → IsHistory venue.now h → OnOk result (Appends (W.contents writer.old) (W.contents writer.new) (trade_text form venue.now.market h trade.now)) }
    ensures unwritten { IfErr result (λ fault. fault ≡ Memory → Keeps (W.contents writer.old) (W.contents writer.new)) }
{
    make_text(alloc, venue, form, trade, text)?;
    write_text(text, writer)
}

/// Writes the texts of the day's trades, in order.
fn print_each<W: Write>(
    alloc: Global,
    venue: &Venue,
    form: Form,
    writer: &mut W,
) -> Result<(), PrintFault>
    ensures emitted { (h : History) → IsHistory venue.now h → OnOk result (Appends (W.contents writer.old) (W.contents writer.new) (flat_map (trade_text form venue.now.market h) (trade_facts h.facts))) }
    ensures begun { (h : History) → IsHistory venue.now h
        → IfErr result (λ fault. fault ≡ Memory → AppendsSome (W.contents writer.old) (W.contents writer.new) (trade_text form venue.now.market h) (trade_facts h.facts)) }
{
    let mut text = Vec::new(alloc);
    for trade in venue.trades() {
        print_trade(alloc, venue, form, trade, &mut text, writer)?;
    }
    Ok(())
}

/// Writes a line for each trade of the day, in order: `T1 book IRS5Y 60 @ 2.5 buyer ALPHA seller BETA`, and after a
/// room trade its recipients, first quote and shown orders: ` room R1 asked BETA,GAMMA,DELTA first Q1 shown O2x30`.
/// Without a trade nothing is written. Where an allocation fails, the lines of the first trades were written, each
/// whole.
pub fn print_trades<W: Write>(
    alloc: Global,
    venue: &Venue,
    writer: &mut W,
) -> Result<(), PrintFault>
    ensures emitted { (h : History) → IsHistory venue.now h → OnOk result (Appends (W.contents writer.old) (W.contents writer.new) (trade_lines venue.now.market h)) }
    ensures begun { (h : History) → IsHistory venue.now h → IfErr result (λ fault. fault ≡ Memory → BeginsLines (W.contents writer.old) (W.contents writer.new) venue.now.market h) }
{
    print_each(alloc, venue, Form::Line, writer)
}

/// Writes the names of the fields, `trade,kind,instrument,quantity,price,buyer,seller,room,asked,first,shown`, and then
/// a row for each trade of the day, in order: `T1,book,IRS5Y,60,2.5,ALPHA,BETA,,,,`. A room trade has its recipients,
/// first quote and shown orders in the last four fields: `R1,"BETA,GAMMA,DELTA",Q1,O2x30`. Each row ends in CR LF.
/// Where an allocation fails, nothing was written, or the names and the rows of the first trades, each whole.
pub fn print_table<W: Write>(alloc: Global, venue: &Venue, writer: &mut W) -> Result<(), PrintFault>
    ensures emitted { (h : History) → IsHistory venue.now h → OnOk result (Appends (W.contents writer.old) (W.contents writer.new) (trade_table venue.now.market h)) }
    ensures begun { (h : History) → IsHistory venue.now h → IfErr result (λ fault. fault ≡ Memory → BeginsTable (W.contents writer.old) (W.contents writer.new) venue.now.market h) }
{
    let names = names_text(alloc)?;
    write_text(&names, writer)?;
    print_each(alloc, venue, Form::Row, writer)
}
