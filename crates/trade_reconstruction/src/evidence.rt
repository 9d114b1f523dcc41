//! The evidence for a trade, written as lines.

ghost use Rattle.std.specs.Prelude.{◌≡◌, ◌++◌, ◌≤◌, true, All, length, IfErr, OnOk, IfOk, option_map};
ghost use Rattle.std.specs.Io.KnownBytes.{Appends, Keeps};
ghost use Rattle.instruments.specs.Listing.{delay_of, symbol_of};
ghost use Rattle.venue_rules.specs.Facts.{History, no_history};
ghost use Rattle.venue_core.specs.Plan.{most_items};
ghost use Rattle.venue_core.specs.Replay.{IsItem};
ghost use Rattle.venue_core.specs.VenueFacts.{IsHistory};
ghost use Rattle.trade_reconstruction.specs.Lines.{delay_line, delay_lines, evidence, last_lines, place_lines, trade_line, trade_row};
ghost use Rattle.trade_reconstruction.specs.NoteLines.{fate_lines};
ghost use Rattle.trade_reconstruction.specs.Emitted.{HasNoTrade, IsEvidence, EmitsTrade, UnlessWriting, evidence_by, numbered_in, trade_numbered};
ghost use Rattle.trade_reconstruction.specs.Notes.{are_aligned};
ghost use Rattle.trade_reconstruction.specs.declared.evidence.EvidenceFault.TheVariants.{Memory, NoTrade, Output};

use crate::book::append_book;
use crate::events::Events;
use crate::evidence_event::EvidenceEvent;
use crate::finding::{Query, row_of};
use crate::gathering::{Day, gather};
use crate::laws::{
    each_book_trade_has_its_orders, each_room_trade_has_its_request, each_trade_has_its_row,
};
use crate::noted::append_fates;
use crate::notes::{are_aligned, fates_for, narrowed, stood_for};
use crate::quote_note::QuoteFate;
use crate::room::append_room;
use crate::sent::{append_row, append_row_moment};
use instruments::Instruments;
use participants::Participants;
use std::alloc::{AllocError, Global};
use std::io::Write;
use thiserror::Error;
use trade_blotter::{append, append_deal, append_number};
use venue_core::{Venue, rows_emit_their_inputs};
use venue_rules::{TradeFact, TrailRow};

/// Why no evidence was written.
#[derive(Clone, Copy, Debug, PartialEq, Eq, Error)]
pub enum EvidenceFault {
    /// An allocation failed.
    #[error("memory")]
    Memory,
    /// A write failed.
    #[error("output")]
    Output,
    /// There is no trade with this number.
    #[error("no such trade")]
    NoTrade,
}

impl From<AllocError> for EvidenceFault {
    ghost from_gives = { λ _ fault. fault ≡ Memory };

    fn from(_: AllocError) -> EvidenceFault {
        EvidenceFault::Memory
    }
}

/// The row at which a trade was made.
fn trade_row(words: &Events, trade: &TradeFact) -> u64
    ensures { result ≡ trade_row words.now trade.now }
{
    match trade.room {
        None => row_of(words, &Query::Fill(trade.number)),
        Some(_) => row_of(words, &Query::Hit(trade.number)),
    }
}

/// Appends the line of the trade itself, with the moment at which it was made.
fn append_trade(
    alloc: Global,
    text: &mut Vec<u8>,
    participants: &Participants,
    instruments: &Instruments,
    rows: &[TrailRow],
    trade: &TradeFact,
    row: u64,
) -> Result<(), AllocError>
    ensures { OnOk result (text.new.items ≡ text.old.items ++ trade_line (record { participants = participants.now; instruments = instruments.now }) rows.now trade.now row) }
{
    append_number(text, b"trade T", trade.number)?;
    append(text, &[b" "])?;
    append_deal(alloc, text, participants, instruments, trade)?;
    append_row_moment(text, rows, row)?;
    append_row(text, row)
}

/// An instrument's symbol; empty where there is no such instrument, which no trade has.
fn symbol_at(instruments: &Instruments, place: u32) -> &[u8]
    ensures { result.now ≡ symbol_of instruments.now place }
{
    if (place as usize) < instruments.len() {
        instruments.get(place).symbol.as_slice()
    } else {
        b""
    }
}

/// An instrument's delay between linked orders, in milliseconds; 0 where there is no such instrument.
fn delay_at(instruments: &Instruments, place: u32) -> u64
    ensures { result ≡ delay_of instruments.now place }
{
    if (place as usize) < instruments.len() {
        instruments.delay(place)
    } else {
        0
    }
}

/// Appends the delay between linked orders of the trade's instrument.
fn append_delay(
    text: &mut Vec<u8>,
    instruments: &Instruments,
    trade: &TradeFact,
    row: u64,
) -> Result<(), AllocError>
    ensures { OnOk result (text.new.items ≡ text.old.items ++ delay_line instruments.now trade.now row) }
{
    let symbol = symbol_at(instruments, trade.instrument);
    let delay = delay_at(instruments, trade.instrument);
    append(text, &[b"delay between linked orders of ", symbol])?;
    append_number(text, b": ", delay)?;
    append(text, &[b" ms"])?;
    append_row(text, row)
}

/// Appends the delay, of a trade in the book.
fn append_delay_if(
    text: &mut Vec<u8>,
    instruments: &Instruments,
    trade: &TradeFact,
    row: u64,
) -> Result<(), AllocError>
    ensures { OnOk result (text.new.items ≡ text.old.items ++ delay_lines instruments.now trade.now row) }
{
    match trade.room {
        None => append_delay(text, instruments, trade, row),
        Some(_) => Ok(()),
    }
}

/// Appends the delay, of a trade in the book, and the line of the trade.
fn append_last(
    alloc: Global,
    text: &mut Vec<u8>,
    participants: &Participants,
    instruments: &Instruments,
    rows: &[TrailRow],
    trade: &TradeFact,
    row: u64,
) -> Result<(), AllocError>
    ensures { OnOk result (text.new.items ≡ text.old.items ++ last_lines (record { participants = participants.now; instruments = instruments.now }) rows.now trade.now row) }
{
    append_delay_if(text, instruments, trade, row)?;
    append_trade(alloc, text, participants, instruments, rows, trade, row)
}

/// Appends the lines about a trade's request or orders.
fn append_place(
    alloc: Global,
    text: &mut Vec<u8>,
    participants: &Participants,
    rows: &[TrailRow],
    words: &Events,
    stood: &[EvidenceEvent],
    trade: &TradeFact,
    row: u64,
) -> Result<(), AllocError>
    ensures { OnOk result (text.new.items ≡ text.old.items ++ place_lines rows.now participants.now words.now stood.now trade.now row) }
{
    match trade.room {
        None => append_book(
            alloc,
            text,
            participants,
            rows,
            words,
            stood,
            trade.number,
            row,
        ),
        Some(room) => append_room(alloc, text, participants, rows, words, room),
    }
}

/// The lines of the evidence for a trade.
#[tactic(auto, unfolding(crate::specs::Lines::evidence))]
fn evidence_of(
    alloc: Global,
    participants: &Participants,
    instruments: &Instruments,
    rows: &[TrailRow],
    words: &Events,
    stood: &[EvidenceEvent],
    fates: &[QuoteFate],
    trade: &TradeFact,
) -> Result<Vec<u8>, AllocError>
    ensures { IfOk result (λ text. text.items ≡ evidence (record { participants = participants.now; instruments = instruments.now }) rows.now words.now stood.now (fate_lines fates.now) trade.now) }
{
    let row = trade_row(words, trade);
    let mut text = Vec::new(alloc);
    append_place(
        alloc,
        &mut text,
        participants,
        rows,
        words,
        stood,
        trade,
        row,
    )?;
    append_fates(&mut text, fates)?;
    append_last(
        alloc,
        &mut text,
        participants,
        instruments,
        rows,
        trade,
        row,
    )?;
    Ok(text)
}

/// The evidence for a trade of a day, out of what is noted of trades.
pub(crate) fn evidence_for(
    alloc: Global,
    venue: &Venue,
    rows: &[TrailRow],
    day: &Day,
    is_aligned: bool,
    trade: &TradeFact,
) -> Result<Vec<u8>, AllocError>
    requires aligned { is_aligned ≡ true → are_aligned day.now.notes.items ≡ true }
    ensures { IfOk result (λ text. text.items ≡ evidence_by venue.now.market rows.now day.now.words day.now.notes.items trade.now) }
{
    let notes = narrowed(&day.notes, is_aligned, trade.number);
    let stood = stood_for(alloc, notes, trade.number)?;
    let fates = fates_for(alloc, notes, trade.number)?;
    evidence_of(
        alloc,
        venue.participants(),
        venue.instruments(),
        rows,
        &day.words,
        &stood,
        &fates,
        trade,
    )
}

/// The trade with this number, counted from 1.
fn numbered(trades: &[TradeFact], number: u64) -> Option<&TradeFact>
    ensures { option_map (λ t. t.now) result ≡ numbered_in trades.now number }
{
    if number == 0 {
        return None;
    }
    trades.get((number - 1) as usize)
}

/// The trade of the day with this number.
fn trade_numbered(venue: &Venue, number: u64) -> Option<&TradeFact>
    ensures { (h : History) → IsHistory venue.now h → option_map (λ t. t.now) result ≡ trade_numbered h number }
{
    numbered(venue.trades(), number)
}

/// The evidence for the trade with this number, from an empty venue that processes the inputs of a trail's rows.
fn evidence_in(
    alloc: Global,
    venue: &mut Venue,
    rows: &[TrailRow],
    number: u64,
) -> Result<Vec<u8>, EvidenceFault>
    requires kept { All IsItem rows.now }
    requires few { length rows.now ≤ most_items }
    requires fresh { IsHistory venue.old no_history }
    requires first { venue.old.items ≡ 0 }
    ensures emitted { IfOk result (λ text. IsEvidence venue.old.market rows.now number text.items) }
    ensures refused { IfErr result (λ fault. fault ≡ NoTrade → HasNoTrade venue.old.market rows.now number) }
{
    rows_emit_their_inputs();
    each_room_trade_has_its_request();
    each_book_trade_has_its_orders();
    each_trade_has_its_row();
    let day = gather(alloc, venue, rows, Some(number))?;
    let Some(trade) = trade_numbered(venue, number) else {
        return Err(EvidenceFault::NoTrade);
    };
    let is_aligned = are_aligned(&day.notes);
    Ok(evidence_for(alloc, venue, rows, &day, is_aligned, trade)?)
}

fn write_text<W: Write>(text: &[u8], writer: &mut W) -> Result<(), EvidenceFault>
    ensures written { OnOk result (Appends (W.contents writer.old) (W.contents writer.new) text.now) }
    ensures output { IfErr result (λ fault. fault ≡ Output) }
{
    match writer.write_all(text) {
        Ok(()) => Ok(()),
        Err(_) => Err(EvidenceFault::Output),
    }
}

/// Writes the evidence for the trade with this number of the day in a trail's rows, on a venue of these participants
/// and instruments: one line for each fact that the venue reported, with its row at the end. `NoTrade` where the day
/// had fewer trades.
pub fn print_evidence<W: Write>(
    alloc: Global,
    participants: Participants,
    instruments: Instruments,
    rows: &[TrailRow],
    number: u64,
    writer: &mut W,
) -> Result<(), EvidenceFault>
    requires kept { All IsItem rows.now }
    requires few { length rows.now ≤ most_items }
    ensures emitted { OnOk result (EmitsTrade (record { participants = participants; instruments = instruments }) rows.now number (W.contents writer.old) (W.contents writer.new)) }
    ensures refused { IfErr result (λ fault. fault ≡ NoTrade → HasNoTrade (record { participants = participants; instruments = instruments }) rows.now number) }
    ensures unwritten { IfErr result (λ fault. UnlessWriting fault (Keeps (W.contents writer.old) (W.contents writer.new))) }
{
    let mut venue = Venue::open(alloc, participants, instruments)?;
    let emitted = evidence_in(alloc, &mut venue, rows, number);
    drop(venue);
    match emitted {
        Ok(text) => write_text(&text, writer),
        Err(fault) => Err(fault),
    }
}
