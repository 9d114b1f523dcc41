//! The row of one trade, and the names of its fields, in a table for a spreadsheet: comma-separated values (RFC 4180).
ghost use Rattle.std.specs.Prelude.{◌≡◌, ◌∷◌, [], ◌++◌, IfOk, OnOk, decimal, option_copied};
ghost use Rattle.csv.specs.Records.{fields_of, partial_of};
ghost use Rattle.csv.specs.Writing.{row_text};
ghost use Rattle.fix_fields.specs.Forms.{price_text};
ghost use Rattle.venue_rules.specs.Facts.{History};
ghost use Rattle.venue_core.specs.VenueFacts.{IsHistory};
ghost use Rattle.trade_blotter.specs.Table.{deal_fields, field_names, kind, place_fields, room_fields, setup, trade_fields, trade_row};
ghost use Rattle.trade_blotter.specs.Line.{listed, shown_text};
ghost use Rattle.participants.specs.Relations.{name_of};

use crate::line::{
    append_asked, append_number, append_price, append_shown, name_at, room_of, symbol_at,
};
use csv::{ByteRecord, Terminator, WriterBuilder};
use fix_dictionary::Price;
use instruments::Instruments;
use participants::{Participants, Who};
use std::alloc::{AllocError, Global};
use venue_core::Venue;
use venue_rules::{RoomFact, ShownOrder, TradeFact};

/// Adds a field: one character and a number.
pub fn push_number(
    alloc: Global,
    row: &mut ByteRecord,
    prefix: &[u8],
    number: u64,
) -> Result<(), AllocError>
    requires { partial_of row.old ≡ [] }
    ensures partial { OnOk result (partial_of row.new ≡ []) }
    ensures fields { OnOk result (fields_of row.new ≡ fields_of row.old ++ (prefix.now ++ decimal number) ∷ []) }
{
    let mut text = Vec::new(alloc);
    append_number(&mut text, prefix, number)?;
    row.push_field(&text)
}

/// Adds a price.
fn push_price(alloc: Global, row: &mut ByteRecord, price: Price) -> Result<(), AllocError>
    requires { partial_of row.old ≡ [] }
    ensures partial { OnOk result (partial_of row.new ≡ []) }
    ensures fields { OnOk result (fields_of row.new ≡ fields_of row.old ++ price_text price ∷ []) }
{
    let mut text = Vec::new(alloc);
    append_price(alloc, &mut text, price)?;
    row.push_field(&text)
}

/// The word for a trade in the book or in a room.
fn kind_of(room: Option<u64>) -> &'static [u8]
    ensures { result.now ≡ kind room }
{
    match room {
        None => b"book",
        Some(_) => b"rfq",
    }
}

/// Adds the trade's number, its kind, what was traded, and both parties.
fn push_deal(
    alloc: Global,
    row: &mut ByteRecord,
    participants: &Participants,
    instruments: &Instruments,
    trade: &TradeFact,
) -> Result<(), AllocError>
    requires { partial_of row.old ≡ [] }
    ensures partial { OnOk result (partial_of row.new ≡ []) }
    ensures fields { OnOk result (fields_of row.new ≡ fields_of row.old ++ deal_fields (record { participants = participants.now; instruments = instruments.now }) trade.now) }
{
    push_number(alloc, row, b"T", trade.number)?;
    row.push_field(kind_of(trade.room))?;
    row.push_field(symbol_at(instruments, trade.instrument))?;
    push_number(alloc, row, b"", trade.quantity.get())?;
    push_price(alloc, row, trade.price)?;
    row.push_field(name_at(participants, trade.buyer))?;
    row.push_field(name_at(participants, trade.seller))
}

/// Adds the recipients' names, with commas between them.
fn push_asked(
    alloc: Global,
    row: &mut ByteRecord,
    participants: &Participants,
    asked: &[Who],
) -> Result<(), AllocError>
    requires { partial_of row.old ≡ [] }
    ensures partial { OnOk result (partial_of row.new ≡ []) }
    ensures fields { OnOk result (fields_of row.new ≡ fields_of row.old ++ listed (name_of participants.now) asked.now ∷ []) }
{
    let mut text = Vec::new(alloc);
    append_asked(&mut text, participants, asked)?;
    row.push_field(&text)
}

/// Adds the orders that were shown, with commas between them.
fn push_shown(alloc: Global, row: &mut ByteRecord, shown: &[ShownOrder]) -> Result<(), AllocError>
    requires { partial_of row.old ≡ [] }
    ensures partial { OnOk result (partial_of row.new ≡ []) }
    ensures fields { OnOk result (fields_of row.new ≡ fields_of row.old ++ listed shown_text shown.now ∷ []) }
{
    let mut text = Vec::new(alloc);
    append_shown(&mut text, shown)?;
    row.push_field(&text)
}

/// Adds a room's recipients, its first quote, and the orders shown with it.
fn push_room(
    alloc: Global,
    row: &mut ByteRecord,
    participants: &Participants,
    room: Option<&RoomFact>,
) -> Result<(), AllocError>
    requires { partial_of row.old ≡ [] }
    ensures partial { OnOk result (partial_of row.new ≡ []) }
    ensures fields { OnOk result (fields_of row.new ≡ fields_of row.old ++ room_fields participants.now (option_copied room.entry)) }
{
    match room {
        Some(room) => {
            push_asked(alloc, row, participants, room.asked.as_slice())?;
            push_number(alloc, row, b"Q", room.first)?;
            push_shown(alloc, row, room.shown.as_slice())
        }
        None => {
            row.push_field(b"")?;
            row.push_field(b"")?;
            row.push_field(b"")
        }
    }
}

/// Adds a room's number, and what is read back of it.
fn push_place(
    alloc: Global,
    row: &mut ByteRecord,
    participants: &Participants,
    number: Option<u64>,
    room: Option<&RoomFact>,
) -> Result<(), AllocError>
    requires { partial_of row.old ≡ [] }
    ensures partial { OnOk result (partial_of row.new ≡ []) }
    ensures fields { OnOk result (fields_of row.new ≡ fields_of row.old ++ place_fields participants.now number (option_copied room.entry)) }
{
    match number {
        Some(number) => {
            push_number(alloc, row, b"R", number)?;
            push_room(alloc, row, participants, room)
        }
        None => {
            row.push_field(b"")?;
            push_room(alloc, row, participants, None)
        }
    }
}

/// The fields of a trade; `room` is what is read back of its room.
pub fn trade_fields(
    alloc: Global,
    participants: &Participants,
    instruments: &Instruments,
    trade: &TradeFact,
    room: Option<&RoomFact>,
) -> Result<ByteRecord, AllocError>
    ensures partial { IfOk result (λ row. partial_of row ≡ []) }
    ensures fields { IfOk result (λ row. fields_of row ≡ trade_fields (record { participants = participants.now; instruments = instruments.now }) trade.now (option_copied room.entry)) }
{
    let mut row = ByteRecord::new(alloc);
    push_deal(alloc, &mut row, participants, instruments, trade)?;
    push_place(alloc, &mut row, participants, trade.room, room)?;
    Ok(row)
}

/// The names of the fields.
fn field_names(alloc: Global) -> Result<ByteRecord, AllocError>
    ensures { IfOk result (λ row. fields_of row ≡ field_names) }
{
    ByteRecord::from_fields(
        alloc,
        &[
            b"trade",
            b"kind",
            b"instrument",
            b"quantity",
            b"price",
            b"buyer",
            b"seller",
            b"room",
            b"asked",
            b"first",
            b"shown",
        ],
    )
}

/// The bytes of a row.
pub fn row_bytes(alloc: Global, row: &ByteRecord) -> Result<Vec<u8>, AllocError>
    ensures { IfOk result (λ bytes. bytes.items ≡ row_text setup (fields_of row.now)) }
{
    let mut writer = WriterBuilder::new()
        .terminator(Terminator::CRLF)
        .from_writer(Vec::new(alloc));
    // A write into memory fails for lack of memory alone.
    if writer.write_byte_record(row).is_err() {
        return Err(AllocError);
    }
    match writer.into_inner() {
        Ok(bytes) => Ok(bytes),
        Err(_) => Err(AllocError),
    }
}

/// The text of the names.
pub(crate) fn names_text(alloc: Global) -> Result<Vec<u8>, AllocError>
    ensures { IfOk result (λ text. text.items ≡ row_text setup field_names) }
{
    let names = field_names(alloc)?;
    row_bytes(alloc, &names)
}

/// Makes the row of a trade; earlier bytes are cleared.
#[tactic(auto, unfolding(crate::specs::Table::trade_row))]
pub(crate) fn make_row(
    alloc: Global,
    venue: &Venue,
    trade: &TradeFact,
    text: &mut Vec<u8>,
) -> Result<(), AllocError>
    ensures { (h : History) → IsHistory venue.now h → OnOk result (text.new.items ≡ trade_row venue.now.market h trade.now) }
{
    let room = room_of(venue, trade.room);
    let row = trade_fields(
        alloc,
        venue.participants(),
        venue.instruments(),
        trade,
        room,
    )?;
    *text = row_bytes(alloc, &row)?;
    Ok(())
}
