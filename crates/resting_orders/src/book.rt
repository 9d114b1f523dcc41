//! The book of an instrument after the rows of a day.

ghost use Rattle.std.specs.Prelude.{◌≡◌, ◌++◌, ◌∷◌, ◌≤◌, [], true, false, All, MatchOption, length, codes, decimal, IfErr, IfOk, OnOk};
ghost use Rattle.std.specs.List.{flat_map};
ghost use Rattle.std.specs.Io.KnownBytes.{Appends, Keeps};
ghost use Rattle.csv.specs.Records.{fields_of, partial_of};
ghost use Rattle.csv.specs.Writing.{row_text};
ghost use Rattle.fix_fields.specs.Forms.{price_text};
ghost use Rattle.instruments.specs.Listing.{is_unknown_instrument};
ghost use Rattle.venue_core.specs.Plan.{most_items};
ghost use Rattle.venue_core.specs.Replay.{IsItem};
ghost use Rattle.message_words.specs.Cells.{setup};
ghost use Rattle.message_words.specs.Parts.{parts_text};
ghost use Rattle.resting_orders.specs.Book.{EmitsBook, IsBook, book_names, book_parts, book_text, heading, last_moment, quoted_side, rested_fields, rested_parts, rested_text, shown_moment};
ghost use Rattle.resting_orders.specs.declared.fault.BookFault.TheVariants.{Memory, NoInstrument, Output};

use crate::fault::BookFault;
use crate::form::Form;
use crate::replaying::replay_rows;
use crate::rested::{RestedOrder, push_book};
use csv::ByteRecord;
use fix_dictionary::{Identifier, Price, Side};
use instruments::Instruments;
use message_words::{
    Part, Value, append_parts, bytes, moment_value, number, push_moment, push_number, row_bytes,
};
use participants::Participants;
use row_replay::rows_have_their_inputs;
use sef_moment::Moment;
use std::alloc::{AllocError, Global};
use std::io::Write;
use trade_blotter::{append_number, append_price, name_at};
use venue_rules::{TrailRow, every_report_is_numbered};

macro_rules! part {
    ($before:expr, $value:expr) => {
        Part {
            before: $before,
            value: $value,
        }
    };
}

/// The book of an instrument after a row, and the moment that is printed with it.
#[derive(Clone, Copy)]
pub struct Sheet {
    pub symbol: Identifier,
    pub row: u64,
    pub moment: Option<Moment>,
}

pub(crate) fn quoted_side(side: Side) -> &'static [u8]
    ensures { result.now ≡ quoted_side side }
{
    match side {
        Side::Buy => b"bid",
        Side::Sell => b"offer",
    }
}

fn append_book_line(
    alloc: Global,
    text: &mut Vec<u8>,
    sheet: &Sheet,
    count: u64,
) -> Result<(), AllocError>
    ensures { OnOk result (text.new.items ≡ text.old.items ++ parts_text (book_parts sheet.now count)) }
{
    append_parts(
        alloc,
        text,
        &[
            part!(b"book of ", bytes(sheet.symbol.as_slice())),
            part!(b" after row ", number(sheet.row)),
            part!(b" at ", moment_value(sheet.moment)),
            part!(b", resting orders: ", number(count)),
            part!(b"\n", bytes(b"")),
        ],
    )
}

fn append_rested_line<'a>(
    alloc: Global,
    text: &mut Vec<u8>,
    participants: &'a Participants,
    order: &'a RestedOrder,
) -> Result<(), AllocError>
    ensures { OnOk result (text.new.items ≡ text.old.items ++ parts_text (rested_parts participants.now order.now)) }
{
    append_parts(
        alloc,
        text,
        &[
            part!(quoted_side(order.side), bytes(b"")),
            part!(b" O", number(order.number)),
            part!(b" of ", bytes(name_at(participants, order.owner))),
            part!(b" as ", bytes(order.id.as_slice())),
            part!(b" @ ", Some(Value::Price(order.price))),
            part!(b": ", number(order.left.get())),
            part!(b" left of ", number(order.quantity)),
            part!(b", ", number(order.filled)),
            part!(b" filled, entered ", Some(Value::Moment(order.at.moment))),
            part!(b" (row ", number(order.at.row)),
            part!(b")\n", bytes(b"")),
        ],
    )
}

/// Appends a row of a table.
pub(crate) fn append_row(
    alloc: Global,
    text: &mut Vec<u8>,
    row: &ByteRecord,
) -> Result<(), AllocError>
    ensures { OnOk result (text.new.items ≡ text.old.items ++ row_text setup (fields_of row.now)) }
{
    let made = row_bytes(alloc, row)?;
    text.extend_from_slice(&made)
}

fn append_names(alloc: Global, text: &mut Vec<u8>) -> Result<(), AllocError>
    ensures { OnOk result (text.new.items ≡ text.old.items ++ row_text setup book_names) }
{
    let names = ByteRecord::from_fields(
        alloc,
        &[
            b"instrument",
            b"row",
            b"moment_utc",
            b"side",
            b"order",
            b"left",
            b"price",
            b"owner",
            b"identifier",
            b"quantity",
            b"filled",
            b"entered_utc",
            b"entered_row",
        ],
    )?;
    append_row(alloc, text, &names)
}

/// Adds the number of an order, as the venue prints it.
pub(crate) fn push_order(alloc: Global, made: &mut ByteRecord, order: u64) -> Result<(), AllocError>
    requires { partial_of made.old ≡ [] }
    ensures partial { OnOk result (partial_of made.new ≡ []) }
    ensures fields { OnOk result (fields_of made.new ≡ fields_of made.old ++ (codes "O" ++ decimal order) ∷ []) }
{
    let mut text = Vec::new(alloc);
    append_number(&mut text, b"O", order)?;
    made.push_field(&text)
}

/// Adds the moment of a row; none before the first.
pub(crate) fn push_shown_moment(
    made: &mut ByteRecord,
    moment: Option<Moment>,
) -> Result<(), AllocError>
    requires { partial_of made.old ≡ [] }
    ensures partial { OnOk result (partial_of made.new ≡ []) }
    ensures fields { OnOk result (fields_of made.new ≡ fields_of made.old ++ shown_moment moment ∷ []) }
{
    match moment {
        Some(moment) => push_moment(made, moment),
        None => made.push_field(b""),
    }
}

/// Adds a price.
pub(crate) fn push_price(
    alloc: Global,
    made: &mut ByteRecord,
    price: Price,
) -> Result<(), AllocError>
    requires { partial_of made.old ≡ [] }
    ensures partial { OnOk result (partial_of made.new ≡ []) }
    ensures fields { OnOk result (fields_of made.new ≡ fields_of made.old ++ price_text price ∷ []) }
{
    let mut text = Vec::new(alloc);
    append_price(alloc, &mut text, price)?;
    made.push_field(&text)
}

fn rested_fields(
    alloc: Global,
    participants: &Participants,
    sheet: &Sheet,
    order: &RestedOrder,
) -> Result<ByteRecord, AllocError>
    ensures { IfOk result (λ made. fields_of made ≡ rested_fields participants.now sheet.now order.now) }
{
    let mut made = ByteRecord::new(alloc);
    made.push_field(sheet.symbol.as_slice())?;
    push_number(&mut made, sheet.row)?;
    push_shown_moment(&mut made, sheet.moment)?;
    made.push_field(quoted_side(order.side))?;
    push_order(alloc, &mut made, order.number)?;
    push_number(&mut made, order.left.get())?;
    push_price(alloc, &mut made, order.price)?;
    made.push_field(name_at(participants, order.owner))?;
    made.push_field(order.id.as_slice())?;
    push_number(&mut made, order.quantity)?;
    push_number(&mut made, order.filled)?;
    push_moment(&mut made, order.at.moment)?;
    push_number(&mut made, order.at.row)?;
    Ok(made)
}

fn append_rested_row(
    alloc: Global,
    text: &mut Vec<u8>,
    participants: &Participants,
    sheet: &Sheet,
    order: &RestedOrder,
) -> Result<(), AllocError>
    ensures { OnOk result (text.new.items ≡ text.old.items ++ row_text setup (rested_fields participants.now sheet.now order.now)) }
{
    let fields = rested_fields(alloc, participants, sheet, order)?;
    append_row(alloc, text, &fields)
}

fn append_book_heading(
    alloc: Global,
    text: &mut Vec<u8>,
    form: Form,
    sheet: &Sheet,
    count: u64,
) -> Result<(), AllocError>
    ensures { OnOk result (text.new.items ≡ text.old.items ++ heading form sheet.now count) }
{
    match form {
        Form::Lines => append_book_line(alloc, text, sheet, count),
        Form::Table => append_names(alloc, text),
    }
}

fn append_rested(
    alloc: Global,
    text: &mut Vec<u8>,
    form: Form,
    participants: &Participants,
    sheet: &Sheet,
    order: &RestedOrder,
) -> Result<(), AllocError>
    ensures { OnOk result (text.new.items ≡ text.old.items ++ rested_text form participants.now sheet.now order.now) }
{
    match form {
        Form::Lines => append_rested_line(alloc, text, participants, order),
        Form::Table => append_rested_row(alloc, text, participants, sheet, order),
    }
}

fn append_all_rested(
    alloc: Global,
    text: &mut Vec<u8>,
    form: Form,
    participants: &Participants,
    sheet: &Sheet,
    orders: &[RestedOrder],
) -> Result<(), AllocError>
    ensures { OnOk result (text.new.items ≡ text.old.items ++ flat_map (rested_text form participants.now sheet.now) orders.now) }
{
    for order in orders {
        append_rested(alloc, text, form, participants, sheet, order)?;
    }
    Ok(())
}

fn append_book(
    alloc: Global,
    text: &mut Vec<u8>,
    form: Form,
    participants: &Participants,
    sheet: &Sheet,
    orders: &[RestedOrder],
) -> Result<(), AllocError>
    ensures { OnOk result (text.new.items ≡ text.old.items ++ book_text form participants.now sheet.now orders.now) }
{
    append_book_heading(alloc, text, form, sheet, orders.len() as u64)?;
    append_all_rested(alloc, text, form, participants, sheet, orders)
}

/// The moment of the last row, if there is one.
pub(crate) fn last_moment(rows: &[TrailRow]) -> Option<Moment>
    ensures { result ≡ last_moment rows.now }
{
    match rows.last() {
        Some(row) => Some(row.moment),
        None => None,
    }
}

pub(crate) fn write_text<W: Write>(text: &[u8], writer: &mut W) -> Result<(), BookFault>
    ensures written { OnOk result (Appends (W.contents writer.old) (W.contents writer.new) text.now) }
    ensures output { IfErr result (λ fault. fault ≡ Output) }
{
    match writer.write_all(text) {
        Ok(()) => Ok(()),
        Err(_) => Err(BookFault::Output),
    }
}

/// The place of the instrument with a symbol.
fn place_of(instruments: &Instruments, symbol: &Identifier) -> Option<u32>
    ensures { MatchOption result (is_unknown_instrument instruments.now symbol.now ≡ true) (λ x. is_unknown_instrument instruments.now symbol.now ≡ false) }
{
    instruments.find(symbol.as_slice())
}

/// The text of the book of an instrument after the rows of a trail.
fn book_after(
    alloc: Global,
    participants: Participants,
    instruments: Instruments,
    rows: &[TrailRow],
    form: Form,
    sheet: &Sheet,
) -> Result<Vec<u8>, AllocError>
    requires kept { All IsItem rows.now }
    requires few { length rows.now ≤ most_items }
    requires known { is_unknown_instrument instruments sheet.now.symbol ≡ false }
    ensures { IfOk result (λ text. IsBook form (record { participants = participants; instruments = instruments }) rows.now sheet.now text.items) }
{
    every_report_is_numbered();
    rows_have_their_inputs();
    let mut day = replay_rows(alloc, participants, instruments, rows)?;
    let mut orders = Vec::new(alloc);
    push_book(
        alloc,
        &mut day.venue,
        &day.kept.orders,
        sheet.symbol,
        Moment::EPOCH,
        &mut orders,
    )?;
    let mut text = Vec::new(alloc);
    append_book(
        alloc,
        &mut text,
        form,
        day.venue.participants(),
        sheet,
        &orders,
    )?;
    Ok(text)
}

/// Prints the book of an instrument after the rows of a trail, with these participants and instruments: every resting
/// order, bids and then offers, each in price-time priority, with what is left of its quantity, its owner, the
/// owner's identifier (11), and where it entered. Above it as lines: the number and the moment of the last row.
/// `NoInstrument` where no instrument has the symbol. Nothing is written then, nor where an allocation fails.
pub fn print_book<W: Write>(
    alloc: Global,
    participants: Participants,
    instruments: Instruments,
    rows: &[TrailRow],
    form: Form,
    symbol: Identifier,
    writer: &mut W,
) -> Result<(), BookFault>
    requires kept { All IsItem rows.now }
    requires few { length rows.now ≤ most_items }
    ensures emitted { OnOk result (EmitsBook form (record { participants = participants; instruments = instruments }) rows.now symbol (W.contents writer.old) (W.contents writer.new)) }
    ensures refused { IfErr result (λ fault. fault ≡ NoInstrument → is_unknown_instrument instruments symbol ≡ true) }
    ensures unwritten { IfErr result (λ fault. fault ≡ NoInstrument → Keeps (W.contents writer.old) (W.contents writer.new)) }
    ensures begun { IfErr result (λ fault. fault ≡ Memory → Keeps (W.contents writer.old) (W.contents writer.new)) }
{
    match place_of(&instruments, &symbol) {
        Some(_place) => {
            let sheet = Sheet {
                symbol,
                row: rows.len() as u64,
                moment: last_moment(rows),
            };
            let text = book_after(alloc, participants, instruments, rows, form, &sheet)?;
            write_text(&text, writer)
        }
        None => Err(BookFault::NoInstrument),
    }
}
