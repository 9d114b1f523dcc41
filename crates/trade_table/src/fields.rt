//! The row of one trade, and the names of its fields.

ghost use Rattle.std.specs.Prelude.{◌≡◌, ◌∷◌, [], ◌++◌, IfOk, OnOk, option_copied};
ghost use Rattle.csv.specs.Records.{fields_of, partial_of};
ghost use Rattle.csv.specs.Writing.{row_text};
ghost use Rattle.sef_moment.specs.Utc.{utc_text};
ghost use Rattle.trade_blotter.specs.Table.{setup};
ghost use Rattle.venue_core.specs.VenueFacts.{IsHistory};
ghost use Rattle.venue_rules.specs.Facts.{History};
ghost use Rattle.trade_table.specs.Executions.{execution_of, of_trade};
ghost use Rattle.trade_table.specs.Table.{aggressor, book_fields, buying, execution_fields, field_names, or_empty, party, quote_fields, selling, source_fields, table_row};

use crate::execution::{Execution, Matched, QuoteHit, SideFilled, Source};
use csv::ByteRecord;
use fix_dictionary::{Identifier, Side};
use sef_moment::{Moment, print_utc};
use std::alloc::{AllocError, Global};
use trade_blotter::{push_number, room_of, row_bytes, trade_fields};
use venue_core::Venue;
use venue_rules::TradeFact;

/// The order that bought.
fn buying(matched: &Matched) -> SideFilled
    ensures { result ≡ buying matched.now }
{
    match matched.entering.side {
        Side::Buy => matched.entering,
        Side::Sell => matched.resting,
    }
}

/// The order that sold.
fn selling(matched: &Matched) -> SideFilled
    ensures { result ≡ selling matched.now }
{
    match matched.entering.side {
        Side::Buy => matched.resting,
        Side::Sell => matched.entering,
    }
}

fn party(side: Side) -> &'static [u8]
    ensures { result.now ≡ party side }
{
    match side {
        Side::Buy => b"buyer",
        Side::Sell => b"seller",
    }
}

/// The side whose message made the trade, or which entered at a tick.
fn aggressor(at_tick: bool, side: Side) -> &'static [u8]
    ensures { result.now ≡ aggressor at_tick side }
{
    if !at_tick {
        return party(side);
    }
    match side {
        Side::Buy => b"held buyer",
        Side::Sell => b"held seller",
    }
}

fn push_id(row: &mut ByteRecord, id: &Option<Identifier>) -> Result<(), AllocError>
    requires { partial_of row.old ≡ [] }
    ensures partial { OnOk result (partial_of row.new ≡ []) }
    ensures fields { OnOk result (fields_of row.new ≡ fields_of row.old ++ or_empty id.now ∷ []) }
{
    match id {
        Some(id) => row.push_field(id.as_slice()),
        None => row.push_field(b""),
    }
}

/// Adds the fields of a trade in the book.
fn push_matched(alloc: Global, row: &mut ByteRecord, matched: &Matched) -> Result<(), AllocError>
    requires { partial_of row.old ≡ [] }
    ensures partial { OnOk result (partial_of row.new ≡ []) }
    ensures fields { OnOk result (fields_of row.new ≡ fields_of row.old ++ book_fields matched.now) }
{
    let buying = buying(matched);
    let selling = selling(matched);
    push_number(alloc, row, b"O", buying.order)?;
    push_number(alloc, row, b"O", selling.order)?;
    row.push_field(buying.id.as_slice())?;
    row.push_field(selling.id.as_slice())?;
    row.push_field(b"")?;
    row.push_field(b"")?;
    row.push_field(aggressor(matched.at_tick, matched.entering.side))?;
    push_id(row, &matched.cross)
}

/// Adds the fields of a trade in a room.
fn push_hit(row: &mut ByteRecord, hit: &QuoteHit) -> Result<(), AllocError>
    requires { partial_of row.old ≡ [] }
    ensures partial { OnOk result (partial_of row.new ≡ []) }
    ensures fields { OnOk result (fields_of row.new ≡ fields_of row.old ++ quote_fields hit.now) }
{
    row.push_field(b"")?;
    row.push_field(b"")?;
    row.push_field(b"")?;
    row.push_field(b"")?;
    row.push_field(hit.quote.as_slice())?;
    push_id(row, &hit.id)?;
    row.push_field(party(hit.side))?;
    row.push_field(b"")
}

fn push_source(alloc: Global, row: &mut ByteRecord, source: &Source) -> Result<(), AllocError>
    requires { partial_of row.old ≡ [] }
    ensures partial { OnOk result (partial_of row.new ≡ []) }
    ensures fields { OnOk result (fields_of row.new ≡ fields_of row.old ++ source_fields source.now) }
{
    match source {
        Source::Book(matched) => push_matched(alloc, row, matched),
        Source::Room(hit) => push_hit(row, hit),
    }
}

fn push_moment(row: &mut ByteRecord, moment: Moment) -> Result<(), AllocError>
    requires { partial_of row.old ≡ [] }
    ensures partial { OnOk result (partial_of row.new ≡ []) }
    ensures fields { OnOk result (fields_of row.new ≡ fields_of row.old ++ utc_text moment ∷ []) }
{
    let printed = print_utc(moment);
    row.push_field(&printed)
}

/// Adds ten empty fields.
fn push_nothing(row: &mut ByteRecord) -> Result<(), AllocError>
    requires { partial_of row.old ≡ [] }
    ensures partial { OnOk result (partial_of row.new ≡ []) }
    ensures fields { OnOk result (fields_of row.new ≡ fields_of row.old ++ ([] ∷ [] ∷ [] ∷ [] ∷ [] ∷ [] ∷ [] ∷ [] ∷ [] ∷ [] ∷ [])) }
{
    row.push_field(b"")?;
    row.push_field(b"")?;
    row.push_field(b"")?;
    row.push_field(b"")?;
    row.push_field(b"")?;
    row.push_field(b"")?;
    row.push_field(b"")?;
    row.push_field(b"")?;
    row.push_field(b"")?;
    row.push_field(b"")
}

/// Adds how a trade was made.
fn push_execution(
    alloc: Global,
    row: &mut ByteRecord,
    execution: Option<&Execution>,
) -> Result<(), AllocError>
    requires { partial_of row.old ≡ [] }
    ensures partial { OnOk result (partial_of row.new ≡ []) }
    ensures fields { OnOk result (fields_of row.new ≡ fields_of row.old ++ execution_fields (option_copied execution.entry)) }
{
    match execution {
        Some(execution) => {
            push_moment(row, execution.moment)?;
            push_number(alloc, row, b"", execution.row)?;
            push_source(alloc, row, &execution.source)
        }
        None => push_nothing(row),
    }
}

fn of_trade(number: u64, execution: &Execution) -> Option<&Execution>
    ensures { option_copied result ≡ of_trade number (Some execution.now) }
{
    if execution.trade == number {
        Some(execution)
    } else {
        None
    }
}

/// How the trade with this number was made.
fn execution_of(executions: &[Execution], number: u64) -> Option<&Execution>
    ensures { option_copied result ≡ execution_of executions.now number }
{
    if number == 0 {
        return None;
    }
    match executions.get((number - 1) as usize) {
        Some(execution) => of_trade(number, execution),
        None => None,
    }
}

/// The names of the fields.
fn field_names(alloc: Global) -> Result<ByteRecord, AllocError>
    ensures { IfOk result (λ row. fields_of row ≡ field_names) }
{
    ByteRecord::from_fields(
        alloc,
        &[
            b"trade",
            b"kind",
            b"instrument",
            b"quantity",
            b"price",
            b"buyer",
            b"seller",
            b"room",
            b"asked",
            b"first",
            b"shown",
            b"moment_utc",
            b"row",
            b"buy_order",
            b"sell_order",
            b"buy_id",
            b"sell_id",
            b"quote",
            b"quote_id",
            b"aggressor",
            b"cross",
        ],
    )
}

/// The text of the names.
pub(crate) fn names_text(alloc: Global) -> Result<Vec<u8>, AllocError>
    ensures { IfOk result (λ text. text.items ≡ row_text setup field_names) }
{
    let names = field_names(alloc)?;
    row_bytes(alloc, &names)
}

/// The text of a trade's row.
#[tactic(auto, unfolding(crate::specs::Table::table_row))]
pub(crate) fn row_of(
    alloc: Global,
    venue: &Venue,
    executions: &[Execution],
    trade: &TradeFact,
) -> Result<Vec<u8>, AllocError>
    ensures { (h : History) → IsHistory venue.now h → IfOk result (λ text. text.items ≡ table_row venue.now.market h executions.now trade.now) }
{
    let room = room_of(venue, trade.room);
    let mut row = trade_fields(
        alloc,
        venue.participants(),
        venue.instruments(),
        trade,
        room,
    )?;
    push_execution(alloc, &mut row, execution_of(executions, trade.number))?;
    row_bytes(alloc, &row)
}
