//! What rests, is held, is open or is live, as it is printed of one participant.

ghost use Rattle.std.specs.Prelude.{◌≡◌, ◌++◌, ◌∷◌, ◌==◌, [], Some, codes, decimal, length, IfOk, OnOk};
ghost use Rattle.std.specs.List.{flat_map};
ghost use Rattle.csv.specs.Records.{fields_of, partial_of};
ghost use Rattle.csv.specs.Writing.{row_text};
ghost use Rattle.instruments.specs.Listing.{symbol_of};
ghost use Rattle.message_words.specs.Cells.{setup};
ghost use Rattle.message_words.specs.Parts.{parts_text, shown_option};
ghost use Rattle.resting_orders.specs.Book.{shown_moment};
ghost use Rattle.resting_orders.specs.Rests.{asked_words, counted_parts, due_moment, due_parts, due_words, end_parts, first_fields, heading_parts, nothing_parts, order_fields, order_parts, order_text, orders_words, owner_heading, quote_fields, quote_parts, quote_text, quotes_words, request_fields, request_parts, request_text, request_words, requests_words, rests_head, rests_names, side_fields, side_parts, side_text, shown_price, sides_words};

use crate::asking::Request;
use crate::book::{append_row, push_order, push_price, push_shown_moment, quoted_side};
use crate::form::Form;
use crate::quoting::OwnQuote;
use crate::rested::RestedOrder;
use csv::ByteRecord;
use fix_dictionary::{Price, Side};
use instruments::Instruments;
use message_words::{
    Part, Value, append_parts, bytes, moment_value, number, price_value, push_moment, push_number,
};
use participants::{Participants, Who};
use sef_moment::Moment;
use std::alloc::{AllocError, Global};
use trade_blotter::{append_number, name_at};
use venue_rules::HeldSide;

macro_rules! part {
    ($before:expr, $value:expr) => {
        Part {
            before: $before,
            value: $value,
        }
    };
}

/// The number of the last row, and its moment, if there is one.
#[derive(Clone, Copy)]
pub struct DayEnd {
    pub row: u64,
    pub moment: Option<Moment>,
}

/// How many orders rest, how many sides are held, how many requests are open, and how many quotes are live.
#[derive(Clone, Copy)]
pub struct Counts {
    pub orders: u64,
    pub sides: u64,
    pub requests: u64,
    pub quotes: u64,
}

/// The form, the files, and the last row.
#[derive(Clone, Copy)]
pub struct Page<'a> {
    pub form: Form,
    pub participants: &'a Participants,
    pub instruments: &'a Instruments,
    pub end: DayEnd,
}

fn symbol_at(instruments: &Instruments, instrument: u32) -> &[u8]
    ensures { result.now ≡ symbol_of instruments.now instrument }
{
    if (instrument as usize) < instruments.len() {
        instruments.get(instrument).symbol.as_slice()
    } else {
        b""
    }
}

fn orders_words(count: u64) -> &'static [u8]
    ensures { result.now ≡ orders_words count }
{
    if count == 1 {
        b" order rests"
    } else {
        b" orders rest"
    }
}

fn sides_words(count: u64) -> &'static [u8]
    ensures { result.now ≡ sides_words count }
{
    if count == 1 {
        b" side is held"
    } else {
        b" sides are held"
    }
}

fn requests_words(count: u64) -> &'static [u8]
    ensures { result.now ≡ requests_words count }
{
    if count == 1 {
        b" request is open"
    } else {
        b" requests are open"
    }
}

fn quotes_words(count: u64) -> &'static [u8]
    ensures { result.now ≡ quotes_words count }
{
    if count == 1 {
        b" quote is live"
    } else {
        b" quotes are live"
    }
}

fn asked_words(side: Option<Side>) -> &'static [u8]
    ensures { result.now ≡ asked_words side }
{
    match side {
        None => b"buy or sell",
        Some(Side::Buy) => b"buy",
        Some(Side::Sell) => b"sell",
    }
}

fn due_moment(due: u64) -> Option<Moment>
    ensures { result ≡ due_moment due }
{
    Moment::of_ms(due)
}

fn due_words(due: &Option<Moment>) -> &'static [u8]
    ensures { result.now ≡ due_words due.now }
{
    match due {
        None => b", never due",
        Some(_) => b", held until ",
    }
}

fn due_value<'a>(due: &'a Option<Moment>) -> Option<Value<'a>>
    ensures { shown_option result ≡ Some (shown_moment due.now) }
{
    match due {
        None => bytes(b""),
        Some(due) => Some(Value::Moment(*due)),
    }
}

fn append_end(alloc: Global, text: &mut Vec<u8>, end: &DayEnd) -> Result<(), AllocError>
    ensures { OnOk result (text.new.items ≡ text.old.items ++ parts_text (end_parts end.now)) }
{
    append_parts(
        alloc,
        text,
        &[
            part!(b"after row ", number(end.row)),
            part!(b" at ", moment_value(end.moment)),
            part!(b"\n", bytes(b"")),
        ],
    )
}

fn append_nothing(alloc: Global, text: &mut Vec<u8>, name: &[u8]) -> Result<(), AllocError>
    ensures { OnOk result (text.new.items ≡ text.old.items ++ parts_text (nothing_parts name.now)) }
{
    append_parts(
        alloc,
        text,
        &[
            part!(name, bytes(b"")),
            part!(
                b": no order rests, no side is held, no request is open, no quote is live\n",
                bytes(b"")
            ),
        ],
    )
}

fn append_counted(
    alloc: Global,
    text: &mut Vec<u8>,
    name: &[u8],
    counts: &Counts,
) -> Result<(), AllocError>
    ensures { OnOk result (text.new.items ≡ text.old.items ++ parts_text (counted_parts name.now counts.now)) }
{
    append_parts(
        alloc,
        text,
        &[
            part!(name, bytes(b"")),
            part!(b": ", number(counts.orders)),
            part!(orders_words(counts.orders), bytes(b"")),
            part!(b", ", number(counts.sides)),
            part!(sides_words(counts.sides), bytes(b"")),
            part!(b", ", number(counts.requests)),
            part!(requests_words(counts.requests), bytes(b"")),
            part!(b", ", number(counts.quotes)),
            part!(quotes_words(counts.quotes), bytes(b"")),
            part!(b"\n", bytes(b"")),
        ],
    )
}

fn append_heading_line(
    alloc: Global,
    text: &mut Vec<u8>,
    name: &[u8],
    counts: &Counts,
) -> Result<(), AllocError>
    ensures { OnOk result (text.new.items ≡ text.old.items ++ parts_text (heading_parts name.now counts.now)) }
{
    if counts.orders == 0 && (counts.sides == 0 && (counts.requests == 0 && counts.quotes == 0)) {
        append_nothing(alloc, text, name)
    } else {
        append_counted(alloc, text, name, counts)
    }
}

fn append_order_line(
    alloc: Global,
    text: &mut Vec<u8>,
    order: &RestedOrder,
) -> Result<(), AllocError>
    ensures { OnOk result (text.new.items ≡ text.old.items ++ parts_text (order_parts order.now)) }
{
    append_parts(
        alloc,
        text,
        &[
            part!(b"  ", bytes(order.symbol.as_slice())),
            part!(b" ", bytes(quoted_side(order.side))),
            part!(b" O", number(order.number)),
            part!(b" as ", bytes(order.id.as_slice())),
            part!(b" @ ", Some(Value::Price(order.price))),
            part!(b": ", number(order.left.get())),
            part!(b" left of ", number(order.quantity)),
            part!(b", ", number(order.filled)),
            part!(b" filled, entered ", Some(Value::Moment(order.at.moment))),
            part!(b" (row ", number(order.at.row)),
            part!(b")\n", bytes(b"")),
        ],
    )
}

fn append_side_words<'a>(
    alloc: Global,
    text: &mut Vec<u8>,
    instruments: &'a Instruments,
    side: &'a HeldSide,
) -> Result<(), AllocError>
    ensures { OnOk result (text.new.items ≡ text.old.items ++ parts_text (side_parts instruments.now side.now)) }
{
    append_parts(
        alloc,
        text,
        &[
            part!(b"  ", bytes(symbol_at(instruments, side.order.instrument))),
            part!(b" ", bytes(quoted_side(side.order.side))),
            part!(b" of cross ", bytes(side.cross.as_slice())),
            part!(b" as ", bytes(side.order.id.as_slice())),
            part!(b": ", number(side.order.quantity.get())),
            part!(b" @ ", Some(Value::Price(side.order.price))),
        ],
    )
}

fn append_due(alloc: Global, text: &mut Vec<u8>, due: &Option<Moment>) -> Result<(), AllocError>
    ensures { OnOk result (text.new.items ≡ text.old.items ++ parts_text (due_parts due.now)) }
{
    append_parts(
        alloc,
        text,
        &[
            part!(due_words(due), due_value(due)),
            part!(b"\n", bytes(b"")),
        ],
    )
}

fn append_side_line(
    alloc: Global,
    text: &mut Vec<u8>,
    instruments: &Instruments,
    side: &HeldSide,
) -> Result<(), AllocError>
    ensures { OnOk result (text.new.items ≡ text.old.items ++ (parts_text (side_parts instruments.now side.now) ++ parts_text (due_parts (due_moment side.now.due)))) }
{
    append_side_words(alloc, text, instruments, side)?;
    append_due(alloc, text, &due_moment(side.due))
}

fn append_request_line(
    alloc: Global,
    text: &mut Vec<u8>,
    instruments: &Instruments,
    request: &Request,
) -> Result<(), AllocError>
    ensures { OnOk result (text.new.items ≡ text.old.items ++ parts_text (request_parts instruments.now request.now)) }
{
    append_request_words(
        alloc,
        text,
        symbol_at(instruments, request.instrument),
        request,
    )
}

fn append_request_words<'a>(
    alloc: Global,
    text: &mut Vec<u8>,
    symbol: &'a [u8],
    request: &'a Request,
) -> Result<(), AllocError>
    ensures { OnOk result (text.new.items ≡ text.old.items ++ parts_text (request_words symbol.now request.now)) }
{
    append_parts(
        alloc,
        text,
        &[
            part!(b"  ", bytes(symbol)),
            part!(b" request R", number(request.number)),
            part!(b" as ", bytes(request.id.as_slice())),
            part!(b": ", bytes(asked_words(request.side))),
            part!(b" ", number(request.quantity.get())),
            part!(b", open until ", Some(Value::Moment(request.end))),
            part!(b"\n", bytes(b"")),
        ],
    )
}

fn append_quote_line(alloc: Global, text: &mut Vec<u8>, quote: &OwnQuote) -> Result<(), AllocError>
    ensures { OnOk result (text.new.items ≡ text.old.items ++ parts_text (quote_parts quote.now)) }
{
    append_parts(
        alloc,
        text,
        &[
            part!(b"  ", bytes(quote.symbol.as_slice())),
            part!(b" quote Q", number(quote.number)),
            part!(b" as ", bytes(quote.id.as_slice())),
            part!(b" in ", bytes(quote.request.as_slice())),
            part!(b": ", number(quote.quantity.get())),
            part!(b", bid ", price_value(quote.bid)),
            part!(b", offer ", price_value(quote.offer)),
            part!(b", live until ", Some(Value::Moment(quote.end))),
            part!(b"\n", bytes(b"")),
        ],
    )
}

fn append_rests_names(alloc: Global, text: &mut Vec<u8>) -> Result<(), AllocError>
    ensures { OnOk result (text.new.items ≡ text.old.items ++ row_text setup rests_names) }
{
    let names = ByteRecord::from_fields(
        alloc,
        &[
            b"participant",
            b"row",
            b"moment_utc",
            b"kind",
            b"number",
            b"identifier",
            b"instrument",
            b"side",
            b"left",
            b"quantity",
            b"filled",
            b"price",
            b"cross",
            b"entered_utc",
            b"entered_row",
            b"until_utc",
            b"request",
            b"bid",
            b"offer",
        ],
    )?;
    append_row(alloc, text, &names)
}

/// The first fields of a row: whose it is, after which row, and its kind.
fn first_fields(
    alloc: Global,
    page: &Page<'_>,
    who: Who,
    kind: &[u8],
) -> Result<ByteRecord, AllocError>
    ensures partial { IfOk result (λ made. partial_of made ≡ []) }
    ensures fields { IfOk result (λ made. fields_of made ≡ first_fields page.now.participants.now page.now.end who kind.now) }
{
    let mut made = ByteRecord::new(alloc);
    made.push_field(name_at(page.participants, who))?;
    push_number(&mut made, page.end.row)?;
    push_shown_moment(&mut made, page.end.moment)?;
    made.push_field(kind)?;
    Ok(made)
}

/// Adds the fields of a quote alone, empty.
fn push_none(made: &mut ByteRecord) -> Result<(), AllocError>
    requires { partial_of made.old ≡ [] }
    ensures partial { OnOk result (partial_of made.new ≡ []) }
    ensures fields { OnOk result (fields_of made.new ≡ fields_of made.old ++ [] ∷ [] ∷ [] ∷ []) }
{
    made.push_field(b"")?;
    made.push_field(b"")?;
    made.push_field(b"")
}

fn order_fields(
    alloc: Global,
    page: &Page<'_>,
    who: Who,
    order: &RestedOrder,
) -> Result<ByteRecord, AllocError>
    ensures { IfOk result (λ made. fields_of made ≡ order_fields page.now.participants.now page.now.end who order.now) }
{
    let mut made = first_fields(alloc, page, who, b"order")?;
    push_order(alloc, &mut made, order.number)?;
    made.push_field(order.id.as_slice())?;
    made.push_field(order.symbol.as_slice())?;
    made.push_field(quoted_side(order.side))?;
    push_number(&mut made, order.left.get())?;
    push_number(&mut made, order.quantity)?;
    push_number(&mut made, order.filled)?;
    push_price(alloc, &mut made, order.price)?;
    made.push_field(b"")?;
    push_moment(&mut made, order.at.moment)?;
    push_number(&mut made, order.at.row)?;
    made.push_field(b"")?;
    push_none(&mut made)?;
    Ok(made)
}

fn side_fields(
    alloc: Global,
    page: &Page<'_>,
    who: Who,
    side: &HeldSide,
) -> Result<ByteRecord, AllocError>
    ensures { IfOk result (λ made. fields_of made ≡ side_fields page.now.participants.now page.now.instruments.now page.now.end who side.now) }
{
    let mut made = first_fields(alloc, page, who, b"held")?;
    made.push_field(b"")?;
    made.push_field(side.order.id.as_slice())?;
    made.push_field(symbol_at(page.instruments, side.order.instrument))?;
    made.push_field(quoted_side(side.order.side))?;
    made.push_field(b"")?;
    push_number(&mut made, side.order.quantity.get())?;
    made.push_field(b"")?;
    push_price(alloc, &mut made, side.order.price)?;
    made.push_field(side.cross.as_slice())?;
    made.push_field(b"")?;
    made.push_field(b"")?;
    push_shown_moment(&mut made, due_moment(side.due))?;
    push_none(&mut made)?;
    Ok(made)
}

fn push_room(alloc: Global, made: &mut ByteRecord, room: u64) -> Result<(), AllocError>
    requires { partial_of made.old ≡ [] }
    ensures partial { OnOk result (partial_of made.new ≡ []) }
    ensures fields { OnOk result (fields_of made.new ≡ fields_of made.old ++ (codes "R" ++ decimal room) ∷ []) }
{
    let mut text = Vec::new(alloc);
    append_number(&mut text, b"R", room)?;
    made.push_field(&text)
}

fn request_fields(
    alloc: Global,
    page: &Page<'_>,
    who: Who,
    request: &Request,
) -> Result<ByteRecord, AllocError>
    ensures { IfOk result (λ made. fields_of made ≡ request_fields page.now.participants.now page.now.instruments.now page.now.end who request.now) }
{
    let mut made = first_fields(alloc, page, who, b"request")?;
    push_room(alloc, &mut made, request.number)?;
    made.push_field(request.id.as_slice())?;
    made.push_field(symbol_at(page.instruments, request.instrument))?;
    made.push_field(asked_words(request.side))?;
    made.push_field(b"")?;
    push_number(&mut made, request.quantity.get())?;
    made.push_field(b"")?;
    made.push_field(b"")?;
    made.push_field(b"")?;
    made.push_field(b"")?;
    made.push_field(b"")?;
    push_moment(&mut made, request.end)?;
    push_none(&mut made)?;
    Ok(made)
}

fn push_quote(alloc: Global, made: &mut ByteRecord, quote: u64) -> Result<(), AllocError>
    requires { partial_of made.old ≡ [] }
    ensures partial { OnOk result (partial_of made.new ≡ []) }
    ensures fields { OnOk result (fields_of made.new ≡ fields_of made.old ++ (codes "Q" ++ decimal quote) ∷ []) }
{
    let mut text = Vec::new(alloc);
    append_number(&mut text, b"Q", quote)?;
    made.push_field(&text)
}

fn push_shown_price(
    alloc: Global,
    made: &mut ByteRecord,
    price: Option<Price>,
) -> Result<(), AllocError>
    requires { partial_of made.old ≡ [] }
    ensures partial { OnOk result (partial_of made.new ≡ []) }
    ensures fields { OnOk result (fields_of made.new ≡ fields_of made.old ++ shown_price price ∷ []) }
{
    match price {
        Some(price) => push_price(alloc, made, price),
        None => made.push_field(b""),
    }
}

fn quote_fields(
    alloc: Global,
    page: &Page<'_>,
    who: Who,
    quote: &OwnQuote,
) -> Result<ByteRecord, AllocError>
    ensures { IfOk result (λ made. fields_of made ≡ quote_fields page.now.participants.now page.now.end who quote.now) }
{
    let mut made = first_fields(alloc, page, who, b"quote")?;
    push_quote(alloc, &mut made, quote.number)?;
    made.push_field(quote.id.as_slice())?;
    made.push_field(quote.symbol.as_slice())?;
    made.push_field(b"")?;
    made.push_field(b"")?;
    push_number(&mut made, quote.quantity.get())?;
    made.push_field(b"")?;
    made.push_field(b"")?;
    made.push_field(b"")?;
    made.push_field(b"")?;
    made.push_field(b"")?;
    push_moment(&mut made, quote.end)?;
    made.push_field(quote.request.as_slice())?;
    push_shown_price(alloc, &mut made, quote.bid)?;
    push_shown_price(alloc, &mut made, quote.offer)?;
    Ok(made)
}

fn append_order_row(
    alloc: Global,
    text: &mut Vec<u8>,
    page: &Page<'_>,
    who: Who,
    order: &RestedOrder,
) -> Result<(), AllocError>
    ensures { OnOk result (text.new.items ≡ text.old.items ++ row_text setup (order_fields page.now.participants.now page.now.end who order.now)) }
{
    let fields = order_fields(alloc, page, who, order)?;
    append_row(alloc, text, &fields)
}

fn append_side_row(
    alloc: Global,
    text: &mut Vec<u8>,
    page: &Page<'_>,
    who: Who,
    side: &HeldSide,
) -> Result<(), AllocError>
    ensures { OnOk result (text.new.items ≡ text.old.items ++ row_text setup (side_fields page.now.participants.now page.now.instruments.now page.now.end who side.now)) }
{
    let fields = side_fields(alloc, page, who, side)?;
    append_row(alloc, text, &fields)
}

fn append_request_row(
    alloc: Global,
    text: &mut Vec<u8>,
    page: &Page<'_>,
    who: Who,
    request: &Request,
) -> Result<(), AllocError>
    ensures { OnOk result (text.new.items ≡ text.old.items ++ row_text setup (request_fields page.now.participants.now page.now.instruments.now page.now.end who request.now)) }
{
    let fields = request_fields(alloc, page, who, request)?;
    append_row(alloc, text, &fields)
}

fn append_quote_row(
    alloc: Global,
    text: &mut Vec<u8>,
    page: &Page<'_>,
    who: Who,
    quote: &OwnQuote,
) -> Result<(), AllocError>
    ensures { OnOk result (text.new.items ≡ text.old.items ++ row_text setup (quote_fields page.now.participants.now page.now.end who quote.now)) }
{
    let fields = quote_fields(alloc, page, who, quote)?;
    append_row(alloc, text, &fields)
}

/// Appends what stands above all.
pub(crate) fn append_head(
    alloc: Global,
    text: &mut Vec<u8>,
    page: &Page<'_>,
) -> Result<(), AllocError>
    ensures { OnOk result (text.new.items ≡ text.old.items ++ rests_head page.now.form page.now.end) }
{
    match page.form {
        Form::Lines => append_end(alloc, text, &page.end),
        Form::Table => append_rests_names(alloc, text),
    }
}

/// Appends what stands above a participant's.
pub(crate) fn append_owner_heading(
    alloc: Global,
    text: &mut Vec<u8>,
    form: Form,
    name: &[u8],
    counts: &Counts,
) -> Result<(), AllocError>
    ensures { OnOk result (text.new.items ≡ text.old.items ++ owner_heading form name.now counts.now) }
{
    match form {
        Form::Lines => append_heading_line(alloc, text, name, counts),
        Form::Table => Ok(()),
    }
}

fn append_order(
    alloc: Global,
    text: &mut Vec<u8>,
    page: &Page<'_>,
    who: Who,
    order: &RestedOrder,
) -> Result<(), AllocError>
    ensures { OnOk result (text.new.items ≡ text.old.items ++ order_text page.now.form page.now.participants.now page.now.end who order.now) }
{
    match page.form {
        Form::Lines => append_order_line(alloc, text, order),
        Form::Table => append_order_row(alloc, text, page, who, order),
    }
}

fn append_side(
    alloc: Global,
    text: &mut Vec<u8>,
    page: &Page<'_>,
    who: Who,
    side: &HeldSide,
) -> Result<(), AllocError>
    ensures { OnOk result (text.new.items ≡ text.old.items ++ side_text page.now.form page.now.participants.now page.now.instruments.now page.now.end who side.now) }
{
    match page.form {
        Form::Lines => append_side_line(alloc, text, page.instruments, side),
        Form::Table => append_side_row(alloc, text, page, who, side),
    }
}

fn append_request(
    alloc: Global,
    text: &mut Vec<u8>,
    page: &Page<'_>,
    who: Who,
    request: &Request,
) -> Result<(), AllocError>
    ensures { OnOk result (text.new.items ≡ text.old.items ++ request_text page.now.form page.now.participants.now page.now.instruments.now page.now.end who request.now) }
{
    match page.form {
        Form::Lines => append_request_line(alloc, text, page.instruments, request),
        Form::Table => append_request_row(alloc, text, page, who, request),
    }
}

fn append_quote(
    alloc: Global,
    text: &mut Vec<u8>,
    page: &Page<'_>,
    who: Who,
    quote: &OwnQuote,
) -> Result<(), AllocError>
    ensures { OnOk result (text.new.items ≡ text.old.items ++ quote_text page.now.form page.now.participants.now page.now.end who quote.now) }
{
    match page.form {
        Form::Lines => append_quote_line(alloc, text, quote),
        Form::Table => append_quote_row(alloc, text, page, who, quote),
    }
}

/// Appends the resting orders of a participant.
pub(crate) fn append_orders(
    alloc: Global,
    text: &mut Vec<u8>,
    page: &Page<'_>,
    who: Who,
    orders: &[RestedOrder],
) -> Result<(), AllocError>
    ensures { OnOk result (text.new.items ≡ text.old.items ++ flat_map (order_text page.now.form page.now.participants.now page.now.end who) orders.now) }
{
    for order in orders {
        append_order(alloc, text, page, who, order)?;
    }
    Ok(())
}

/// Appends the held sides of a participant.
pub(crate) fn append_sides(
    alloc: Global,
    text: &mut Vec<u8>,
    page: &Page<'_>,
    who: Who,
    sides: &[HeldSide],
) -> Result<(), AllocError>
    ensures { OnOk result (text.new.items ≡ text.old.items ++ flat_map (side_text page.now.form page.now.participants.now page.now.instruments.now page.now.end who) sides.now) }
{
    for side in sides {
        append_side(alloc, text, page, who, side)?;
    }
    Ok(())
}

/// Appends the open requests of a participant.
pub(crate) fn append_requests(
    alloc: Global,
    text: &mut Vec<u8>,
    page: &Page<'_>,
    who: Who,
    requests: &[Request],
) -> Result<(), AllocError>
    ensures { OnOk result (text.new.items ≡ text.old.items ++ flat_map (request_text page.now.form page.now.participants.now page.now.instruments.now page.now.end who) requests.now) }
{
    for request in requests {
        append_request(alloc, text, page, who, request)?;
    }
    Ok(())
}

/// Appends the live quotes of a participant.
pub(crate) fn append_quotes(
    alloc: Global,
    text: &mut Vec<u8>,
    page: &Page<'_>,
    who: Who,
    quotes: &[OwnQuote],
) -> Result<(), AllocError>
    ensures { OnOk result (text.new.items ≡ text.old.items ++ flat_map (quote_text page.now.form page.now.participants.now page.now.end who) quotes.now) }
{
    for quote in quotes {
        append_quote(alloc, text, page, who, quote)?;
    }
    Ok(())
}
