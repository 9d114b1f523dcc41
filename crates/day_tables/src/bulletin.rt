//! The daily bulletin: of each instrument that traded its prices and volumes, in all, in the book and in requests.

ghost use Rattle.std.specs.Prelude.{◌≡◌, ◌≤◌, OnOk, cond, length};
ghost use Rattle.page_text.specs.Parts.{with_part, with_parts};
ghost use Rattle.day_tables.specs.Bulletin.{bulletin_parts, greater, is_at, is_of, joined, lesser, moved, number, quantity, some_parts, span_of, spanned, traded_parts, traded_part};
ghost use Rattle.day_tables.specs.Parts.{each_from};

use crate::template::{BULLETIN, BULLETIN_END, NO_BULLETIN, TRADED};
use crate::values::{grouped_text, number_text, symbol_at, tick_at, ticked_price, wide_text};
use fix_dictionary::Price;
use instruments::Instruments;
use page_text::Page;
use std::alloc::{AllocError, Global};
use venue_rules::TradeFact;

/// Where a trade was made, or anywhere.
#[derive(Clone, Copy)]
pub enum Place {
    Anywhere,
    Book,
    Request,
}

/// The prices of trades: the first, the highest, the lowest and the last.
#[derive(Clone, Copy)]
pub struct Span {
    pub first: Price,
    pub high: Price,
    pub low: Price,
    pub last: Price,
}

fn greater(a: Price, b: Price) -> Price
    ensures { result ≡ greater a b }
{
    if a.get() < b.get() { b } else { a }
}

fn lesser(a: Price, b: Price) -> Price
    ensures { result ≡ lesser a b }
{
    if b.get() < a.get() { b } else { a }
}

/// The prices of a trade and of those after it.
fn joined(price: Price, later: Option<Span>) -> Span
    ensures { result ≡ joined price later }
{
    match later {
        None => Span {
            first: price,
            high: price,
            low: price,
            last: price,
        },
        Some(later) => Span {
            first: price,
            high: greater(price, later.high),
            low: lesser(price, later.low),
            last: later.last,
        },
    }
}

/// The prices of the trades of an instrument, with this trade before them.
fn spanned(trade: &TradeFact, instrument: u32, later: Option<Span>) -> Option<Span>
    ensures { result ≡ spanned instrument trade.now later }
{
    if trade.instrument == instrument {
        Some(joined(trade.price, later))
    } else {
        later
    }
}

/// The prices of the trades of an instrument; none where it did not trade.
fn span_of(trades: &[TradeFact], instrument: u32) -> Option<Span>
    ensures { result ≡ span_of instrument trades.now }
{
    let mut span = None;
    for at in (0..trades.len()).rev() {
        span = spanned(&trades[at], instrument, span);
    }
    span
}

fn is_at(place: Place, room: Option<u64>) -> bool
    ensures { result ≡ is_at place room }
{
    match place {
        Place::Anywhere => true,
        Place::Book => room.is_none(),
        Place::Request => room.is_some(),
    }
}

/// Whether a trade is of this instrument, or of any, and was made there.
fn is_of(instrument: Option<u32>, place: Place, trade: &TradeFact) -> bool
    ensures { result ≡ is_of instrument place trade.now }
{
    match instrument {
        None => is_at(place, trade.room),
        Some(instrument) => trade.instrument == instrument && is_at(place, trade.room),
    }
}

/// One for what passes a test.
fn one_if(passes: bool) -> u64
    ensures result { result ≡ cond passes 1 0 }
    ensures few { result ≤ 1 }
{
    if passes { 1 } else { 0 }
}

/// How many trades of an instrument, or of all, were made there.
pub fn number(trades: &[TradeFact], instrument: Option<u32>, place: Place) -> u64
    ensures { result ≡ number instrument place trades.now }
{
    let mut count = 0;
    for trade in trades {
        count += one_if(is_of(instrument, place, trade));
    }
    count
}

/// The quantity of a trade, if it is counted.
fn moved(instrument: Option<u32>, place: Place, trade: &TradeFact) -> u64
    ensures { result ≡ moved instrument place trade.now }
{
    if is_of(instrument, place, trade) {
        trade.quantity.get()
    } else {
        0
    }
}

/// The quantity traded there, of an instrument or of all.
pub fn quantity(trades: &[TradeFact], instrument: Option<u32>, place: Place) -> u128
    ensures { result ≡ quantity instrument place trades.now }
{
    let mut total: u128 = 0;
    for trade in trades {
        total += u128::from(moved(instrument, place, trade));
    }
    total
}

/// Adds the row of an instrument with these prices.
fn add_span(
    alloc: Global,
    page: &mut Page,
    instruments: &Instruments,
    trades: &[TradeFact],
    instrument: u32,
    span: &Span,
) -> Result<(), AllocError>
    ensures { OnOk result (page.new ≡ with_part page.old (traded_part instruments.now trades.now instrument span.now)) }
{
    let only = Some(instrument);
    let place = number_text(alloc, u64::from(instrument))?;
    let tick = tick_at(instruments, instrument);
    let open = ticked_price(alloc, tick, span.first)?;
    let high = ticked_price(alloc, tick, span.high)?;
    let low = ticked_price(alloc, tick, span.low)?;
    let last = ticked_price(alloc, tick, span.last)?;
    let volume = wide_text(alloc, quantity(trades, only, Place::Anywhere))?;
    let in_book = wide_text(alloc, quantity(trades, only, Place::Book))?;
    let in_requests = wide_text(alloc, quantity(trades, only, Place::Request))?;
    let count = grouped_text(alloc, number(trades, only, Place::Anywhere))?;
    let of_book = grouped_text(alloc, number(trades, only, Place::Book))?;
    let of_requests = grouped_text(alloc, number(trades, only, Place::Request))?;
    page.add(
        TRADED,
        &[
            &place,
            symbol_at(instruments, instrument),
            &open,
            &high,
            &low,
            &last,
            &volume,
            &in_book,
            &in_requests,
            &count,
            &of_book,
            &of_requests,
        ],
    )
}

/// Adds the row of an instrument, if it traded.
fn add_traded(
    alloc: Global,
    page: &mut Page,
    instruments: &Instruments,
    trades: &[TradeFact],
    instrument: u32,
) -> Result<(), AllocError>
    ensures { OnOk result (page.new ≡ with_parts page.old (traded_parts instruments.now trades.now instrument)) }
{
    match span_of(trades, instrument) {
        None => Ok(()),
        Some(span) => add_span(alloc, page, instruments, trades, instrument, &span),
    }
}

/// Adds the rows of the instruments that traded, in their file's order.
fn add_each(
    alloc: Global,
    page: &mut Page,
    instruments: &Instruments,
    trades: &[TradeFact],
) -> Result<(), AllocError>
    ensures { OnOk result (page.new ≡ with_parts page.old (each_from (traded_parts instruments.now trades.now) 0 (length instruments.now))) }
{
    for instrument in 0..instruments.len() {
        add_traded(alloc, page, instruments, trades, instrument as u32)?;
    }
    Ok(())
}

/// Adds the bulletin of a day with trades.
fn add_some(
    alloc: Global,
    page: &mut Page,
    instruments: &Instruments,
    trades: &[TradeFact],
) -> Result<(), AllocError>
    ensures { OnOk result (page.new ≡ with_parts page.old (some_parts instruments.now trades.now)) }
{
    page.add(BULLETIN, &[])?;
    add_each(alloc, page, instruments, trades)?;
    page.add(BULLETIN_END, &[])
}

/// Adds the daily bulletin (17 CFR 37.901, 16.01).
pub fn add_bulletin(
    alloc: Global,
    page: &mut Page,
    instruments: &Instruments,
    trades: &[TradeFact],
) -> Result<(), AllocError>
    ensures { OnOk result (page.new ≡ with_parts page.old (bulletin_parts instruments.now trades.now)) }
{
    match trades.split_first() {
        None => page.add(NO_BULLETIN, &[]),
        Some(_) => add_some(alloc, page, instruments, trades),
    }
}
