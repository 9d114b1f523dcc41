//! The values of the places of a page.
ghost use Rattle.std.specs.Prelude.{◌≡◌, ◌++◌, ◌≤◌, OnOk, IfOk, decimal, length};
ghost use Rattle.fix_fields.specs.Fields.{field_text};
ghost use Rattle.fix_fields.specs.Forms.{price_text};
ghost use Rattle.instruments.specs.Listing.{instrument_of, symbol_of, tick_of};
ghost use Rattle.participants.specs.Relations.{name_of};
ghost use Rattle.day_tables.specs.Values.{are_dated, clock_text, date_in, date_of, grouped, grouped_digits, moment_of, places_of, price_in, separator, time_in, value_in, zeros};

use fix_dictionary::Price;
use fix_fields::FieldWriter;
use instruments::Instruments;
use itoa::Buffer;
use participants::{Participants, Who};
use sef_moment::Moment;
use std::alloc::{AllocError, Global};

/// The comma behind a digit that this many digits follow.
fn separator_of(following: usize) -> &'static [u8]
    ensures { result.now ≡ separator following }
{
    if following > 0 && following % 3 == 0 {
        b","
    } else {
        b""
    }
}

/// Appends digits in groups of three.
fn append_grouped(out: &mut Vec<u8>, digits: &[u8]) -> Result<(), AllocError>
    ensures { OnOk result (out.new.items ≡ out.old.items ++ grouped_digits digits.now) }
{
    for place in 0..digits.len() {
        out.extend_from_slice(&[digits[place]])?;
        out.extend_from_slice(separator_of(digits.len() - place - 1))?;
    }
    Ok(())
}

/// A number in groups of three.
pub fn grouped_text(alloc: Global, number: u64) -> Result<Vec<u8>, AllocError>
    ensures { IfOk result (λ text. text.items ≡ grouped number) }
{
    let mut digits = Buffer::new();
    let mut text = Vec::new(alloc);
    append_grouped(&mut text, digits.format(number).as_bytes())?;
    Ok(text)
}

/// A wide number in groups of three.
pub fn wide_text(alloc: Global, number: u128) -> Result<Vec<u8>, AllocError>
    ensures { IfOk result (λ text. text.items ≡ grouped number) }
{
    let mut digits = Buffer::new();
    let mut text = Vec::new(alloc);
    append_grouped(&mut text, digits.format(number).as_bytes())?;
    Ok(text)
}

/// A number as it is.
pub fn number_text(alloc: Global, number: u64) -> Result<Vec<u8>, AllocError>
    ensures { IfOk result (λ text. text.items ≡ decimal number) }
{
    let mut digits = Buffer::new();
    Vec::from_slice(alloc, digits.format(number).as_bytes())
}

/// A price field's value, between its tag and its SOH.
fn value_of(field: &[u8]) -> &[u8]
    requires { 4 ≤ length field.now }
    ensures { result.now ≡ value_in field.now }
{
    &field[3..field.len() - 1]
}

/// The field of a price.
fn field_of(alloc: Global, price: Price) -> Result<FieldWriter, AllocError>
    ensures { IfOk result (λ field. field ≡ field_text 44 (price_text price)) }
{
    let mut field = FieldWriter::new(alloc);
    field.put_price(44, price.get())?;
    Ok(field)
}

/// A price as its field has it.
pub fn price_bytes(alloc: Global, price: Price) -> Result<Vec<u8>, AllocError>
    ensures { IfOk result (λ text. text.items ≡ price_text price) }
{
    let field = field_of(alloc, price)?;
    Vec::from_slice(alloc, value_of(field.bytes()))
}

/// The decimals of a number of millionths.
fn places_of(millionths: u64) -> usize
    ensures value { result ≡ places_of millionths }
    ensures bound { result ≤ 6 }
{
    if millionths % 1_000_000 == 0 {
        0
    } else if millionths % 100_000 == 0 {
        1
    } else if millionths % 10_000 == 0 {
        2
    } else if millionths % 1_000 == 0 {
        3
    } else if millionths % 100 == 0 {
        4
    } else if millionths % 10 == 0 {
        5
    } else {
        6
    }
}

/// The zeros that a price wants, of which some decimals are present.
fn zeros(wanted: usize, present: usize) -> &'static [u8]
    requires { wanted ≤ 6 }
    ensures { result.now ≡ zeros wanted present }
{
    if present >= wanted {
        b""
    } else if present == 0 {
        &b".000000"[..wanted + 1]
    } else {
        &b"000000"[..wanted - present]
    }
}

/// A price with the decimals of a tick, or all that it has.
pub fn ticked_price(alloc: Global, tick: u64, price: Price) -> Result<Vec<u8>, AllocError>
    ensures { IfOk result (λ text. text.items ≡ price_in tick price) }
{
    let mut text = price_bytes(alloc, price)?;
    let present = places_of(price.get().unsigned_abs());
    text.extend_from_slice(zeros(places_of(tick), present))?;
    Ok(text)
}

/// A participant's name; empty where there is no such participant.
pub fn name_at(participants: &Participants, who: Who) -> &[u8]
    ensures { result.now ≡ name_of participants.now who }
{
    if (who.place() as usize) < participants.len() {
        participants.name(who)
    } else {
        b""
    }
}

/// The date of a moment that was printed.
pub fn date_in(utc: &[u8]) -> &[u8]
    requires { 9 ≤ length utc.now }
    ensures { result.now ≡ date_in utc.now }
{
    let (date, _) = utc.split_at(8);
    date
}

/// Its time.
pub fn time_in(utc: &[u8]) -> &[u8]
    requires { 9 ≤ length utc.now }
    ensures { result.now ≡ time_in utc.now }
{
    let (_, time) = utc.split_at(9);
    time
}

/// Its date and time in a trail of several dates, else its time.
pub fn clock_text(dated: bool, utc: &[u8]) -> &[u8]
    requires { 9 ≤ length utc.now }
    ensures { result.now ≡ clock_text dated utc.now }
{
    if dated { utc } else { time_in(utc) }
}

/// A day, in milliseconds.
const DAY: u64 = 86_400_000;

/// Whether a trail is of several dates, by its first and its last moment.
pub fn are_dated(first: Option<Moment>, last: Option<Moment>) -> bool
    ensures { result ≡ are_dated first last }
{
    match (first, last) {
        (Some(first), Some(last)) => first.ms() / DAY != last.ms() / DAY,
        _ => false,
    }
}

/// The date of a row that may be absent.
pub fn date_of(utc: &Option<[u8; 21]>) -> &[u8]
    ensures { result.now ≡ date_of utc.now }
{
    match utc {
        None => b"no rows",
        Some(utc) => date_in(utc),
    }
}

/// Its date and time.
pub fn moment_of(utc: &Option<[u8; 21]>) -> &[u8]
    ensures { result.now ≡ moment_of utc.now }
{
    match utc {
        None => b"no rows",
        Some(utc) => utc,
    }
}

/// An instrument's symbol; empty where there is no such instrument, which no trade has.
pub fn symbol_at(instruments: &Instruments, place: u32) -> &[u8]
    ensures { result.now ≡ symbol_of instruments.now place }
{
    if (place as usize) < instruments.len() {
        instruments.get(place).symbol.as_slice()
    } else {
        b""
    }
}

/// An instrument's tick, by its place; a millionth where there is no such instrument.
pub fn tick_at(instruments: &Instruments, place: u32) -> u64
    ensures { result ≡ tick_of instruments.now place }
{
    if (place as usize) < instruments.len() {
        instruments.get(place).tick
    } else {
        1
    }
}

/// That of the instrument with a symbol; a millionth where there is no such instrument.
pub fn tick_by(instruments: &Instruments, symbol: &[u8]) -> u64
    ensures { result ≡ tick_of instruments.now (instrument_of instruments.now symbol.now) }
{
    match instruments.find(symbol) {
        Some(place) => instruments.get(place).tick,
        None => 1,
    }
}
