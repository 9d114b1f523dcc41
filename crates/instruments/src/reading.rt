//! The instrument file as a TOML document: its faults in order, and its rows.

ghost use Rattle.std.specs.Prelude.{◌≡◌, ◌^◌, true, codes, length, map, nat_le, Ok, IfOk, IfErr};
ghost use Rattle.std.specs.List.{list_all, list_any};
ghost use Rattle.toml.specs.View.{view};
ghost use Rattle.instruments.specs.Symbols.{is_symbol};
ghost use Rattle.instruments.specs.Rows.{are_distinct, is_instrument, is_instrument_file, is_same_symbol, most_instruments};
ghost use Rattle.config_format.specs.Document.{text_at};
ghost use Rattle.instruments.specs.Reading.{Refuses, has_bad_value, has_too_many, instruments, is_bad_instrument, is_missing, read_of, row_of, rows_of};

use crate::fault::FileFault;
use crate::instruments::{Instrument, Instruments};
use crate::numbers::{is_no_number, number_at, number_or};
use config_format::{
    Name as Symbol, entries, is_absent, is_no_list, is_no_name, is_without_entry, list_lacks,
    text_at,
};
use std::alloc::{AllocError, Global};
use toml::Value;

/// The most instruments of a file.
const MAX_INSTRUMENTS: usize = 256;

/// The delay between linked orders where the file states none, in milliseconds (17 CFR 37.9(b)(1)).
const DEFAULT_DELAY: u64 = 15_000;

/// Whether a required key is absent, or the list has no entry.
pub(crate) fn is_missing(file: &Value) -> bool
    ensures { result ≡ is_missing (view file.now) }
{
    is_absent(file, "instrument")
        || is_without_entry(file, "instrument")
        || list_lacks(file, "instrument", "symbol")
        || list_lacks(file, "instrument", "tick")
        || list_lacks(file, "instrument", "least")
        || list_lacks(file, "instrument", "rfq_life")
}

fn is_bad_instrument(entry: &Value) -> bool
    ensures { result ≡ is_bad_instrument (view entry.now) }
{
    !entry.is_table()
        || is_no_name(entry, "symbol")
        || is_no_number(entry, "tick", 1, 1_000_000_000_000)
        || is_no_number(entry, "least", 1, 1_000_000_000_000_000)
        || is_no_number(entry, "rfq_life", 1, 86_400)
        || is_no_number(entry, "delay_ms", 1_000, 3_600_000)
}

fn any_bad_instrument(list: &[Value]) -> bool
    ensures { result ≡ list_any (λ entry. is_bad_instrument (view entry)) list.now }
{
    list.iter().any(|entry| is_bad_instrument(entry))
}

fn has_bad_instrument(file: &Value) -> bool
    ensures { result ≡ list_any is_bad_instrument (instruments (view file.now)) }
{
    any_bad_instrument(entries(file, "instrument"))
}

/// Whether a stated value is invalid.
pub(crate) fn has_bad_value(file: &Value) -> bool
    ensures { result ≡ has_bad_value (view file.now) }
{
    is_no_list(file, "instrument") || has_bad_instrument(file)
}

pub(crate) fn has_too_many(file: &Value) -> bool
    ensures { result ≡ has_too_many (view file.now) }
{
    entries(file, "instrument").len() > MAX_INSTRUMENTS
}

fn row_of(alloc: Global, entry: &Value) -> Result<Instrument, AllocError>
    requires { is_symbol (text_at (codes "symbol") (view entry.now)) ≡ true }
    ensures { IfOk result (λ row. row ≡ row_of (view entry.now)) }
{
    let symbol = Symbol::from_slice(alloc, text_at(entry, "symbol"))?;
    Ok(Instrument {
        symbol,
        tick: number_at(entry, "tick"),
        least: number_at(entry, "least"),
        request_life: number_at(entry, "rfq_life"),
        delay: number_or(entry, DEFAULT_DELAY, "delay_ms"),
    })
}

fn rows_in(alloc: Global, list: &[Value]) -> Result<Vec<Instrument>, AllocError>
    requires { list_all (λ entry. is_symbol (text_at (codes "symbol") (view entry))) list.now ≡ true }
    ensures { IfOk result (λ rows. rows.items ≡ map (λ entry. row_of (view entry)) list.now) }
{
    let mut rows = Vec::new(alloc);
    for entry in list {
        let row = row_of(alloc, entry)?;
        rows.push(row)?;
    }
    Ok(rows)
}

fn is_listed(rows: &[Instrument], row: &Instrument) -> bool
    ensures { result ≡ list_any (is_same_symbol row.now) rows.now }
{
    rows.iter()
        .any(|other| other.symbol.is(row.symbol.as_slice()))
}

fn are_distinct(rows: &[Instrument]) -> bool
    ensures { result ≡ are_distinct rows.now }
{
    for (place, row) in rows.iter().enumerate() {
        if is_listed(&rows[place + 1..], row) {
            return false;
        }
    }
    true
}

/// A file of these rows, if no symbol occurs twice.
fn rows_of(alloc: Global, rows: Vec<Instrument>) -> Result<Instruments, FileFault>
    requires some { nat_le 1 (length rows.items) ≡ true }
    requires few { nat_le (length rows.items) most_instruments ≡ true }
    requires all { list_all is_instrument rows.items ≡ true }
    ensures rows { IfOk result (λ file. rows_of rows.items ≡ Ok file) }
    ensures fault { IfErr result (Refuses (rows_of rows.items)) }
{
    if !are_distinct(&rows) {
        return Err(FileFault::Twice);
    }
    let Ok(file) = Instruments::from_rows(alloc, rows) else {
        return Err(FileFault::NoMemory);
    };
    Ok(file)
}

/// Reads a document, or returns its first fault.
pub(crate) fn read_document(alloc: Global, file: &Value) -> Result<Instruments, FileFault>
    ensures rows { IfOk result (λ rows. read_of (view file.now) ≡ Ok rows) }
    ensures fault { IfErr result (Refuses (read_of (view file.now))) }
{
    if is_missing(file) {
        return Err(FileFault::Missing);
    }
    if has_bad_value(file) {
        return Err(FileFault::BadValue);
    }
    if has_too_many(file) {
        return Err(FileFault::TooMany);
    }
    let Ok(rows) = rows_in(alloc, entries(file, "instrument")) else {
        return Err(FileFault::NoMemory);
    };
    rows_of(alloc, rows)
}
