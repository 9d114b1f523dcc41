//! The instrument file as it is read.

ghost use Rattle.std.specs.Prelude.{◌≡◌, ◌<◌, true, length, slice_get, Ok, Some, position, bytes_eq, IfOk, IfErr, IfSome};
ghost use Rattle.instruments.specs.Reading.{IsFaultOf, Reads};
ghost use Rattle.instruments.specs.Listing.{delay_of, is_off_tick, least_of, request_life_of, symbol_of, tick_of};
ghost use Rattle.instruments.specs.Rows.{is_delay, is_instrument, is_instrument_file};

use crate::fault::FileFault;
use crate::reading::read_document;
use config_format::Name as Symbol;
use std::alloc::{AllocError, Global};
use std::marker::Model;
use toml::Value;

/// One listed instrument.
#[derive(Drop)]
pub struct Instrument {
    pub symbol: Symbol,
    /// the least difference of two prices, in millionths: 1 to 10^12
    pub tick: u64,
    /// the least quantity of an order or a request: 1 to 10^15
    pub least: u64,
    /// the time for which a request for quotes stays open, in seconds: 1 to 86,400
    pub request_life: u64,
    /// the delay between the entries of linked orders, in milliseconds: 1,000 to 3,600,000
    pub delay: u64,
}

/// The instruments of the instrument file, in the file's order.
pub struct Instruments {
    rows: Vec<Instrument>,
}

// Written-out drop (docs/ARCHITECTURE.md).
impl Drop for Instruments {
    fn drop(self) {
        let Instruments { rows: _rows } = self;
    }
}

impl Model for Instruments {
    ghost use Rattle.std.specs.Prelude.{◌≡◌, true, List};
    ghost use Rattle.instruments.specs.declared.instruments.Instrument.{Instrument};
    ghost use Rattle.instruments.specs.Rows.{is_instrument_file};

    ghost Value = { List Instrument };

    ghost view = { λ a. a.rows.items };

    ghost invariant = { λ a. is_instrument_file a.rows.items ≡ true };
}

/// The first place of a symbol.
fn place_of(rows: &[Instrument], symbol: &[u8]) -> Option<usize>
    ensures place { result ≡ position (λ row. bytes_eq symbol.now row.symbol) rows.now }
    ensures within { IfSome result (λ place. place < length rows.now) }
{
    rows.iter().position(|row| row.symbol.is(symbol))
}

impl Instruments {
    /// The file of these rows, which must keep its rules. It does not allocate, so it never fails.
    pub fn from_rows(_alloc: Global, rows: Vec<Instrument>) -> Result<Instruments, AllocError>
        requires { is_instrument_file rows.items ≡ true }
        ensures { result ≡ Ok rows.items }
    {
        Ok(Instruments { rows })
    }

    /// Reads an instrument file, or returns its first fault.
    pub fn read(alloc: Global, text: &[u8]) -> Result<Instruments, FileFault>
        ensures rows { IfOk result (λ file. Reads text.now (Ok file)) }
        ensures fault { IfErr result (IsFaultOf text.now) }
    {
        match toml::table_from_slice(alloc, text) {
            Ok(table) => read_document(alloc, &Value::Table(table)),
            Err(error) => {
                if error.is_memory() {
                    Err(FileFault::NoMemory)
                } else {
                    Err(FileFault::NotToml)
                }
            }
        }
    }

    pub(crate) fn as_slice(&self) -> &[Instrument]
        ensures rows { result.now ≡ self.now }
        ensures rule { is_instrument_file result.now ≡ true }
    {
        &self.rows
    }

    /// The number of instruments: 1 to 256.
    pub fn len(&self) -> usize
        ensures count { result ≡ length self.now }
        ensures rule { is_instrument_file self.now ≡ true }
    {
        self.rows.len()
    }

    /// The place of the instrument with this symbol in the file, from 0.
    pub fn find(&self, symbol: &[u8]) -> Option<u32>
        ensures { result ≡ position (λ row. bytes_eq symbol.now row.symbol) self.now }
    {
        match place_of(&self.rows, symbol) {
            Some(place) => Some(place as u32),
            None => None,
        }
    }

    pub fn get(&self, instrument: u32) -> &Instrument
        requires { instrument < length self.now }
        ensures row { slice_get self.now instrument ≡ Some result.now }
        ensures rule { is_instrument result.now ≡ true }
    {
        &self.rows[instrument as usize]
    }

    /// The delay between the entries of linked orders, in milliseconds: 1,000 to 3,600,000.
    pub fn delay(&self, instrument: u32) -> u64
        requires { instrument < length self.now }
        ensures delay { result ≡ delay_of self.now instrument }
        ensures rule { is_delay result ≡ true }
    {
        self.get(instrument).delay
    }
}
