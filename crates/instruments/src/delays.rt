//! Other delays for the instruments of a file.

ghost use Rattle.std.specs.Prelude.{◌≡◌, true, length, IfOk, IfErr};
ghost use Rattle.std.specs.List.{list_all};
ghost use Rattle.instruments.specs.Delays.{RefusesDelays, are_delays, delayed, with_delay, with_delays};
ghost use Rattle.instruments.specs.Rows.{is_delay};

use crate::fault::DelayFault;
use crate::instruments::{Instrument, Instruments};
use config_format::Name as Symbol;
use std::alloc::{AllocError, Global};

fn is_delay(ms: u64) -> bool
    ensures { result ≡ is_delay ms }
{
    1_000 <= ms && ms <= 3_600_000
}

fn are_delays(delays: &[u64]) -> bool
    ensures { result ≡ are_delays delays.now }
{
    delays.iter().all(|ms| is_delay(*ms))
}

fn with_delay(alloc: Global, row: &Instrument, ms: u64) -> Result<Instrument, AllocError>
    ensures { IfOk result (λ made. made ≡ with_delay row.now ms) }
{
    let symbol = Symbol::from_slice(alloc, row.symbol.as_slice())?;
    Ok(Instrument {
        symbol,
        tick: row.tick,
        least: row.least,
        request_life: row.request_life,
        delay: ms,
    })
}

/// The instruments with these delays, one for each.
fn with_delays(
    alloc: Global,
    rows: &[Instrument],
    delays: &[u64],
) -> Result<Vec<Instrument>, AllocError>
    requires { length delays.now ≡ length rows.now }
    ensures { IfOk result (λ made. made.items ≡ with_delays rows.now delays.now) }
{
    let mut made = Vec::new(alloc);
    for (place, row) in rows.iter().enumerate() {
        let row = with_delay(alloc, row, delays[place])?;
        made.push(row)?;
    }
    Ok(made)
}

impl Instruments {
    /// The same instruments with these delays, in milliseconds, one for each in the file's order.
    pub fn with_delays(&self, alloc: Global, delays: &[u64]) -> Result<Instruments, DelayFault>
        ensures rows { IfOk result (λ file. delayed self.now delays.now ≡ Ok file) }
        ensures fault { IfErr result (RefusesDelays (delayed self.now delays.now)) }
    {
        if delays.len() != self.len() {
            return Err(DelayFault::Count);
        }
        if !are_delays(delays) {
            return Err(DelayFault::Range);
        }
        let Ok(rows) = with_delays(alloc, self.as_slice(), delays) else {
            return Err(DelayFault::NoMemory);
        };
        let Ok(file) = Instruments::from_rows(alloc, rows) else {
            return Err(DelayFault::NoMemory);
        };
        Ok(file)
    }
}
