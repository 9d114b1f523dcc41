//! What a scenario prints, and the allocation failures that it may meet.

use anyhow::{Result, bail, ensure};
use sef_moment::Moment;
use std::alloc::{AllocError, Global};
use std::mem::drop;
use venue_rules::{TrailFault, TrailRow};

/// 3 March 2025, 14:30 UTC, in milliseconds.
const START: u64 = 1_741_012_200_000;

/// The same as a moment.
pub fn start_moment() -> Moment {
    Moment::of_ms(START).unwrap()
}

/// The transcript with the answers that came, and how many more calls may fail to allocate: as many as allocations that
/// were made to fail, so that no call fails without that cause.
#[derive(Drop)]
pub struct Scenario {
    pub alloc: Global,
    emitted: Vec<u8>,
    left: u32,
}

// Appends a line.
fn write(line: &str, emitted: &mut Vec<u8>) -> Result<(), AllocError> {
    emitted.extend_from_slice(line.as_bytes())?;
    emitted.extend_from_slice(b"\n")
}

// Appends an indented line: words and a number.
fn write_number(
    alloc: Global,
    words: &str,
    number: u64,
    emitted: &mut Vec<u8>,
) -> Result<(), AllocError> {
    let line = format!(in alloc; "  {words} {number}")?;
    write(line.as_str(), emitted)
}

// Appends a byte, with `|` for SOH.
fn write_byte(byte: u8, emitted: &mut Vec<u8>) -> Result<(), AllocError> {
    emitted.push(if byte == 1 { b'|' } else { byte })?;
    Ok(())
}

// Appends a row, with `|` for SOH, and its moment in milliseconds after the start.
fn write_row(alloc: Global, row: &TrailRow, emitted: &mut Vec<u8>) -> Result<(), AllocError> {
    let (n, who, era, number) = (row.n, row.who, row.era, row.number);
    let after = row.moment.ms().saturating_sub(START);
    let front = format!(in alloc; "  {n} at {after}: {who} era {era} number {number} ")?;
    emitted.extend_from_slice(front.as_bytes())?;
    for byte in row.text.as_slice() {
        write_byte(*byte, emitted)?;
    }
    emitted.extend_from_slice(b"\n")
}

/// The lines of it, unless printing them failed.
pub fn if_emitted<T: Drop>(emitted: Result<()>, value: T) -> Result<T> {
    match emitted {
        Ok(()) => Ok(value),
        Err(error) => {
            drop(value);
            Err(error)
        }
    }
}

impl Scenario {
    pub fn new(alloc: Global, left: u32) -> Scenario {
        Scenario {
            alloc,
            emitted: Vec::new(alloc),
            left,
        }
    }

    pub fn emitted(&self) -> &[u8] {
        &self.emitted
    }

    /// A call failed. An error where no allocation can have failed.
    pub fn refused(&mut self) -> Result<()> {
        ensure!(self.left > 0, "a call failed, and no allocation did");
        self.left -= 1;
        Ok(())
    }

    /// A call failed with this fault, and what its caller sees is as before, or not. An error where the fault is no
    /// allocation failure.
    pub fn met(&mut self, fault: &TrailFault, is_as_before: bool) -> Result<()> {
        match fault {
            TrailFault::NoMemory => {}
            _ => bail!("a fault that is no allocation failure"),
        }
        ensure!(is_as_before, "a refused call changed what is seen");
        self.refused()
    }

    /// Appends a line, again where an allocation failed.
    pub fn echo(&mut self, line: &str) -> Result<()> {
        let before = self.emitted.len();
        if write(line, &mut self.emitted).is_ok() {
            return Ok(());
        }
        self.refused()?;
        self.emitted.truncate(before);
        Ok(write(line, &mut self.emitted)?)
    }

    /// Prints words and a number, again where an allocation failed.
    pub fn emit(&mut self, words: &str, number: u64) -> Result<()> {
        let before = self.emitted.len();
        if write_number(self.alloc, words, number, &mut self.emitted).is_ok() {
            return Ok(());
        }
        self.refused()?;
        self.emitted.truncate(before);
        Ok(write_number(self.alloc, words, number, &mut self.emitted)?)
    }

    /// Prints a fault. No allocation may fail.
    pub fn emit_fault(&mut self, fault: &TrailFault) -> Result<()> {
        let line = format!(in self.alloc; "  {fault}")?;
        self.echo(line.as_str())
    }

    /// Prints a row, again where an allocation failed.
    pub fn emit_row(&mut self, row: &TrailRow) -> Result<()> {
        let before = self.emitted.len();
        if write_row(self.alloc, row, &mut self.emitted).is_ok() {
            return Ok(());
        }
        self.refused()?;
        self.emitted.truncate(before);
        Ok(write_row(self.alloc, row, &mut self.emitted)?)
    }
}
