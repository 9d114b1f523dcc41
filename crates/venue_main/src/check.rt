//! The `check` command: reads the two files of a venue.

ghost use Rattle.std.specs.Prelude.{List, OnOk, IfErr};
ghost use Rattle.std.specs.Io.KnownBytes.{Appends, Keeps};
ghost use Rattle.participants.specs.ParticipantFile.{ParticipantFile};
ghost use Rattle.instruments.specs.declared.instruments.Instrument.{Instrument};
ghost use Rattle.venue_main.specs.Check.{AreRead, Stops, UnlessWriting, counted, summary};

use crate::market::{FilesFault, Market};
use std::alloc::Global;
use std::io::{self, Write};
use thiserror::Error;

/// Why no counts were written.
#[derive(Clone, Copy, Debug, PartialEq, Eq, Error)]
pub enum CheckFault {
    /// 1: the participant file is refused.
    #[error("participants: {0}")]
    Participants(participants::FileFault),
    /// 2: the instrument file is refused, where the participant file is not.
    #[error("instruments: {0}")]
    Instruments(instruments::FileFault),
    /// 3: a write failed.
    #[error("output")]
    Output,
}

/// Reads the texts of both files, and writes the counts of participants, related pairs and instruments, as one line:
/// `participants 5 related 1 instruments 2`. Nothing is written where a file is refused.
pub fn check<W: Write>(
    alloc: Global,
    participants_text: &[u8],
    instruments_text: &[u8],
    writer: &mut W,
) -> Result<(), CheckFault>
    ensures emitted { OnOk result ((file : ParticipantFile) × (rows : List Instrument) × AreRead participants_text.now instruments_text.now file rows
        × Appends (W.contents writer.old) (W.contents writer.new) (summary file rows)) }
    ensures fault { IfErr result (Stops participants_text.now instruments_text.now) }
    ensures unwritten { IfErr result (λ fault. UnlessWriting fault (Keeps (W.contents writer.old) (W.contents writer.new))) }
{
    let market = match Market::read(alloc, participants_text, instruments_text) {
        Ok(market) => market,
        Err(FilesFault::Participants(fault)) => return Err(CheckFault::Participants(fault)),
        Err(FilesFault::Instruments(fault)) => return Err(CheckFault::Instruments(fault)),
    };
    let emitted = write_summary(&market, writer);
    drop(market);
    match emitted {
        Ok(()) => Ok(()),
        Err(_) => Err(CheckFault::Output),
    }
}

/// Writes the counts of the files.
fn write_summary<W: Write>(market: &Market, writer: &mut W) -> io::Result<()>
    ensures { OnOk result (Appends (W.contents writer.old) (W.contents writer.new) (summary market.now.participants market.now.instruments)) }
{
    let names = market.participants.len();
    let pairs = market.participants.pairs();
    let rows = market.instruments.len();
    write_counts(names, pairs.len(), rows, writer)
}

/// Writes these counts as one line.
fn write_counts<W: Write>(names: usize, pairs: usize, rows: usize, writer: &mut W) -> io::Result<()>
    ensures { OnOk result (Appends (W.contents writer.old) (W.contents writer.new) (counted names pairs rows)) }
{
    writeln!(
        writer,
        "participants {names} related {pairs} instruments {rows}"
    )?;
    writer.flush()
}
