//! Two trails compared, from the bytes of their files alone.

ghost use Rattle.std.specs.Prelude.{◌≡◌, ◌≤◌, ◌⊎◌, ◌↔◌, All, length, None, IfErr, IfOk, IsTrue, OnOk};
ghost use Rattle.std.specs.Io.KnownBytes.{Keeps};
ghost use Rattle.venue_core.specs.Plan.{most_items};
ghost use Rattle.venue_core.specs.Replay.{IsItem};
ghost use Rattle.trail_comparison.specs.Comparison.{BeginsComparison, EmitsComparison};
ghost use Rattle.trail_comparison.specs.declared.fault.ComparisonFault.TheVariants as comparison_fault;
ghost use Rattle.sef_replay.specs.Compared.{AreAlike, FailsToCompare, IsDayOver, read_side};
ghost use Rattle.sef_replay.specs.Copied.{FailsOver};

use crate::copied::Copied;
use crate::failure::Failure;
use crate::reading::{ReadDay, read_day};
use crate::replaying::KeptDay;
use std::alloc::Global;
use std::io::Write;
use trail_bytes::{memory_is_clean, open_bytes};
use trail_comparison::{ComparisonFault, Day, print_comparison};
use trail_digest::Contents;

/// Why two trails, A and B, are not said to be the same.
#[derive(Drop)]
pub enum ComparedFailure {
    /// A is refused, or reading it stopped.
    OfA(Failure),
    /// B is.
    OfB(Failure),
    /// They were compared, and differ.
    Differ,
    /// An allocation failed.
    Memory,
    /// A write failed.
    Output,
}

/// The day of the trail that these bytes hold. They are read in memory: no file is opened.
pub(crate) fn day_of(alloc: Global, copied: Copied, seed: u64) -> Result<ReadDay, Failure>
    ensures read { IfOk result (λ day. IsDayOver copied.log.items copied.db.items (read_side day)) }
    ensures items { IfOk result (λ day. All IsItem day.day.rows.items) }
    ensures few { IfOk result (λ day. length day.day.rows.items ≤ most_items) }
    ensures fault { IfErr result (FailsOver None copied.log.items copied.db.items None None) }
{
    let Copied { log, db } = copied;
    let opened = open_bytes(alloc, log.as_slice(), db.as_slice(), seed);
    drop(log);
    drop(db);
    let conn = match opened {
        Ok(conn) => conn,
        Err(error) => return Err(Failure::from(error)),
    };
    match read_day(alloc, conn) {
        Ok((day, conn)) => {
            memory_is_clean(&conn);
            drop(conn);
            Ok(day)
        }
        Err((failure, conn)) => {
            memory_is_clean(&conn);
            drop(conn);
            Err(failure)
        }
    }
}

/// Writes how two days differ.
fn print_days<W: Write>(
    alloc: Global,
    a: ReadDay,
    b: ReadDay,
    writer: &mut W,
) -> Result<bool, ComparisonFault>
    requires kept { All IsItem a.day.rows.items }
    requires few { length a.day.rows.items ≤ most_items }
    ensures emitted { OnOk result (EmitsComparison (read_side a) (read_side b) (W.contents writer.old) (W.contents writer.new)) }
    ensures same { IfOk result (λ same. IsTrue same ↔ ((read_side a).trail ≡ (read_side b).trail)) }
    ensures begun { IfErr result (λ fault. fault ≡ comparison_fault.Memory → Keeps (W.contents writer.old) (W.contents writer.new) ⊎ BeginsComparison (read_side a) (read_side b) (W.contents writer.old) (W.contents writer.new)) }
{
    let ReadDay {
        files,
        delays,
        day: KeptDay {
            participants,
            instruments,
            rows,
        },
    } = a;
    let ReadDay {
        files: other_files,
        delays: other_delays,
        day: KeptDay {
            participants: other_participants,
            instruments: other_instruments,
            rows: other_rows,
        },
    } = b;
    let one = Day {
        participants,
        instruments,
        contents: Contents {
            participants: files.participants.as_slice(),
            instruments: files.instruments.as_slice(),
            delays: delays.as_slice(),
            rows: rows.as_slice(),
        },
    };
    let other = Day {
        participants: other_participants,
        instruments: other_instruments,
        contents: Contents {
            participants: other_files.participants.as_slice(),
            instruments: other_files.instruments.as_slice(),
            delays: other_delays.as_slice(),
            rows: other_rows.as_slice(),
        },
    };
    print_comparison(alloc, one, other, writer)
}

/// Prints how the trails that these bytes hold, A and B, differ. They are read and replayed in memory: no file is
/// opened or written, and there is no premise on a disk. Ok only where files, delays and rows are the same.
pub fn print_compared<W: Write>(
    alloc: Global,
    a: Copied,
    b: Copied,
    seed: u64,
    writer: &mut W,
) -> Result<(), ComparedFailure>
    ensures emitted { OnOk result (AreAlike a b (W.contents writer.old) (W.contents writer.new)) }
    ensures failed { IfErr result (FailsToCompare a b (W.contents writer.old) (W.contents writer.new)) }
{
    let one = match day_of(alloc, a, seed) {
        Ok(day) => day,
        Err(failure) => return Err(ComparedFailure::OfA(failure)),
    };
    let other = match day_of(alloc, b, seed) {
        Ok(day) => day,
        Err(failure) => {
            drop(one);
            return Err(ComparedFailure::OfB(failure));
        }
    };
    match print_days(alloc, one, other, writer) {
        Ok(true) => Ok(()),
        Ok(false) => Err(ComparedFailure::Differ),
        Err(ComparisonFault::Memory) => Err(ComparedFailure::Memory),
        Err(ComparisonFault::Output) => Err(ComparedFailure::Output),
    }
}
