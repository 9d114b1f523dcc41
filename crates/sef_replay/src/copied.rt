//! A report on a trail from the bytes of its files alone.

ghost use Rattle.std.specs.Prelude.{◌≡◌, ◌⊎◌, IfErr, OnOk};
ghost use Rattle.std.specs.Io.KnownBytes.{Keeps};
ghost use Rattle.sef_replay.specs.Copied.{BeginsOver, EmitsOver, FailsOver};
ghost use Rattle.sef_replay.specs.Day.{UnlessPrinting};
ghost use Rattle.sef_replay.specs.declared.failure.Failure.TheVariants.{Stopped};
ghost use Rattle.sef_replay.specs.declared.failure.Stop.TheVariants.{Memory};

use crate::failure::Failure;
use crate::report::print_wanted;
use std::alloc::Global;
use std::io::Write;
use trail_bytes::{memory_is_clean, open_bytes};
use trail_questions::Question;

/// The bytes of a trail's two files.
#[derive(Drop)]
pub struct Copied {
    pub log: Vec<u8>,
    pub db: Vec<u8>,
}

/// Prints the report on the trail that these bytes hold. They are replayed in memory: no file is opened or written, and
/// there is no premise on a disk.
pub fn print_copied<W: Write>(
    alloc: Global,
    copied: Copied,
    seed: u64,
    wanted: &Option<Question<'_>>,
    writer: &mut W,
) -> Result<(), Failure>
    ensures emitted { OnOk result (EmitsOver wanted.now copied.log.items copied.db.items (W.contents writer.old) (W.contents writer.new)) }
    ensures fault { IfErr result (FailsOver wanted.now copied.log.items copied.db.items (W.contents writer.old) (W.contents writer.new)) }
    ensures unwritten { IfErr result (λ failure. UnlessPrinting failure (Keeps (W.contents writer.old) (W.contents writer.new))) }
    ensures begun { IfErr result (λ failure. failure ≡ Stopped Memory → Keeps (W.contents writer.old) (W.contents writer.new) ⊎ BeginsOver wanted.now copied.log.items copied.db.items (W.contents writer.old) (W.contents writer.new)) }
{
    let Copied { log, db } = copied;
    let opened = open_bytes(alloc, log.as_slice(), db.as_slice(), seed);
    drop(log);
    drop(db);
    let conn = match opened {
        Ok(conn) => conn,
        Err(error) => return Err(Failure::from(error)),
    };
    match print_wanted(alloc, conn, wanted, writer) {
        Ok(conn) => {
            memory_is_clean(&conn);
            drop(conn);
            Ok(())
        }
        Err((failure, conn)) => {
            memory_is_clean(&conn);
            drop(conn);
            Err(failure)
        }
    }
}
