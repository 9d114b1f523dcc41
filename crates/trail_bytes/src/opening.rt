//! The database that two files hold, opened over copies of their bytes.

ghost use Rattle.std.specs.Prelude.{◌≡◌, ◌==◌, IfOk, IfErr, Err, IsTrue, true};
ghost use Rattle.sqlite.specs.Files.{file_state};
ghost use Rattle.sqlite.specs.State.{HasCleanDisk};
ghost use Rattle.sqlite.specs.Opening.{is_open_error};
ghost use Rattle.sqlite.specs.declared.error.Error.TheVariants.{SqliteFailure};
ghost use Rattle.sqlite.specs.declared.error.ErrorCode.TheVariants.{NotADatabase};
ghost use Rattle.sqlite_disk.specs.Memory.{memory_bytes, memory_is_usable};
ghost use Rattle.trail_bytes.specs.Bytes.{HoldNone, IsOf, IsOpenFault, is_refusal};

use crate::memory::memory_of;
use sqlite::{Connection, Error, ErrorCode, FileStore};
use sqlite_disk::{Files, Memory, Tally};
use sqlite_pager::Options;
use std::alloc::Global;
use std::io;

/// Copies in memory of a log and a database file.
fn copies_of(alloc: Global, log: &[u8], db: &[u8]) -> io::Result<Files<Memory>>
    ensures log { IfOk result (λ files. memory_bytes files.log ≡ log.now) }
    ensures db { IfOk result (λ files. memory_bytes files.db ≡ db.now) }
    ensures usable { IfOk result (λ files. IsTrue (memory_is_usable files.log) × IsTrue (memory_is_usable files.db)) }
{
    let log = memory_of(alloc, log)?;
    let db = memory_of(alloc, db)?;
    Ok(Files { log, db })
}

/// Whether as many reads were caught before as after: none was in between.
fn is_uncaught(before: Tally, after: Tally) -> bool
    ensures { result ≡ (after.caught == before.caught) }
{
    after.caught == before.caught
}

/// The database that a log and a file with these bytes hold, over copies in memory. A file in memory returns what was
/// written, so that its disk is clean by definition. Bytes are refused only where they hold no database: a read that
/// does not return what was written is a failure of the disk.
pub fn open_bytes(
    alloc: Global,
    log: &[u8],
    db: &[u8],
    seed: u64,
) -> Result<Connection<FileStore<Memory>>, Error>
    ensures of_bytes { IfOk result (λ conn. IsOf log.now db.now (file_state conn).now) }
    ensures named { IfErr result (λ error. IsTrue (is_open_error error)) }
    ensures none { result ≡ Err (SqliteFailure NotADatabase) → HoldNone log.now db.now }
    ensures refused { IfErr result (λ error. is_refusal error ≡ true → HoldNone log.now db.now) }
    ensures fault { IfErr result IsOpenFault }
{
    let files = match copies_of(alloc, log, db) {
        Ok(files) => files,
        Err(_) => return Err(Error::SqliteFailure(ErrorCode::OutOfMemory)),
    };
    let before = files.tally();
    match Connection::open_files(alloc, files, Options::new(seed)) {
        Ok(conn) => Ok(conn),
        Err((error, left)) => {
            let after = left.into_files().tally();
            if is_uncaught(before, after) {
                Err(error)
            } else {
                Err(Error::SqliteFailure(ErrorCode::SystemIoFailure))
            }
        }
    }
}

/// Over files in memory each connection has a clean disk.
pub fn memory_is_clean(conn: &Connection<FileStore<Memory>>)
    ensures { HasCleanDisk (file_state conn.now) }
{}
