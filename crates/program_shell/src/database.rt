//! The first bytes of a file, before it is opened as a database.

ghost use Rattle.std.specs.Prelude.{◌≡◌, ◌↔◌, codes, IfOk, IfSome, IsTrue, take};
ghost use Rattle.program_shell.specs.Database.{may_begin};

use std::alloc::Global;
use std::io::{self, Read};

/// The first bytes of an SQLite database, with the byte 0 at the end.
const SQLITE_MAGIC: &[u8] = b"SQLite format 3\0";

/// Whether bytes begin as those of an SQLite database.
pub fn is_database<R: Read + Drop>(alloc: Global, reader: R) -> io::Result<bool>
    ensures { IfOk result (λ found. IfSome (R.remaining reader) (λ bytes. IsTrue found ↔ (take 16 bytes ≡ codes "SQLite format 3\0"))) }
{
    let mut first = Vec::new(alloc);
    reader.take(16).read_to_end(&mut first)?;
    Ok(first.as_slice() == SQLITE_MAGIC)
}

/// Whether bytes may be those of a database: none; those of one that was not finished, which begins with a byte 0 and
/// is left to the store; or as an SQLite database begins.
pub fn may_be_database<R: Read + Drop>(alloc: Global, reader: R) -> io::Result<bool>
    ensures { IfOk result (λ may. IfSome (R.remaining reader) (λ bytes. may ≡ may_begin (take 16 bytes))) }
{
    let mut first = Vec::new(alloc);
    reader.take(16).read_to_end(&mut first)?;
    Ok(may_begin(first.as_slice()))
}

fn may_begin(first: &[u8]) -> bool
    ensures { result ≡ may_begin first.now }
{
    match first.first() {
        None => true,
        Some(0) => true,
        Some(_) => first == SQLITE_MAGIC,
    }
}
