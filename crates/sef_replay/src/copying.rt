//! Reading the bytes of a trail's two files, which are not opened for writing.

use crate::copied::Copied;
use crate::failure::{Failure, Stop};
use crate::refused::Refused;
use std::alloc::Global;
use std::fs;
use std::io::{self, ErrorKind, Read};
use std::path::PathBuf;

/// How many bytes a log has at its head. Another head means that the log was restarted.
const HEAD: u64 = 32;

/// How often the files are read where a venue restarts the log while they are read.
const MOST_READS: u32 = 64;

/// The bytes of the trail at a path and of its log, as one moment had them, also while a venue has it open. A venue
/// moves the content of the log into the file, and then restarts the log with another head: bytes read in the midst of
/// that would not fit, so they are read again until the head stayed as it was.
pub fn copied_from(rt: &HostRuntime, path: &str) -> Result<Copied, Refused> {
    // As in SQLite, the log lies next to the file that a link leads to.
    let real = match fs::canonicalize(rt, path) {
        Ok(real) => real,
        Err(error) => return Err(refused_for(rt.alloc(), path, &error)),
    };
    require_no_journal(rt, &real)?;
    for _ in 0..MOST_READS {
        if let Some(copied) = copied_once(rt, &real)? {
            return Ok(copied);
        }
    }
    Err(Refused::of_word(
        rt.alloc(),
        Failure::Stopped(Stop::Input),
        path,
        "its log was restarted each time that it was read",
    ))
}

/// The bytes of both files, unless the log was restarted while they were read.
fn copied_once(rt: &HostRuntime, real: &PathBuf) -> Result<Option<Copied>, Refused> {
    let before = log_head(rt, real)?;
    let db = file_at(rt, real.as_str())?;
    let log = log_at(rt, real)?;
    let after = log_head(rt, real)?;
    if before.as_slice() == after.as_slice() {
        Ok(Some(Copied { log, db }))
    } else {
        Ok(None)
    }
}

pub fn file_at(rt: &HostRuntime, path: &str) -> Result<Vec<u8>, Refused> {
    match fs::read(rt, path) {
        Ok(bytes) => Ok(bytes),
        Err(error) => Err(refused_for(rt.alloc(), path, &error)),
    }
}

/// The name of a file next to the database.
fn neighbor(rt: &HostRuntime, real: &PathBuf, ending: &str) -> Result<String, Refused> {
    match format!(in rt.alloc(); "{}{ending}", real.as_str()) {
        Ok(name) => Ok(name),
        Err(_) => Err(Refused::from(Failure::Stopped(Stop::Memory))),
    }
}

/// The bytes of the log; none where there is no log.
fn log_at(rt: &HostRuntime, real: &PathBuf) -> Result<Vec<u8>, Refused> {
    let name = neighbor(rt, real, "-wal")?;
    match fs::read(rt, name.as_str()) {
        Ok(bytes) => Ok(bytes),
        Err(error) => match error.kind() {
            ErrorKind::NotFound => Ok(Vec::new(rt.alloc())),
            _ => Err(refused_for(rt.alloc(), &name, &error)),
        },
    }
}

/// The first bytes of the log; none where there is no log.
fn log_head(rt: &HostRuntime, real: &PathBuf) -> Result<Vec<u8>, Refused> {
    let name = neighbor(rt, real, "-wal")?;
    match first_bytes(rt, name.as_str(), HEAD) {
        Ok(bytes) => Ok(bytes),
        Err(error) => match error.kind() {
            ErrorKind::NotFound => Ok(Vec::new(rt.alloc())),
            _ => Err(refused_for(rt.alloc(), &name, &error)),
        },
    }
}

fn first_bytes(rt: &HostRuntime, path: &str, count: u64) -> io::Result<Vec<u8>> {
    let file = fs::open(rt, path)?;
    let mut first = Vec::new(rt.alloc());
    file.take(count).read_to_end(&mut first)?;
    Ok(first)
}

/// Whether a journal has something to apply: it is not empty, and does not begin with a zero.
fn is_hot(first: &[u8]) -> bool {
    match first.first() {
        Some(byte) => *byte != 0,
        None => false,
    }
}

/// Refuses a database next to a rollback journal that only SQLite can apply.
fn require_no_journal(rt: &HostRuntime, real: &PathBuf) -> Result<(), Refused> {
    let name = neighbor(rt, real, "-journal")?;
    match first_bytes(rt, name.as_str(), 1) {
        Ok(first) => {
            if is_hot(&first) {
                Err(Refused::of_word(
                    rt.alloc(),
                    Failure::Trail(1),
                    name.as_str(),
                    "a rollback journal, which sqlite3 applies when it opens the file",
                ))
            } else {
                Ok(())
            }
        }
        Err(error) => match error.kind() {
            ErrorKind::NotFound => Ok(()),
            _ => Err(refused_for(rt.alloc(), &name, &error)),
        },
    }
}

/// The refusal of a file that cannot be read.
fn refused_for(alloc: Global, path: &str, error: &io::Error) -> Refused {
    match error.kind() {
        ErrorKind::OutOfMemory => Refused::from(Failure::Stopped(Stop::Memory)),
        ErrorKind::NotFound => Refused::of_word(
            alloc,
            Failure::Trail(1),
            path,
            "there is no such file",
        ),
        _ => match format!(in alloc; "{error}") {
            Ok(text) => Refused::of_word(alloc, Failure::Stopped(Stop::Input), path, &text),
            Err(_) => Refused::from(Failure::Stopped(Stop::Input)),
        },
    }
}
