//! The file of a trail.

ghost use Rattle.std.specs.Prelude.{◌≡◌, ◌⊎◌, IfErr};
ghost use Rattle.once_session.specs.declared.fault.OnceFault.TheVariants.{Memory};
ghost use Rattle.venue_main.specs.declared.failure.Failure.TheVariants.{Served, Stopped};
ghost use Rattle.venue_main.specs.declared.serve.ServeFault.TheVariants.{Trail};

use crate::failure::Failure;
use crate::once::OnceFault;
use crate::refused::Refused;
use crate::serve::ServeFault;
use crate::trail_place::TrailPlace;
use program_shell::{TrailEnd, may_be_database};
use sqlite::{Connection, Error as StoreError, ErrorCode, File, FileStore};
use std::alloc::Global;
use std::fs::{self, File as SystemFile, OpenOptions};
use std::io::{self, ErrorKind, Write};

/// The bytes of the probe at a time, and how often: together more than the log's pages of a row.
const PROBE_BLOCK: usize = 4_096;

const PROBE_BLOCKS: usize = 32;

/// Opens the file at a path as a database, or makes one where there is none. The file is checked first, so that none
/// that is no database is touched, and then that it and its folder can be written: nobody is served whose first message
/// could not be stored.
pub fn open_trail(
    rt: &HostRuntime,
    path: &str,
) -> Result<(Connection<FileStore<File>>, TrailPlace), Refused> {
    refuse_non_database(rt, path)?;
    refuse_unwritable(rt, path)?;
    let conn = match Connection::open(rt, path) {
        Ok(conn) => conn,
        Err(error) => return Err(Refused::from(Failure::from(TrailEnd::from(error)))),
    };
    match TrailPlace::of(rt, rt.alloc(), path) {
        Ok(place) => Ok((conn, place)),
        Err(_) => {
            drop(conn);
            Err(Refused::from(Failure::Stopped(OnceFault::Memory)))
        }
    }
}

/// Opens the database at a path, which is there, to read it.
pub fn open_kept(rt: &HostRuntime, path: &str) -> Result<Connection<FileStore<File>>, Refused> {
    match fs::metadata(rt, path) {
        Ok(_) => {}
        Err(error) => return Err(Refused::of_file(rt.alloc(), path, &error)),
    }
    refuse_non_database(rt, path)?;
    match Connection::open(rt, path) {
        Ok(conn) => Ok(conn),
        Err(error) => Err(Refused::from(Failure::from(TrailEnd::from(error)))),
    }
}

/// Closes the database of a trail: its log is copied into the file, which then has all rows. A served trail is not
/// refused here: where the log is not copied the disk failed. A trail whose file is no longer at its path is closed as
/// well, and is a failure.
pub fn close_trail(
    rt: &HostRuntime,
    conn: Connection<FileStore<File>>,
    place: &TrailPlace,
) -> Result<(), Failure>
    ensures { IfErr result (λ failure. (failure ≡ Stopped Memory) ⊎ (failure ≡ Served Trail)) }
{
    let is_left = place.is_left(rt);
    match conn.close() {
        Ok(()) if is_left => Err(Failure::Served(ServeFault::Trail)),
        Ok(()) => Ok(()),
        Err(StoreError::SqliteFailure(ErrorCode::OutOfMemory)) => Err(Failure::Stopped(
            OnceFault::Memory,
        )),
        Err(_) => Err(Failure::Served(ServeFault::Trail)),
    }
}

/// Refuses a file that is no database: opened as one it could become one. `Input` where the file exists and cannot be
/// read.
fn refuse_non_database(rt: &HostRuntime, path: &str) -> Result<(), Refused> {
    match fs::open(rt, path) {
        Ok(file) => match may_be_database(rt.alloc(), file) {
            Ok(true) => Ok(()),
            Ok(false) => Err(Refused::from(Failure::Trail(1))),
            Err(error) => Err(Refused::of_file(rt.alloc(), path, &error)),
        },
        Err(error) => match error.kind() {
            ErrorKind::NotFound => Ok(()),
            _ => Err(Refused::of_file(rt.alloc(), path, &error)),
        },
    }
}

/// Refuses a trail that could not be written: the file and its log, where they exist, and a probe in its folder.
fn refuse_unwritable(rt: &HostRuntime, path: &str) -> Result<(), Failure>
    ensures { IfErr result (λ failure. (failure ≡ Stopped Memory) ⊎ (failure ≡ Served Trail)) }
{
    open_to_write(rt, path)?;
    let log = companion(rt.alloc(), path, "-wal")?;
    open_to_write(rt, &log)?;
    let probe = companion(rt.alloc(), path, "-probe")?;
    match write_probe(rt, &probe) {
        Ok(()) => Ok(()),
        Err(error) => unless_absent(error.kind()),
    }
}

/// The path of a file in the folder of the one at this path.
fn companion(alloc: Global, path: &str, suffix: &str) -> Result<String, Failure>
    ensures { IfErr result (λ failure. (failure ≡ Stopped Memory) ⊎ (failure ≡ Served Trail)) }
{
    match format!(in alloc; "{path}{suffix}") {
        Ok(companion) => Ok(companion),
        Err(_) => Err(Failure::Stopped(OnceFault::Memory)),
    }
}

/// Opens a file for writing, where it exists, and changes nothing.
fn open_to_write(rt: &HostRuntime, path: &str) -> Result<(), Failure>
    ensures { IfErr result (λ failure. (failure ≡ Stopped Memory) ⊎ (failure ≡ Served Trail)) }
{
    let mut options = OpenOptions::new();
    options.write(true);
    match options.open(rt, path) {
        Ok(file) => {
            drop(file);
            Ok(())
        }
        Err(error) => unless_absent(error.kind()),
    }
}

/// Writes more than a row takes to a file, syncs it, and removes the file.
fn write_probe(rt: &HostRuntime, path: &str) -> io::Result<()> {
    let file = SystemFile::create(rt, path)?;
    let written = fill(file);
    let removed = fs::remove_file(rt, path);
    written?;
    removed
}

fn fill(file: SystemFile) -> io::Result<()> {
    let mut file = file;
    let block = [0; PROBE_BLOCK];
    for _ in 0..PROBE_BLOCKS {
        file.write_all(&block)?;
    }
    file.sync_all()
}

/// No failure where a file or its folder does not exist: opening the database makes the one, and refuses the other.
fn unless_absent(kind: ErrorKind) -> Result<(), Failure>
    ensures { IfErr result (λ failure. (failure ≡ Stopped Memory) ⊎ (failure ≡ Served Trail)) }
{
    match kind {
        ErrorKind::NotFound => Ok(()),
        ErrorKind::OutOfMemory => Err(Failure::Stopped(OnceFault::Memory)),
        _ => Err(Failure::Served(ServeFault::Trail)),
    }
}
