//! Files on the command line that would be written to another one of the venue.

ghost use Rattle.std.specs.Prelude.{◌≡◌, Err, is_some, true, false};
ghost use Rattle.venue_main.specs.declared.failure.Failure.TheVariants.{HeadsWithoutTrail};

use crate::failure::Failure;
use crate::files::Paths;
use crate::once::OnceFault;
use crate::operation::{KeptPaths, Operation};
use std::alloc::{AllocError, Global};
use std::fs;
use std::os::unix::fs::MetadataExt;
use std::path::Path;

/// The most links that are followed.
const MAX_LINKS: u32 = 40;

/// Refuses heads of no trail, and a file of heads or of counters that is another file of the venue: the participants,
/// the instruments, the trail, its log or its probe, the stop file, or each other.
pub fn refuse_shared(
    rt: &HostRuntime,
    paths: &Paths,
    kept: &KeptPaths,
    operation: &Operation,
) -> Result<(), Failure>
    ensures { is_some kept.now.heads ≡ true → is_some kept.now.trail ≡ false → result ≡ Err HeadsWithoutTrail }
{
    if kept.heads.is_some() && kept.trail.is_none() {
        return Err(Failure::HeadsWithoutTrail);
    }
    match shared_by(rt, paths, kept, operation) {
        Ok(None) => Ok(()),
        Ok(Some(failure)) => Err(failure),
        Err(_) => Err(Failure::Stopped(OnceFault::Memory)),
    }
}

/// The refusal of a file that is shared, if there is one.
fn shared_by(
    rt: &HostRuntime,
    paths: &Paths,
    kept: &KeptPaths,
    operation: &Operation,
) -> Result<Option<Failure>, AllocError> {
    let mut others = others_of(rt.alloc(), paths, kept, operation)?;
    if is_one_of(rt, &kept.heads, &others)? {
        return Ok(Some(Failure::SharedHeads));
    }
    add(&mut others, rt.alloc(), &kept.heads, "")?;
    if is_one_of(rt, &operation.metrics, &others)? {
        return Ok(Some(Failure::SharedMetrics));
    }
    let temporary = with_suffix(rt.alloc(), &operation.metrics, ".tmp")?;
    if is_one_of(rt, &temporary, &others)? {
        return Ok(Some(Failure::SharedMetrics));
    }
    Ok(None)
}

/// The files that are read or written as something else.
fn others_of(
    alloc: Global,
    paths: &Paths,
    kept: &KeptPaths,
    operation: &Operation,
) -> Result<Vec<String>, AllocError> {
    let mut others = Vec::new(alloc);
    others.push(String::from_str(alloc, &paths.participants)?)?;
    others.push(String::from_str(alloc, &paths.instruments)?)?;
    add(&mut others, alloc, &kept.trail, "")?;
    add(&mut others, alloc, &kept.trail, "-wal")?;
    add(&mut others, alloc, &kept.trail, "-probe")?;
    add(&mut others, alloc, &operation.stop_file, "")?;
    Ok(others)
}

/// Adds the path with a suffix, where one is given.
fn add(
    others: &mut Vec<String>,
    alloc: Global,
    path: &Option<String>,
    suffix: &str,
) -> Result<(), AllocError> {
    if let Some(other) = with_suffix(alloc, path, suffix)? {
        others.push(other)?;
    }
    Ok(())
}

/// The path with a suffix, where one is given.
fn with_suffix(
    alloc: Global,
    path: &Option<String>,
    suffix: &str,
) -> Result<Option<String>, AllocError> {
    match path {
        None => Ok(None),
        Some(path) => {
            let mut whole = String::from_str(alloc, path)?;
            whole.push_str(suffix)?;
            Ok(Some(whole))
        }
    }
}

/// Whether a path is one of a file among these.
fn is_one_of(
    rt: &HostRuntime,
    path: &Option<String>,
    others: &[String],
) -> Result<bool, AllocError> {
    let Some(path) = path else {
        return Ok(false);
    };
    for other in others {
        if is_same_file(rt, path, other)? {
            return Ok(true);
        }
    }
    Ok(false)
}

/// Whether two paths lead to one file, or would once it is made.
fn is_same_file(rt: &HostRuntime, one: &str, other: &str) -> Result<bool, AllocError> {
    if is_same_node(rt, one, other) {
        return Ok(true);
    }
    let one = place_of(rt, one)?;
    let other = place_of(rt, other)?;
    Ok(one.as_str() == other.as_str())
}

/// Whether both paths are those of one file that is there.
fn is_same_node(rt: &HostRuntime, one: &str, other: &str) -> bool {
    match (fs::metadata(rt, one), fs::metadata(rt, other)) {
        (Ok(one), Ok(other)) => one.dev() == other.dev() && one.ino() == other.ino(),
        _ => false,
    }
}

/// The path with its links followed, also where what they lead to is not there, and those of its folder, where that is.
fn place_of(rt: &HostRuntime, path: &str) -> Result<String, AllocError> {
    let mut place = String::from_str(rt.alloc(), path)?;
    for _ in 0..MAX_LINKS {
        let Ok(target) = fs::read_link(rt, &place) else {
            break;
        };
        place = behind(rt, &place, &target.into_string())?;
    }
    in_folder(rt, &place)
}

/// The path that a link at this path leads to.
fn behind(rt: &HostRuntime, link: &str, target: &str) -> Result<String, AllocError> {
    match Path::new(link).parent() {
        None => String::from_str(rt.alloc(), target),
        Some(folder) => Ok(folder.join(rt.alloc(), target)?.into_string()),
    }
}

/// The path with its folder's links followed, where that is there.
fn in_folder(rt: &HostRuntime, path: &str) -> Result<String, AllocError> {
    let place = Path::new(path);
    let folder = match place.parent() {
        Some(folder) => folder.as_str(),
        None => "",
    };
    let name = match place.file_name() {
        Some(name) => name,
        None => "",
    };
    let folder = if folder.is_empty() { "." } else { folder };
    match fs::canonicalize(rt, folder) {
        Ok(whole) => joined(whole.into_string(), name),
        Err(_) => String::from_str(rt.alloc(), path),
    }
}

fn joined(folder: String, name: &str) -> Result<String, AllocError> {
    let mut whole = folder;
    whole.push_str("/")?;
    whole.push_str(name)?;
    Ok(whole)
}
