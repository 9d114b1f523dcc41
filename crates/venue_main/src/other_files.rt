//! What differs where a trail keeps other files than those given.

use crate::failure::Failure;
use crate::refused::Refused;
use audit_trail::{Files, Trail};
use file_diagnosis::differing_line;
use sqlite::Connection;
use std::alloc::{AllocError, Global};
use std::mem::drop;
use venue_rules::TrailFault;

/// The number of a trail's refusal where it keeps other files.
const OTHER_FILES: u8 = 2;

/// The failure over a trail at a path, with a line on what differs where it keeps other files than these.
pub fn with_difference(rt: &HostRuntime, path: &str, files: &Files, failure: Failure) -> Refused {
    let reason = match failure {
        Failure::Trail(OTHER_FILES) => difference_at(rt, path, files),
        _ => None,
    };
    Refused { failure, reason }
}

/// What differs from these files in those that the trail at a path keeps.
fn difference_at(rt: &HostRuntime, path: &str, files: &Files) -> Option<String> {
    let Ok(conn) = Connection::open(rt, path) else {
        return None;
    };
    match Trail::open(rt.alloc(), conn, None) {
        Ok(trail) => {
            let found = difference(rt.alloc(), trail.files(), files);
            drop(trail.into_connection());
            found.ok()
        }
        Err((fault, conn)) => {
            drop(conn);
            of_fault(rt.alloc(), &fault)
        }
    }
}

/// What is wrong with a file that a trail keeps, where it is read without others.
fn of_fault(alloc: Global, fault: &TrailFault) -> Option<String> {
    match fault {
        TrailFault::OtherFiles => {
            String::from_str(alloc, "the trail keeps a file that its reader refuses").ok()
        }
        _ => None,
    }
}

fn difference(alloc: Global, kept: &Files, given: &Files) -> Result<String, AllocError> {
    let participants = differing_line(kept.participants.as_slice(), given.participants.as_slice());
    if let Some(line) = participants {
        return of_line(alloc, "participant", line);
    }
    let instruments = differing_line(kept.instruments.as_slice(), given.instruments.as_slice());
    match instruments {
        Some(line) => of_line(alloc, "instrument", line),
        None => String::from_str(
            alloc,
            "the delays that it keeps are not those of the instrument file",
        ),
    }
}

fn of_line(alloc: Global, file: &str, line: usize) -> Result<String, AllocError> {
    format!(in alloc; "the trail keeps another {file} file: line {line} is the first that differs")
}
