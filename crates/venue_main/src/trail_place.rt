//! The place of a trail: its path, the file that stood there as it was opened, and that file's log.

ghost use Rattle.std.specs.Prelude.{◌≡◌, IfOk};

use std::alloc::{AllocError, Global};
use std::fs;
use std::os::unix::fs::MetadataExt;
use std::rt::Files;

/// A file, by its device and its number there. No other file has these while it is open.
#[derive(Clone, Copy, PartialEq, Eq)]
struct Node {
    device: u64,
    number: u64,
}

/// A path, and the file there; none where nothing stood there. The log has what was written since the file was opened.
#[derive(Drop)]
pub struct TrailPlace {
    path: String,
    node: Option<Node>,
    log_path: String,
    log: Option<Node>,
}

impl TrailPlace {
    /// The place of a file that is open.
    pub fn of<R: Files>(rt: &R, alloc: Global, path: &str) -> Result<TrailPlace, AllocError> {
        let mut log_path = String::from_str(alloc, path)?;
        log_path.push_str("-wal")?;
        Ok(TrailPlace {
            path: String::from_str(alloc, path)?,
            node: node_at(rt, path),
            log_path,
            log: None,
        })
    }

    /// The same place.
    pub fn copied(&self, alloc: Global) -> Result<TrailPlace, AllocError> {
        Ok(TrailPlace {
            path: String::from_str(alloc, &self.path)?,
            node: self.node,
            log_path: String::from_str(alloc, &self.log_path)?,
            log: self.log,
        })
    }

    pub fn path(&self) -> &str {
        &self.path
    }

    /// Whether the file that was opened is no longer at its path: it was removed or moved, or another took its place.
    pub fn is_left<R: Files>(&self, rt: &R) -> bool {
        self.node.is_none() || node_at(rt, &self.path) != self.node
    }

    /// Whether a row could be lost with the process: the file is left, or its log is no longer where it was seen first.
    pub fn is_at_risk<R: Files>(&mut self, rt: &R) -> bool {
        let log = node_at(rt, &self.log_path);
        if self.log.is_none() {
            self.log = log;
        }
        log != self.log || self.is_left(rt)
    }
}

/// The file at a path, where there is one.
fn node_at<R: Files>(rt: &R, path: &str) -> Option<Node> {
    match fs::metadata(rt, path) {
        Ok(found) => Some(Node {
            device: found.dev(),
            number: found.ino(),
        }),
        Err(_) => None,
    }
}
