//! The files that a served venue writes: its counters, and its trail.

use crate::trail_place::TrailPlace;
use std::alloc::{AllocError, Global};
use std::fs;
use std::io::{self, Write};
use std::rt::Files;

/// The files of a served venue, as its report sees them.
pub trait VenueFiles {
    /// Whether the counters are wanted.
    fn wants_metrics(&self) -> bool;

    /// Replaces the counters that were written before. Whether they were written.
    fn replace_metrics(&mut self, text: &[u8]) -> bool;

    /// Whether there is a trail, and its file, or the log of that, is no longer at its path.
    fn has_lost_trail(&mut self) -> bool;
}

/// The files on a disk. The one of counters is replaced as a whole: written to another one in its folder, which then
/// takes its name.
#[derive(Drop)]
pub struct WrittenFiles<R: Drop> {
    rt: R,
    metrics: Option<MetricsPaths>,
    trail: Option<TrailPlace>,
}

/// The path of the file of counters, and of the one that is written first.
#[derive(Drop)]
struct MetricsPaths {
    file: String,
    temporary: String,
}

impl<R: Files + Drop> WrittenFiles<R> {
    /// The file of counters at a path, and a trail, where they are given.
    pub fn new(
        rt: R,
        alloc: Global,
        metrics: Option<String>,
        trail: Option<TrailPlace>,
    ) -> Result<WrittenFiles<R>, AllocError> {
        let metrics = match metrics {
            None => None,
            Some(file) => Some(paths_of(alloc, file)?),
        };
        Ok(WrittenFiles { rt, metrics, trail })
    }
}

fn paths_of(alloc: Global, file: String) -> Result<MetricsPaths, AllocError> {
    let mut temporary = String::from_str(alloc, &file)?;
    temporary.push_str(".tmp")?;
    Ok(MetricsPaths { file, temporary })
}

impl<R: Files + Drop> VenueFiles for WrittenFiles<R> {
    fn wants_metrics(&self) -> bool {
        self.metrics.is_some()
    }

    fn replace_metrics(&mut self, text: &[u8]) -> bool {
        match &self.metrics {
            None => true,
            Some(paths) => replace_file(&self.rt, paths, text).is_ok(),
        }
    }

    fn has_lost_trail(&mut self) -> bool {
        match &mut self.trail {
            None => false,
            Some(trail) => trail.is_at_risk(&self.rt),
        }
    }
}

fn replace_file<R: Files>(rt: &R, paths: &MetricsPaths, text: &[u8]) -> io::Result<()> {
    let mut file = fs::create(rt, paths.temporary.as_str())?;
    file.write_all(text)?;
    drop(file);
    fs::rename(rt, paths.temporary.as_str(), paths.file.as_str())
}
