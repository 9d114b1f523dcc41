//! What participants send, line by line.

use anyhow::{Result, anyhow};
use std::alloc::Global;
use venue_rules::Who;

/// A frame, its sender, and the recipients of the venue's replies, one for each.
#[derive(Drop)]
pub(crate) struct Sent {
    pub(crate) from: Who,
    pub(crate) frame: Vec<u8>,
    pub(crate) emitted: Vec<Who>,
}

/// The frame of a line, which begins with the place of who sends it and a space.
pub(crate) fn sent_in(alloc: Global, line: &str) -> Result<Sent> {
    let Some((place, frame)) = line.split_once(' ') else {
        return Err(anyhow!("a line without a frame"));
    };
    let from = Who::of(place.parse::<u32>()?);
    let frame = Vec::from_slice(alloc, frame.as_bytes())?;
    Ok(Sent {
        from,
        frame,
        emitted: Vec::new(alloc),
    })
}
