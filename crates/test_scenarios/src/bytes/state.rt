//! State between the calls of a transcript.

use crate::texts::append_with;
use fix_frame::Cutter;
use std::alloc::{AllocError, Global};

/// The text for the next call, and the stream that is cut into frames.
#[derive(Drop)]
pub struct State {
    pub text: Vec<u8>,
    pub cutter: Cutter,
}

impl State {
    pub fn new(alloc: Global) -> State {
        State {
            text: Vec::new(alloc),
            cutter: Cutter::new(alloc),
        }
    }

    /// Appends bytes to the text, with SOH for `|`.
    pub fn add(&mut self, bytes: &str) -> Result<(), AllocError> {
        append_with(bytes.as_bytes(), b'|', 1, &mut self.text)
    }

    /// Appends the bytes to the text this many times.
    pub fn add_times(&mut self, times: u32, bytes: &str) -> Result<(), AllocError> {
        for _ in 0..times {
            self.add(bytes)?;
        }
        Ok(())
    }
}
