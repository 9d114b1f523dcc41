//! The texts of a transcript, and the files that were read from them.

use instruments::Instruments;
use participants::Participants;
use std::alloc::{AllocError, Global};

/// A text that was kept under a name.
#[derive(Drop)]
pub struct Kept {
    name: Vec<u8>,
    text: Vec<u8>,
}

/// The text that is being written, the texts that were kept, and the files that were read last.
#[derive(Drop)]
pub struct Files {
    pub text: Vec<u8>,
    pub kept: Vec<Kept>,
    pub participants: Option<Participants>,
    pub instruments: Option<Instruments>,
}

impl Files {
    /// Keeps the text under a name, and begins a new one.
    pub fn keep(&mut self, alloc: Global, name: &str) -> Result<(), AllocError> {
        let name = Vec::from_slice(alloc, name.as_bytes())?;
        let text = Vec::from_slice(alloc, &self.text)?;
        self.kept.push(Kept { name, text })?;
        self.text.clear();
        Ok(())
    }

    /// Appends the texts that were kept under a name to the text.
    pub fn add(&mut self, name: &str) -> Result<(), AllocError> {
        for kept in &self.kept {
            if kept.name.as_slice() == name.as_bytes() {
                self.text.extend_from_slice(&kept.text)?;
            }
        }
        Ok(())
    }
}
