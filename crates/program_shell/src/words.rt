//! The words of a process.

use std::{env, io};

/// Why the words of a process are not there.
#[derive(Clone, Copy, Debug, PartialEq, Eq, Drop)]
pub enum WordsFault {
    /// An allocation failed.
    Memory,
    /// One is not UTF-8.
    Refused,
}

/// The process's arguments. One that is not UTF-8 is refused.
pub fn words_given(rt: &HostRuntime) -> Result<Vec<String>, WordsFault> {
    match env::args(rt) {
        Ok(words) => match words.collect(rt.alloc()) {
            Ok(words) => Ok(words),
            Err(_) => Err(WordsFault::Memory),
        },
        Err(error) => match error.kind() {
            io::ErrorKind::OutOfMemory => Err(WordsFault::Memory),
            _ => Err(WordsFault::Refused),
        },
    }
}
