//! Bytes as lines of a transcript.

use crate::emitting::end_line;
use std::alloc::{AllocError, Global};

/// Of more bytes than these, only the last are printed.
const LONGEST_EMITTED: usize = 300;

const LAST_EMITTED: usize = 20;

/// Appends words and bytes, with `|` for SOH; of many bytes how many they are, and the last.
pub fn emit_last(
    alloc: Global,
    words: &str,
    bytes: &[u8],
    emitted: &mut Vec<u8>,
) -> Result<(), AllocError> {
    emitted.extend_from_slice(b"  ")?;
    emitted.extend_from_slice(words.as_bytes())?;
    let count = bytes.len();
    if count <= LONGEST_EMITTED {
        return end_line(bytes, emitted);
    }
    let many = format!(in alloc; "{count} bytes that end in ")?;
    emitted.extend_from_slice(many.as_bytes())?;
    end_line(&bytes[count - LAST_EMITTED..], emitted)
}
