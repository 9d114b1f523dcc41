//! Where a text is no TOML.

use crate::difference::line_at;
use std::alloc::{AllocError, Global};
use toml::de::Error;

/// The line on a text that is no TOML document: where, and why.
pub(crate) fn toml_line(alloc: Global, text: &[u8], error: &Error) -> Result<String, AllocError> {
    let place = match error.span() {
        Some(span) => span.start,
        None => 0,
    };
    let (line, why) = (line_at(text, place), error.message());
    format!(in alloc; "line {line}: {why}")
}
