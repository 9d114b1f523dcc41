//! Texts of several parts of a transcript.

use crate::refusals::Refusals;
use anyhow::{Result, bail};
use fix_decoder::read_app;
use fix_dictionary::{App, Identifier};
use fix_fields::{FieldFault, split};
use fix_validation::DictFault;
use std::alloc::{AllocError, Global};

/// Appends bytes with one byte in the place of another.
pub fn append_with(bytes: &[u8], old: u8, new: u8, out: &mut Vec<u8>) -> Result<(), AllocError> {
    for byte in bytes {
        out.push(if *byte == old { new } else { *byte })?;
    }
    Ok(())
}

/// A text's bytes, with SOH for `|`.
pub fn bytes_in(alloc: Global, text: &str) -> Result<Vec<u8>, AllocError> {
    let mut bytes = Vec::new(alloc);
    append_with(text.as_bytes(), b'|', 1, &mut bytes)?;
    Ok(bytes)
}

/// The application message of a body.
pub fn app_of(alloc: Global, body: &[u8]) -> Result<Option<App>, AllocError> {
    let fields = match split(alloc, body) {
        Ok(fields) => fields,
        Err(FieldFault::NoMemory) => return Err(AllocError),
        Err(_) => return Ok(None),
    };
    match read_app(alloc, &fields) {
        Ok(app) => Ok(Some(app)),
        Err(DictFault::NoMemory) => Err(AllocError),
        Err(_) => Ok(None),
    }
}

/// The application message whose fields a text has, with `|` for SOH.
pub fn app_in(alloc: Global, text: &str) -> Result<Option<App>, AllocError> {
    let body = bytes_in(alloc, text)?;
    app_of(alloc, &body)
}

/// How often a line says that its call is made, and the call.
pub fn times_in(line: &str) -> (u32, &str) {
    let Some((times, call)) = line
        .strip_prefix("times ")
        .and_then(|rest| rest.split_once(' '))
    else {
        return (1, line);
    };
    (times.parse::<u32>().unwrap_or(1), call)
}

fn write(words: &str, line: &str, emitted: &mut Vec<u8>) -> Result<(), AllocError> {
    emitted.extend_from_slice(words.as_bytes())?;
    emitted.extend_from_slice(line.as_bytes())?;
    emitted.extend_from_slice(b"\n")
}

/// Appends words and a line, again where an allocation failed.
pub fn write_again(
    words: &str,
    line: &str,
    emitted: &mut Vec<u8>,
    refusals: &mut Refusals,
) -> Result<()> {
    let before = emitted.len();
    if write(words, line, emitted).is_ok() {
        return Ok(());
    }
    refusals.one_more()?;
    emitted.truncate(before);
    Ok(write(words, line, emitted)?)
}

/// The first word of a text, and the rest.
pub fn word_in(text: &str) -> (&str, &str) {
    text.split_once(' ').unwrap_or((text, ""))
}

/// The identifier with this text. It is an error where it is empty, too long, or has a byte that is not printed.
pub fn identifier_in(text: &str) -> Result<Identifier> {
    match Identifier::read(text.as_bytes()) {
        Some(identifier) => Ok(identifier),
        None => bail!("no name: {text}"),
    }
}
