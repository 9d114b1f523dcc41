//! The forms of identifiers, texts, characters, flags and moments in field values.
ghost use Rattle.std.specs.Prelude.{◌≡◌, ℕ, ◌≤◌, Ok, Err, MatchResult};
ghost use Rattle.std.specs.List.{list_all};
ghost use Rattle.fix_fields.specs.Forms.{is_printable, printable_of, identifier_of, text_of, character_of, flag_of, moment_in};

use crate::value::ValueFault;
use sef_moment::{Moment, read_utc};

const MAX_IDENTIFIER_LEN: usize = 64;

const MAX_TEXT_LEN: usize = 200;

// Whether each byte is printable ASCII, from the space to the tilde.
fn is_printable(text: &[u8]) -> bool
    ensures { result ≡ list_all is_printable text.now }
{
    text.iter().all(|byte| b' ' <= *byte && *byte <= b'~')
}

// Reads printable bytes, from one to `longest`.
fn read_printable(text: &[u8], longest: usize) -> Result<&[u8], ValueFault>
    ensures { MatchResult result
        (λ value. printable_of longest text.now ≡ Ok value.now)
        (λ fault. printable_of longest text.now ≡ Err fault) }
{
    if text.is_empty() || !is_printable(text) {
        return Err(ValueFault::Format);
    }
    if text.len() > longest {
        return Err(ValueFault::Range);
    }
    Ok(text)
}

/// Reads an identifier: printable bytes, 1 to 64. A longer one is out of range.
pub fn read_identifier(text: &[u8]) -> Result<&[u8], ValueFault>
    ensures { MatchResult result
        (λ value. identifier_of text.now ≡ Ok value.now)
        (λ fault. identifier_of text.now ≡ Err fault) }
{
    read_printable(text, MAX_IDENTIFIER_LEN)
}

/// Reads a text: printable bytes, 1 to 200. A longer one is out of range.
pub fn read_text(text: &[u8]) -> Result<&[u8], ValueFault>
    ensures { MatchResult result
        (λ value. text_of text.now ≡ Ok value.now)
        (λ fault. text_of text.now ≡ Err fault) }
{
    read_printable(text, MAX_TEXT_LEN)
}

/// Reads a character: one printable byte other than a space.
pub fn read_character(text: &[u8]) -> Result<u8, ValueFault>
    ensures { result ≡ character_of text.now }
{
    match text {
        [byte] if b'!' <= *byte && *byte <= b'~' => Ok(*byte),
        _ => Err(ValueFault::Format),
    }
}

/// Reads a flag: `Y` or `N`.
pub fn read_flag(text: &[u8]) -> Result<bool, ValueFault>
    ensures { result ≡ flag_of text.now }
{
    match text {
        [b'Y'] => Ok(true),
        [b'N'] => Ok(false),
        _ => Err(ValueFault::Format),
    }
}

/// Reads a moment, a UTC timestamp of FIX. Its only fault is `Format`.
pub fn read_moment(text: &[u8]) -> Result<Moment, ValueFault>
    ensures { result ≡ moment_in text.now }
{
    match read_utc(text) {
        Ok(moment) => Ok(moment),
        Err(_) => Err(ValueFault::Format),
    }
}
