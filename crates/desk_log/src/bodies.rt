//! What the body of a frame says.

ghost use Rattle.std.specs.Prelude.{◌≡◌, ◌<◌, ◌≤◌, IfOk, ◌++◌, length, option_map};
ghost use Rattle.desk_log.specs.Bodies as bodies;

use crate::pieces::is_piece;
use fix_fields::read_integer;
use fix_pieces::{begins, first_value, rest_of};
use std::alloc::{AllocError, Global};

/// The greatest sequence number, and the number that can follow it.
const GREATEST_NUMBER: u64 = 999_999_999;

const GREATEST_NEXT: u64 = 1_000_000_000;

fn number_if(low: u64, high: u64, value: Option<&[u8]>) -> Option<u64>
    requires { high ≤ 1_000_000_000 }
    ensures { result ≡ bodies.number_if low high (option_map (λ text. text.now) value.entry) }
{
    let Some(text) = value else {
        return None;
    };
    match read_integer(text, low, high) {
        Ok(number) => Some(number),
        Err(_) => None,
    }
}

/// MsgSeqNum, if it is a valid one.
pub(crate) fn number_in(body: &[u8]) -> Option<u64>
    ensures { result ≡ bodies.number_in body.now }
{
    number_if(1, GREATEST_NUMBER, first_value(b"34=", body))
}

/// Whether the frame is from the one to the other.
pub(crate) fn is_between(from: &[u8], to: &[u8], body: &[u8]) -> bool
    ensures { result ≡ bodies.is_between from.now to.now body.now }
{
    is_piece(b"49=", from, body) && is_piece(b"56=", to, body)
}

fn is_kind(kind: &[u8], body: &[u8]) -> bool
    ensures { result ≡ bodies.is_kind kind.now body.now }
{
    is_piece(b"35=", kind, body)
}

fn is_session_kind(kind: &[u8]) -> bool
    ensures { result ≡ bodies.is_session_kind kind.now }
{
    kind == b"0".as_slice()
        || kind == b"1".as_slice()
        || kind == b"2".as_slice()
        || kind == b"3".as_slice()
        || kind == b"4".as_slice()
        || kind == b"5".as_slice()
        || kind == b"A".as_slice()
}

/// Whether the message is the session's.
pub(crate) fn is_session(body: &[u8]) -> bool
    ensures { result ≡ bodies.is_session body.now }
{
    match first_value(b"35=", body) {
        Some(kind) => is_session_kind(kind),
        None => false,
    }
}

/// Whether the message is a Logon that does not go on behind the greatest number so far, or that has 141=Y.
pub(crate) fn begins_era(greatest: u64, number: u64, body: &[u8]) -> bool
    ensures { result ≡ bodies.begins_era greatest number body.now }
{
    is_kind(b"A", body) && (number <= greatest || is_piece(b"141=", b"Y", body))
}

/// The number that is next behind a message.
pub(crate) fn next_in(number: u64, body: &[u8]) -> u64
    requires { number ≤ 999_999_999 }
    ensures { result ≡ bodies.next_in number body.now }
{
    if !is_kind(b"4", body) {
        return number + 1;
    }
    match number_if(1, GREATEST_NEXT, first_value(b"36=", body)) {
        Some(next) => next,
        None => number + 1,
    }
}

/// Whether a piece is a field of the header.
fn is_header(piece: &[u8]) -> bool
    ensures { result ≡ bodies.is_header piece.now }
{
    begins(b"49=", piece)
        || begins(b"56=", piece)
        || begins(b"34=", piece)
        || begins(b"52=", piece)
        || begins(b"43=", piece)
        || begins(b"97=", piece)
        || begins(b"122=", piece)
        || begins(b"1128=", piece)
}

/// Appends the first piece of a body, with its SOH, unless it is a field of the header. Returns the pieces behind it.
fn append_piece<'a>(text: &mut Vec<u8>, body: &'a [u8]) -> Result<&'a [u8], AllocError>
    requires { 0 < length body.now }
    ensures text { IfOk result (λ rest. text.new.items ++ bodies.text_of rest.now ≡ text.old.items ++ bodies.text_of body.now) }
    ensures fewer { IfOk result (λ rest. length rest.now < length body.now) }
{
    let rest = rest_of(body);
    if is_header(body) {
        return Ok(rest);
    }
    text.extend_from_slice(&body[..body.len() - rest.len()])?;
    Ok(rest)
}

/// The body without the fields of the header.
pub(crate) fn text_of(alloc: Global, body: &[u8]) -> Result<Vec<u8>, AllocError>
    ensures { IfOk result (λ text. text.items ≡ bodies.text_of body.now) }
{
    let mut text = Vec::with_capacity(alloc, body.len())?;
    let mut rest = body;
    while !rest.is_empty() {
        rest = append_piece(&mut text, rest)?;
    }
    Ok(text)
}
