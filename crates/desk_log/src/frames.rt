//! What begins as a frame.

ghost use Rattle.std.specs.Prelude.{◌≡◌, ◌%◌, ◌+◌, ◌-◌, ◌<◌, ◌≤◌, ◌++◌, drop, IfOk, IfSome, true, length, sum, ◌==◌, option_map};
ghost use Rattle.std.specs.List.{count_by, list_any};
ghost use Rattle.fix_fields.specs.Cut.{before};
ghost use Rattle.fix_frame.specs.Frame.{trailer};
ghost use Rattle.desk_log.specs.Frames as frames;

use fix_fields::read_integer;
use fix_pieces::{begins, piece};
use std::alloc::{AllocError, Global};

/// The byte that ends each field.
const SOH: u8 = 1;

/// The bytes with which every frame begins.
const OPENING: [u8; 13] = *b"8=FIXT.1.1\x019=";

/// The most digits of BodyLength.
const DIGITS_LIMIT: usize = 6;

/// The greatest BodyLength, and the least: `35=` and SOH.
const GREATEST_BODY: u64 = 999_999;

const LEAST_BODY: u64 = 4;

/// The length of CheckSum, in bytes.
pub(crate) const TRAILER_LENGTH: usize = 7;

/// Where a body stands in a log.
#[derive(Clone, Copy)]
pub struct Span {
    pub start: usize,
    pub end: usize,
}

/// Why what begins as a frame is none.
#[derive(Clone, Copy)]
pub enum FrameFault {
    /// BodyLength does not lead from `35=` to the end of a body.
    Length,
    /// CheckSum is not the sum of the bytes before it.
    Checksum,
}

/// A place at which something begins as a frame and is none.
#[derive(Clone, Copy)]
pub struct BrokenFrame {
    pub at: usize,
    pub fault: FrameFault,
}

/// What begins some bytes.
#[derive(Clone, Copy)]
pub enum Look {
    /// A frame, whose body is between these places.
    Frame(usize, usize),
    /// What begins as a frame and is none.
    Broken(FrameFault),
    /// Neither.
    Nothing,
}

/// The sum of the bytes, modulo 256.
fn checksum(bytes: &[u8]) -> u8
    ensures { result ≡ sum bytes.now % 256 }
{
    let mut total = 0u8;
    for byte in bytes {
        total = total.wrapping_add(*byte);
    }
    total
}

/// The CheckSum field.
fn trailer(checksum: u8) -> [u8; TRAILER_LENGTH]
    ensures { result ≡ trailer checksum }
{
    [
        b'1',
        b'0',
        b'=',
        b'0' + checksum / 100,
        b'0' + checksum / 10 % 10,
        b'0' + checksum % 10,
        SOH,
    ]
}

/// The digits of BodyLength, in what begins with `OPENING`.
fn length_digits(bytes: &[u8]) -> &[u8]
    requires { 13 ≤ length bytes.now }
    ensures digits { result.now ≡ frames.length_digits bytes.now }
{
    piece(&bytes[OPENING.len()..])
}

fn body_length(digits: &[u8]) -> Option<usize>
    ensures length { result ≡ frames.body_length digits.now }
    ensures bound { IfSome result (λ n. (length digits.now ≤ 6) × (4 ≤ n) × (n ≤ 999_999)) }
{
    if digits.len() > DIGITS_LIMIT {
        return None;
    }
    match read_integer(digits, LEAST_BODY, GREATEST_BODY) {
        Ok(number) => Some(number as usize),
        Err(_) => None,
    }
}

fn is_body(bytes: &[u8], start: usize, end: usize) -> bool
    requires { start + 4 ≤ end }
    ensures { result ≡ frames.is_body bytes.now start end }
{
    end <= bytes.len() && begins(b"35=", &bytes[start..]) && bytes[end - 1] == SOH
}

fn is_checked(bytes: &[u8], end: usize) -> bool
    requires { end ≤ length bytes.now }
    ensures checked { result ≡ frames.is_checked bytes.now end }
    ensures within { result ≡ true → end + 7 ≤ length bytes.now }
{
    begins(&trailer(checksum(&bytes[..end])), &bytes[end..])
}

fn look_body(bytes: &[u8], start: usize, end: usize) -> Look
    requires { start + 4 ≤ end }
    ensures look { result ≡ frames.look_body bytes.now start end }
    ensures within { frames.IsWithin bytes.now result }
{
    if !is_body(bytes, start, end) {
        return Look::Broken(FrameFault::Length);
    }
    if !is_checked(bytes, end) {
        return Look::Broken(FrameFault::Checksum);
    }
    Look::Frame(start, end)
}

/// What stands behind `8=FIXT.1.1|9=`.
fn look_behind(bytes: &[u8]) -> Look
    requires { 13 ≤ length bytes.now }
    ensures look { result ≡ frames.look_behind bytes.now (length (frames.length_digits bytes.now) + 14) (frames.body_length (frames.length_digits bytes.now)) }
    ensures within { frames.IsWithin bytes.now result }
{
    let digits = length_digits(bytes);
    match body_length(digits) {
        Some(length) => {
            let start = digits.len() + OPENING.len() + 1;
            look_body(bytes, start, start + length)
        }
        None => Look::Broken(FrameFault::Length),
    }
}

/// What begins these bytes.
pub(crate) fn look_at(bytes: &[u8]) -> Look
    ensures look { result ≡ frames.look bytes.now }
    ensures within { frames.IsWithin bytes.now result }
{
    if begins(&OPENING, bytes) {
        look_behind(bytes)
    } else {
        Look::Nothing
    }
}

/// The line of a place, from 1.
pub(crate) fn line_of(at: usize, log: &[u8]) -> usize
    ensures { result ≡ frames.line_of at log.now }
{
    let before = match log.get(..at) {
        Some(before) => before,
        None => log,
    };
    lines_in(before) + 1
}

fn lines_in(text: &[u8]) -> usize
    ensures lines { result ≡ count_by (λ b. b == 10) text.now }
    ensures bound { result ≤ length text.now }
{
    let mut lines = 0;
    for byte in text {
        if *byte == b'\n' {
            lines += 1;
        }
    }
    lines
}

/// Whether a log has SOH.
pub(crate) fn has_soh(log: &[u8]) -> bool
    ensures { result ≡ list_any (λ b. b == 1) log.now }
{
    log.iter().any(|byte| *byte == SOH)
}

fn soh_of(byte: u8) -> u8
    ensures { result ≡ frames.soh_of byte }
{
    if byte == b'|' { SOH } else { byte }
}

/// The log with SOH for each |.
pub(crate) fn with_soh(alloc: Global, log: &[u8]) -> Result<Vec<u8>, AllocError>
    ensures { IfOk result (λ text. text.items ≡ frames.with_soh log.now) }
{
    let mut text = Vec::with_capacity(alloc, log.len())?;
    for byte in log {
        text.push(soh_of(*byte))?;
    }
    Ok(text)
}
