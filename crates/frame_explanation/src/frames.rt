//! The frames of a log, and what begins as a frame and is none.

ghost use Rattle.std.specs.Prelude.{◌≡◌, ◌%◌, ◌+◌, ◌-◌, ◌<◌, ◌≤◌, ◌++◌, drop, IfOk, IfSome, true, length, sum, ◌==◌};
ghost use Rattle.std.specs.List.{list_any};
ghost use Rattle.fix_frame.specs.Frame.{three_digits, trailer};
ghost use Rattle.frame_explanation.specs.Frames as frames;

use fix_fields::read_integer;
use fix_pieces::{SOH, begins, piece};
use std::alloc::{AllocError, Global};

/// The bytes with which every frame begins.
pub(crate) const OPENING: [u8; 13] = *b"8=FIXT.1.1\x019=";

/// The most digits of BodyLength.
const DIGITS_LIMIT: usize = 6;

/// The greatest BodyLength, that of a message of the venue, and the least: `35=` and SOH.
const GREATEST_BODY: u64 = 65_536;

const LEAST_BODY: u64 = 4;

/// The length of CheckSum, in bytes.
const TRAILER_LENGTH: usize = 7;

/// What begins some bytes.
#[derive(Clone, Copy)]
pub enum Look {
    /// A frame, whose body is between these places.
    Frame { start: usize, end: usize },
    /// What begins as a frame and is none: its bytes to the end of the line, or to what next begins as one.
    Broken { count: usize },
    /// Neither.
    Nothing,
}

/// What stands at a place of a log.
#[derive(Clone, Copy)]
pub struct Found {
    pub at: usize,
    pub look: Look,
}

/// The sum of the bytes, modulo 256.
pub(crate) fn checksum(bytes: &[u8]) -> u8
    ensures { result ≡ sum bytes.now % 256 }
{
    let mut total = 0u8;
    for byte in bytes {
        total = total.wrapping_add(*byte);
    }
    total
}

/// The digits of a checksum.
pub(crate) fn three_digits(checksum: u8) -> [u8; 3]
    ensures { result ≡ three_digits checksum }
{
    [
        b'0' + checksum / 100,
        b'0' + checksum / 10 % 10,
        b'0' + checksum % 10,
    ]
}

/// The CheckSum field.
pub(crate) fn trailer(checksum: u8) -> [u8; TRAILER_LENGTH]
    ensures { result ≡ trailer checksum }
{
    [
        b'1',
        b'0',
        b'=',
        b'0' + checksum / 100,
        b'0' + checksum / 10 % 10,
        b'0' + checksum % 10,
        SOH,
    ]
}

/// The digits of BodyLength, in what begins with `OPENING`.
pub(crate) fn length_digits(bytes: &[u8]) -> &[u8]
    requires { 13 ≤ length bytes.now }
    ensures digits { result.now ≡ frames.length_digits bytes.now }
{
    piece(&bytes[OPENING.len()..])
}

/// The number that the digits of BodyLength spell, if it is the length of a body.
pub(crate) fn body_length(digits: &[u8]) -> Option<usize>
    ensures length { result ≡ frames.body_length digits.now }
    ensures bound { IfSome result (λ n. (length digits.now ≤ 6) × (4 ≤ n) × (n ≤ 65_536)) }
{
    if digits.len() > DIGITS_LIMIT {
        return None;
    }
    match read_integer(digits, LEAST_BODY, GREATEST_BODY) {
        Ok(number) => Some(number as usize),
        Err(_) => None,
    }
}

/// Whether a body and its CheckSum stand between and behind these places.
fn is_framed(bytes: &[u8], start: usize, end: usize) -> bool
    requires { start + 4 ≤ end }
    ensures framed { result ≡ frames.is_framed bytes.now start end }
    ensures within { result ≡ true → end + 7 ≤ length bytes.now }
{
    end <= bytes.len()
        && begins(b"35=", &bytes[start..])
        && bytes[end - 1] == SOH
        && begins(&trailer(checksum(&bytes[..end])), &bytes[end..])
}

/// Whether what is broken ends before these bytes.
fn ends_run(bytes: &[u8]) -> bool
    ensures { result ≡ frames.ends_run bytes.now }
{
    begins(b"\n", bytes) || begins(&OPENING, bytes)
}

/// The number of bytes to the end of the line, or to what next begins as a frame.
fn run_length(bytes: &[u8]) -> usize
    ensures run { result ≡ frames.run_length bytes.now }
    ensures within { result ≤ length bytes.now }
{
    for at in 0..bytes.len() {
        if ends_run(&bytes[at..]) {
            return at;
        }
    }
    bytes.len()
}

fn broken(bytes: &[u8]) -> Look
    requires { 13 ≤ length bytes.now }
    ensures look { result ≡ frames.broken bytes.now }
    ensures within { frames.IsWithin bytes.now result }
{
    Look::Broken {
        count: OPENING.len() + run_length(&bytes[OPENING.len()..]),
    }
}

/// What begins with `8=FIXT.1.1|9=`.
fn look_behind(bytes: &[u8]) -> Look
    requires { 13 ≤ length bytes.now }
    ensures look { result ≡ frames.look_behind bytes.now (length (frames.length_digits bytes.now) + 14) (frames.body_length (frames.length_digits bytes.now)) }
    ensures within { frames.IsWithin bytes.now result }
{
    let digits = length_digits(bytes);
    let Some(length) = body_length(digits) else {
        return broken(bytes);
    };
    let start = digits.len() + OPENING.len() + 1;
    let end = start + length;
    if is_framed(bytes, start, end) {
        Look::Frame { start, end }
    } else {
        broken(bytes)
    }
}

/// What begins these bytes.
fn look_at(bytes: &[u8]) -> Look
    ensures look { result ≡ frames.look bytes.now }
    ensures within { frames.IsWithin bytes.now result }
{
    if begins(&OPENING, bytes) {
        look_behind(bytes)
    } else {
        Look::Nothing
    }
}

/// Takes the byte at a place: one of what was found before, which ends at `next`; or the first of a frame, or of what
/// begins as one, which is appended; or one of none. Returns where what was found ends.
fn take_found(
    found: &mut Vec<Found>,
    at: usize,
    next: usize,
    log: &[u8],
) -> Result<usize, AllocError>
    requires { at < length log.now }
    ensures { IfOk result (λ later. found.new.items ++ frames.found_from (at + 1) (later - (at + 1)) (drop (at + 1) log.now) ≡ found.old.items ++ frames.found_from at (next - at) (drop at log.now)) }
{
    if at < next {
        return Ok(next);
    }
    match look_at(&log[at..]) {
        Look::Frame { start, end } => {
            found.push(Found {
                at,
                look: Look::Frame { start, end },
            })?;
            Ok(at + end + TRAILER_LENGTH)
        }
        Look::Broken { count } => {
            found.push(Found {
                at,
                look: Look::Broken { count },
            })?;
            Ok(at + count)
        }
        Look::Nothing => Ok(next),
    }
}

/// The frames of a log, and what begins as one and is none, in order.
pub(crate) fn found_in(alloc: Global, log: &[u8]) -> Result<Vec<Found>, AllocError>
    ensures { IfOk result (λ found. found.items ≡ frames.found_in log.now) }
{
    let mut found = Vec::new(alloc);
    let mut next = 0;
    for at in 0..log.len() {
        next = take_found(&mut found, at, next, log)?;
    }
    Ok(found)
}

/// Whether a log has SOH.
pub(crate) fn has_soh(log: &[u8]) -> bool
    ensures { result ≡ list_any (λ b. b == 1) log.now }
{
    log.iter().any(|byte| *byte == SOH)
}

fn soh_of(bars: bool, byte: u8) -> u8
    ensures { result ≡ frames.soh_of bars byte }
{
    if bars && byte == b'|' { SOH } else { byte }
}

fn with_soh(alloc: Global, bars: bool, log: &[u8]) -> Result<Vec<u8>, AllocError>
    ensures { IfOk result (λ text. text.items ≡ frames.with_soh bars log.now) }
{
    let mut text = Vec::with_capacity(alloc, log.len())?;
    for byte in log {
        text.push(soh_of(bars, *byte))?;
    }
    Ok(text)
}

/// The log; where it has no SOH, with SOH for each |.
pub(crate) fn separated(alloc: Global, log: &[u8]) -> Result<Vec<u8>, AllocError>
    ensures { IfOk result (λ text. text.items ≡ frames.separated log.now) }
{
    with_soh(alloc, !has_soh(log), log)
}

/// The bytes of what was found.
pub(crate) fn extent(look: Look) -> usize
    ensures { result ≡ frames.extent look }
{
    match look {
        Look::Frame { start: _, end } => end.saturating_add(TRAILER_LENGTH),
        Look::Broken { count } => count,
        Look::Nothing => 0,
    }
}

/// The count of frames, after one more thing.
fn count_after(count: usize, look: Look) -> usize
    ensures { result ≡ frames.count_after count look }
{
    match look {
        Look::Frame { start: _, end: _ } => count.saturating_add(1),
        Look::Broken { count: _ } => count,
        Look::Nothing => count,
    }
}

/// How many of what was found are frames.
pub(crate) fn frames_in(found: &[Found]) -> usize
    ensures { result ≡ frames.frames_in found.now }
{
    let mut count = 0usize;
    for one in found {
        count = count_after(count, one.look);
    }
    count
}

/// The number of bytes of all that was found.
pub(crate) fn bytes_found(found: &[Found]) -> usize
    ensures { result ≡ frames.bytes_found found.now }
{
    let mut count = 0usize;
    for one in found {
        count = count.saturating_add(extent(one.look));
    }
    count
}
