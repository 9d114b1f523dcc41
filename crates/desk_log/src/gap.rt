//! What is printed of the numbers that a log has not.

ghost use Rattle.std.specs.Prelude.{◌≡◌, ◌++◌, OnOk, IfOk, codes, drop, if◌then◌else◌, slice_get};
ghost use Rattle.desk_log.specs.Report as specs;

use crate::comparing::is_owed;
use crate::frames::Span;
use crate::missing::{Missing, gaps_between, in_one_era};
use crate::naming::{kind_of, kind_words, named_of};
use crate::numbered::{Numbered, Place};
use crate::owed::Owed;
use crate::parts::{Part, append_parts};
use crate::reading::Reading;
use message_words::readable_text;
use std::alloc::{AllocError, Global};

pub(crate) fn message_at(once: &[(Place, Span)], at: usize) -> Option<(Place, Span)>
    ensures { result ≡ slice_get once.now at }
{
    once.get(at).copied()
}

fn before_at(once: &[(Place, Span)], count: usize) -> Option<(Place, Span)>
    ensures { result ≡ specs.before_at once.now count }
{
    if count == 0 {
        return None;
    }
    message_at(once, count - 1)
}

/// The numbers that are missing between the first messages, of this count, and the next.
fn gaps_at(
    alloc: Global,
    frames: &[Numbered],
    once: &[(Place, Span)],
    count: usize,
) -> Result<Vec<Missing>, AllocError>
    ensures { IfOk result (λ gaps. gaps.items ≡ specs.gaps_at frames.now once.now count) }
{
    gaps_between(
        alloc,
        frames,
        before_at(once, count),
        message_at(once, count),
    )
}

/// Whether a message of the log is the first of those that are owed.
fn goes_on(
    alloc: Global,
    log: &[u8],
    later: Option<(Place, Span)>,
    owed: &[Owed],
) -> Result<bool, AllocError>
    ensures { IfOk result (λ same. same ≡ specs.goes_on log.now later (slice_get owed.now 0)) }
{
    let Some(message) = later else {
        return Ok(false);
    };
    match owed.get(0) {
        Some(owed) => is_owed(alloc, log, message.1, owed),
        None => Ok(false),
    }
}

fn many_in(missing: Missing) -> usize
    ensures { result ≡ specs.many_in missing }
{
    missing.next.saturating_sub(missing.first) as usize
}

/// What is owed behind as many messages as are missing.
fn owed_behind<'a>(gaps: &[Missing], rest: &'a [Owed]) -> &'a [Owed]
    ensures { result.now ≡ specs.owed_behind gaps.now rest.now }
{
    let mut behind = rest;
    for gap in gaps {
        behind = rest_of(behind, many_in(*gap));
    }
    behind
}

/// Whether the numbers that are missing are known to be those of the first messages that are owed.
fn are_owed(
    alloc: Global,
    log: &[u8],
    earlier: Option<(Place, Span)>,
    later: Option<(Place, Span)>,
    gaps: &[Missing],
    rest: &[Owed],
) -> Result<bool, AllocError>
    ensures { IfOk result (λ owed. owed ≡ specs.are_owed log.now earlier later gaps.now rest.now) }
{
    if !in_one_era(earlier, later) {
        return Ok(false);
    }
    goes_on(alloc, log, later, owed_behind(gaps, rest))
}

fn append_named<'a>(out: &mut Vec<u8>, words: &'a [u8], named: &'a [u8]) -> Result<(), AllocError>
    ensures { OnOk result (out.new.items ≡ out.old.items ++ specs.words_with words.now named.now) }
{
    append_parts(
        out,
        &[Part::Bytes(words), Part::Bytes(named), Part::Bytes(b")")],
    )
}

fn append_words(alloc: Global, out: &mut Vec<u8>, text: &[u8]) -> Result<(), AllocError>
    ensures { OnOk result (out.new.items ≡ out.old.items ++ specs.in_words text.now) }
{
    let kind = kind_of(text);
    let named = readable_text(alloc, named_of(kind, text))?;
    append_named(out, kind_words(kind), named.as_slice())
}

fn append_described(
    alloc: Global,
    out: &mut Vec<u8>,
    several: bool,
    text: &[u8],
) -> Result<(), AllocError>
    ensures { OnOk result (out.new.items ≡ out.old.items ++ ((if several then codes " (the first: " else codes " (") ++ specs.in_words text.now)) }
{
    let opening: &[u8] = if several { b" (the first: " } else { b" (" };
    out.extend_from_slice(opening)?;
    append_words(alloc, out, text)
}

/// The first message that is owed, in words, where the missing numbers are known to be its and those of the messages
/// behind it.
fn described(
    alloc: Global,
    known: bool,
    several: bool,
    owed: &[Owed],
) -> Result<Vec<u8>, AllocError>
    ensures { IfOk result (λ text. text.items ≡ specs.described known several (slice_get owed.now 0)) }
{
    let mut text = Vec::new(alloc);
    if known {
        if let Some(owed) = owed.get(0) {
            append_described(alloc, &mut text, several, owed.text.as_slice())?;
        }
    }
    Ok(text)
}

fn append_one(out: &mut Vec<u8>, missing: Missing, what: &[u8]) -> Result<(), AllocError>
    ensures { OnOk result (out.new.items ≡ out.old.items ++ specs.missing_one missing what.now) }
{
    append_parts(
        out,
        &[
            Part::Bytes(b"    message "),
            Part::Number(missing.first),
            Part::Bytes(what),
            Part::Bytes(b" is missing; the log goes on with message "),
            Part::Number(missing.next),
            Part::Bytes(b"\n"),
        ],
    )
}

fn append_many(
    out: &mut Vec<u8>,
    missing: Missing,
    last: u64,
    what: &[u8],
) -> Result<(), AllocError>
    ensures { OnOk result (out.new.items ≡ out.old.items ++ specs.missing_many missing last what.now) }
{
    append_parts(
        out,
        &[
            Part::Bytes(b"    messages "),
            Part::Number(missing.first),
            Part::Bytes(b" to "),
            Part::Number(last),
            Part::Bytes(what),
            Part::Bytes(b" are missing; the log goes on with message "),
            Part::Number(missing.next),
            Part::Bytes(b"\n"),
        ],
    )
}

/// Appends the numbers of one gap, with what is owed from the first of them on.
fn append_missing(
    alloc: Global,
    out: &mut Vec<u8>,
    known: bool,
    missing: Missing,
    rest: &[Owed],
) -> Result<(), AllocError>
    ensures { OnOk result (out.new.items ≡ out.old.items ++ specs.missing_line known missing (slice_get rest.now 0)) }
{
    let many = many_in(missing);
    let what = described(alloc, known, many != 1, rest)?;
    if many == 1 {
        append_one(out, missing, what.as_slice())
    } else {
        append_many(
            out,
            missing,
            missing.next.saturating_sub(1),
            what.as_slice(),
        )
    }
}

pub(crate) fn rest_of(owed: &[Owed], count: usize) -> &[Owed]
    ensures { result.now ≡ drop count owed.now }
{
    match owed.get(count..) {
        Some(rest) => rest,
        None => &[],
    }
}

/// Appends the numbers of each gap, one after another.
fn append_each(
    alloc: Global,
    out: &mut Vec<u8>,
    known: bool,
    gaps: &[Missing],
    owed: &[Owed],
) -> Result<(), AllocError>
    ensures { OnOk result (out.new.items ≡ out.old.items ++ specs.missing_lines known gaps.now owed.now) }
{
    let mut rest = owed;
    for gap in gaps {
        append_missing(alloc, out, known, *gap, rest)?;
        rest = rest_of(rest, many_in(*gap));
    }
    Ok(())
}

/// Appends which numbers are missing behind the first messages, which agree.
pub(crate) fn append_gaps(
    alloc: Global,
    out: &mut Vec<u8>,
    count: usize,
    log: &[u8],
    owed: &[Owed],
    reading: &Reading,
) -> Result<(), AllocError>
    ensures { OnOk result (out.new.items ≡ out.old.items ++ specs.gap_lines count log.now owed.now reading.now.frames.items reading.now.once.items) }
{
    let gaps = gaps_at(alloc, &reading.frames, &reading.once, count)?;
    let earlier = before_at(&reading.once, count);
    let later = message_at(&reading.once, count);
    let rest = rest_of(owed, count);
    let known = are_owed(alloc, log, earlier, later, &gaps, rest)?;
    append_each(alloc, out, known, &gaps, rest)
}
