//! What is printed of the messages that are owed and are not in a log, in order.

ghost use Rattle.std.specs.Prelude.{◌≡◌, ◌+◌, ◌<◌, ◌^◌, ◌++◌, IfOk, OnOk, length};
ghost use Rattle.std.specs.List.{flat_map};
ghost use Rattle.message_words.specs.Visible.{readable};
ghost use Rattle.desk_log.specs.Absent.{first_left};
ghost use Rattle.desk_log.specs.Listing as specs;
ghost use Rattle.desk_log.specs.Naming as naming;

use crate::absent::{align, first_left, places_of};
use crate::comparing::Comparison;
use crate::frames::{Span, line_of};
use crate::naming::{field, kind_of, kind_words, named_of};
use crate::numbered::Place;
use crate::owed::Owed;
use crate::parts::{Part, append_parts};
use message_words::readable_text;
use std::alloc::{AllocError, Global};

fn append_both(out: &mut Vec<u8>, one: &[u8], other: &[u8]) -> Result<(), AllocError>
    ensures { OnOk result (out.new.items ≡ out.old.items ++ (one.now ++ other.now)) }
{
    append_parts(out, &[Part::Bytes(one), Part::Bytes(other)])
}

/// What a message is.
fn what_said(alloc: Global, text: &[u8]) -> Result<Vec<u8>, AllocError>
    ensures { IfOk result (λ said. said.items ≡ specs.what_said text.now) }
{
    let kind = kind_of(text);
    let named = readable_text(alloc, named_of(kind, text))?;
    let mut said = Vec::new(alloc);
    append_both(&mut said, kind_words(kind), named.as_slice())?;
    Ok(said)
}

/// ExecID (17) of a message, where it has one.
fn report_said(alloc: Global, text: &[u8]) -> Result<Vec<u8>, AllocError>
    ensures { IfOk result (λ said. said.items ≡ specs.report_said text.now) }
{
    let report = field(b"17=", text);
    let mut said = Vec::new(alloc);
    if !report.is_empty() {
        let named = readable_text(alloc, report)?;
        append_both(&mut said, b", ", named.as_slice())?;
    }
    Ok(said)
}

/// Where the log has the text of a message, if it has it elsewhere.
fn elsewhere_said(
    alloc: Global,
    log: &[u8],
    left: Option<(Place, Span)>,
) -> Result<Vec<u8>, AllocError>
    ensures { IfOk result (λ said. said.items ≡ specs.elsewhere_said log.now left) }
{
    let mut said = Vec::new(alloc);
    if let Some(message) = left {
        append_parts(
            &mut said,
            &[
                Part::Bytes(b", in the log out of order, as number "),
                Part::Number(message.0.number),
                Part::Bytes(b" of era "),
                Part::Number(message.0.era as u64),
                Part::Bytes(b", line "),
                Part::Number(line_of(message.1.start, log) as u64),
            ],
        )?;
    }
    Ok(said)
}

/// What of a message is said behind its row.
#[derive(Clone, Copy)]
struct Said<'a> {
    report: &'a [u8],
    what: &'a [u8],
    elsewhere: &'a [u8],
    text: &'a [u8],
}

fn append_said(
    out: &mut Vec<u8>,
    number: u64,
    many: usize,
    row: u64,
    said: &Said,
) -> Result<(), AllocError>
    ensures { OnOk result (out.new.items ≡ out.old.items ++ specs.owed_with number many row said.now.report.now said.now.what.now said.now.elsewhere.now said.now.text.now) }
{
    append_parts(
        out,
        &[
            Part::Bytes(b"    "),
            Part::Number(number),
            Part::Bytes(b" of "),
            Part::Number(many as u64),
            Part::Bytes(b", row "),
            Part::Number(row),
            Part::Bytes(said.report),
            Part::Bytes(b", "),
            Part::Bytes(said.what),
            Part::Bytes(said.elsewhere),
            Part::Bytes(b": "),
            Part::Bytes(said.text),
            Part::Bytes(b"\n"),
        ],
    )
}

fn append_owed(
    alloc: Global,
    out: &mut Vec<u8>,
    log: &[u8],
    left: &[(Place, Span)],
    at: usize,
    many: usize,
    owed: &Owed,
) -> Result<(), AllocError>
    requires { at + 1 < 2 ^ 64 }
    ensures { OnOk result (out.new.items ≡ out.old.items ++ specs.owed_said log.now at many owed.now (first_left log.now left.now owed.now)) }
{
    let text = owed.text.as_slice();
    let report = report_said(alloc, text)?;
    let what = what_said(alloc, text)?;
    let first = first_left(alloc, log, left, owed)?;
    let elsewhere = elsewhere_said(alloc, log, first)?;
    let readable = readable_text(alloc, text)?;
    append_said(
        out,
        at as u64 + 1,
        many,
        owed.row,
        &Said {
            report: report.as_slice(),
            what: what.as_slice(),
            elsewhere: elsewhere.as_slice(),
            text: readable.as_slice(),
        },
    )
}

/// Appends the line of the message that is owed at a place.
fn append_absent(
    alloc: Global,
    out: &mut Vec<u8>,
    log: &[u8],
    owed: &[Owed],
    left: &[(Place, Span)],
    at: usize,
) -> Result<(), AllocError>
    ensures { OnOk result (out.new.items ≡ out.old.items ++ specs.absent_line log.now owed.now left.now at) }
{
    match owed.get(at) {
        Some(message) => append_owed(alloc, out, log, left, at, owed.len(), message),
        None => Ok(()),
    }
}

fn append_absents(
    alloc: Global,
    out: &mut Vec<u8>,
    log: &[u8],
    owed: &[Owed],
    left: &[(Place, Span)],
    places: &[usize],
) -> Result<(), AllocError>
    ensures { OnOk result (out.new.items ≡ out.old.items ++ flat_map (specs.absent_line log.now owed.now left.now) places.now) }
{
    for at in places {
        append_absent(alloc, out, log, owed, left, *at)?;
    }
    Ok(())
}

fn append_head(out: &mut Vec<u8>, absent: usize, many: usize) -> Result<(), AllocError>
    ensures { OnOk result (out.new.items ≡ out.old.items ++ specs.absent_head absent many) }
{
    append_parts(
        out,
        &[
            Part::Bytes(b"owed and not in the log in order: "),
            Part::Number(absent as u64),
            Part::Bytes(b" of "),
            Part::Number(many as u64),
            Part::Bytes(b"\n"),
        ],
    )
}

fn append_none(out: &mut Vec<u8>, many: usize) -> Result<(), AllocError>
    ensures { OnOk result (out.new.items ≡ out.old.items ++ specs.none_absent many) }
{
    if many == 0 {
        return Ok(());
    }
    if many == 1 {
        return out.extend_from_slice(b"the one message owed is in the log\n");
    }
    append_parts(
        out,
        &[
            Part::Bytes(b"each of the "),
            Part::Number(many as u64),
            Part::Bytes(b" messages owed is in the log, in order\n"),
        ],
    )
}

fn append_listed(
    alloc: Global,
    out: &mut Vec<u8>,
    log: &[u8],
    owed: &[Owed],
    left: &[(Place, Span)],
    places: &[usize],
) -> Result<(), AllocError>
    ensures { OnOk result (out.new.items ≡ out.old.items ++ specs.listed log.now owed.now left.now places.now) }
{
    if places.len() == 0 {
        return append_none(out, owed.len());
    }
    append_head(out, places.len(), owed.len())?;
    append_absents(alloc, out, log, owed, left, places)
}

/// Appends what is owed and is not in the log in order, where the log does not agree.
pub(crate) fn append_listing(
    alloc: Global,
    out: &mut Vec<u8>,
    comparison: Comparison,
    log: &[u8],
    once: &[(Place, Span)],
    owed: &[Owed],
) -> Result<(), AllocError>
    ensures { OnOk result (out.new.items ≡ out.old.items ++ specs.listing comparison log.now once.now owed.now) }
{
    if let Comparison::All = comparison {
        return Ok(());
    }
    let aligned = align(alloc, log, once, owed)?;
    let places = places_of(alloc, &aligned.found)?;
    append_listed(alloc, out, log, owed, &aligned.left, &places)
}
