//! What to look at first: where a number fell, what the venue ignored, and which frames have a fault.

ghost use Rattle.std.specs.Prelude.{◌≡◌, ◌++◌, OnOk, IfOk};
ghost use Rattle.std.specs.List.{flat_map};
ghost use Rattle.fix_session.specs.Reader.{Reader};
ghost use Rattle.frame_explanation.specs.Broken as broken;
ghost use Rattle.frame_explanation.specs.Summary as summary;
ghost use Rattle.frame_explanation.specs.Text as text;

use crate::bodies::body_fault;
use crate::broken::append_broken;
use crate::falls::append_falls;
use crate::ignored::{append_tags, ignored_tags, is_unsupported, kind_of};
use crate::log_items::{Heard, LogItem, Source};
use crate::parts::{Part, append_parts};
use crate::pieces::value_in;
use crate::text::{append_step, append_stranger};
use fix_session::Step;
use message_words::readable_text;
use participants::Participants;
use std::alloc::{AllocError, Global};

/// The line of a message whose type the venue does not know.
fn unknown_if(alloc: Global, body: &[u8]) -> Result<Vec<u8>, AllocError>
    ensures { IfOk result (λ lines. lines.items ≡ summary.unknown_if body.now) }
{
    if !is_unsupported(kind_of(body)) {
        return Ok(Vec::new(alloc));
    }
    let kind = readable_text(alloc, value_in(b"35=", body))?;
    unknown_line(alloc, &kind)
}

fn unknown_line<'a>(alloc: Global, kind: &'a [u8]) -> Result<Vec<u8>, AllocError>
    ensures { IfOk result (λ lines. lines.items ≡ summary.unknown_line kind.now) }
{
    let mut lines = Vec::new(alloc);
    append_parts(
        &mut lines,
        &[
            Part::Bytes(b"    35="),
            Part::Bytes(kind),
            Part::Bytes(b" is a type that the venue does not know\n"),
        ],
    )?;
    Ok(lines)
}

/// Appends that a session ends its connection, where it does.
fn append_drop(
    out: &mut Vec<u8>,
    names: &Participants,
    listed: &LogItem,
    step: &Option<Step>,
) -> Result<(), AllocError>
    ensures { OnOk result (out.new.items ≡ out.old.items ++ summary.drop_line names.now listed.now step.now) }
{
    match step {
        Some(Step::Dropped(why)) => {
            append_step(
                out,
                names,
                listed.who,
                listed.body.len(),
                Step::Dropped(*why),
            )
        }
        Some(Step::Did) => Ok(()),
        Some(Step::Idle) => Ok(()),
        Some(Step::App(_)) => Ok(()),
        None => Ok(()),
    }
}

fn drop_of(alloc: Global, names: &Participants, heard: &Heard) -> Result<Vec<u8>, AllocError>
    ensures { IfOk result (λ lines. lines.items ≡ summary.drop_line names.now heard.now.item heard.now.step) }
{
    let mut lines = Vec::new(alloc);
    append_drop(&mut lines, names, &heard.item, &heard.step)?;
    Ok(lines)
}

fn stranger_of(alloc: Global, names: &Participants, body: &[u8]) -> Result<Vec<u8>, AllocError>
    ensures { IfOk result (λ lines. lines.items ≡ text.stranger names.now body.now) }
{
    let mut lines = Vec::new(alloc);
    append_stranger(&mut lines, names, body)?;
    Ok(lines)
}

fn why_broken(alloc: Global, bytes: &[u8]) -> Result<Vec<u8>, AllocError>
    ensures { IfOk result (λ lines. lines.items ≡ broken.why bytes.now) }
{
    let mut lines = Vec::new(alloc);
    append_broken(alloc, &mut lines, bytes)?;
    Ok(lines)
}

/// Appends lines of a frame behind its number, if there are some.
fn append_of_frame<'a>(out: &mut Vec<u8>, number: u64, lines: &'a [u8]) -> Result<(), AllocError>
    ensures { OnOk result (out.new.items ≡ out.old.items ++ summary.of_frame number lines.now) }
{
    if lines.is_empty() {
        return Ok(());
    }
    append_parts(
        out,
        &[
            Part::Bytes(b"    frame "),
            Part::Number(number),
            Part::Bytes(b":"),
            Part::Bytes(lines),
        ],
    )
}

/// Appends the fault of a body.
fn append_body_fault(
    alloc: Global,
    out: &mut Vec<u8>,
    number: u64,
    body: &[u8],
) -> Result<(), AllocError>
    ensures { (r : Reader) → OnOk result (out.new.items ≡ out.old.items ++ summary.fault_of r number body.now) }
{
    let lines = body_fault(alloc, body)?;
    append_of_frame(out, number, &lines)
}

fn append_unknown_if(
    alloc: Global,
    out: &mut Vec<u8>,
    number: u64,
    body: &[u8],
) -> Result<(), AllocError>
    ensures { OnOk result (out.new.items ≡ out.old.items ++ summary.of_frame number (summary.unknown_if body.now)) }
{
    let lines = unknown_if(alloc, body)?;
    append_of_frame(out, number, &lines)
}

fn append_stranger_of(
    alloc: Global,
    out: &mut Vec<u8>,
    names: &Participants,
    number: u64,
    body: &[u8],
) -> Result<(), AllocError>
    ensures { OnOk result (out.new.items ≡ out.old.items ++ summary.of_frame number (text.stranger names.now body.now)) }
{
    let lines = stranger_of(alloc, names, body)?;
    append_of_frame(out, number, &lines)
}

fn append_drop_of(
    alloc: Global,
    out: &mut Vec<u8>,
    names: &Participants,
    heard: &Heard,
) -> Result<(), AllocError>
    ensures { OnOk result (out.new.items ≡ out.old.items ++ summary.of_frame heard.now.item.number (summary.drop_line names.now heard.now.item heard.now.step)) }
{
    let lines = drop_of(alloc, names, heard)?;
    append_of_frame(out, heard.item.number, &lines)
}

fn append_broken_of(alloc: Global, out: &mut Vec<u8>, listed: &LogItem) -> Result<(), AllocError>
    ensures { OnOk result (out.new.items ≡ out.old.items ++ summary.of_frame listed.now.number (broken.why listed.now.text.items)) }
{
    let lines = why_broken(alloc, &listed.text)?;
    append_of_frame(out, listed.number, &lines)
}

/// Appends what is wrong with a frame of a participant.
fn append_came_faults(
    alloc: Global,
    out: &mut Vec<u8>,
    names: &Participants,
    heard: &Heard,
) -> Result<(), AllocError>
    ensures { (r : Reader) → OnOk result (out.new.items ≡ out.old.items ++ summary.came_faults r names.now heard.now) }
{
    let number = heard.item.number;
    append_body_fault(alloc, out, number, &heard.item.body)?;
    append_unknown_if(alloc, out, number, &heard.item.body)?;
    append_stranger_of(alloc, out, names, number, &heard.item.body)?;
    append_drop_of(alloc, out, names, heard)
}

fn append_faults_of(
    alloc: Global,
    out: &mut Vec<u8>,
    names: &Participants,
    heard: &Heard,
) -> Result<(), AllocError>
    ensures { (r : Reader) → OnOk result (out.new.items ≡ out.old.items ++ summary.faults_of r names.now heard.now) }
{
    match heard.item.source {
        Source::Participant => append_came_faults(alloc, out, names, heard),
        Source::Assumed => Ok(()),
        Source::Venue => append_body_fault(alloc, out, heard.item.number, &heard.item.body),
        Source::Broken => append_broken_of(alloc, out, &heard.item),
    }
}

fn append_faults(
    alloc: Global,
    out: &mut Vec<u8>,
    names: &Participants,
    heard: &[Heard],
) -> Result<(), AllocError>
    ensures { (r : Reader) → OnOk result (out.new.items ≡ out.old.items ++ flat_map (summary.faults_of r names.now) heard.now) }
{
    for one in heard {
        append_faults_of(alloc, out, names, one)?;
    }
    Ok(())
}

/// The lines of a summary.
fn noted(alloc: Global, names: &Participants, heard: &[Heard]) -> Result<Vec<u8>, AllocError>
    ensures { (r : Reader) → IfOk result (λ lines. lines.items ≡ summary.noted r names.now heard.now) }
{
    let mut lines = Vec::new(alloc);
    let tags = ignored_tags(alloc, heard)?;
    append_falls(&mut lines, names, heard)?;
    append_tags(alloc, &mut lines, &tags)?;
    append_faults(alloc, &mut lines, names, heard)?;
    Ok(lines)
}

fn append_headed<'a>(out: &mut Vec<u8>, lines: &'a [u8]) -> Result<(), AllocError>
    ensures { OnOk result (out.new.items ≡ out.old.items ++ summary.headed lines.now) }
{
    if lines.is_empty() {
        return out.extend_from_slice(
            b"summary: no number fell, no field was ignored, no frame has a fault or ends a connection\n",
        );
    }
    append_parts(out, &[Part::Bytes(b"summary:\n"), Part::Bytes(lines)])
}

fn append_noted(
    alloc: Global,
    out: &mut Vec<u8>,
    names: &Participants,
    heard: &[Heard],
) -> Result<(), AllocError>
    ensures { (r : Reader) → OnOk result (out.new.items ≡ out.old.items ++ summary.headed (summary.noted r names.now heard.now)) }
{
    let lines = noted(alloc, names, heard)?;
    append_headed(out, &lines)
}

/// Appends what to look at first; nothing of a log without frames.
pub(crate) fn append_summary(
    alloc: Global,
    out: &mut Vec<u8>,
    names: &Participants,
    heard: &[Heard],
) -> Result<(), AllocError>
    ensures { (r : Reader) → OnOk result (out.new.items ≡ out.old.items ++ summary.summary r names.now heard.now) }
{
    if heard.is_empty() {
        return Ok(());
    }
    append_noted(alloc, out, names, heard)
}
