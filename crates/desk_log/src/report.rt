//! What is printed of a comparison.

ghost use Rattle.std.specs.Prelude.{◌≡◌, ◌++◌, codes, OnOk, IfOk, option_map, slice_get};
ghost use Rattle.message_words.specs.Visible.{readable};
ghost use Rattle.desk_log.specs.Numbered.{text_at};
ghost use Rattle.desk_log.specs.Report as specs;

use crate::comparing::{Compared, Comparison};
use crate::frames::{BrokenFrame, FrameFault, Span, line_of};
use crate::gap::{append_gaps, message_at};
use crate::listing::append_listing;
use crate::numbered::{Ends, Place, text_at};
use crate::once::Conflict;
use crate::owed::Owed;
use crate::parts::{Part, append_parts};
use crate::reading::Reading;
use message_words::readable_text;
use std::alloc::{AllocError, Global};

fn append_all(out: &mut Vec<u8>, owed: usize, desk: &[u8]) -> Result<(), AllocError>
    ensures { OnOk result (out.new.items ≡ out.old.items ++ specs.all_received owed desk.now) }
{
    if owed == 0 {
        return append_parts(
            out,
            &[
                Part::Bytes(desk),
                Part::Bytes(b" was owed no message, and the log has none\n"),
            ],
        );
    }
    if owed == 1 {
        return append_parts(
            out,
            &[
                Part::Bytes(b"the log has the one message that "),
                Part::Bytes(desk),
                Part::Bytes(b" was owed\n"),
            ],
        );
    }
    append_parts(
        out,
        &[
            Part::Bytes(b"the log has all "),
            Part::Number(owed as u64),
            Part::Bytes(b" messages that "),
            Part::Bytes(desk),
            Part::Bytes(b" was owed, in order\n"),
        ],
    )
}

fn append_first(out: &mut Vec<u8>, count: usize, owed: usize, desk: &[u8]) -> Result<(), AllocError>
    ensures { OnOk result (out.new.items ≡ out.old.items ++ specs.first_received count owed desk.now) }
{
    if count == 1 {
        return append_parts(
            out,
            &[
                Part::Bytes(b"the log has the first of the "),
                Part::Number(owed as u64),
                Part::Bytes(b" messages that "),
                Part::Bytes(desk),
                Part::Bytes(b" was owed; "),
            ],
        );
    }
    append_parts(
        out,
        &[
            Part::Bytes(b"the log has the first "),
            Part::Number(count as u64),
            Part::Bytes(b" of the "),
            Part::Number(owed as u64),
            Part::Bytes(b" messages that "),
            Part::Bytes(desk),
            Part::Bytes(b" was owed, in order; "),
        ],
    )
}

fn row_at(owed: &[Owed], at: usize) -> u64
    ensures { result ≡ specs.row_of (slice_get owed.now at) }
{
    match owed.get(at) {
        Some(owed) => owed.row,
        None => 0,
    }
}

fn append_rows(out: &mut Vec<u8>, first: u64, last: u64) -> Result<(), AllocError>
    ensures { OnOk result (out.new.items ≡ out.old.items ++ specs.rows_said first last) }
{
    if first == last {
        return append_parts(
            out,
            &[
                Part::Bytes(b" (row "),
                Part::Number(first),
                Part::Bytes(b")\n"),
            ],
        );
    }
    append_parts(
        out,
        &[
            Part::Bytes(b" (rows "),
            Part::Number(first),
            Part::Bytes(b" to "),
            Part::Number(last),
            Part::Bytes(b")\n"),
        ],
    )
}

fn append_none(out: &mut Vec<u8>, owed: usize, desk: &[u8]) -> Result<(), AllocError>
    ensures { OnOk result (out.new.items ≡ out.old.items ++ specs.none_received owed desk.now) }
{
    if owed == 1 {
        return append_parts(
            out,
            &[
                Part::Bytes(b"the one message that "),
                Part::Bytes(desk),
                Part::Bytes(b" was owed is not in the log"),
            ],
        );
    }
    append_parts(
        out,
        &[
            Part::Bytes(b"none of the "),
            Part::Number(owed as u64),
            Part::Bytes(b" messages that "),
            Part::Bytes(desk),
            Part::Bytes(b" was owed is in the log"),
        ],
    )
}

fn append_last(out: &mut Vec<u8>, missing: usize) -> Result<(), AllocError>
    ensures { OnOk result (out.new.items ≡ out.old.items ++ specs.last_missing missing) }
{
    if missing == 1 {
        return out.extend_from_slice(b"the last is not in the log");
    }
    append_parts(
        out,
        &[
            Part::Bytes(b"the last "),
            Part::Number(missing as u64),
            Part::Bytes(b" are not in the log"),
        ],
    )
}

fn append_part_head(
    out: &mut Vec<u8>,
    count: usize,
    owed: usize,
    desk: &[u8],
) -> Result<(), AllocError>
    ensures { OnOk result (out.new.items ≡ out.old.items ++ specs.part_head count owed desk.now) }
{
    if count == 0 {
        return append_none(out, owed, desk);
    }
    append_first(out, count, owed, desk)?;
    append_last(out, owed.saturating_sub(count))
}

fn append_differs(out: &mut Vec<u8>) -> Result<(), AllocError>
    ensures { OnOk result (out.new.items ≡ out.old.items ++ codes "then the log differs\n") }
{
    out.extend_from_slice(b"then the log differs\n")
}

fn append_first_differs(
    out: &mut Vec<u8>,
    count: usize,
    owed: usize,
    desk: &[u8],
) -> Result<(), AllocError>
    ensures { OnOk result (out.new.items ≡ out.old.items ++ (specs.first_received count owed desk.now ++ codes "then the log differs\n")) }
{
    append_first(out, count, owed, desk)?;
    append_differs(out)
}

fn append_differs_head(
    out: &mut Vec<u8>,
    count: usize,
    owed: usize,
    desk: &[u8],
) -> Result<(), AllocError>
    ensures { OnOk result (out.new.items ≡ out.old.items ++ specs.differs_head count owed desk.now) }
{
    if owed == 0 {
        return append_parts(
            out,
            &[
                Part::Bytes(desk),
                Part::Bytes(b" was owed no message, and the log has some\n"),
            ],
        );
    }
    if count == 0 {
        return append_parts(
            out,
            &[
                Part::Bytes(b"the log differs at the first of the "),
                Part::Number(owed as u64),
                Part::Bytes(b" messages that "),
                Part::Bytes(desk),
                Part::Bytes(b" was owed\n"),
            ],
        );
    }
    append_first_differs(out, count, owed, desk)
}

fn append_owed_row(alloc: Global, out: &mut Vec<u8>, owed: &Owed) -> Result<(), AllocError>
    ensures { OnOk result (out.new.items ≡ out.old.items ++ specs.owed_row owed.now) }
{
    let text = readable_text(alloc, owed.text.as_slice())?;
    append_parts(
        out,
        &[
            Part::Bytes(b"    owed at row "),
            Part::Number(owed.row),
            Part::Bytes(b": "),
            Part::Bytes(text.as_slice()),
            Part::Bytes(b"\n"),
        ],
    )
}

fn append_owed(alloc: Global, out: &mut Vec<u8>, owed: &[Owed], at: usize) -> Result<(), AllocError>
    ensures { OnOk result (out.new.items ≡ out.old.items ++ specs.owed_line (slice_get owed.now at)) }
{
    match owed.get(at) {
        Some(owed) => append_owed_row(alloc, out, owed),
        None => out.extend_from_slice(b"    owed: nothing more\n"),
    }
}

/// The text of a message of the log, with no byte that is not printed.
fn readable_at(alloc: Global, log: &[u8], span: Span) -> Result<Vec<u8>, AllocError>
    ensures { IfOk result (λ text. text.items ≡ readable (text_at log.now span)) }
{
    let text = text_at(alloc, log, span)?;
    readable_text(alloc, text.as_slice())
}

fn append_logged(
    alloc: Global,
    out: &mut Vec<u8>,
    log: &[u8],
    logged: &(Place, Span),
) -> Result<(), AllocError>
    ensures { OnOk result (out.new.items ≡ out.old.items ++ specs.logged_line log.now logged.now) }
{
    let text = readable_at(alloc, log, logged.1)?;
    append_parts(
        out,
        &[
            Part::Bytes(b"    in the log, number "),
            Part::Number(logged.0.number),
            Part::Bytes(b" of era "),
            Part::Number(logged.0.era as u64),
            Part::Bytes(b", line "),
            Part::Number(line_of(logged.1.start, log) as u64),
            Part::Bytes(b": "),
            Part::Bytes(text.as_slice()),
            Part::Bytes(b"\n"),
        ],
    )
}

fn append_text(alloc: Global, out: &mut Vec<u8>, log: &[u8], span: Span) -> Result<(), AllocError>
    ensures { OnOk result (out.new.items ≡ out.old.items ++ specs.text_line log.now span) }
{
    let text = readable_at(alloc, log, span)?;
    append_parts(
        out,
        &[
            Part::Bytes(b"    line "),
            Part::Number(line_of(span.start, log) as u64),
            Part::Bytes(b": "),
            Part::Bytes(text.as_slice()),
            Part::Bytes(b"\n"),
        ],
    )
}

fn append_conflict_head(out: &mut Vec<u8>, place: Place) -> Result<(), AllocError>
    ensures { OnOk result (out.new.items ≡ out.old.items ++ specs.conflict_head place) }
{
    append_parts(
        out,
        &[
            Part::Bytes(b"the log has two texts of number "),
            Part::Number(place.number),
            Part::Bytes(b" of era "),
            Part::Number(place.era as u64),
            Part::Bytes(b"\n"),
        ],
    )
}

fn append_conflict(
    alloc: Global,
    out: &mut Vec<u8>,
    log: &[u8],
    conflict: &Conflict,
) -> Result<(), AllocError>
    ensures { OnOk result (out.new.items ≡ out.old.items ++ specs.conflict_lines log.now conflict.now) }
{
    append_conflict_head(out, conflict.place)?;
    append_text(alloc, out, log, conflict.first)?;
    append_text(alloc, out, log, conflict.second)
}

fn append_logged_if(
    alloc: Global,
    out: &mut Vec<u8>,
    log: &[u8],
    logged: Option<(Place, Span)>,
) -> Result<(), AllocError>
    ensures { OnOk result (out.new.items ≡ out.old.items ++ specs.logged_if_line log.now logged) }
{
    match logged {
        Some(logged) => append_logged(alloc, out, log, &logged),
        None => Ok(()),
    }
}

fn append_logged_at(
    alloc: Global,
    out: &mut Vec<u8>,
    log: &[u8],
    reading: &Reading,
    at: usize,
) -> Result<(), AllocError>
    ensures { OnOk result (out.new.items ≡ out.old.items ++ specs.logged_if_line log.now (slice_get reading.now.once.items at)) }
{
    append_logged_if(alloc, out, log, message_at(&reading.once, at))
}

fn append_difference(
    alloc: Global,
    out: &mut Vec<u8>,
    count: usize,
    log: &[u8],
    desk: &[u8],
    owed: &[Owed],
    reading: &Reading,
) -> Result<(), AllocError>
    ensures { OnOk result (out.new.items ≡ out.old.items ++ specs.differs_lines count log.now desk.now owed.now reading.now.frames.items reading.now.once.items) }
{
    append_differs_head(out, count, owed.len(), desk)?;
    append_gaps(alloc, out, count, log, owed, reading)?;
    append_owed(alloc, out, owed, count)?;
    append_logged_at(alloc, out, log, reading, count)
}

fn append_part_rows(out: &mut Vec<u8>, count: usize, owed: &[Owed]) -> Result<(), AllocError>
    ensures { OnOk result (out.new.items ≡ out.old.items ++ specs.part_rows count owed.now) }
{
    let last = owed.len().saturating_sub(1);
    append_rows(out, row_at(owed, count), row_at(owed, last))
}

fn append_part(
    alloc: Global,
    out: &mut Vec<u8>,
    count: usize,
    log: &[u8],
    desk: &[u8],
    owed: &[Owed],
    reading: &Reading,
) -> Result<(), AllocError>
    ensures { OnOk result (out.new.items ≡ out.old.items ++ specs.part_lines count log.now desk.now owed.now reading.now.frames.items reading.now.once.items) }
{
    append_part_head(out, count, owed.len(), desk)?;
    append_part_rows(out, count, owed)?;
    append_gaps(alloc, out, count, log, owed, reading)
}

/// Appends what a comparison says.
fn append_said(
    alloc: Global,
    out: &mut Vec<u8>,
    compared: &Compared,
    log: &[u8],
    desk: &[u8],
    owed: &[Owed],
    reading: &Reading,
) -> Result<(), AllocError>
    ensures { OnOk result (out.new.items ≡ out.old.items ++ specs.said compared.now.comparison reading.now.conflict compared.now.count log.now desk.now owed.now reading.now.frames.items reading.now.once.items) }
{
    match compared.comparison {
        Comparison::All => append_all(out, owed.len(), desk),
        Comparison::FirstPart => append_part(alloc, out, compared.count, log, desk, owed, reading),
        Comparison::Differs => match &reading.conflict {
            Some(conflict) => append_conflict(alloc, out, log, conflict),
            None => append_difference(alloc, out, compared.count, log, desk, owed, reading),
        },
    }
}

fn fault_words(fault: FrameFault) -> &'static [u8]
    ensures { result.now ≡ specs.fault_words fault }
{
    match fault {
        FrameFault::Length => {
            b" of the log begins as a frame and is none: BodyLength (9) is wrong\n"
        }
        FrameFault::Checksum => {
            b" of the log begins as a frame and is none: CheckSum (10) is wrong\n"
        }
    }
}

fn append_broken(
    out: &mut Vec<u8>,
    log: &[u8],
    broken: &Option<BrokenFrame>,
) -> Result<(), AllocError>
    ensures { OnOk result (out.new.items ≡ out.old.items ++ specs.broken_line log.now broken.now) }
{
    match broken {
        Some(broken) => append_parts(
            out,
            &[
                Part::Bytes(b"line "),
                Part::Number(line_of(broken.at, log) as u64),
                Part::Bytes(fault_words(broken.fault)),
            ],
        ),
        None => Ok(()),
    }
}

fn append_frames(
    out: &mut Vec<u8>,
    ends: &Ends,
    bodies: usize,
    frames: usize,
) -> Result<(), AllocError>
    ensures { OnOk result (out.new.items ≡ out.old.items ++ specs.frames_said ends.now.from.now ends.now.to.now bodies frames) }
{
    append_parts(
        out,
        &[
            Part::Bytes(b"in the log: "),
            Part::Number(bodies as u64),
            Part::Bytes(b" frames, "),
            Part::Number(frames as u64),
            Part::Bytes(b" of them from "),
            Part::Bytes(ends.from),
            Part::Bytes(b" to "),
            Part::Bytes(ends.to),
        ],
    )
}

fn append_messages(
    out: &mut Vec<u8>,
    logged: usize,
    once: usize,
    passed: usize,
) -> Result<(), AllocError>
    ensures { OnOk result (out.new.items ≡ out.old.items ++ specs.messages_said logged once passed) }
{
    append_parts(
        out,
        &[
            Part::Bytes(b"; "),
            Part::Number(logged as u64),
            Part::Bytes(b" application messages, "),
            Part::Number(once as u64),
            Part::Bytes(b" without the repeats; "),
            Part::Number(passed as u64),
            Part::Bytes(b" bytes in no frame\n"),
        ],
    )
}

fn append_counts(out: &mut Vec<u8>, ends: &Ends, reading: &Reading) -> Result<(), AllocError>
    ensures { OnOk result (out.new.items ≡ out.old.items ++ specs.counts_line ends.now.from.now ends.now.to.now reading.now) }
{
    let frames = reading.frames.len();
    let logged = reading.logged.len();
    let once = reading.once.len();
    append_frames(out, ends, reading.bodies, frames)?;
    append_messages(out, logged, once, reading.outside)
}

/// What is printed of a comparison.
pub(crate) fn report(
    alloc: Global,
    ends: &Ends,
    log: &[u8],
    compared: &Compared,
    owed: &[Owed],
    reading: &Reading,
) -> Result<Vec<u8>, AllocError>
    ensures { IfOk result (λ text. text.items ≡ specs.report ends.now.from.now ends.now.to.now log.now compared.now owed.now reading.now) }
{
    let mut text = Vec::new(alloc);
    append_said(alloc, &mut text, compared, log, ends.to, owed, reading)?;
    append_listing(
        alloc,
        &mut text,
        compared.comparison,
        log,
        &reading.once,
        owed,
    )?;
    append_counts(&mut text, ends, reading)?;
    append_broken(&mut text, log, &reading.broken)?;
    Ok(text)
}
