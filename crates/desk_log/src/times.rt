//! When the frames of a log were sent, and when the rows of the trail were taken.

ghost use Rattle.std.specs.Prelude.{◌≡◌, ◌++◌, ◌≤◌, OnOk, length, option_map, slice_get};
ghost use Rattle.std.specs.List.{count_by};
ghost use Rattle.desk_log.specs.Times as specs;

use crate::comparing::Comparison;
use crate::frames::Span;
use crate::numbered::{Ends, Numbered, Place, body_at};
use crate::parts::{Part, append_parts};
use crate::reading::Reading;
use fix_fields::read_moment;
use fix_pieces::first_value;
use sef_moment::{Moment, print_utc};
use std::alloc::AllocError;
use venue_rules::TrailRow;

/// The first of some moments and the last.
#[derive(Clone, Copy)]
pub struct Times {
    pub first: Moment,
    pub last: Moment,
}

fn moment_if(value: Option<&[u8]>) -> Option<Moment>
    ensures { result ≡ specs.moment_if (option_map (λ text. text.now) value.entry) }
{
    let Some(text) = value else {
        return None;
    };
    match read_moment(text) {
        Ok(moment) => Some(moment),
        Err(_) => None,
    }
}

/// SendingTime of a message of the log.
fn sent_at(log: &[u8], span: Span) -> Option<Moment>
    ensures { result ≡ specs.sent_at log.now span }
{
    moment_if(first_value(b"52=", body_at(log, span)))
}

fn sent_by(log: &[u8], frame: Option<&Numbered>) -> Option<Moment>
    ensures { result ≡ specs.sent_by log.now (option_map (λ f. f.now) frame.entry) }
{
    match frame {
        None => None,
        Some(frame) => sent_at(log, frame.body),
    }
}

fn both(first: Option<Moment>, last: Option<Moment>) -> Option<Times>
    ensures { result ≡ specs.both first last }
{
    let Some(first) = first else {
        return None;
    };
    let Some(last) = last else {
        return None;
    };
    Some(Times { first, last })
}

/// When the first frame was sent and the last.
fn log_times(log: &[u8], frames: &[Numbered]) -> Option<Times>
    ensures { result ≡ specs.log_times log.now frames.now }
{
    let last = frames.len().saturating_sub(1);
    both(sent_by(log, frames.get(0)), sent_by(log, frames.get(last)))
}

fn taken_at(row: Option<&TrailRow>) -> Option<Moment>
    ensures { result ≡ specs.taken_at (option_map (λ r. r.now) row.entry) }
{
    match row {
        None => None,
        Some(row) => Some(row.moment),
    }
}

/// When the first row was taken and the last.
fn row_times(rows: &[TrailRow]) -> Option<Times>
    ensures { result ≡ specs.row_times rows.now }
{
    let last = rows.len().saturating_sub(1);
    both(taken_at(rows.get(0)), taken_at(rows.get(last)))
}

fn is_early(log: &[u8], first: Moment, logged: &(Place, Span)) -> bool
    ensures { result ≡ specs.is_early log.now first logged.now }
{
    match sent_at(log, logged.1) {
        None => false,
        Some(moment) => moment.ms() < first.ms(),
    }
}

/// How many messages of the log were sent before a moment.
fn count_early(log: &[u8], first: Moment, once: &[(Place, Span)]) -> usize
    ensures count { result ≡ count_by (specs.is_early log.now first) once.now }
    ensures bound { result ≤ length once.now }
{
    let mut count = 0;
    for logged in once {
        if is_early(log, first, logged) {
            count += 1;
        }
    }
    count
}

fn append_ends(out: &mut Vec<u8>, ends: &Ends) -> Result<(), AllocError>
    ensures { OnOk result (out.new.items ≡ out.old.items ++ specs.ends_said ends.now.from.now ends.now.to.now) }
{
    append_parts(
        out,
        &[
            Part::Bytes(b"the frames from "),
            Part::Bytes(ends.from),
            Part::Bytes(b" to "),
            Part::Bytes(ends.to),
            Part::Bytes(b" were sent from "),
        ],
    )
}

fn append_moments(out: &mut Vec<u8>, times: &Times) -> Result<(), AllocError>
    ensures { OnOk result (out.new.items ≡ out.old.items ++ specs.moments_said times.now) }
{
    out.extend_from_slice(&print_utc(times.first))?;
    out.extend_from_slice(b" to ")?;
    out.extend_from_slice(&print_utc(times.last))
}

fn append_sent(out: &mut Vec<u8>, ends: &Ends, log: &Times) -> Result<(), AllocError>
    ensures { OnOk result (out.new.items ≡ out.old.items ++ specs.sent_said ends.now.from.now ends.now.to.now log.now) }
{
    append_ends(out, ends)?;
    append_moments(out, log)
}

fn append_taken(out: &mut Vec<u8>, rows: &Times) -> Result<(), AllocError>
    ensures { OnOk result (out.new.items ≡ out.old.items ++ specs.taken_said rows.now) }
{
    out.extend_from_slice(b"; the trail's rows are of ")?;
    append_moments(out, rows)?;
    out.extend_from_slice(b"\n")
}

fn append_span(out: &mut Vec<u8>, ends: &Ends, log: &Times, rows: &Times) -> Result<(), AllocError>
    ensures { OnOk result (out.new.items ≡ out.old.items ++ specs.span_said ends.now.from.now ends.now.to.now log.now rows.now) }
{
    append_sent(out, ends, log)?;
    append_taken(out, rows)
}

fn append_early(out: &mut Vec<u8>, count: usize) -> Result<(), AllocError>
    ensures { OnOk result (out.new.items ≡ out.old.items ++ specs.early_said count) }
{
    if count == 0 {
        return Ok(());
    }
    if count == 1 {
        return out.extend_from_slice(
            b"one of these application messages was sent before the first row: the log may begin before the trail\n",
        );
    }
    append_parts(
        out,
        &[
            Part::Number(count as u64),
            Part::Bytes(
                b" of these application messages were sent before the first row: the log may begin before the trail\n",
            ),
        ],
    )
}

fn append_late(out: &mut Vec<u8>, late: bool) -> Result<(), AllocError>
    ensures { OnOk result (out.new.items ≡ out.old.items ++ specs.late_said late) }
{
    if late {
        return out.extend_from_slice(
            b"the log begins after the first row: what was owed before may stand in an earlier log\n",
        );
    }
    Ok(())
}

fn append_ended(out: &mut Vec<u8>, ended: bool) -> Result<(), AllocError>
    ensures { OnOk result (out.new.items ≡ out.old.items ++ specs.ended_said ended) }
{
    if ended {
        return out.extend_from_slice(
            b"the log ends before the last row: what was owed after may stand in a later log\n",
        );
    }
    Ok(())
}

fn append_reasons(
    out: &mut Vec<u8>,
    comparison: Comparison,
    early: usize,
    log: &Times,
    rows: &Times,
) -> Result<(), AllocError>
    ensures { OnOk result (out.new.items ≡ out.old.items ++ specs.reasons comparison early log.now rows.now) }
{
    match comparison {
        Comparison::All => Ok(()),
        Comparison::FirstPart => append_reasons_said(out, early, log, rows),
        Comparison::Differs => append_reasons_said(out, early, log, rows),
    }
}

fn append_reasons_said(
    out: &mut Vec<u8>,
    early: usize,
    log: &Times,
    rows: &Times,
) -> Result<(), AllocError>
    ensures { OnOk result (out.new.items ≡ out.old.items ++ specs.reasons_said early log.now rows.now) }
{
    append_early(out, early)?;
    append_late(out, rows.first.ms() < log.first.ms())?;
    append_ended(out, log.last.ms() < rows.last.ms())
}

/// Appends when the frames were sent and the rows taken; and where something differs, how the log lies to the trail.
fn append_known(
    out: &mut Vec<u8>,
    ends: &Ends,
    log: &[u8],
    comparison: Comparison,
    once: &[(Place, Span)],
    sent: &Times,
    taken: &Times,
) -> Result<(), AllocError>
    ensures { OnOk result (out.new.items ≡ out.old.items ++ specs.known_said ends.now.from.now ends.now.to.now log.now comparison once.now sent.now taken.now) }
{
    let early = count_early(log, taken.first, once);
    append_span(out, ends, sent, taken)?;
    append_reasons(out, comparison, early, sent, taken)
}

fn append_if_known(
    out: &mut Vec<u8>,
    ends: &Ends,
    log: &[u8],
    comparison: Comparison,
    once: &[(Place, Span)],
    sent: Option<Times>,
    taken: Option<Times>,
) -> Result<(), AllocError>
    ensures { OnOk result (out.new.items ≡ out.old.items ++ specs.times_said ends.now.from.now ends.now.to.now log.now comparison once.now sent taken) }
{
    let Some(sent) = sent else {
        return Ok(());
    };
    let Some(taken) = taken else {
        return Ok(());
    };
    append_known(out, ends, log, comparison, once, &sent, &taken)
}

/// Appends when the frames were sent and the rows taken, where both are known.
pub(crate) fn append_times(
    out: &mut Vec<u8>,
    ends: &Ends,
    log: &[u8],
    comparison: Comparison,
    rows: &[TrailRow],
    reading: &Reading,
) -> Result<(), AllocError>
    ensures { OnOk result (out.new.items ≡ out.old.items ++ specs.times_text ends.now.from.now ends.now.to.now log.now comparison rows.now reading.now) }
{
    let sent = log_times(log, &reading.frames);
    let taken = row_times(rows);
    append_if_known(out, ends, log, comparison, &reading.once, sent, taken)
}
