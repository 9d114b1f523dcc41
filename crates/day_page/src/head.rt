//! The head of the page: what identifies the trail.
ghost use Rattle.std.specs.Prelude.{◌≡◌, IfOk, OnOk, option_copied, string_bytes};
ghost use Rattle.page_text.specs.Parts.{with_part, with_parts};
ghost use Rattle.trail_digest.specs.Head.{digest_text, sha256_text};
ghost use Rattle.trail_digest.specs.Trail.{trail_of};
ghost use Rattle.day_page.specs.Sections.{days_from, days_of, first_utc, head_part, head_parts, last_utc, top_part, utc_of};

use crate::style::STYLE;
use crate::template::{HEAD, TOP};
use day_tables::{date_in, date_of, grouped_text, moment_of};
use instruments::Instruments;
use page_text::Page;
use participants::Participants;
use sef_moment::print_utc;
use sha2::{Digest, Sha256};
use std::alloc::{AllocError, Global};
use trail_digest::{Contents, digest};
use venue_rules::TrailRow;

/// The moment of a row, printed.
fn utc_of(row: Option<&TrailRow>) -> Option<[u8; 21]>
    ensures { result ≡ utc_of (option_copied row.entry) }
{
    match row {
        None => None,
        Some(row) => Some(print_utc(row.moment)),
    }
}

fn first_utc(rows: &[TrailRow]) -> Option<[u8; 21]>
    ensures { result ≡ first_utc rows.now }
{
    utc_of(rows.first())
}

fn last_utc(rows: &[TrailRow]) -> Option<[u8; 21]>
    ensures { result ≡ last_utc rows.now }
{
    utc_of(rows.last())
}

fn sha256_text(alloc: Global, bytes: &[u8]) -> Result<String, AllocError>
    ensures { IfOk result (λ text. string_bytes text ≡ sha256_text bytes.now) }
{
    hex::encode(alloc, Sha256::digest(bytes))
}

fn digest_text(alloc: Global, trail: &Contents) -> Result<String, AllocError>
    ensures { IfOk result (λ text. string_bytes text ≡ digest_text (trail_of trail.now)) }
{
    hex::encode(alloc, digest(trail))
}

/// One date, or two that differ.
fn days_from(alloc: Global, first: &[u8], last: &[u8]) -> Result<Vec<u8>, AllocError>
    ensures { IfOk result (λ days. days.items ≡ days_from first.now last.now) }
{
    let mut days = Vec::from_slice(alloc, first)?;
    if first != last {
        days.extend_from_slice(b" to ")?;
        days.extend_from_slice(last)?;
    }
    Ok(days)
}

/// The dates of a trail: that of its first row, and that of its last if it is another.
fn days_of(
    alloc: Global,
    first: &Option<[u8; 21]>,
    last: &Option<[u8; 21]>,
) -> Result<Vec<u8>, AllocError>
    ensures { IfOk result (λ days. days.items ≡ days_of first.now last.now) }
{
    match first {
        None => Vec::from_slice(alloc, b"(no rows)"),
        Some(first) => days_from(alloc, date_in(first), date_of(last)),
    }
}

fn add_top(
    alloc: Global,
    page: &mut Page,
    participants: &Participants,
    instruments: &Instruments,
    trail: &Contents,
) -> Result<(), AllocError>
    ensures { OnOk result (page.new ≡ with_part page.old (top_part (record { participants = participants.now; instruments = instruments.now }) (trail_of trail.now))) }
{
    let first = first_utc(trail.rows);
    let last = last_utc(trail.rows);
    let days = days_of(alloc, &first, &last)?;
    page.add(TOP, &[participants.venue(), &days])
}

fn add_identity(
    alloc: Global,
    page: &mut Page,
    participants: &Participants,
    instruments: &Instruments,
    trail: &Contents,
) -> Result<(), AllocError>
    ensures { OnOk result (page.new ≡ with_part page.old (head_part (record { participants = participants.now; instruments = instruments.now }) (trail_of trail.now))) }
{
    let first = first_utc(trail.rows);
    let last = last_utc(trail.rows);
    let days = days_of(alloc, &first, &last)?;
    let rows = grouped_text(alloc, trail.rows.len() as u64)?;
    let people = grouped_text(alloc, participants.len() as u64)?;
    let listed = grouped_text(alloc, instruments.len() as u64)?;
    let digest = digest_text(alloc, trail)?;
    let participants_digest = sha256_text(alloc, trail.participants)?;
    let participants_length = grouped_text(alloc, trail.participants.len() as u64)?;
    let instruments_digest = sha256_text(alloc, trail.instruments)?;
    let instruments_length = grouped_text(alloc, trail.instruments.len() as u64)?;
    page.add(
        HEAD,
        &[
            participants.venue(),
            &days,
            &rows,
            moment_of(&first),
            moment_of(&last),
            &people,
            &listed,
            digest.as_bytes(),
            participants_digest.as_bytes(),
            &participants_length,
            instruments_digest.as_bytes(),
            &instruments_length,
        ],
    )
}

/// Adds the head of the page.
pub(crate) fn add_head(
    alloc: Global,
    page: &mut Page,
    participants: &Participants,
    instruments: &Instruments,
    trail: &Contents,
) -> Result<(), AllocError>
    ensures { OnOk result (page.new ≡ with_parts page.old (head_parts (record { participants = participants.now; instruments = instruments.now }) (trail_of trail.now))) }
{
    add_top(alloc, page, participants, instruments, trail)?;
    page.add(STYLE, &[])?;
    add_identity(alloc, page, participants, instruments, trail)
}
