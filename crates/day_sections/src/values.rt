//! The values of the places of a section, and the numbers of rows.
ghost use Rattle.std.specs.Prelude.{◌≡◌, IfOk, OnOk, option_copied};
ghost use Rattle.page_text.specs.Parts.{with_part};
ghost use Rattle.day_sections.specs.Values.{are_shown, is_dated, is_listed, last_moment, moment_of, or_empty, row_alone, row_link, row_part, sender_of};

use crate::template::{ROW_ALONE, ROW_LINK};
use day_tables::{are_dated, name_at, number_text};
use fix_dictionary::Identifier;
use page_text::Page;
use participants::{Participants, Who};
use sef_moment::Moment;
use std::alloc::{AllocError, Global};
use venue_rules::TrailRow;

/// The text of an identifier.
pub fn id_text(alloc: Global, id: &Identifier) -> Result<Vec<u8>, AllocError>
    ensures { IfOk result (λ text. text.items ≡ id.now) }
{
    Vec::from_slice(alloc, id.as_slice())
}

/// The text of an identifier; empty where there is none.
pub fn text_or_empty(alloc: Global, id: &Option<Identifier>) -> Result<Vec<u8>, AllocError>
    ensures { IfOk result (λ text. text.items ≡ or_empty id.now) }
{
    match id {
        None => Ok(Vec::new(alloc)),
        Some(id) => id_text(alloc, id),
    }
}

/// The name of the sender of a row, by its place plus 1; empty for the clock.
pub fn sender_at(participants: &Participants, from: u32) -> &[u8]
    ensures { result.now ≡ sender_of participants.now from }
{
    if from == 0 {
        b""
    } else {
        name_at(participants, Who::of(from - 1))
    }
}

/// Adds the number of a row that is on the page.
fn add_row_link(alloc: Global, page: &mut Page, row: u64) -> Result<(), AllocError>
    ensures { OnOk result (page.new ≡ with_part page.old (row_link row)) }
{
    let number = number_text(alloc, row)?;
    page.add(ROW_LINK, &[&number, &number])
}

/// Adds the number of a row that does not.
fn add_row_alone(alloc: Global, page: &mut Page, row: u64) -> Result<(), AllocError>
    ensures { OnOk result (page.new ≡ with_part page.old (row_alone row)) }
{
    let number = number_text(alloc, row)?;
    page.add(ROW_ALONE, &[&number])
}

/// Adds the number of a row: a link, if the rows are on the page.
pub fn add_row_number(
    alloc: Global,
    page: &mut Page,
    linked: bool,
    row: u64,
) -> Result<(), AllocError>
    ensures { OnOk result (page.new ≡ with_part page.old (row_part linked row)) }
{
    if linked {
        add_row_link(alloc, page, row)
    } else {
        add_row_alone(alloc, page, row)
    }
}

/// Whether the rows are on the page: all, or none of more than 5,000.
pub fn are_shown(rows: &[TrailRow]) -> bool
    ensures { result ≡ are_shown rows.now }
{
    rows.len() <= 5_000
}

/// Whether a trail is of several dates.
pub fn is_dated(rows: &[TrailRow]) -> bool
    ensures { result ≡ is_dated rows.now }
{
    are_dated(moment_of(rows.first()), last_moment(rows))
}

/// The most trades that are on the page: the first, in the order of their numbers.
pub(crate) const MOST_TRADES: usize = 10_000;

/// Whether a trade is on the page.
pub fn is_listed(trade: u64) -> bool
    ensures { result ≡ is_listed trade }
{
    trade <= MOST_TRADES as u64
}

fn moment_of(row: Option<&TrailRow>) -> Option<Moment>
    ensures { result ≡ moment_of (option_copied row.entry) }
{
    match row {
        None => None,
        Some(row) => Some(row.moment),
    }
}

/// The moment of the last row.
pub fn last_moment(rows: &[TrailRow]) -> Option<Moment>
    ensures { result ≡ last_moment rows.now }
{
    moment_of(rows.last())
}
