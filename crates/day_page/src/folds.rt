//! What begins and ends among the rows: one table of at most 120, and folds of 200 of more.

ghost use Rattle.std.specs.Prelude.{◌≡◌, ◌<◌, OnOk, length};
ghost use Rattle.page_text.specs.Parts.{with_part, with_parts};
ghost use Rattle.day_page.specs.Folds.{closing, first_part, fold_part, last_of_fold, opening};

use crate::template::{FOLD, NEXT_FOLD, NO_ROWS, ROWS_END, ROWS_LEFT, ROWS_OPEN};
use day_sections::are_shown;
use day_tables::number_text;
use page_text::Page;
use sef_moment::print_utc;
use std::alloc::{AllocError, Global};
use venue_rules::TrailRow;

/// The last row of the fold that begins with this one, at this place.
fn last_of_fold<'a>(rows: &'a [TrailRow], place: usize, row: &'a TrailRow) -> &'a TrailRow
    requires within { place < length rows.now }
    ensures { result.now ≡ last_of_fold rows.now place row.now }
{
    match rows.get(place + 199) {
        Some(last) => last,
        None => match rows.last() {
            Some(last) => last,
            None => row,
        },
    }
}

/// Begins the fold of the row at this place.
fn add_fold(
    alloc: Global,
    page: &mut Page,
    template: &[u8],
    rows: &[TrailRow],
    place: usize,
    row: &TrailRow,
) -> Result<(), AllocError>
    requires within { place < length rows.now }
    ensures { OnOk result (page.new ≡ with_part page.old (fold_part template.now rows.now place row.now)) }
{
    let last = last_of_fold(rows, place, row);
    let from = number_text(alloc, row.n)?;
    let to = number_text(alloc, last.n)?;
    let begin = print_utc(row.moment);
    let end = print_utc(last.moment);
    page.add(template, &[&from, &to, &begin, &end, &from, &to])
}

/// Begins the first fold, or the table of at most 120 rows.
fn add_first(
    alloc: Global,
    page: &mut Page,
    rows: &[TrailRow],
    row: &TrailRow,
) -> Result<(), AllocError>
    requires within { 0 < length rows.now }
    ensures { OnOk result (page.new ≡ with_part page.old (first_part rows.now row.now)) }
{
    if rows.len() <= 120 {
        page.add(ROWS_OPEN, &[])
    } else {
        add_fold(alloc, page, FOLD, rows, 0, row)
    }
}

/// Adds what begins before the row at this place.
pub(crate) fn add_opening(
    alloc: Global,
    page: &mut Page,
    rows: &[TrailRow],
    place: usize,
    row: &TrailRow,
) -> Result<(), AllocError>
    requires within { place < length rows.now }
    ensures { OnOk result (page.new ≡ with_parts page.old (opening rows.now place row.now)) }
{
    if place == 0 {
        add_first(alloc, page, rows, row)
    } else if place % 200 == 0 {
        add_fold(alloc, page, NEXT_FOLD, rows, place, row)
    } else {
        Ok(())
    }
}

/// What stands after the rows.
pub(crate) fn closing(rows: &[TrailRow]) -> &'static [u8]
    ensures { result.now ≡ closing rows.now }
{
    if rows.is_empty() {
        NO_ROWS
    } else if are_shown(rows) {
        ROWS_END
    } else {
        ROWS_LEFT
    }
}
