//! Whose rows the second of two venues leaves out.

ghost use Rattle.std.specs.Prelude.{◌≡◌, ◌≤◌, Some, length};
ghost use Rattle.std.specs.List.{count_by};
ghost use Rattle.trail_comparison.specs.Without.{count_shared, is_row_of, is_shared};

use participants::Who;
use venue_rules::TrailRow;

/// Rows that one venue takes, and of whose rows another takes none, if of anybody's.
#[derive(Clone, Copy)]
pub(crate) struct Rows<'a> {
    pub all: &'a [TrailRow],
    pub left_out: Option<Who>,
}

fn is_row_of(who: Who, row: &TrailRow) -> bool
    ensures { result ≡ is_row_of who row.now }
{
    row.who != 0 && who.place() == row.who - 1
}

/// Whether both venues take a row.
pub(crate) fn is_shared(rows: &Rows<'_>, row: &TrailRow) -> bool
    ensures { result ≡ is_shared rows.now.left_out row.now }
{
    match rows.left_out {
        Some(who) => !is_row_of(who, row),
        None => true,
    }
}

fn count_others(who: Who, rows: &[TrailRow]) -> usize
    ensures count { result ≡ count_by (is_shared (Some who)) rows.now }
    ensures bound { result ≤ length rows.now }
{
    let mut count = 0;
    for row in rows {
        if !is_row_of(who, row) {
            count += 1;
        }
    }
    count
}

/// How many rows both venues take.
pub(crate) fn count_shared(rows: &Rows<'_>) -> usize
    ensures count { result ≡ count_shared rows.now.left_out rows.now.all.now }
    ensures bound { result ≤ length rows.now.all.now }
{
    match rows.left_out {
        Some(who) => count_others(who, rows.all),
        None => rows.all.len(),
    }
}
