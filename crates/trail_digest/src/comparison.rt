//! Two trails compared: files, delays and rows.

ghost use Rattle.std.specs.Prelude.{◌≡◌, ◌++◌, ◌+◌, ◌<◌, ◌≤◌, ◌↔◌, ◌-◌, min, length, slice_get, Some, bytes_eq, ◌&&◌, ◌^◌, IfErr, IfOk, OnOk, IsTrue};
ghost use Rattle.instruments.specs.Listing.{symbol_of};
ghost use Rattle.trail_digest.specs.Comparison.{AreShared, IsCompared, begins_pieces, both_rows, bytes_line, comparison_text, count_line, delay_line, delay_lines, delay_pieces, delays_text, difference_text, differs_pieces, ended_text, heads_text, rest_text, rows_text, same_pieces, same_rules, side_of, unended_text};
ghost use Rattle.trail_digest.specs.Printed.{concat};
ghost use Rattle.trail_digest.specs.Trail.{trail_of};

use crate::contents::Contents;
use crate::head::{HeadForm, append_head};
use crate::shared::shared_rows;
use crate::text::{append, append_row};
use instruments::Instruments;
use itoa::Buffer;
use participants::Participants;
use std::alloc::{AllocError, Global};
use venue_rules::TrailRow;

/// A trail, with the values of its files.
#[derive(Clone, Copy)]
pub struct Side<'a> {
    pub contents: Contents<'a>,
    pub participants: &'a Participants,
    pub instruments: &'a Instruments,
}

/// An instrument's symbol; empty where the file has none at this place.
fn symbol_at(instruments: &Instruments, x: usize) -> &[u8]
    ensures { result.now ≡ symbol_of instruments.now x }
{
    if x < instruments.len() {
        instruments.get(x as u32).symbol.as_slice()
    } else {
        b""
    }
}

fn append_bytes_line(text: &mut Vec<u8>, what: &[u8], a: &[u8], b: &[u8]) -> Result<(), AllocError>
    ensures { OnOk result (text.new.items ≡ text.old.items ++ bytes_line what.now a.now b.now) }
{
    if a == b {
        append(text, &[what, b": the same\n"])
    } else {
        append(text, &[what, b": differ\n"])
    }
}

/// Appends the delays of one place.
fn append_delay(text: &mut Vec<u8>, a: &Side, b: &Side, x: usize) -> Result<(), AllocError>
    requires here { x < length a.now.contents.delays.now }
    requires there { x < length b.now.contents.delays.now }
    ensures { OnOk result (text.new.items ≡ text.old.items ++ concat (delay_pieces (side_of a.now) (side_of b.now) x)) }
{
    let mut number = Buffer::new();
    let mut one = Buffer::new();
    let mut other = Buffer::new();
    append(
        text,
        &[
            b"delay ",
            number.format(x + 1).as_bytes(),
            b": ",
            one.format(a.contents.delays[x]).as_bytes(),
            b" ms of ",
            symbol_at(a.instruments, x),
            b" in A, ",
            other.format(b.contents.delays[x]).as_bytes(),
            b" ms of ",
            symbol_at(b.instruments, x),
            b" in B\n",
        ],
    )
}

/// Appends the delays of one place, where they differ.
fn append_delay_line(text: &mut Vec<u8>, a: &Side, b: &Side, x: usize) -> Result<(), AllocError>
    requires here { x < length a.now.contents.delays.now }
    requires there { x < length b.now.contents.delays.now }
    ensures { OnOk result (text.new.items ≡ text.old.items ++ delay_line (side_of a.now) (side_of b.now) x) }
{
    if a.contents.delays[x] == b.contents.delays[x] {
        Ok(())
    } else {
        append_delay(text, a, b, x)
    }
}

fn append_delay_lines(text: &mut Vec<u8>, a: &Side, b: &Side) -> Result<(), AllocError>
    ensures { OnOk result (text.new.items ≡ text.old.items ++ delay_lines (side_of a.now) (side_of b.now) (min (length a.now.contents.delays.now) (length b.now.contents.delays.now))) }
{
    let least = a.contents.delays.len().min(b.contents.delays.len());
    for x in 0..least {
        append_delay_line(text, a, b, x)?;
    }
    Ok(())
}

/// Appends how many delays each trail has, where the counts differ.
fn append_count_line(text: &mut Vec<u8>, a: usize, b: usize) -> Result<(), AllocError>
    ensures { OnOk result (text.new.items ≡ text.old.items ++ count_line a b) }
{
    if a == b {
        return Ok(());
    }
    let mut one = Buffer::new();
    let mut other = Buffer::new();
    append(
        text,
        &[
            b"delays: ",
            one.format(a).as_bytes(),
            b" in A, ",
            other.format(b).as_bytes(),
            b" in B\n",
        ],
    )
}

fn append_delays(text: &mut Vec<u8>, a: &Side, b: &Side) -> Result<(), AllocError>
    ensures { OnOk result (text.new.items ≡ text.old.items ++ delays_text (side_of a.now) (side_of b.now)) }
{
    if a.contents.delays == b.contents.delays {
        return append(text, &[b"delays: the same\n"]);
    }
    append_count_line(text, a.contents.delays.len(), b.contents.delays.len())?;
    append_delay_lines(text, a, b)
}

fn row_at(rows: &[TrailRow], k: usize) -> &TrailRow
    requires { k < length rows.now }
    ensures { slice_get rows.now k ≡ Some result.now }
{
    &rows[k]
}

fn append_both_rows(
    alloc: Global,
    text: &mut Vec<u8>,
    a: &Side,
    b: &Side,
    one: &TrailRow,
    other: &TrailRow,
) -> Result<(), AllocError>
    ensures { OnOk result (text.new.items ≡ text.old.items ++ both_rows (side_of a.now) (side_of b.now) one.now other.now) }
{
    append(text, &[b"A: "])?;
    append_row(alloc, text, a.participants, one)?;
    append(text, &[b"B: "])?;
    append_row(alloc, text, b.participants, other)
}

/// Appends the row of each trail at a place.
fn append_rows(
    alloc: Global,
    text: &mut Vec<u8>,
    a: &Side,
    b: &Side,
    k: usize,
) -> Result<(), AllocError>
    requires here { k < length a.now.contents.rows.now }
    requires there { k < length b.now.contents.rows.now }
    ensures { OnOk result (text.new.items ≡ text.old.items ++ rows_text (side_of a.now) (side_of b.now) (slice_get a.now.contents.rows.now k) (slice_get b.now.contents.rows.now k)) }
{
    let one = row_at(a.contents.rows, k);
    let other = row_at(b.contents.rows, k);
    append_both_rows(alloc, text, a, b, one, other)
}

fn append_same(text: &mut Vec<u8>, k: usize) -> Result<(), AllocError>
    ensures { OnOk result (text.new.items ≡ text.old.items ++ concat (same_pieces k)) }
{
    let mut digits = Buffer::new();
    append(
        text,
        &[
            b"rows: all ",
            digits.format(k).as_bytes(),
            b" are the same\n",
        ],
    )
}

fn append_begins(
    text: &mut Vec<u8>,
    k: usize,
    one: &[u8],
    other: &[u8],
    more: usize,
) -> Result<(), AllocError>
    ensures { OnOk result (text.new.items ≡ text.old.items ++ concat (begins_pieces k one.now other.now more)) }
{
    let mut digits = Buffer::new();
    let mut further = Buffer::new();
    append(
        text,
        &[
            b"rows: all ",
            digits.format(k).as_bytes(),
            b" of ",
            one,
            b" are the first of ",
            other,
            b", which has ",
            further.format(more).as_bytes(),
            b" more\n",
        ],
    )
}

fn append_differs(text: &mut Vec<u8>, k: usize) -> Result<(), AllocError>
    requires { k < 2 ^ 64 - 1 }
    ensures { OnOk result (text.new.items ≡ text.old.items ++ concat (differs_pieces k)) }
{
    let mut row = Buffer::new();
    append(
        text,
        &[
            b"rows: row ",
            row.format(k + 1).as_bytes(),
            b" is the first that differs, no later row is compared\n",
        ],
    )
}

/// Appends what follows the first rows, which both share, where A has no more.
fn append_ended(text: &mut Vec<u8>, b: &Side, k: usize) -> Result<(), AllocError>
    requires { k ≤ length b.now.contents.rows.now }
    ensures { OnOk result (text.new.items ≡ text.old.items ++ ended_text (side_of b.now) k) }
{
    let other = b.contents.rows.len();
    if k == other {
        append_same(text, k)
    } else {
        append_begins(text, k, b"A", b"B", other - k)
    }
}

/// Appends the first row that differs, of each trail.
fn append_difference(
    alloc: Global,
    text: &mut Vec<u8>,
    a: &Side,
    b: &Side,
    k: usize,
) -> Result<(), AllocError>
    requires here { k < length a.now.contents.rows.now }
    requires there { k < length b.now.contents.rows.now }
    requires few { k < 2 ^ 64 - 1 }
    ensures { OnOk result (text.new.items ≡ text.old.items ++ difference_text (side_of a.now) (side_of b.now) k) }
{
    append_differs(text, k)?;
    append_rows(alloc, text, a, b, k)
}

/// And where it has.
fn append_unended(
    alloc: Global,
    text: &mut Vec<u8>,
    a: &Side,
    b: &Side,
    k: usize,
) -> Result<(), AllocError>
    requires here { k < length a.now.contents.rows.now }
    requires there { k ≤ length b.now.contents.rows.now }
    ensures { OnOk result (text.new.items ≡ text.old.items ++ unended_text (side_of a.now) (side_of b.now) k) }
{
    if k == b.contents.rows.len() {
        append_begins(text, k, b"B", b"A", a.contents.rows.len() - k)
    } else {
        append_difference(alloc, text, a, b, k)
    }
}

/// Appends what follows the first rows, which both share.
fn append_rest(
    alloc: Global,
    text: &mut Vec<u8>,
    a: &Side,
    b: &Side,
    k: usize,
) -> Result<(), AllocError>
    requires here { k ≤ length a.now.contents.rows.now }
    requires there { k ≤ length b.now.contents.rows.now }
    ensures { OnOk result (text.new.items ≡ text.old.items ++ rest_text (side_of a.now) (side_of b.now) k) }
{
    if k == a.contents.rows.len() {
        append_ended(text, b, k)
    } else {
        append_unended(alloc, text, a, b, k)
    }
}

/// Whether the files and the delays are the same, by which rows are answered.
pub fn are_same_rules(a: &Contents, b: &Contents) -> bool
    ensures { result ≡ same_rules (trail_of a.now) (trail_of b.now) }
{
    a.participants == b.participants && a.instruments == b.instruments && a.delays == b.delays
}

fn append_heads(
    alloc: Global,
    text: &mut Vec<u8>,
    a: &Contents,
    b: &Contents,
) -> Result<(), AllocError>
    ensures { OnOk result (text.new.items ≡ text.old.items ++ heads_text (trail_of a.now) (trail_of b.now)) }
{
    append(text, &[b"A: "])?;
    append_head(alloc, text, HeadForm::Line, a)?;
    append(text, &[b"B: "])?;
    append_head(alloc, text, HeadForm::Line, b)
}

fn append_of_shared(
    alloc: Global,
    text: &mut Vec<u8>,
    a: &Side,
    b: &Side,
    k: usize,
) -> Result<(), AllocError>
    requires here { k ≤ length a.now.contents.rows.now }
    requires there { k ≤ length b.now.contents.rows.now }
    ensures { OnOk result (text.new.items ≡ text.old.items ++ comparison_text (side_of a.now) (side_of b.now) k) }
{
    append_heads(alloc, text, &a.contents, &b.contents)?;
    append_bytes_line(
        text,
        b"participants",
        a.contents.participants,
        b.contents.participants,
    )?;
    append_bytes_line(
        text,
        b"instruments",
        a.contents.instruments,
        b.contents.instruments,
    )?;
    append_delays(text, a, b)?;
    append_rest(alloc, text, a, b, k)
}

/// Appends how two trails, A and B, differ: their heads, whether the files are the same, each delay that differs, and
/// the first row that differs, or how many more rows one of them has. Returns how many of the first rows are shared.
pub fn append_comparison(
    alloc: Global,
    text: &mut Vec<u8>,
    a: &Side,
    b: &Side,
) -> Result<usize, AllocError>
    ensures { IfOk result (IsCompared (side_of a.now) (side_of b.now) text.old.items text.new.items) }
{
    let k = shared_rows(a.contents.rows, b.contents.rows);
    append_of_shared(alloc, text, a, b, k)?;
    Ok(k)
}

/// Whether the rows are the same, of which the first k are shared and no more.
fn are_same_rows(a: &[TrailRow], b: &[TrailRow], k: usize) -> bool
    requires { AreShared a.now b.now k }
    ensures { IsTrue result ↔ (a.now ≡ b.now) }
{
    k == a.len().max(b.len())
}

/// Whether nothing differs, of trails whose first k rows are shared and no more.
pub fn is_same(a: &Contents, b: &Contents, k: usize) -> bool
    requires { AreShared a.now.rows.now b.now.rows.now k }
    ensures { IsTrue result ↔ (trail_of a.now ≡ trail_of b.now) }
{
    are_same_rules(a, b) && are_same_rows(a.rows, b.rows, k)
}
