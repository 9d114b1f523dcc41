//! Two trails compared.

ghost use Rattle.std.specs.Prelude.{◌≡◌, ◌↔◌, ◌≤◌, ◌⊎◌, All, length, None, IsTrue, IfErr, IfOk, OnOk};
ghost use Rattle.std.specs.Io.KnownBytes.{Appends, Keeps};
ghost use Rattle.venue_rules.specs.Facts.{no_history};
ghost use Rattle.venue_core.specs.VenueFacts.{IsHistory};
ghost use Rattle.venue_core.specs.Plan.{most_items};
ghost use Rattle.venue_core.specs.Replay.{IsItem};
ghost use Rattle.trail_digest.specs.Comparison.{AreShared, IsCompared, comparison_text};
ghost use Rattle.trail_digest.specs.Trail.{trail_of};
ghost use Rattle.trail_comparison.specs.Comparison.{BeginsComparison, EmitsComparison, market_of, side_of};
ghost use Rattle.trail_comparison.specs.Differences.{BeginsRows, EmitsAnswers};
ghost use Rattle.trail_comparison.specs.declared.fault.ComparisonFault.TheVariants.{Memory};

use crate::day::Day;
use crate::fault::ComparisonFault;
use crate::left_out::Rows;
use crate::lines::count_line;
use crate::replaying::{emit_rows, write_text};
use row_replay::rows_have_their_inputs;
use std::alloc::{AllocError, Global};
use std::io::Write;
use trail_digest::{Side, append_comparison, are_same_rules, is_same};
use venue_core::Venue;
use venue_rules::TrailRow;

/// Writes the rows to which two venues, on which nothing has happened, reply differently, and their count.
#[tactic(auto, using(crate::proofs::SideBySide::are_answers, crate::proofs::SideBySide::begins_all))]
fn print_differences<W: Write>(
    alloc: Global,
    a: &mut Venue,
    b: &mut Venue,
    rows: &[TrailRow],
    writer: &mut W,
) -> Result<(), ComparisonFault>
    requires kept { All IsItem rows.now }
    requires few { length rows.now ≤ most_items }
    requires fresh { IsHistory a.old no_history }
    requires fresh_too { IsHistory b.old no_history }
    requires first { a.old.items ≡ 0 }
    requires first_too { b.old.items ≡ 0 }
    ensures emitted { OnOk result (EmitsAnswers a.old.market b.old.market rows.now (W.contents writer.old) (W.contents writer.new)) }
    ensures begun { IfErr result (λ fault. fault ≡ Memory → BeginsRows None a.old.market b.old.market rows.now (W.contents writer.old) (W.contents writer.new)) }
{
    rows_have_their_inputs();
    let all = Rows {
        all: rows,
        left_out: None,
    };
    let count = emit_rows(alloc, a, b, &all, writer)?;
    let line = count_line(alloc, count, rows.len())?;
    write_text(&line, writer)
}

/// Writes the answers of the days of the same rows in two markets, where they differ.
#[tactic(auto, using(crate::proofs::SideBySide::begins_none))]
fn print_answers<W: Write>(
    alloc: Global,
    a: Day<'_>,
    b: Day<'_>,
    rows: &[TrailRow],
    writer: &mut W,
) -> Result<(), ComparisonFault>
    requires kept { All IsItem rows.now }
    requires few { length rows.now ≤ most_items }
    ensures emitted { OnOk result (EmitsAnswers (market_of (side_of a.entry)) (market_of (side_of b.entry)) rows.now (W.contents writer.old) (W.contents writer.new)) }
    ensures begun { IfErr result (λ fault. fault ≡ Memory → BeginsRows None (market_of (side_of a.entry)) (market_of (side_of b.entry)) rows.now (W.contents writer.old) (W.contents writer.new)) }
{
    let mut venue = Venue::open(alloc, a.participants, a.instruments)?;
    let mut other = Venue::open(alloc, b.participants, b.instruments)?;
    let printed = print_differences(alloc, &mut venue, &mut other, rows, writer);
    drop(venue);
    drop(other);
    printed
}

fn append_sides(
    alloc: Global,
    text: &mut Vec<u8>,
    a: &Day<'_>,
    b: &Day<'_>,
) -> Result<usize, AllocError>
    ensures { IfOk result (IsCompared (side_of a.now) (side_of b.now) text.old.items text.new.items) }
{
    let one = Side {
        contents: a.contents,
        participants: &a.participants,
        instruments: &a.instruments,
    };
    let other = Side {
        contents: b.contents,
        participants: &b.participants,
        instruments: &b.instruments,
    };
    append_comparison(alloc, text, &one, &other)
}

/// Writes how files, delays and rows differ. Returns how many of the first rows are shared.
fn print_sides<W: Write>(
    alloc: Global,
    a: &Day<'_>,
    b: &Day<'_>,
    writer: &mut W,
) -> Result<usize, ComparisonFault>
    ensures shared { IfOk result (AreShared (trail_of a.now.contents).rows (trail_of b.now.contents).rows) }
    ensures written { IfOk result (λ k. Appends (W.contents writer.old) (W.contents writer.new) (comparison_text (side_of a.now) (side_of b.now) k)) }
    ensures unwritten { IfErr result (λ fault. fault ≡ Memory → Keeps (W.contents writer.old) (W.contents writer.new)) }
{
    let mut text = Vec::new(alloc);
    let shared = append_sides(alloc, &mut text, a, b)?;
    write_text(&text, writer)?;
    Ok(shared)
}

/// Prints how two trails, A and B, differ: their heads, whether the files are the same, each delay that differs, and
/// the first row that differs, or how many more rows one of them has. Where files or delays differ, both days are
/// replayed side by side over the rows that both share, and each row to which they reply differently is printed with
/// the replies of both, and then how many these are. Returns whether nothing differs. Where an allocation fails the
/// output is nothing, or a first part.
#[tactic(auto, using(crate::proofs::SideBySide::all_same, crate::proofs::SideBySide::others_follow, crate::proofs::SideBySide::others_begin))]
pub fn print_comparison<W: Write>(
    alloc: Global,
    a: Day<'_>,
    b: Day<'_>,
    writer: &mut W,
) -> Result<bool, ComparisonFault>
    requires kept { All IsItem (trail_of a.contents).rows }
    requires few { length (trail_of a.contents).rows ≤ most_items }
    ensures emitted { OnOk result (EmitsComparison (side_of a.entry) (side_of b.entry) (W.contents writer.old) (W.contents writer.new)) }
    ensures same { IfOk result (λ same. IsTrue same ↔ (trail_of a.entry.contents ≡ trail_of b.entry.contents)) }
    ensures begun { IfErr result (λ fault. fault ≡ Memory → Keeps (W.contents writer.old) (W.contents writer.new) ⊎ BeginsComparison (side_of a.entry) (side_of b.entry) (W.contents writer.old) (W.contents writer.new)) }
{
    let shared = print_sides(alloc, &a, &b, writer)?;
    let same = is_same(&a.contents, &b.contents, shared);
    if are_same_rules(&a.contents, &b.contents) {
        drop(a);
        drop(b);
        return Ok(same);
    }
    let rows = &a.contents.rows[..shared];
    print_answers(alloc, a, b, rows, writer)?;
    Ok(same)
}
