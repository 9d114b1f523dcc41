//! Two venues that take the inputs of the same rows, side by side.

ghost use Rattle.std.specs.Prelude.{◌≡◌, ◌+◌, ◌≤◌, All, length, IfErr, IfOk, OnOk};
ghost use Rattle.std.specs.Io.KnownBytes.{Appends, Keeps};
ghost use Rattle.venue_rules.specs.Facts.{no_history};
ghost use Rattle.venue_core.specs.Plan.{most_items};
ghost use Rattle.venue_core.specs.Replay.{IsItem, TakesRow};
ghost use Rattle.venue_core.specs.VenueFacts.{IsHistory};
ghost use Rattle.trail_comparison.specs.Differences.{AreReplayed, BeginsRows, EmitsRow};
ghost use Rattle.trail_comparison.specs.declared.fault.ComparisonFault.TheVariants.{Memory, Output};

use crate::fault::ComparisonFault;
use crate::left_out::{Rows, is_shared};
use crate::lines::{Replied, difference_lines};
use crate::sent::Names;
use row_replay::{item_of, plan_item};
use std::alloc::{AllocError, Global};
use std::io::Write;
use venue_core::{Venue, day_goes_on};
use venue_rules::TrailRow;

pub(crate) fn write_text<W: Write>(text: &[u8], writer: &mut W) -> Result<(), ComparisonFault>
    ensures written { OnOk result (Appends (W.contents writer.old) (W.contents writer.new) text.now) }
    ensures output { IfErr result (λ fault. fault ≡ Output) }
{
    match writer.write_all(text) {
        Ok(()) => Ok(()),
        Err(_) => Err(ComparisonFault::Output),
    }
}

/// Has both venues take the input of a row, and writes it where their replies differ. Returns how many rows were
/// written. Where an allocation fails nothing is written.
#[tactic(auto, using(crate::proofs::SideBySide::emits, crate::proofs::SideBySide::steps))]
fn emit_row<W: Write>(
    alloc: Global,
    a: &mut Venue,
    b: &mut Venue,
    row: &TrailRow,
    writer: &mut W,
) -> Result<usize, ComparisonFault>
    requires kept { IsItem row.now }
    requires few { a.old.items ≤ most_items }
    requires few_too { b.old.items ≤ most_items }
    ensures emitted { IfOk result (λ count. EmitsRow row.now count a.old a.new b.old b.new (W.contents writer.old) (W.contents writer.new)) }
    ensures once { IfOk result (λ count. count ≤ 1) }
    ensures items { OnOk result (a.new.items ≡ a.old.items + 1) }
    ensures items_too { OnOk result (b.new.items ≡ b.old.items + 1) }
    ensures unwritten { IfErr result (λ fault. fault ≡ Memory → Keeps (W.contents writer.old) (W.contents writer.new)) }
{
    day_goes_on();
    let taken = item_of(alloc, row)?;
    let plan = plan_item(a, &taken, row.moment)?;
    let other = plan_item(b, &taken, row.moment)?;
    let names = Names {
        a: a.participants(),
        b: b.participants(),
    };
    let replied = Replied {
        row,
        taken: &taken,
        a: plan.replies(),
        b: other.replies(),
    };
    let (text, count) = difference_lines(alloc, &names, &replied)?;
    write_text(&text, writer)?;
    a.apply(plan);
    b.apply(other);
    Ok(count)
}

/// Has a venue take the input of a row.
fn take_alone(alloc: Global, venue: &mut Venue, row: &TrailRow) -> Result<(), AllocError>
    requires kept { IsItem row.now }
    requires few { venue.old.items ≤ most_items }
    ensures taken { OnOk result (TakesRow row.now venue.old venue.new) }
    ensures items { OnOk result (venue.new.items ≡ venue.old.items + 1) }
{
    day_goes_on();
    let taken = item_of(alloc, row)?;
    let plan = plan_item(venue, &taken, row.moment)?;
    venue.apply(plan);
    Ok(())
}

/// Has two venues on which nothing has happened take the inputs of the rows, one after another, and writes each row to
/// which they reply differently as it comes. The first alone takes those of the participant who is left out. Returns
/// how many rows are written.
#[tactic(auto, using(crate::proofs::SideBySide::one_row_more, crate::proofs::SideBySide::one_row_alone, crate::proofs::SideBySide::no_row, crate::proofs::SideBySide::begins))]
pub(crate) fn emit_rows<W: Write>(
    alloc: Global,
    a: &mut Venue,
    b: &mut Venue,
    rows: &Rows<'_>,
    writer: &mut W,
) -> Result<usize, ComparisonFault>
    requires kept { All IsItem rows.now.all.now }
    requires few { length rows.now.all.now ≤ most_items }
    requires fresh { IsHistory a.old no_history }
    requires fresh_too { IsHistory b.old no_history }
    requires first { a.old.items ≡ 0 }
    requires first_too { b.old.items ≡ 0 }
    ensures emitted { IfOk result (λ count. AreReplayed rows.now.left_out a.old.market b.old.market rows.now.all.now count a.new b.new (W.contents writer.old) (W.contents writer.new)) }
    ensures begun { IfErr result (λ fault. fault ≡ Memory → BeginsRows rows.now.left_out a.old.market b.old.market rows.now.all.now (W.contents writer.old) (W.contents writer.new)) }
{
    day_goes_on();
    let mut count = 0;
    for row in rows.all {
        if !is_shared(rows, row) {
            take_alone(alloc, a, row)?;
            continue;
        }
        count += emit_row(alloc, a, b, row, writer)?;
    }
    Ok(count)
}
