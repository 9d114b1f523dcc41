//! How each trade of a day was made: a replay of the rows.

ghost use Rattle.std.specs.Prelude.{◌≡◌, ◌++◌, ◌+◌, ◌≤◌, [], All, length, IfOk, OnOk};
ghost use Rattle.venue_rules.specs.Facts.{no_history};
ghost use Rattle.venue_core.specs.Plan.{most_items};
ghost use Rattle.venue_core.specs.Replay.{IsItem};
ghost use Rattle.venue_core.specs.VenueFacts.{IsHistory};
ghost use Rattle.trade_table.specs.Sources.{known_at, made_at};
ghost use Rattle.trade_table.specs.Executions.{AreExecutions, TakesExecutions};

use crate::execution::{Execution, Known};
use crate::sources::{At, push_known_at, push_made_at};
use row_replay::{item_of, plan_item};
use std::alloc::{AllocError, Global};
use venue_core::{Venue, day_goes_on};
use venue_rules::{Reply, Taken, TrailRow};

/// Appends how the trades at a row were made, and what later ones are looked up in.
fn push_row(
    known: &mut Vec<Known>,
    executions: &mut Vec<Execution>,
    row: &TrailRow,
    taken: &Option<Taken>,
    replies: &[Reply],
) -> Result<(), AllocError>
    ensures made { OnOk result (executions.new.items ≡ executions.old.items ++ made_at row.now taken.now known.old.items replies.now) }
    ensures known { OnOk result (known.new.items ≡ known.old.items ++ known_at taken.now replies.now) }
{
    let at = At { row, taken, known };
    push_made_at(executions, at, replies)?;
    push_known_at(known, taken, replies)
}

/// Has the venue process the input of a row, and adds how the trades there were made.
fn take_row(
    alloc: Global,
    venue: &mut Venue,
    known: &mut Vec<Known>,
    executions: &mut Vec<Execution>,
    row: &TrailRow,
) -> Result<(), AllocError>
    requires kept { IsItem row.now }
    requires few { venue.old.items ≤ most_items }
    ensures taken { OnOk result (TakesExecutions row.now venue.old venue.new known.old.items known.new.items executions.old.items executions.new.items) }
    ensures items { OnOk result (venue.new.items ≡ venue.old.items + 1) }
{
    day_goes_on();
    let taken = item_of(alloc, row)?;
    let plan = plan_item(venue, &taken, row.moment)?;
    push_row(known, executions, row, &taken, plan.replies())?;
    venue.apply(plan);
    Ok(())
}

/// Has an empty venue process the inputs of a trail's rows in order, and gives how each trade was made. Kept in memory
/// are these, and a short entry for each quote and each cross of the day.
#[tactic(auto, using(crate::proofs::Walking::executed_more, crate::proofs::Walking::executed_nothing))]
pub(crate) fn executions(
    alloc: Global,
    venue: &mut Venue,
    known: &mut Vec<Known>,
    rows: &[TrailRow],
) -> Result<Vec<Execution>, AllocError>
    requires kept { All IsItem rows.now }
    requires few { length rows.now ≤ most_items }
    requires fresh { IsHistory venue.old no_history }
    requires first { venue.old.items ≡ 0 }
    requires blank { known.old.items ≡ [] }
    ensures { IfOk result (λ executions. AreExecutions venue.old.market rows.now venue.new known.new.items executions.items) }
{
    day_goes_on();
    let mut executions = Vec::new(alloc);
    for row in rows {
        take_row(alloc, venue, known, &mut executions, row)?;
    }
    Ok(executions)
}
