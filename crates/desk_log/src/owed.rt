//! What the rows of a trail owe a participant.

ghost use Rattle.std.specs.Prelude.{◌≡◌, ◌≤◌, ◌+◌, ◌++◌, All, IfOk, OnOk, length};
ghost use Rattle.venue_rules.specs.Facts.{no_history};
ghost use Rattle.venue_core.specs.Plan.{most_items};
ghost use Rattle.venue_core.specs.Replay.{IsItem};
ghost use Rattle.venue_core.specs.VenueFacts.{IsHistory};
ghost use Rattle.desk_log.specs.Owed as specs;

use fix_encoder::print_app;
use participants::Who;
use row_replay::{item_of, plan_item};
use std::alloc::{AllocError, Global};
use venue_core::{Venue, day_goes_on, message_of};
use venue_rules::{Reply, TrailRow};

/// A message that is owed: the row at whose answer it comes to be owed, and its text.
#[derive(Drop)]
pub struct Owed {
    pub row: u64,
    pub text: Vec<u8>,
}

fn owed_at(alloc: Global, row: &TrailRow, reply: &Reply) -> Result<Owed, AllocError>
    ensures { IfOk result (λ owed. specs.owed_view owed ≡ specs.owed_at row.now reply.now) }
{
    let app = message_of(alloc, reply)?;
    let mut text = Vec::new(alloc);
    print_app(&app, &mut text)?;
    Ok(Owed { row: row.n, text })
}

/// Appends a reply, if it is to this participant.
fn append_if(
    alloc: Global,
    owed: &mut Vec<Owed>,
    row: &TrailRow,
    who: Who,
    reply: &Reply,
) -> Result<(), AllocError>
    ensures { OnOk result (specs.owed_views owed.new.items ≡ specs.owed_views owed.old.items ++ specs.owed_if row.now who reply.now) }
{
    if reply.to == who {
        owed.push(owed_at(alloc, row, reply)?)?;
    }
    Ok(())
}

/// Appends the replies to one participant.
fn append_replies(
    alloc: Global,
    owed: &mut Vec<Owed>,
    row: &TrailRow,
    who: Who,
    replies: &[Reply],
) -> Result<(), AllocError>
    ensures { OnOk result (specs.owed_views owed.new.items ≡ specs.owed_views owed.old.items ++ specs.owed_by row.now who replies.now) }
{
    for reply in replies {
        append_if(alloc, owed, row, who, reply)?;
    }
    Ok(())
}

/// Has a venue take the input of a row, and appends what its answer owes.
fn owe_row(
    alloc: Global,
    venue: &mut Venue,
    who: Who,
    row: &TrailRow,
    owed: &mut Vec<Owed>,
) -> Result<(), AllocError>
    requires kept { IsItem row.now }
    requires few { venue.old.items ≤ most_items }
    ensures owed { OnOk result (specs.OwesRow who row.now venue.old venue.new (specs.owed_views owed.old.items) (specs.owed_views owed.new.items)) }
    ensures items { OnOk result (venue.new.items ≡ venue.old.items + 1) }
{
    day_goes_on();
    let taken = item_of(alloc, row)?;
    let plan = plan_item(venue, &taken, row.moment)?;
    append_replies(alloc, owed, row, who, plan.replies())?;
    venue.apply(plan);
    Ok(())
}

/// What the rows owe a participant, on a venue on which nothing has happened.
#[tactic(auto, using(crate::proofs::OwedRows::owed_more, crate::proofs::OwedRows::owed_nothing))]
pub(crate) fn owed_of(
    alloc: Global,
    venue: &mut Venue,
    who: Who,
    rows: &[TrailRow],
) -> Result<Vec<Owed>, AllocError>
    requires kept { All IsItem rows.now }
    requires few { length rows.now ≤ most_items }
    requires fresh { IsHistory venue.old no_history }
    requires first { venue.old.items ≡ 0 }
    ensures { IfOk result (λ owed. specs.IsOwed venue.old.market who rows.now venue.new (specs.owed_views owed.items)) }
{
    day_goes_on();
    let mut owed = Vec::new(alloc);
    for row in rows {
        owe_row(alloc, venue, who, row, &mut owed)?;
    }
    Ok(owed)
}
