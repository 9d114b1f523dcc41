//! A day replayed row by row, with what is kept of a participant's own.

ghost use Rattle.std.specs.Prelude.{◌≡◌, ◌+◌, ◌≤◌, All, length, IfOk, OnOk};
ghost use Rattle.venue_core.specs.Plan.{most_items};
ghost use Rattle.venue_core.specs.Replay.{IsItem};
ghost use Rattle.participant_activity.specs.Kept.{activity_of};
ghost use Rattle.participant_activity.specs.Replayed.{IsNoted, NotesRow};

use crate::activity::{Activity, no_activity};
use crate::noting::note_row;
use instruments::Instruments;
use participants::{Participants, Who};
use row_replay::{item_of, plan_item};
use std::alloc::{AllocError, Global};
use venue_core::{Venue, day_goes_on};
use venue_rules::TrailRow;

/// A venue after the rows of a trail, with what is kept of a participant's day.
#[derive(Drop)]
pub(crate) struct Replayed {
    pub venue: Venue,
    pub activity: Activity,
}

/// Has a venue take the input of a row, and keeps what it changes of a participant's day.
fn take_row(
    alloc: Global,
    venue: &mut Venue,
    activity: &mut Activity,
    who: Who,
    row: &TrailRow,
) -> Result<(), AllocError>
    requires item { IsItem row.now }
    requires few { venue.old.items ≤ most_items }
    ensures noted { OnOk result (NotesRow who row.now venue.old venue.new (activity_of activity.old) (activity_of activity.new)) }
    ensures items { OnOk result (venue.new.items ≡ venue.old.items + 1) }
{
    day_goes_on();
    let taken = item_of(alloc, row)?;
    let plan = plan_item(venue, &taken, row.moment)?;
    let replies = plan.replies();
    note_row(alloc, activity, who, &taken, row.moment, replies)?;
    venue.apply(plan);
    Ok(())
}

/// The venue after the rows of a trail, with these participants and instruments, and what is kept of a participant's
/// day.
pub(crate) fn replay_rows(
    alloc: Global,
    participants: Participants,
    instruments: Instruments,
    rows: &[TrailRow],
    who: Who,
) -> Result<Replayed, AllocError>
    requires kept { All IsItem rows.now }
    requires few { length rows.now ≤ most_items }
    ensures noted { IfOk result (λ r. IsNoted (record { participants = participants; instruments = instruments }) who rows.now r.venue (activity_of r.activity)) }
{
    day_goes_on();
    let mut venue = Venue::open(alloc, participants, instruments)?;
    let mut activity = no_activity(alloc);
    for row in rows {
        take_row(alloc, &mut venue, &mut activity, who, row)?;
    }
    Ok(Replayed { venue, activity })
}
