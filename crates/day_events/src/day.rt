//! A day replayed row by row, with what its answers say.

ghost use Rattle.std.specs.Prelude.{◌≡◌, ◌+◌, ◌≤◌, All, length, IfOk, OnOk};
ghost use Rattle.venue_core.specs.Plan.{most_items};
ghost use Rattle.venue_core.specs.Replay.{IsItem};
ghost use Rattle.day_events.specs.Days.{AreEvents, TakesEvents};

use crate::best::reported_in;
use crate::event::Event;
use crate::reporting::push_events_at;
use crate::shown::{ShownPrice, push_shown_at};
use instruments::Instruments;
use participants::Participants;
use row_replay::{item_of, plan_item};
use std::alloc::{AllocError, Global};
use venue_core::{Venue, day_goes_on};
use venue_rules::TrailRow;

/// A venue after the rows of a trail, with what its answers say, and the prices shown with its quotes.
#[derive(Drop)]
pub struct Day {
    pub venue: Venue,
    pub events: Vec<Event>,
    pub shown: Vec<ShownPrice>,
}

/// Has a venue take the input of a row, and adds what its answer says and shows. Returns the instrument of the order
/// report with which the answer begins, if it begins with one.
pub(crate) fn take_row(
    alloc: Global,
    venue: &mut Venue,
    events: &mut Vec<Event>,
    shown: &mut Vec<ShownPrice>,
    row: &TrailRow,
) -> Result<Option<u32>, AllocError>
    requires kept { IsItem row.now }
    requires few { venue.old.items ≤ most_items }
    ensures taken { IfOk result (λ reported. TakesEvents row.now venue.old venue.new events.old.items events.new.items shown.old.items shown.new.items reported) }
    ensures items { OnOk result (venue.new.items ≡ venue.old.items + 1) }
{
    day_goes_on();
    let taken = item_of(alloc, row)?;
    let plan = plan_item(venue, &taken, row.moment)?;
    let replies = plan.replies();
    push_events_at(alloc, events, row, &taken, replies)?;
    push_shown_at(shown, row, &taken, replies)?;
    let reported = reported_in(venue.instruments(), replies);
    venue.apply(plan);
    Ok(reported)
}

/// The venue after the rows of a trail, with these participants and instruments, with what its answers say, and the
/// prices shown with its quotes.
pub fn day_of(
    alloc: Global,
    participants: Participants,
    instruments: Instruments,
    rows: &[TrailRow],
) -> Result<Day, AllocError>
    requires kept { All IsItem rows.now }
    requires few { length rows.now ≤ most_items }
    ensures { IfOk result (λ d. AreEvents (record { participants = participants; instruments = instruments }) rows.now d.venue d.events.items d.shown.items) }
{
    day_goes_on();
    let mut venue = Venue::open(alloc, participants, instruments)?;
    let mut events = Vec::new(alloc);
    let mut shown = Vec::new(alloc);
    for row in rows {
        take_row(alloc, &mut venue, &mut events, &mut shown, row)?;
    }
    Ok(Day {
        venue,
        events,
        shown,
    })
}
