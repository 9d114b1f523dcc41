//! A day replayed row by row, with what its answers say and show, and the changes of its best prices.

ghost use Rattle.std.specs.Prelude.{◌≤◌, All, length, IfOk};
ghost use Rattle.venue_core.specs.Plan.{most_items};
ghost use Rattle.venue_core.specs.Replay.{IsItem};
ghost use Rattle.day_events.specs.Days.{ArePriced};

use crate::best::{Best, push_changes, tops_of};
use crate::day::take_row;
use crate::event::Event;
use crate::shown::ShownPrice;
use instruments::Instruments;
use market_laws::every_input_changes_one_book;
use participants::Participants;
use std::alloc::{AllocError, Global};
use venue_core::{Venue, day_goes_on};
use venue_rules::TrailRow;

/// A venue after the rows of a trail, with what its answers say, the prices shown with its quotes, and the changes of
/// its best prices.
#[derive(Drop)]
pub struct PricedDay {
    pub venue: Venue,
    pub events: Vec<Event>,
    pub shown: Vec<ShownPrice>,
    pub bests: Vec<Best>,
}

/// The venue after the rows of a trail, with these participants and instruments, with what its answers say, the prices
/// shown with its quotes, and the changes of its best prices.
pub fn priced_day_of(
    alloc: Global,
    participants: Participants,
    instruments: Instruments,
    rows: &[TrailRow],
) -> Result<PricedDay, AllocError>
    requires kept { All IsItem rows.now }
    requires few { length rows.now ≤ most_items }
    ensures { IfOk result (λ d. ArePriced (record { participants = participants; instruments = instruments }) rows.now d.venue d.events.items d.shown.items d.bests.items) }
{
    day_goes_on();
    every_input_changes_one_book();
    let mut venue = Venue::open(alloc, participants, instruments)?;
    let mut events = Vec::new(alloc);
    let mut shown = Vec::new(alloc);
    let mut bests = Vec::new(alloc);
    let mut tops = tops_of(alloc, &venue)?;
    for row in rows {
        let reported = take_row(alloc, &mut venue, &mut events, &mut shown, row)?;
        push_changes(&venue, reported, &mut tops, &mut bests, row)?;
    }
    Ok(PricedDay {
        venue,
        events,
        shown,
        bests,
    })
}
