//! The alarms of a day.

ghost use Rattle.std.specs.Prelude.{◌≡◌, ◌++◌, length, IfOk, OnOk};
ghost use Rattle.surveillance.specs.Alarms.{alarms_of, event_alarms, event_alarms_by, events_alarms, looked, people_alarms};
ghost use Rattle.surveillance.specs.Again.{again_alarms};
ghost use Rattle.surveillance.specs.Deeds.{deeds, places_from};
ghost use Rattle.surveillance.specs.Kept.{kept_in};
ghost use Rattle.surveillance.specs.ShownBest.{best_in};
ghost use Rattle.surveillance.specs.Numbers.{held};

use crate::again::push_all_again;
use crate::alarm::Alarm;
use crate::cancels::push_cancel;
use crate::deeds::{Deed, everybody};
use crate::index::Entry;
use crate::numbered::Numbered;
use crate::people::{Counted, push_people};
use crate::prices::push_worse;
use crate::shown::{Prices, prices_of};
use crate::thresholds::Thresholds;
use crate::trades::{Listed, Looked, push_trades};
use day_events::{Event, ShownPrice, What};
use participants::Participants;
use std::alloc::{AllocError, Global};
use venue_rules::TradeFact;

/// A day that is watched: its trades, what its answers say, and the prices shown with its quotes.
#[derive(Clone, Copy)]
pub struct Watched<'a> {
    pub trades: &'a [TradeFact],
    pub events: &'a [Event],
    pub shown: &'a [ShownPrice],
}

/// What events are compared with.
#[derive(Clone, Copy)]
struct Compared<'a> {
    entries: &'a Numbered<Entry>,
    prices: &'a Prices,
}

#[tactic(auto, unfolding(crate::specs::Alarms::event_alarms_by))]
fn push_event_alarms(
    alarms: &mut Vec<Alarm>,
    bounds: &Thresholds,
    compared: &Compared<'_>,
    event: &Event,
) -> Result<(), AllocError>
    ensures { OnOk result (alarms.new.items ≡ alarms.old.items ++ event_alarms bounds.now (held compared.now.entries.now) (kept_in compared.now.prices.now.rows.entries compared.now.prices.now.bests.entries) event.now) }
{
    match &event.what {
        What::Cancelled(order) => push_cancel(
            alarms,
            bounds.cancelled_within_ms,
            compared.entries,
            event,
            *order,
        ),
        What::Traded(trade) => push_worse(alarms, compared.prices, event, trade, &trade.response),
        _ => Ok(()),
    }
}

fn push_events_alarms(
    alarms: &mut Vec<Alarm>,
    bounds: &Thresholds,
    compared: &Compared<'_>,
    events: &[Event],
) -> Result<(), AllocError>
    ensures { OnOk result (alarms.new.items ≡ alarms.old.items ++ events_alarms bounds.now (held compared.now.entries.now) (kept_in compared.now.prices.now.rows.entries compared.now.prices.now.bests.entries) events.now) }
{
    for event in events {
        push_event_alarms(alarms, bounds, compared, event)?;
    }
    Ok(())
}

/// Appends the alarms of events.
fn push_all_events(
    alloc: Global,
    alarms: &mut Vec<Alarm>,
    bounds: &Thresholds,
    entries: &Numbered<Entry>,
    day: &Watched<'_>,
) -> Result<(), AllocError>
    ensures { OnOk result (alarms.new.items ≡ alarms.old.items ++ events_alarms bounds.now (held entries.now) (best_in day.now.events.now day.now.shown.now) day.now.events.now) }
{
    let prices = prices_of(alloc, day.events, day.shown)?;
    let compared = Compared {
        entries,
        prices: &prices,
    };
    push_events_alarms(alarms, bounds, &compared, day.events)
}

/// Appends the alarms of participants.
fn push_everybody(
    alloc: Global,
    alarms: &mut Vec<Alarm>,
    bounds: &Thresholds,
    participants: &Participants,
    trades: &[TradeFact],
    deeds: &[Deed],
) -> Result<(), AllocError>
    ensures { OnOk result (alarms.new.items ≡ alarms.old.items ++ people_alarms bounds.now participants.now trades.now deeds.now (places_from 0 (length participants.now.names))) }
{
    let people = everybody(alloc, participants)?;
    let counted = Counted {
        participants,
        trades,
        deeds,
        everybody: &people,
    };
    push_people(alloc, alarms, bounds, &counted)
}

/// What is looked up of a day, and counted of its participants.
#[derive(Clone, Copy)]
pub(crate) struct Studied<'a> {
    pub looked: &'a Looked<'a>,
    pub deeds: &'a [Deed],
}

/// The alarms of a day, by what is looked up and counted of it.
pub(crate) fn alarms_by(
    alloc: Global,
    bounds: &Thresholds,
    listed: &Listed<'_>,
    studied: &Studied<'_>,
    day: &Watched<'_>,
) -> Result<Vec<Alarm>, AllocError>
    requires looked { record { reports = held studied.now.looked.now.reports.now; entries = held studied.now.looked.now.entries.now; orders = held studied.now.looked.now.orders.now } ≡ looked day.now.events.now }
    requires counted { studied.now.deeds.now ≡ deeds day.now.events.now }
    ensures { IfOk result (λ alarms. alarms.items ≡ alarms_of bounds.now (record { participants = listed.now.participants.now; instruments = listed.now.instruments.now }) day.now.trades.now day.now.events.now day.now.shown.now) }
{
    let mut alarms = Vec::new(alloc);
    push_trades(
        &mut alarms,
        bounds.linked_within_ms,
        listed,
        studied.looked,
        day.trades,
    )?;
    push_all_events(alloc, &mut alarms, bounds, studied.looked.entries, day)?;
    push_all_again(alloc, &mut alarms, day.events)?;
    let people = listed.participants;
    push_everybody(
        alloc,
        &mut alarms,
        bounds,
        people,
        day.trades,
        studied.deeds,
    )?;
    Ok(alarms)
}
