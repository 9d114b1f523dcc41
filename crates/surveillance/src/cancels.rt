//! Orders that are cancelled soon after they entered.

ghost use Rattle.std.specs.Prelude.{◌≡◌, ◌++◌, OnOk};
ghost use Rattle.surveillance.specs.Alarms.{cancel_alarms, soon_after, soon_alarm, soon_by};
ghost use Rattle.surveillance.specs.Numbers.{held};

use crate::alarm::{Alarm, Figure, Kind, Others, push_alarm};
use crate::index::{Entry, entry_at, place};
use crate::numbered::Numbered;
use day_events::Event;
use std::alloc::AllocError;

fn soon_alarm(bound: u64, event: &Event, order: u64, ms: u64) -> Alarm
    ensures { result ≡ soon_alarm bound event.now order ms }
{
    Alarm {
        kind: Kind::CancelledSoon,
        at: Some(place(event)),
        who: event.to,
        others: Others::None,
        trade: None,
        order: Some(order),
        found: Some(Figure::Number(ms)),
        base: None,
        bound: Some(Figure::Number(bound)),
    }
}

fn push_soon_after(
    alarms: &mut Vec<Alarm>,
    bound: u64,
    event: &Event,
    order: u64,
    ms: u64,
) -> Result<(), AllocError>
    ensures { OnOk result (alarms.new.items ≡ alarms.old.items ++ soon_after bound event.now order ms) }
{
    if ms <= bound {
        push_alarm(alarms, soon_alarm(bound, event, order, ms))
    } else {
        Ok(())
    }
}

fn push_soon_by(
    alarms: &mut Vec<Alarm>,
    bound: u64,
    event: &Event,
    order: u64,
    entry: Option<Entry>,
) -> Result<(), AllocError>
    ensures { OnOk result (alarms.new.items ≡ alarms.old.items ++ soon_by bound event.now order entry) }
{
    match entry {
        None => Ok(()),
        Some(entry) => {
            let ms = event.at.moment.ms().saturating_sub(entry.at.moment.ms());
            push_soon_after(alarms, bound, event, order, ms)
        }
    }
}

/// Appends the alarm of an order that is cancelled soon after it entered.
pub(crate) fn push_cancel(
    alarms: &mut Vec<Alarm>,
    bound: u64,
    entries: &Numbered<Entry>,
    event: &Event,
    order: Option<u64>,
) -> Result<(), AllocError>
    ensures { OnOk result (alarms.new.items ≡ alarms.old.items ++ cancel_alarms bound (held entries.now) event.now order) }
{
    match order {
        None => Ok(()),
        Some(order) => { push_soon_by(alarms, bound, event, order, entry_at(entries, order)) }
    }
}
