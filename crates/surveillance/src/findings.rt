//! What is found in a day: its alarms, its trades of linked orders, and what its participants did.

ghost use Rattle.std.specs.Prelude.{◌≡◌, IfOk};
ghost use Rattle.surveillance.specs.Alarms.{alarms_of, looked};
ghost use Rattle.surveillance.specs.Deeds.{deeds};
ghost use Rattle.surveillance.specs.Pairs.{linked_in};

use crate::alarm::Alarm;
use crate::alarms::{Studied, Watched, alarms_by};
use crate::deeds::{Deed, deeds_of};
use crate::index::indexes_of;
use crate::pairs::{LinkedTrade, linked_in};
use crate::thresholds::Thresholds;
use crate::trades::{Listed, Looked};
use instruments::Instruments;
use participants::Participants;
use std::alloc::{AllocError, Global};

/// The alarms of a day, its trades of two linked orders, and what its participants did.
#[derive(Drop)]
pub struct Findings {
    pub alarms: Vec<Alarm>,
    pub linked: Vec<LinkedTrade>,
    pub deeds: Vec<Deed>,
}

/// What is found in a day, by these bounds.
pub fn findings_of(
    alloc: Global,
    bounds: &Thresholds,
    participants: &Participants,
    instruments: &Instruments,
    day: &Watched<'_>,
) -> Result<Findings, AllocError>
    ensures alarms { IfOk result (λ found. found.alarms.items ≡ alarms_of bounds.now (record { participants = participants.now; instruments = instruments.now }) day.now.trades.now day.now.events.now day.now.shown.now) }
    ensures linked { IfOk result (λ found. found.linked.items ≡ linked_in (record { participants = participants.now; instruments = instruments.now }) (looked day.now.events.now) day.now.trades.now) }
    ensures deeds { IfOk result (λ found. found.deeds.items ≡ deeds day.now.events.now) }
{
    let indexes = indexes_of(alloc, day.events)?;
    let looked = Looked {
        reports: &indexes.reports,
        entries: &indexes.entries,
        orders: &indexes.orders,
    };
    let listed = Listed {
        participants,
        instruments,
    };
    let deeds = deeds_of(alloc, day.events)?;
    let studied = Studied {
        looked: &looked,
        deeds: &deeds,
    };
    let alarms = alarms_by(alloc, bounds, &listed, &studied, day)?;
    let linked = linked_in(alloc, &listed, &looked, day.trades)?;
    Ok(Findings {
        alarms,
        linked,
        deeds,
    })
}
