//! Events that belong together, picked from those of a day.

ghost use Rattle.std.specs.Prelude.{◌≡◌, IfOk, filter};
ghost use Rattle.day_sections.specs.Picks.{is_of_cause, is_picked, is_same};

use crate::counts::is_refused;
use crate::rooms::keep;
use day_events::{Event, What};
use fix_dictionary::Identifier;
use std::alloc::{AllocError, Global};

/// Which events are picked.
#[derive(Clone, Copy)]
pub enum Pick {
    /// refusals for whatever cause
    Refusals,
    /// refusals for this cause
    Refused(Option<Identifier>),
}

/// Whether two texts are the same, or both absent.
pub(crate) fn is_same(one: &Option<Identifier>, other: &Option<Identifier>) -> bool
    ensures { result ≡ is_same one.now other.now }
{
    match one {
        None => other.is_none(),
        Some(one) => match other {
            None => false,
            Some(other) => one.is(other),
        },
    }
}

#[tactic(auto, unfolding(crate::specs::Picks::is_of_cause))]
fn is_of_cause(cause: &Option<Identifier>, what: &What) -> bool
    ensures { result ≡ is_of_cause cause.now what.now }
{
    match what {
        What::Refused(text) => is_same(cause, text),
        _ => false,
    }
}

fn is_picked(pick: &Pick, event: &Event) -> bool
    ensures { result ≡ is_picked pick.now event.now }
{
    match pick {
        Pick::Refusals => is_refused(&event.what),
        Pick::Refused(cause) => is_of_cause(cause, &event.what),
    }
}

/// The events that are picked, in order.
pub(crate) fn picked(alloc: Global, events: &[Event], pick: &Pick) -> Result<Vec<Event>, AllocError>
    ensures { IfOk result (λ kept. kept.items ≡ filter (is_picked pick.now) events.now) }
{
    let mut kept = Vec::new(alloc);
    for event in events {
        keep(&mut kept, event, is_picked(pick, event))?;
    }
    Ok(kept)
}
