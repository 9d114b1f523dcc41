//! The numbers of those whom events of a kind are of, so that each participant's are counted among these alone.

ghost use Rattle.std.specs.Prelude.{◌≡◌, ◌+◌, ◌==◌, ◌++◌, IfOk, OnOk, count_by};
ghost use Rattle.day_sections.specs.Numbers.{AreNumbers, IsNoted, number_in, numbers_in};

use crate::counts::{Kind, is_counted, is_of_sender};
use day_events::Event;
use std::alloc::{AllocError, Global};

/// Of each kind of events whom they are of, by their places plus 1.
#[derive(Drop)]
pub struct Numbers {
    pub refused: Vec<u64>,
    pub entered: Vec<u64>,
    pub replaced: Vec<u64>,
    pub cancelled: Vec<u64>,
    pub asked: Vec<u64>,
    pub quotes: Vec<u64>,
    pub hits: Vec<u64>,
}

/// Whom an event of this kind is of, by its place plus 1.
fn number_in(kind: Kind, event: &Event) -> u64
    ensures { result ≡ number_in kind event.now }
{
    if is_of_sender(kind) {
        u64::from(event.at.from)
    } else {
        u64::from(event.to.place()) + 1
    }
}

fn note(numbers: &mut Vec<u64>, kind: Kind, event: &Event) -> Result<(), AllocError>
    ensures { OnOk result (numbers.new.items ≡ numbers.old.items ++ numbers_in kind event.now) }
{
    if !is_counted(kind, &event.what) {
        return Ok(());
    }
    match numbers.push(number_in(kind, event)) {
        Ok(()) => Ok(()),
        Err(_) => Err(AllocError),
    }
}

/// Notes an event among those of its kind.
fn note_each(numbers: &mut Numbers, event: &Event) -> Result<(), AllocError>
    ensures { OnOk result (IsNoted event.now numbers.old numbers.new) }
{
    note(&mut numbers.refused, Kind::Refused, event)?;
    note(&mut numbers.entered, Kind::Entered, event)?;
    note(&mut numbers.replaced, Kind::Replaced, event)?;
    note(&mut numbers.cancelled, Kind::Cancelled, event)?;
    note(&mut numbers.asked, Kind::Asked, event)?;
    note(&mut numbers.quotes, Kind::Quotes, event)?;
    note(&mut numbers.hits, Kind::Hits, event)
}

/// Whom the events of each kind are of.
pub(crate) fn numbers_of(alloc: Global, events: &[Event]) -> Result<Numbers, AllocError>
    ensures { IfOk result (λ numbers. AreNumbers events.now numbers) }
{
    let mut numbers = Numbers {
        refused: Vec::new(alloc),
        entered: Vec::new(alloc),
        replaced: Vec::new(alloc),
        cancelled: Vec::new(alloc),
        asked: Vec::new(alloc),
        quotes: Vec::new(alloc),
        hits: Vec::new(alloc),
    };
    for event in events {
        note_each(&mut numbers, event)?;
    }
    Ok(numbers)
}

/// Whether a number is of the participant at this place.
fn is_at(place: u32, number: u64) -> bool
    ensures { result ≡ (number == place + 1) }
{
    number == u64::from(place) + 1
}

/// How often the participant at this place is among some.
pub(crate) fn repeats(numbers: &[u64], place: u32) -> u64
    ensures { result ≡ count_by (λ n. n == place + 1) numbers.now }
{
    numbers
        .iter()
        .filter(|number| is_at(place, **number))
        .count() as u64
}
