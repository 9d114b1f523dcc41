//! Events in buckets, by their keys.

ghost use Rattle.std.specs.Prelude.{◌≡◌, ℕ, ◌∷◌, ◌++◌, ◌<◌, ◌%◌, List, [], All, filter, length, option_map, slice_get, IfOk, OnOk, if◌then◌else◌};
ghost use Rattle.day_events.specs.declared.event.Event.{Event};
ghost use Rattle.request_sections.specs.declared.keys.By.{By};
ghost use Rattle.request_sections.specs.Keys.{AreFiled, in_bucket, key_of};

use crate::keys::{By, key_of};
use day_events::Event;
use day_sections::keep;
use std::alloc::{AllocError, Global};
use std::marker::Model;

/// The events whose keys are of one bucket.
#[derive(Drop)]
pub struct Bucket {
    events: Vec<Event>,
}

impl Model for Bucket {
    ghost use Rattle.std.specs.Prelude.{List};
    ghost use Rattle.day_events.specs.declared.event.Event.{Event};

    ghost Value = { List Event };

    ghost view = { λ b. b.events.items };
}

impl Bucket {
    fn new(alloc: Global) -> Bucket
        ensures { result ≡ [] }
    {
        Bucket {
            events: Vec::new(alloc),
        }
    }

    fn push(&mut self, event: &Event) -> Result<(), AllocError>
        ensures { OnOk result (self.new ≡ self.old ++ event.now ∷ []) }
    {
        keep(&mut self.events, event, true)
    }

    fn events(&self) -> &[Event]
        ensures { result.now ≡ self.now }
    {
        self.events.as_slice()
    }
}

/// Empty buckets: that many, and one more.
fn empty(alloc: Global, count: usize) -> Result<Vec<Bucket>, AllocError>
    ensures some { IfOk result (λ buckets. 0 < length buckets.items) }
    ensures empty { IfOk result (λ buckets. All (λ kept. kept ≡ []) buckets.items) }
{
    let mut buckets = Vec::new(alloc);
    buckets.push(Bucket::new(alloc))?;
    for _ in 0..count {
        buckets.push(Bucket::new(alloc))?;
    }
    Ok(buckets)
}

/// Adds an event to the bucket of its key, if it has one.
fn put(buckets: &mut Vec<Bucket>, key: Option<u64>, event: &Event) -> Result<(), AllocError>
    requires some { 0 < length buckets.old.items }
    ensures len { length buckets.new.items ≡ length buckets.old.items }
    ensures put { OnOk result ((b : ℕ) → slice_get buckets.new.items b ≡ option_map (λ kept. if in_bucket (length buckets.old.items) b key then kept ++ event.now ∷ [] else kept) (slice_get buckets.old.items b)) }
{
    let Some(key) = key else {
        return Ok(());
    };
    let at = (key % buckets.len() as u64) as usize;
    buckets[at].push(event)
}

/// The events in buckets, as many as there are requests, and one more.
pub(crate) fn filed(
    alloc: Global,
    events: &[Event],
    by: By,
    count: usize,
) -> Result<Vec<Bucket>, AllocError>
    ensures some { IfOk result (λ buckets. 0 < length buckets.items) }
    ensures filed { IfOk result (λ buckets. AreFiled by events.now buckets.items) }
{
    let mut buckets = empty(alloc, count)?;
    for event in events {
        put(&mut buckets, key_of(by, event), event)?;
    }
    Ok(buckets)
}

/// The events in the bucket of a key: all that have it, in order, among others.
pub(crate) fn found(buckets: &[Bucket], key: u64) -> &[Event]
    requires some { 0 < length buckets.now }
    ensures { (by : By) (events : List Event) → AreFiled by events buckets.now → result.now ≡ filter (λ e. in_bucket (length buckets.now) (key % length buckets.now) (key_of by e)) events }
{
    buckets[(key % buckets.len() as u64) as usize].events()
}
