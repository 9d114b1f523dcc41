//! The events of a day, indexed by key.

ghost use Rattle.std.specs.Prelude.{◌≡◌, ℕ, ◌∷◌, ◌++◌, ◌<◌, List, [], All, Option, filter, length, option_map, slice_get, IfOk, OnOk, if◌then◌else◌};
ghost use Rattle.std.specs.List.{flat_map};
ghost use Rattle.trade_reconstruction.specs.Indexed.{ArePlaced, at, first_key, has_key, in_bucket, is_keyed, second_key};

use crate::evidence_event::EvidenceEvent;
use crate::key::{Key, first_key, second_key};
use crate::pushing::push_word;
use std::alloc::{AllocError, Global};
use std::marker::Model;

/// The count of buckets for each kind of key.
const BUCKETS: usize = 65_536;

/// The places of the events whose keys are of one bucket.
#[derive(Drop)]
pub struct Bucket {
    places: Vec<usize>,
}

impl Model for Bucket {
    ghost use Rattle.std.specs.Prelude.{ℕ, List};

    ghost Value = { List ℕ };

    ghost view = { λ b. b.places.items };
}

impl Bucket {
    fn new(alloc: Global) -> Bucket
        ensures { result ≡ [] }
    {
        Bucket {
            places: Vec::new(alloc),
        }
    }

    fn push(&mut self, place: usize) -> Result<(), AllocError>
        ensures { OnOk result (self.new ≡ self.old ++ place ∷ []) }
    {
        match self.places.push(place) {
            Ok(()) => Ok(()),
            Err(_) => Err(AllocError),
        }
    }

    fn places(&self) -> &[usize]
        ensures { result.now ≡ self.now }
    {
        self.places.as_slice()
    }
}

/// Empty buckets.
fn empty(alloc: Global) -> Result<Vec<Bucket>, AllocError>
    ensures some { IfOk result (λ buckets. 0 < length buckets.items) }
    ensures empty { IfOk result (λ buckets. All (λ places. places ≡ []) buckets.items) }
{
    let mut buckets = Vec::new(alloc);
    buckets.push(Bucket::new(alloc))?;
    for _ in 1..BUCKETS {
        buckets.push(Bucket::new(alloc))?;
    }
    Ok(buckets)
}

/// Adds a place to the bucket of a key, if there is one.
fn put(buckets: &mut Vec<Bucket>, key: Option<u64>, place: usize) -> Result<(), AllocError>
    requires some { 0 < length buckets.old.items }
    ensures len { length buckets.new.items ≡ length buckets.old.items }
    ensures put { OnOk result ((b : ℕ) → slice_get buckets.new.items b ≡ option_map (λ ps. if in_bucket (length buckets.old.items) b key then ps ++ place ∷ [] else ps) (slice_get buckets.old.items b)) }
{
    let Some(key) = key else {
        return Ok(());
    };
    let at = (key % buckets.len() as u64) as usize;
    buckets[at].push(place)
}

/// The places in the bucket of a key.
fn places_of(buckets: &[Bucket], key: u64) -> &[usize]
    requires some { 0 < length buckets.now }
    ensures { (f : EvidenceEvent → Option ℕ) (words : List EvidenceEvent) → ArePlaced f words buckets.now → filter (λ w. is_keyed key (f w)) (flat_map (at words) result.now) ≡ filter (λ w. is_keyed key (f w)) words }
{
    buckets[(key % buckets.len() as u64) as usize].places()
}

/// The events so far, of which each is found by its keys.
#[derive(Drop)]
pub struct Events {
    words: Vec<EvidenceEvent>,
    first: Vec<Bucket>,
    second: Vec<Bucket>,
}

impl Model for Events {
    ghost use Rattle.std.specs.Prelude.{◌<◌, List, length};
    ghost use Rattle.trade_reconstruction.specs.Indexed.{ArePlaced, first_key, second_key};
    ghost use Rattle.trade_reconstruction.specs.declared.evidence_event.EvidenceEvent.{EvidenceEvent};

    ghost Value = { List EvidenceEvent };

    ghost view = { λ e. e.words.items };

    ghost invariant = { λ e. ArePlaced first_key e.words.items e.first.items × ArePlaced second_key e.words.items e.second.items × (0 < length e.first.items) × (0 < length e.second.items) };
}

impl Events {
    pub(crate) fn new(alloc: Global) -> Result<Events, AllocError>
        ensures { IfOk result (λ events. events ≡ []) }
    {
        let first = empty(alloc)?;
        let second = empty(alloc)?;
        Ok(Events {
            words: Vec::new(alloc),
            first,
            second,
        })
    }

    pub(crate) fn words(&self) -> &[EvidenceEvent]
        ensures { result.now ≡ self.now }
    {
        self.words.as_slice()
    }

    /// The places of all events with a key, in order, among others.
    pub(crate) fn places(&self, key: &Key) -> &[usize]
        ensures { filter (has_key key.now) (flat_map (at self.now) result.now) ≡ filter (has_key key.now) self.now }
    {
        match key {
            Key::First(key) => places_of(&self.first, *key),
            Key::Second(key) => places_of(&self.second, *key),
        }
    }

    /// The events, and one more.
    pub(crate) fn with(self, word: EvidenceEvent) -> Result<Events, AllocError>
        ensures { IfOk result (λ events. events ≡ self ++ word ∷ []) }
    {
        let mut events = self;
        let place = events.words.as_slice().len();
        put(&mut events.first, first_key(&word), place)?;
        put(&mut events.second, second_key(&word), place)?;
        push_word(&mut events.words, word)?;
        Ok(events)
    }
}

/// The events, and these.
pub(crate) fn extended(events: Events, new: &[EvidenceEvent]) -> Result<Events, AllocError>
    ensures { IfOk result (λ all. all ≡ events ++ new.now) }
{
    let mut all = events;
    for word in new {
        all = all.with(*word)?;
    }
    Ok(all)
}

fn push_at(
    picked: &mut Vec<EvidenceEvent>,
    words: &[EvidenceEvent],
    place: usize,
) -> Result<(), AllocError>
    ensures { OnOk result (picked.new.items ≡ picked.old.items ++ at words.now place) }
{
    match words.get(place) {
        Some(word) => push_word(picked, *word),
        None => Ok(()),
    }
}

fn pick_at(
    alloc: Global,
    words: &[EvidenceEvent],
    places: &[usize],
) -> Result<Vec<EvidenceEvent>, AllocError>
    ensures { IfOk result (λ picked. picked.items ≡ flat_map (at words.now) places.now) }
{
    let mut picked = Vec::new(alloc);
    for place in places {
        push_at(&mut picked, words, *place)?;
    }
    Ok(picked)
}

/// All events with a key, in order, among others.
pub(crate) fn pick(
    alloc: Global,
    words: &Events,
    key: &Key,
) -> Result<Vec<EvidenceEvent>, AllocError>
    ensures { IfOk result (λ picked. filter (has_key key.now) picked.items ≡ filter (has_key key.now) words.now) }
{
    pick_at(alloc, words.words(), words.places(key))
}
