//! Keys of orders, as a search by name compares them.
ghost use Rattle.std.specs.Prelude.{◌≡◌, ℕ, ◌<◌, List, length};
ghost use Rattle.client_ids.specs.ClientIds.{spelled_order, lowered};
ghost use Rattle.price_book.specs.Live.{entry_name};
ghost use Rattle.price_book.specs.Numbered.{slot_at, slot_order, key_order, answer_at, answer_behind};

use crate::id_key::IdKey;
use crate::numbered::Numbered;
use client_ids::{Probe, lowered};
use fix_dictionary::Identifier;
use participants::Who;
use std::cmp::Ordering;
use venue_rules::Entry;

// By participant, then by bytes.
fn compare_spelled(entry: &Entry, who: Who, id: &Identifier) -> Ordering
    ensures { result ≡ spelled_order (entry_name entry.now) who id.now }
{
    match entry.order.who.place().cmp(&who.place()) {
        Ordering::Less => Ordering::Less,
        Ordering::Equal => entry.order.id.as_slice().cmp(id.as_slice()),
        Ordering::Greater => Ordering::Greater,
    }
}

// The same for the order with this number.
fn compare_number(stored_orders: &Numbered, number: u64, who: Who, id: &Identifier) -> Ordering
    ensures { result ≡ slot_order (slot_at stored_orders.now.entries number) who id.now }
{
    match stored_orders.get(&number) {
        Some(stored_order) => compare_spelled(&stored_order.entry, who, id),
        None => Ordering::Less,
    }
}

#[derive(Drop)]
/// Probe of keys for the first place of a name with this hash key. Looks an order up only where the hash keys are
/// equal.
pub(crate) struct FirstProbe<'a> {
    pub(crate) stored_orders: &'a Numbered,
    pub(crate) keys: &'a [IdKey],
    pub(crate) hash_key: u64,
    pub(crate) count: u64,
}

impl<'a> Probe for FirstProbe<'a> {
    ghost size = { λ p. length p.keys.now };

    ghost answer = { λ p who id k. answer_at p.stored_orders.now.entries p.keys.now p.hash_key who id k };

    ghost count = { λ p. p.count };

    fn len(&self) -> usize {
        self.keys.len()
    }

    fn compare(&mut self, k: usize, who: Who, id: &Identifier) -> Ordering {
        self.count += 1;
        let key = self.keys[k];
        match key.hash_key.cmp(&self.hash_key) {
            Ordering::Less => Ordering::Less,
            Ordering::Equal => compare_number(self.stored_orders, key.number, who, id),
            Ordering::Greater => Ordering::Greater,
        }
    }
}

#[derive(Drop)]
/// Probe of keys for the place after a name with this hash key. Looks an order up only where the hash keys are equal.
pub(crate) struct LastProbe<'a> {
    pub(crate) stored_orders: &'a Numbered,
    pub(crate) keys: &'a [IdKey],
    pub(crate) hash_key: u64,
    pub(crate) count: u64,
}

impl<'a> Probe for LastProbe<'a> {
    ghost size = { λ p. length p.keys.now };

    ghost answer = { λ p who id k. answer_behind p.stored_orders.now.entries p.keys.now p.hash_key who id k };

    ghost count = { λ p. p.count };

    fn len(&self) -> usize {
        self.keys.len()
    }

    fn compare(&mut self, k: usize, who: Who, id: &Identifier) -> Ordering {
        self.count += 1;
        let key = self.keys[k];
        match key.hash_key.cmp(&self.hash_key) {
            Ordering::Less => Ordering::Less,
            Ordering::Equal => lowered(compare_number(self.stored_orders, key.number, who, id)),
            Ordering::Greater => Ordering::Greater,
        }
    }
}
