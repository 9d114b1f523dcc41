//! Places of an index, as a search compares them.
ghost use Rattle.std.specs.Prelude.{◌≡◌, ℕ, ◌<◌, List, length, slice_index};
ghost use Rattle.client_ids.specs.ClientIds.{IsWithin, keyed_at, keyed_behind, lowered};

use crate::client_id::{ClientId, compare_id};
use crate::finding::Probe;
use fix_dictionary::Identifier;
use participants::Who;
use std::cmp::Ordering;

#[derive(Drop)]
/// Probe of an index for the first place of a name with this hash key.
pub(crate) struct FirstProbe<'a> {
    pub(crate) names: &'a [ClientId],
    pub(crate) index: &'a [u32],
    pub(crate) hash_key: u64,
    pub(crate) count: u64,
    ghost within: { IsWithin names.now index.now },
}

impl<'a> Probe for FirstProbe<'a> {
    ghost size = { λ p. length p.index.now };

    ghost answer = { λ p who id k. keyed_at p.names.now p.index.now p.hash_key who id k };

    ghost count = { λ p. p.count };

    fn len(&self) -> usize {
        self.index.len()
    }

    fn compare(&mut self, k: usize, who: Who, id: &Identifier) -> Ordering {
        self.count += 1;
        let place = self.index[k];
        compare_id(&self.names[place as usize], self.hash_key, who, id)
    }
}

#[derive(Drop)]
/// Probe of an index for the place after a name with this hash key.
pub(crate) struct LastProbe<'a> {
    pub(crate) names: &'a [ClientId],
    pub(crate) index: &'a [u32],
    pub(crate) hash_key: u64,
    pub(crate) count: u64,
    ghost within: { IsWithin names.now index.now },
}

/// Equal counts as below, so that a search finds the place after what is equal.
pub fn lowered(order: Ordering) -> Ordering
    ensures { result ≡ lowered order }
{
    match order {
        Ordering::Equal => Ordering::Less,
        other => other,
    }
}

impl<'a> Probe for LastProbe<'a> {
    ghost size = { λ p. length p.index.now };

    ghost answer = { λ p who id k. keyed_behind p.names.now p.index.now p.hash_key who id k };

    ghost count = { λ p. p.count };

    fn len(&self) -> usize {
        self.index.len()
    }

    fn compare(&mut self, k: usize, who: Who, id: &Identifier) -> Ordering {
        self.count += 1;
        let place = self.index[k];
        lowered(compare_id(&self.names[place as usize], self.hash_key, who, id))
    }
}
