//! Names in order of arrival, with an index sorted by name.
ghost use Rattle.std.specs.Prelude.{◌≡◌, ℕ, ◌+◌, ◌≤◌, ◌<◌, ◌^◌, [], ◌∷◌, ◌++◌, length, IfOk, Bool};
ghost use Rattle.std.specs.List.{list_any};
ghost use Rattle.client_ids.specs.ClientIds.{is_of, IsFirst, IsIndex, answer_at, answer_behind};
ghost use Rattle.client_ids.specs.Search.{IsPlace};

use crate::client_id::{ClientId, hash_key};
use crate::finding::search;
use crate::probing::{FirstProbe, LastProbe};
use fix_dictionary::Identifier;
use participants::Who;
use std::alloc::{AllocError, Global};
use std::marker::Model;

/// Names, and an index of 4 bytes a name, sorted by name and then by place.
#[derive(Drop)]
pub struct IdIndex {
    names: Vec<ClientId>,
    index: Vec<u32>,
}

impl Model for IdIndex {
    ghost use Rattle.client_ids.specs.ClientIds.{IsIndex};
    ghost use Rattle.client_ids.specs.Held.{Names, held};

    ghost Value = { Names };

    ghost view = { held };

    ghost invariant = { λ a. IsIndex a.names.items a.index.items };
}

// The first place in the index with a name that is not less, whether it is equal, and the number of names looked at.
fn place(names: &[ClientId], index: &[u32], who: Who, id: &Identifier) -> (usize, bool, u64)
    requires { IsIndex names.now index.now }
    ensures place { IsPlace (answer_at names.now index.now who id.now) (length index.now) result.0 result.1 }
    ensures few { (d : ℕ) → length names.now < 2 ^ d → result.2 ≤ d }
{
    let mut probe = FirstProbe {
        names,
        index,
        hash_key: hash_key(who, id),
        count: 0,
    };
    let (place, found) = search(&mut probe, who, id);
    (place, found, probe.count)
}

// The place in the index after the names that are not greater.
fn behind(names: &[ClientId], index: &[u32], name: &ClientId) -> usize
    requires { IsIndex names.now index.now }
    ensures { (found : Bool) × IsPlace (answer_behind names.now index.now name.now.who name.now.id) (length index.now) result found }
{
    let mut probe = LastProbe {
        names,
        index,
        hash_key: hash_key(name.who, &name.id),
        count: 0,
    };
    let (at, _) = search(&mut probe, name.who, &name.id);
    at
}

impl IdIndex {
    pub fn new(alloc: Global) -> IdIndex
        ensures { result.names ≡ [] }
    {
        IdIndex {
            names: Vec::new(alloc),
            index: Vec::new(alloc),
        }
    }

    pub fn len(&self) -> usize
        ensures value { result ≡ length self.now.names }
        ensures bound { result < 2 ^ 63 }
    {
        self.names.len()
    }

    /// Reserves capacity for this many further names.
    pub fn reserve(&mut self, more: usize) -> Result<(), AllocError>
        ensures kept { self.new.names ≡ self.old.names }
        ensures headroom { IfOk result (λ _. more ≤ self.new.headroom) }
        ensures grown { self.old.headroom ≤ self.new.headroom }
    {
        if 0xffff_ffff - self.names.len().min(0xffff_ffff) < more {
            return Err(AllocError);
        }
        self.names.reserve(more)?;
        self.index.reserve(more)?;
        Ok(())
    }

    /// The place of the first occurrence of this name, and the number of names looked at: at most as many as the length
    /// has binary digits.
    pub fn first(&self, who: Who, id: &Identifier) -> (Option<usize>, u32)
        ensures first { IsFirst self.now.names who id.now result.0 }
        ensures few { (d : ℕ) → length self.now.names < 2 ^ d → result.1 ≤ d }
    {
        let (place, found, count) = place(&self.names, &self.index, who, id);
        if found {
            (Some(self.index[place] as usize), count as u32)
        } else {
            (None, count as u32)
        }
    }

    pub fn has(&self, who: Who, id: &Identifier) -> bool
        ensures { result ≡ list_any (is_of who id.now) self.now.names }
    {
        let (first, _) = self.first(who, id);
        first.is_some()
    }

    /// Appends a name, within reserved capacity.
    pub fn add(&mut self, name: ClientId)
        requires { 1 ≤ self.old.headroom }
        ensures names { self.new.names ≡ self.old.names ++ name ∷ [] }
        ensures headroom { self.old.headroom ≤ self.new.headroom + 1 }
    {
        let place = self.names.len();
        let at = behind(&self.names, &self.index, &name);
        self.names.push_reserved(name);
        let _inserted = self.index.insert(at, place as u32);
    }
}
