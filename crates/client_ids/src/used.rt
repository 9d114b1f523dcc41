//! Used identifiers, for membership tests alone.
ghost use Rattle.std.specs.Prelude.{◌≡◌, ℕ, ◌+◌, ◌≤◌, ◌<◌, ◌^◌, ◌||◌, [], false, List, IfOk};
ghost use Rattle.std.specs.List.{list_any};
ghost use Rattle.client_ids.specs.ClientIds.{is_of};
ghost use Rattle.client_ids.specs.Used.{most};

use crate::client_id::ClientId;
use crate::short::{ShortId, is_short};
use fix_dictionary::Identifier;
use participants::Who;
use std::alloc::{AllocError, Global};
use std::collections::HashSet;
use std::hash::{BuildHasherDefault, FoldHasher};
use std::marker::Model;

// Most names that a set takes.
const MAX_IDS: u64 = 0x7fff_ffff_ffff_ffff;

/// Hash set of used names, with constant-time lookup. A short name (an identifier of at most 36 bytes, of a participant
/// whose place is below 65,536) takes 48 bytes plus the set's index; any other takes 80.
#[derive(Drop)]
pub struct UsedIds {
    short: HashSet<ShortId, BuildHasherDefault<FoldHasher>, Global>,
    others: HashSet<ClientId, BuildHasherDefault<FoldHasher>, Global>,
    count: u64,
}

impl Model for UsedIds {
    ghost use Rattle.client_ids.specs.Used.{Known, known, AreUsed};

    ghost Value = { Known };

    ghost view = { known };

    ghost invariant = { AreUsed };
}

impl UsedIds {
    pub fn new(alloc: Global) -> UsedIds
        ensures names { result.names ≡ [] }
        ensures count { result.count ≡ 0 }
    {
        UsedIds {
            short: HashSet::new(alloc),
            others: HashSet::new(alloc),
            count: 0,
        }
    }

    /// Number of names added.
    pub fn count(&self) -> u64
        ensures value { result ≡ self.now.count }
        ensures bound { result < 2 ^ 63 }
    {
        self.count
    }

    /// Reserves capacity for this many further names.
    pub fn reserve(&mut self, more: usize) -> Result<(), AllocError>
        ensures names { (who : ℕ) (id : List ℕ) → list_any (is_of who id) self.new.names ≡ list_any (is_of who id) self.old.names }
        ensures count { self.new.count ≡ self.old.count }
        ensures headroom { IfOk result (λ _. more ≤ self.new.headroom) }
        ensures grown { self.old.headroom ≤ self.new.headroom }
    {
        if MAX_IDS - self.count < more as u64 {
            return Err(AllocError);
        }
        self.short.reserve(more)?;
        self.others.reserve(more)
    }

    pub fn has(&self, who: Who, id: &Identifier) -> bool
        ensures { result ≡ list_any (is_of who id.now) self.now.names }
    {
        if is_short(who, id) {
            self.short.contains(&ShortId::new(who, id))
        } else {
            self.others.contains(&ClientId { who, id: *id })
        }
    }

    /// Adds a name, within reserved capacity.
    pub fn add(&mut self, name: ClientId)
        requires { 1 ≤ self.old.headroom }
        ensures names { (who : ℕ) (id : List ℕ) → list_any (is_of who id) self.new.names ≡ (is_of who id name || list_any (is_of who id) self.old.names) }
        ensures count { self.new.count ≡ self.old.count + 1 }
        ensures headroom { self.old.headroom ≤ self.new.headroom + 1 }
    {
        if is_short(name.who, &name.id) {
            let _added = self.short.insert(ShortId::new(name.who, &name.id));
        } else {
            let _added = self.others.insert(name);
        }
        self.count += 1;
    }
}
