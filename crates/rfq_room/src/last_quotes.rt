//! The last quote of each maker in each room.
ghost use Rattle.std.specs.Prelude.{◌≡◌, ℕ, ◌+◌, ◌≤◌, ◌&&◌, [], Some, cond, nat_eq, IfOk};
ghost use Rattle.rfq_room.specs.LastQuotes.{last_in};

use participants::Who;
use std::alloc::{AllocError, Global};
use std::collections::HashMap;
use std::hash::{BuildHasherDefault, FoldHasher};
use std::marker::Model;

/// The number of each maker's last quote in each room, with constant-time lookup.
#[derive(Drop)]
pub(crate) struct LastQuotes {
    numbers: HashMap<(u64, u32), u64, BuildHasherDefault<FoldHasher>, Global>,
}

impl Model for LastQuotes {
    ghost use Rattle.rfq_room.specs.LastQuotes.{Latest, latest};

    ghost Value = { Latest };

    ghost view = { latest };
}

impl LastQuotes {
    pub(crate) fn new(alloc: Global) -> LastQuotes
        ensures { result.entries ≡ [] }
    {
        LastQuotes {
            numbers: HashMap::new(alloc),
        }
    }

    /// Reserves capacity for this many further pairs of room and maker.
    pub(crate) fn reserve(&mut self, more: usize) -> Result<(), AllocError>
        ensures entries { (room maker : ℕ) → last_in self.new.entries room maker ≡ last_in self.old.entries room maker }
        ensures headroom { IfOk result (λ _. more ≤ self.new.headroom) }
        ensures grown { self.old.headroom ≤ self.new.headroom }
    {
        self.numbers.reserve(more)
    }

    pub(crate) fn get(&self, room: u64, maker: Who) -> Option<u64>
        ensures { result ≡ last_in self.now.entries room maker }
    {
        self.numbers.get(&(room, maker.place())).copied()
    }

    /// Sets a maker's last quote in a room, within reserved capacity.
    pub(crate) fn set(&mut self, room: u64, maker: Who, number: u64)
        requires { 1 ≤ self.old.headroom }
        ensures entries { (r m : ℕ) → last_in self.new.entries r m ≡ cond (nat_eq room r && nat_eq maker m) (Some number) (last_in self.old.entries r m) }
        ensures headroom { self.old.headroom ≤ self.new.headroom + 1 }
    {
        let _before = self.numbers.insert((room, maker.place()), number);
    }
}
