//! Flags indexed by number, from 1.
ghost use Rattle.std.specs.Prelude.{◌≡◌, ℕ, ◌+◌, ◌≤◌, ◌||◌, [], length, nat_eq, IfOk};
ghost use Rattle.rfq_room.specs.Flags.{IsWithin, is_set};

use std::alloc::{AllocError, Global};
use std::marker::Model;

/// A growing list of flags for the numbers from 1 on.
#[derive(Drop)]
pub(crate) struct Flags {
    flags: Vec<bool>,
}

impl Model for Flags {
    ghost use Rattle.rfq_room.specs.Flags.{Known, known};

    ghost Value = { Known };

    ghost view = { known };
}

impl Flags {
    pub(crate) fn new(alloc: Global) -> Flags
        ensures { result.flags ≡ [] }
    {
        Flags {
            flags: Vec::new(alloc),
        }
    }

    /// Reserves capacity for this many further flags.
    pub(crate) fn reserve(&mut self, more: usize) -> Result<(), AllocError>
        ensures flags { self.new.flags ≡ self.old.flags }
        ensures headroom { IfOk result (λ _. more ≤ self.new.headroom) }
        ensures grown { self.old.headroom ≤ self.new.headroom }
    {
        self.flags.reserve(more)
    }

    /// Whether the number has a flag, and it is set.
    pub(crate) fn is_set(&self, number: u64) -> bool
        ensures { result ≡ is_set self.now.flags number }
    {
        if number == 0 {
            return false;
        }
        self.flags
            .get((number - 1) as usize)
            .copied()
            .unwrap_or(false)
    }

    /// Appends a cleared flag, within reserved capacity.
    pub(crate) fn push(&mut self)
        requires { 1 ≤ self.old.headroom }
        ensures flags { (n : ℕ) → is_set self.new.flags n ≡ is_set self.old.flags n }
        ensures count { length self.new.flags ≡ length self.old.flags + 1 }
        ensures headroom { self.old.headroom ≡ self.new.headroom + 1 }
    {
        self.flags.push_reserved(false);
    }

    pub(crate) fn set(&mut self, number: u64)
        requires { IsWithin (length self.old.flags) number }
        ensures flags { (n : ℕ) → is_set self.new.flags n ≡ (nat_eq n number || is_set self.old.flags n) }
        ensures count { length self.new.flags ≡ length self.old.flags }
        ensures headroom { self.new.headroom ≡ self.old.headroom }
    {
        self.flags[(number - 1) as usize] = true;
    }
}
