//! Lists within facts and replies, each modelled as a list.

ghost use Rattle.std.specs.Prelude.{◌≡◌, ◌≤◌, ◌*◌, length};
ghost use Rattle.venue_rules.specs.Book.{side_capacity};

use crate::replies::SnapshotEntry;
use crate::trail::ShownOrder;
use participants::Who;
use std::marker::Model;

/// Recipients of a request for quotes, in the request's order.
#[derive(Drop)]
pub struct Recipients {
    members: Vec<Who>,
}

impl Model for Recipients {
    ghost use Rattle.std.specs.Prelude.{ℕ, List};

    ghost Value = { List ℕ };

    ghost view = { λ a. a.members.items };
}

impl Recipients {
    pub fn from_vec(members: Vec<Who>) -> Recipients
        ensures { result ≡ members.items }
    {
        Recipients { members }
    }

    pub fn as_slice(&self) -> &[Who]
        ensures { result.now ≡ self.now }
    {
        &self.members
    }
}

/// Resting orders of an instrument: bids, then offers, each best first.
#[derive(Drop)]
pub struct SnapshotEntries {
    entries: Vec<SnapshotEntry>,
}

impl Model for SnapshotEntries {
    ghost use Rattle.std.specs.Prelude.{◌≤◌, ◌*◌, List, length};
    ghost use Rattle.venue_rules.specs.declared.replies.SnapshotEntry.{SnapshotEntry};
    ghost use Rattle.venue_rules.specs.Book.{side_capacity};

    ghost Value = { List SnapshotEntry };

    ghost view = { λ a. a.entries.items };

    ghost invariant = { λ a. length a.entries.items ≤ 2 * side_capacity };
}

impl SnapshotEntries {
    /// At most as many entries as may rest on two sides.
    pub fn from_vec(entries: Vec<SnapshotEntry>) -> SnapshotEntries
        requires { length entries.items ≤ 2 * side_capacity }
        ensures { result ≡ entries.items }
    {
        SnapshotEntries { entries }
    }

    pub fn as_slice(&self) -> &[SnapshotEntry]
        ensures value { result.now ≡ self.now }
        ensures few { length result.now ≤ 2 * side_capacity }
    {
        &self.entries
    }
}

/// Text of a row: an application message as the venue encodes it, or nothing.
#[derive(Drop)]
pub struct RowText {
    bytes: Vec<u8>,
}

impl Model for RowText {
    ghost use Rattle.std.specs.Prelude.{ℕ, List};

    ghost Value = { List ℕ };

    ghost view = { λ a. a.bytes.items };
}

impl RowText {
    pub fn from_vec(bytes: Vec<u8>) -> RowText
        ensures { result ≡ bytes.items }
    {
        RowText { bytes }
    }

    pub fn as_slice(&self) -> &[u8]
        ensures { result.now ≡ self.now }
    {
        &self.bytes
    }
}

/// Orders shown to a requester with the first quote.
#[derive(Drop)]
pub struct Shown {
    orders: Vec<ShownOrder>,
}

impl Model for Shown {
    ghost use Rattle.std.specs.Prelude.{List};
    ghost use Rattle.venue_rules.specs.declared.trail.ShownOrder.{ShownOrder};

    ghost Value = { List ShownOrder };

    ghost view = { λ a. a.orders.items };
}

impl Shown {
    pub fn from_vec(orders: Vec<ShownOrder>) -> Shown
        ensures { result ≡ orders.items }
    {
        Shown { orders }
    }

    pub fn as_slice(&self) -> &[ShownOrder]
        ensures { result.now ≡ self.now }
    {
        &self.orders
    }
}
