ghost use Rattle.std.specs.Prelude.{◌≡◌, [], ◌∷◌, ◌++◌};

use crate::past::Past;
use std::marker::Model;
use std::mem;
use std::snapshot::Snapshot;

/// A list that contracts see, and of which nothing is kept at run time.
#[derive(Drop)]
pub struct GhostHistory<T> {
    past: Snapshot<Past<T>>,
}

impl<T> Model for GhostHistory<T> {
    ghost use Rattle.std.specs.Prelude.{List};
    ghost use Rattle.ghost_history.specs.Past.{entries};

    ghost Value = { List T };

    ghost view = { λ h. entries h.past.value };
}

impl<T: Drop> GhostHistory<T> {
    pub fn new() -> GhostHistory<T>
        ensures { result ≡ [] }
    {
        GhostHistory {
            past: Snapshot::of(&Past::Nothing),
        }
    }

    /// These entries.
    pub fn of(entries: &[T]) -> GhostHistory<T>
        ensures { result ≡ entries.now }
    {
        let mut history = GhostHistory::new();
        for entry in entries {
            history.add(entry);
        }
        history
    }

    /// Adds an entry.
    pub fn add(&mut self, entry: &T)
        ensures { self.new ≡ self.old ++ entry.now ∷ [] }
    {
        let earlier = mem::replace(&mut self.past, Snapshot::of(&Past::Nothing));
        self.past = Snapshot::of(&Past::Then {
            last: Snapshot::of(entry),
            earlier,
        });
    }

    /// Adds these entries.
    pub fn append(&mut self, more: &Vec<T>)
        ensures { self.new ≡ self.old ++ more.now.items }
    {
        let earlier = mem::replace(&mut self.past, Snapshot::of(&Past::Nothing));
        self.past = Snapshot::of(&Past::Joined {
            more: Snapshot::of(more),
            earlier,
        });
    }
}
