//! A participant, by its place.

ghost use Rattle.std.specs.Prelude.{◌≡◌};

use std::marker::Model;

/// A participant, by its place in the participant file, from 0.
#[derive(Clone, Copy, Debug, PartialEq, Eq)]
pub struct Who {
    place: u32,
}

impl Model for Who {
    ghost use Rattle.std.specs.Prelude.{ℕ};

    ghost Value = { ℕ };

    ghost view = { λ w. w.place };

    ghost inverse = { λ n. record { place = n } };
}

impl Who {
    pub fn of(place: u32) -> Who
        ensures { result ≡ place }
    {
        Who { place }
    }

    pub fn place(self) -> u32
        ensures { result ≡ self }
    {
        self.place
    }
}
