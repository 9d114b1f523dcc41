//! What a gate answered, for contracts alone. Not `ghost_history`: with it a proof that a gate may go to its session's
//! thread is past the limit of the prover's search.

ghost use Rattle.std.specs.Prelude.{◌≡◌, [], ◌∷◌, ◌++◌};
ghost use Rattle.tcp_line.specs.Passed.{answers};

use std::mem;
use std::snapshot::Snapshot;

/// The answers of a gate, of which the last one alone takes memory.
#[derive(Drop)]
pub(crate) enum Passed {
    Nothing,
    Then {
        last: bool,
        earlier: Snapshot<Passed>,
    },
}

impl Passed {
    pub(crate) fn new() -> Passed
        ensures { answers result ≡ [] }
    {
        Passed::Nothing
    }

    /// Adds an answer.
    pub(crate) fn add(&mut self, answer: bool)
        ensures { answers self.new ≡ answers self.old ++ answer ∷ [] }
    {
        let past = mem::replace(self, Passed::Nothing);
        *self = Passed::Then {
            last: answer,
            earlier: Snapshot::of(&past),
        };
    }
}
