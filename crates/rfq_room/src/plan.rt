//! Plans: the additions of a request to the rooms.
ghost use Rattle.std.specs.Prelude.{◌≡◌};
ghost use Rattle.rfq_room.specs.Plans.{no_plan};

use crate::decision::Hit;
use std::alloc::Global;
use std::marker::Model;
use venue_rules::{Fact, RoomQuote};

/// The facts that a request adds, the quotes that it withdraws, and its hit.
pub struct RoomPlan {
    facts: Vec<Fact>,
    quotes: Vec<RoomQuote>,
    hit: Option<Hit>,
}

// Written-out drop (docs/ARCHITECTURE.md).
impl Drop for RoomPlan {
    fn drop(self) {
        let RoomPlan {
            facts: _facts,
            quotes: _quotes,
            hit: _hit,
        } = self;
    }
}

impl Model for RoomPlan {
    ghost use Rattle.rfq_room.specs.Plan.{Plan};

    ghost Value = { Plan };

    ghost view = { λ p. record { facts = p.facts.items; quotes = p.quotes.items; hit = p.hit } };
}

impl RoomPlan {
    pub(crate) fn of(facts: Vec<Fact>, quotes: Vec<RoomQuote>, hit: Option<Hit>) -> RoomPlan
        ensures { result ≡ record { facts = facts.items; quotes = quotes.items; hit = hit } }
    {
        RoomPlan { facts, quotes, hit }
    }

    /// A plan that changes nothing.
    pub fn nothing(alloc: Global) -> RoomPlan
        ensures { result ≡ no_plan }
    {
        RoomPlan {
            facts: Vec::new(alloc),
            quotes: Vec::new(alloc),
            hit: None,
        }
    }

    pub fn facts(&self) -> &[Fact]
        ensures { result.now ≡ self.now.facts }
    {
        &self.facts
    }

    /// The quotes that a withdrawal withdraws, by number.
    pub fn quotes(&self) -> &[RoomQuote]
        ensures { result.now ≡ self.now.quotes }
    {
        &self.quotes
    }

    /// The hit of a quote response; none for a pass.
    pub fn hit(&self) -> Option<Hit>
        ensures { result ≡ self.now.hit }
    {
        self.hit
    }

    pub(crate) fn into_facts(self) -> Vec<Fact>
        ensures { result.items ≡ self.facts }
    {
        let RoomPlan {
            facts,
            quotes: _quotes,
            hit: _hit,
        } = self;
        facts
    }
}
