//! Plans: the additions of a request to the held sides.
ghost use Rattle.std.specs.Prelude.{◌≡◌};
ghost use Rattle.cross_delay.specs.Plans.{no_plan};

use std::alloc::Global;
use std::marker::Model;
use venue_rules::Fact;

/// The facts that a request adds to the held sides.
pub struct HoldPlan {
    facts: Vec<Fact>,
}

// Written-out drop (docs/ARCHITECTURE.md).
impl Drop for HoldPlan {
    fn drop(self) {
        let HoldPlan { facts: _facts } = self;
    }
}

impl Model for HoldPlan {
    ghost use Rattle.cross_delay.specs.Plan.{Plan};

    ghost Value = { Plan };

    ghost view = { λ p. record { facts = p.facts.items } };
}

impl HoldPlan {
    pub(crate) fn of(facts: Vec<Fact>) -> HoldPlan
        ensures { result ≡ record { facts = facts.items } }
    {
        HoldPlan { facts }
    }

    /// A plan that changes nothing.
    pub fn nothing(alloc: Global) -> HoldPlan
        ensures { result ≡ no_plan }
    {
        HoldPlan {
            facts: Vec::new(alloc),
        }
    }

    pub fn facts(&self) -> &[Fact]
        ensures { result.now ≡ self.now.facts }
    {
        &self.facts
    }

    pub(crate) fn into_facts(self) -> Vec<Fact>
        ensures { result.items ≡ self.facts }
    {
        let HoldPlan { facts } = self;
        facts
    }
}
