//! Plans: the additions of an input to the venue.
ghost use Rattle.std.specs.Prelude.{◌≡◌, ◌≤◌, ◌++◌};
ghost use Rattle.rfq_handler.specs.Counting.{trades_in};
ghost use Rattle.venue_core.specs.Plan.{answer_of, traded_by};
ghost use Rattle.venue_core.specs.declared.plan.Part.TheVariants.{OfOrders, OfRooms};

use order_handler::OrderAnswer;
use rfq_handler::RoomAnswer;
use std::marker::Model;
use venue_rules::{Fact, Reply, RoomFact};

/// An answer about orders, or one about rooms with the reading of a room's first quote; no input has both.
#[derive(Drop)]
pub(crate) enum Part {
    OfOrders(OrderAnswer),
    OfRooms(RoomAnswer, Option<RoomFact>),
}

/// The facts that the venue gains, and the replies in order.
pub struct Plan {
    part: Part,
}

// Written-out drop (docs/ARCHITECTURE.md).
impl Drop for Plan {
    fn drop(self) {
        let Plan { part: _part } = self;
    }
}

impl Model for Plan {
    ghost use Rattle.venue_core.specs.declared.plan.Part.{Part};

    ghost Value = { Part };

    ghost view = { λ p. p.part };
}

impl Plan {
    pub(crate) fn of_orders(answer: OrderAnswer) -> Plan
        ensures { result ≡ OfOrders answer }
    {
        Plan {
            part: Part::OfOrders(answer),
        }
    }

    pub(crate) fn of_rooms(answer: RoomAnswer, read: Option<RoomFact>) -> Plan
        ensures { result ≡ OfRooms answer read }
    {
        Plan {
            part: Part::OfRooms(answer, read),
        }
    }

    /// The replies, in order.
    pub fn replies(&self) -> &[Reply]
        ensures { result.now ≡ (answer_of self.now).replies }
    {
        match &self.part {
            Part::OfOrders(answer) => answer.replies(),
            Part::OfRooms(answer, _) => answer.replies(),
        }
    }

    /// The facts, in two lists, one after the other.
    pub fn facts(&self) -> (&[Fact], &[Fact])
        ensures { result.0.now ++ result.1.now ≡ (answer_of self.now).facts }
    {
        match &self.part {
            Part::OfOrders(answer) => answer.facts(),
            Part::OfRooms(answer, _) => (answer.facts(), &[]),
        }
    }

    /// The number of trades among the facts.
    pub(crate) fn trades(&self) -> u64
        ensures value { result ≡ trades_in (traded_by self.now) }
        ensures few { result ≤ 200 }
    {
        match &self.part {
            Part::OfOrders(answer) => answer.trades(),
            Part::OfRooms(answer, _) => answer.trades(),
        }
    }

    pub(crate) fn into_part(self) -> Part
        ensures { result ≡ self }
    {
        let Plan { part } = self;
        part
    }
}
