//! Answers about rooms, before they are applied.
ghost use Rattle.std.specs.Prelude.{◌≡◌, ◌≤◌, option_map};
ghost use Rattle.rfq_handler.specs.Counting.{reports_in, trades_in};
ghost use Rattle.rfq_handler.specs.Read.{first_made};

use rfq_room::RoomPlan;
use std::marker::Model;
use venue_rules::{Fact, Reply, RoomQuote};

/// The quote of a plan, if any.
pub(crate) fn made(plan: &RoomPlan) -> Option<&RoomQuote>
    ensures { option_map (λ q. q.now) result ≡ first_made plan.now.facts }
{
    match plan.facts().first() {
        Some(Fact::Quoted(quote)) => Some(quote),
        _ => None,
    }
}

/// The facts that the rooms gain, and the replies in order.
pub struct RoomAnswer {
    plan: RoomPlan,
    replies: Vec<Reply>,
    reports: u64,
    trades: u64,
}

// Written-out drop (docs/ARCHITECTURE.md).
impl Drop for RoomAnswer {
    fn drop(self) {
        let RoomAnswer {
            plan: _plan,
            replies: _replies,
            reports: _reports,
            trades: _trades,
        } = self;
    }
}

impl Model for RoomAnswer {
    ghost use Rattle.std.specs.Prelude.{◌≡◌, ◌≤◌};
    ghost use Rattle.venue_rules.specs.Answer.{Answer};
    ghost use Rattle.rfq_handler.specs.Counting.{reports_in, trades_in};

    ghost Value = { Answer };

    ghost view = { λ a. record { facts = a.plan.facts; replies = a.replies.items } };

    ghost invariant = { λ a. (a.reports ≡ reports_in a.replies.items) × (a.reports ≤ 2) × (a.trades ≡ trades_in a.plan.facts) × (a.trades ≤ 1) };
}

impl RoomAnswer {
    /// A plan and its replies, with the counts of execution reports and of trades among them.
    pub(crate) fn of(plan: RoomPlan, replies: Vec<Reply>, reports: u64, trades: u64) -> RoomAnswer
        requires counted { reports ≡ reports_in replies.items }
        requires few { reports ≤ 2 }
        requires traded { trades ≡ trades_in plan.facts }
        requires one { trades ≤ 1 }
        ensures { result ≡ record { facts = plan.facts; replies = replies.items } }
    {
        RoomAnswer {
            plan,
            replies,
            reports,
            trades,
        }
    }

    /// The replies, in order.
    pub fn replies(&self) -> &[Reply]
        ensures { result.now ≡ self.now.replies }
    {
        &self.replies
    }

    /// The facts.
    pub fn facts(&self) -> &[Fact]
        ensures { result.now ≡ self.now.facts }
    {
        self.plan.facts()
    }

    /// The quote that the rooms gain, if any.
    pub fn made(&self) -> Option<&RoomQuote>
        ensures { option_map (λ q. q.now) result ≡ first_made self.now.facts }
    {
        made(&self.plan)
    }

    /// The number of execution reports (message 8) among the replies.
    pub fn reports(&self) -> u64
        ensures value { result ≡ reports_in self.now.replies }
        ensures bound { result ≤ 2 }
    {
        self.reports
    }

    /// The number of trades among the facts that the rooms gain.
    pub fn trades(&self) -> u64
        ensures value { result ≡ trades_in self.now.facts }
        ensures bound { result ≤ 1 }
    {
        self.trades
    }

    /// The plan for the rooms.
    pub fn into_plan(self) -> RoomPlan
        ensures { result.facts ≡ self.facts }
    {
        let RoomAnswer {
            plan,
            replies: _replies,
            reports: _reports,
            trades: _trades,
        } = self;
        plan
    }
}
