//! A book that keeps the day's facts as a list, and reads everything off them.
ghost use Rattle.std.specs.Prelude.{◌≡◌, ◌≤◌, ◌+◌, ℕ, [], ◌++◌, All, length, take, sum_by, IfOk, IfErr, option_map, Some, IsSome, MatchOption, ◌<◌, true, ◌*◌};
ghost use Rattle.std.specs.Vec.{vec_capacity, vec_len};
ghost use Rattle.venue_rules.specs.Facts.{is_order_id_used};
ghost use Rattle.venue_rules.specs.Book.{filled, find_order, picture, side_capacity};
ghost use Rattle.venue_rules.specs.Market.{market_of};
ghost use Rattle.price_book.specs.declared.plan.FilledOrder.{FilledOrder};
ghost use Rattle.price_book.specs.Kept.{IsBook, are_own};
ghost use Rattle.price_book.specs.Views.{seen};
ghost use Rattle.price_book.specs.Plans.{IsEntryPlanned, IsEntryRefused, IsReplacePlanned, IsReplaceRefused, cancel_plan, replacing};
ghost use Rattle.price_book.specs.Steps.{IsPlanOf};

use crate::book::Refusal;
use crate::leaving::draft_cancel;
use crate::plan::FillPlan;
use crate::reading::{find_order, is_order_id_used};
use crate::reference::entering::draft_entry;
use crate::reference::picture::picture;
use crate::reference::replacing::draft_replace;
use crate::replacing::replacing;
use crate::resting::Resting;
use fix_dictionary::{Identifier, Price, Quantity};
use participants::Who;
use sef_moment::Moment;
use std::alloc::{AllocError, Global};
use std::marker::Model;
use venue_rules::{Fact, Market, OrderFact, SnapshotEntry, fills_are_within};

/// Facts of one day.
#[derive(Drop)]
pub struct ReferenceBook {
    facts: Vec<Fact>,
}

impl Model for ReferenceBook {
    ghost use Rattle.std.specs.Prelude.{◌-◌};
    ghost use Rattle.std.specs.Vec.{vec_capacity, vec_len};
    ghost use Rattle.price_book.specs.Contents.{Contents};
    ghost use Rattle.price_book.specs.Kept.{IsBook};

    ghost Value = { Contents };

    ghost view = { λ b. record { facts = b.facts.items; spare = record { headroom = vec_capacity b.facts - vec_len b.facts } } };

    ghost invariant = { λ b. IsBook b.facts.items };
}

// Appends facts within reserved capacity.
fn append_reserved(facts: &mut Vec<Fact>, mut more: Vec<Fact>)
    requires { vec_len facts.old + vec_len more ≤ vec_capacity facts.old }
    ensures { facts.new.items ≡ facts.old.items ++ more.items }
{
    let _appended = facts.append(&mut more);
}

impl ReferenceBook {
    pub fn new(alloc: Global) -> ReferenceBook
        ensures { result.facts ≡ [] }
    {
        ReferenceBook {
            facts: Vec::new(alloc),
        }
    }

    pub fn facts(&self) -> &[Fact]
        ensures facts { result.now ≡ self.now.facts }
        ensures own { are_own self.now.facts ≡ true }
    {
        self.facts.as_slice()
    }

    /// A participant's resting order by its current identifier.
    pub fn order(&self, who: Who, id: &Identifier) -> Option<Resting<'_>>
        ensures found { option_map seen result ≡ find_order self.now.facts who id.now }
        ensures own { are_own self.now.facts ≡ true }
    {
        find_order(&self.facts, who, id)
    }

    /// Whether the participant used the identifier for an order, a cancel or a replacement.
    pub fn used(&self, who: Who, id: &Identifier) -> bool
        ensures { result ≡ is_order_id_used self.now.facts who id.now }
    {
        is_order_id_used(&self.facts, who, id)
    }

    /// Plans the entry of an order, and reserves memory for it.
    pub fn plan_entry(
        &mut self,
        market: Market<'_>,
        order: &OrderFact,
        moment: Moment,
    ) -> Result<FillPlan, Refusal>
        ensures kept { self.new.facts ≡ self.old.facts }
        ensures planned { IfOk result (IsEntryPlanned (market_of market.entry) self.old.facts order.now moment) }
        ensures made { IfOk result (λ p. IsPlanOf self.new p.facts) }
        ensures few { IfOk result (λ p. length p.fills ≤ side_capacity) }
        ensures within { IfOk result (λ p. (k : ℕ) → sum_by (λ (f : FilledOrder). f.quantity) (take k p.fills) ≤ order.now.quantity) }
        ensures here { IfOk result (λ p. All (λ (f : FilledOrder). f.instrument ≡ order.now.instrument) p.fills) }
        ensures refused { IfErr result (IsEntryRefused (market_of market.entry) self.old.facts order.now moment) }
    {
        let alloc = *self.facts.allocator();
        fills_are_within();
        let plan = draft_entry(alloc, market, &self.facts, order, moment)?;
        if self.facts.reserve(plan.facts().len()).is_err() {
            return Err(Refusal::NoMemory);
        }
        Ok(plan)
    }

    /// Plans a cancel, with this identifier, of a resting order; reserves memory for it.
    pub fn plan_cancel(
        &mut self,
        who: Who,
        order_id: &Identifier,
        id: &Identifier,
    ) -> Result<FillPlan, AllocError>
        requires { IsSome (find_order self.old.facts who order_id.now) }
        ensures kept { self.new.facts ≡ self.old.facts }
        ensures planned { IfOk result (λ p. option_map (λ r. cancel_plan r who id.now) (find_order self.old.facts who order_id.now) ≡ Some p) }
        ensures made { IfOk result (λ p. IsPlanOf self.new p.facts) }
    {
        let alloc = *self.facts.allocator();
        let order = find_order(&self.facts, who, order_id).unwrap();
        let plan = draft_cancel(alloc, who, order.entry.number, id)?;
        self.facts.reserve(plan.facts().len())?;
        Ok(plan)
    }

    /// Plans a replacement, with this identifier, of a resting order; reserves memory for it.
    pub fn plan_replace(
        &mut self,
        market: Market<'_>,
        who: Who,
        order_id: &Identifier,
        id: &Identifier,
        quantity: Quantity,
        price: Price,
        moment: Moment,
    ) -> Result<FillPlan, Refusal>
        requires { MatchOption (find_order self.old.facts who order_id.now) ⊥ (λ r. filled r < quantity) }
        ensures kept { self.new.facts ≡ self.old.facts }
        ensures planned { IfOk result (λ p. MatchOption (find_order self.old.facts who order_id.now) ⊥ (IsReplacePlanned (market_of market.entry) self.old.facts who id.now quantity price moment p)) }
        ensures made { IfOk result (λ p. IsPlanOf self.new p.facts) }
        ensures few { IfOk result (λ p. length p.fills ≤ side_capacity) }
        ensures refused { IfErr result (λ e. MatchOption (find_order self.old.facts who order_id.now) ⊥ (λ r. IsReplaceRefused (market_of market.entry) self.old.facts (replacing r id.now quantity price) moment e)) }
    {
        let alloc = *self.facts.allocator();
        fills_are_within();
        let order = find_order(&self.facts, who, order_id).unwrap();
        let new_order = replacing(order, id, quantity, price);
        let plan = draft_replace(alloc, market, &self.facts, who, order, new_order, moment)?;
        if self.facts.reserve(plan.facts().len()).is_err() {
            return Err(Refusal::NoMemory);
        }
        Ok(plan)
    }

    /// Snapshot of an instrument: its resting orders, bids, then offers, each best first.
    pub fn picture(&self, instrument: u32) -> Result<Vec<SnapshotEntry>, AllocError>
        ensures shown { IfOk result (λ v. v.items ≡ picture self.now.facts instrument) }
        ensures few { IfOk result (λ v. length v.items ≤ 2 * side_capacity) }
    {
        picture(*self.facts.allocator(), &self.facts, instrument)
    }

    /// Applies a plan made from this state; a later plan invalidates it. Takes no memory.
    pub fn apply(&mut self, plan: FillPlan)
        requires { IsPlanOf self.old plan.facts }
        ensures { self.new.facts ≡ self.old.facts ++ plan.facts }
    {
        append_reserved(&mut self.facts, plan.into_facts());
    }
}
