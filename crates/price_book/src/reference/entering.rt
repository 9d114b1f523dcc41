//! Entry of an order into the reference book.
ghost use Rattle.std.specs.Prelude.{◌≡◌, ◌≤◌, ◌-◌, ◌^◌, map, length, true, IfOk, IfErr};
ghost use Rattle.venue_rules.specs.Book.{fills, filled_by, is_side_full, side_capacity};
ghost use Rattle.venue_rules.specs.Entering.{entry_facts};
ghost use Rattle.venue_rules.specs.Market.{market_of};
ghost use Rattle.price_book.specs.Kept.{are_whole};
ghost use Rattle.price_book.specs.Views.{seen_fill};
ghost use Rattle.price_book.specs.Plans.{IsEntryPlanned, printed, IsEntryRefused};

use crate::book::Refusal;
use crate::entering::{MAX_ORDERS_PER_SIDE, plan_of};
use crate::fills::{too_soon, unfilled};
use crate::orders::is_day;
use crate::plan::FillPlan;
use crate::reading::{next_order, resting};
use crate::reference::fills::fills;
use fix_dictionary::Amount;
use sef_moment::Moment;
use std::alloc::{AllocError, Global};
use venue_rules::{Entry, Fact, Market, OrderFact};

// Whether the order would rest on a side at capacity.
fn is_side_full(
    alloc: Global,
    facts: &[Fact],
    order: &OrderFact,
    unfilled: u64,
) -> Result<bool, AllocError>
    requires whole { are_whole facts.now ≡ true }
    requires unfilled { unfilled ≡ order.now.quantity - filled_by (fills facts.now order.now) }
    ensures { IfOk result (λ full. full ≡ is_side_full facts.now order.now) }
{
    if !is_day(order.life) || unfilled == 0 {
        return Ok(false);
    }
    let orders = resting(alloc, facts, order.instrument, order.side)?;
    Ok(MAX_ORDERS_PER_SIDE <= orders.len())
}

/// The plan of an entry, before memory is reserved for it.
pub(crate) fn draft_entry(
    alloc: Global,
    market: Market<'_>,
    facts: &[Fact],
    order: &OrderFact,
    moment: Moment,
) -> Result<FillPlan, Refusal>
    requires { are_whole facts.now ≡ true }
    ensures planned { IfOk result (IsEntryPlanned (market_of market.entry) facts.now order.now moment) }
    ensures whole { IfOk result (λ _. order.now.quantity ≤ 10 ^ 15) }
    ensures refused { IfErr result (IsEntryRefused (market_of market.entry) facts.now order.now moment) }
{
    let Ok(fills) = fills(alloc, facts, order) else {
        return Err(Refusal::NoMemory);
    };
    if let Some(number) = too_soon(market, order, moment, &fills) {
        return Err(Refusal::TooSoon(number));
    }
    let unfilled = unfilled(order.quantity.get(), &fills);
    let Ok(is_full) = is_side_full(alloc, facts, order, unfilled) else {
        return Err(Refusal::NoMemory);
    };
    if is_full {
        return Err(Refusal::Full);
    }
    let entry = Entry {
        number: next_order(facts),
        order: *order,
        filled_before: Amount::new(0),
        moment,
    };
    let Ok(plan) = plan_of(alloc, Vec::new(alloc), &entry, &fills) else {
        return Err(Refusal::NoMemory);
    };
    Ok(plan)
}
