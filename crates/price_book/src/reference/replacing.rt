//! Replacement of an order in the reference book.
ghost use Rattle.std.specs.Prelude.{◌≡◌, ◌≤◌, ◌<◌, ◌+◌, ◌^◌, true, None, IfOk, IfErr};
ghost use Rattle.venue_rules.specs.Book.{filled};
ghost use Rattle.venue_rules.specs.Market.{market_of};
ghost use Rattle.price_book.specs.Kept.{are_whole};
ghost use Rattle.price_book.specs.Views.{seen};
ghost use Rattle.price_book.specs.Plans.{IsReplaceRefused, IsReplacement, replacing};

use crate::book::Refusal;
use crate::entering::plan_of;
use crate::fills::too_soon;
use crate::leaving::removed;
use crate::plan::FillPlan;
use crate::reading::next_order;
use crate::reference::fills::fills;
use crate::resting::Resting;
use participants::Who;
use sef_moment::Moment;
use std::alloc::Global;
use venue_rules::{Entry, Fact, Market, OrderFact};

/// The plan of a replacement, before memory is reserved for it.
pub(crate) fn draft_replace(
    alloc: Global,
    market: Market<'_>,
    facts: &[Fact],
    who: Who,
    order: Resting<'_>,
    new_order: OrderFact,
    moment: Moment,
) -> Result<FillPlan, Refusal>
    requires { are_whole facts.now ≡ true }
    ensures planned { IfOk result (IsReplacement (market_of market.entry) facts.now (seen order.entry) who new_order moment) }
    ensures refused { IfErr result (IsReplaceRefused (market_of market.entry) facts.now new_order moment) }
{
    let Ok(fills) = fills(alloc, facts, &new_order) else {
        return Err(Refusal::NoMemory);
    };
    if let Some(number) = too_soon(market, &new_order, moment, &fills) {
        return Err(Refusal::TooSoon(number));
    }
    let Ok(gone) = removed(alloc, who, order.entry.number, &new_order.id) else {
        return Err(Refusal::NoMemory);
    };
    let entry = Entry {
        number: next_order(facts),
        order: new_order,
        filled_before: order.filled(),
        moment,
    };
    let Ok(plan) = plan_of(alloc, gone, &entry, &fills) else {
        return Err(Refusal::NoMemory);
    };
    Ok(plan)
}
