//! Orders that rest, with their owners.

ghost use Rattle.std.specs.Prelude.{◌≡◌, ◌++◌, ◌-◌, ◌≤◌, [], slice_get, option_map, OnOk};
ghost use Rattle.std.specs.List.{cons_option};
ghost use Rattle.venue_core.specs.Plan.{most_items};
ghost use Rattle.venue_core.specs.State.{standing};
ghost use Rattle.venue_core.specs.VenueFacts.{IsHistory};
ghost use Rattle.venue_rules.specs.Facts.{History};
ghost use Rattle.venue_rules.specs.Run.{Message, answer_input};
ghost use Rattle.row_replay.specs.Asking.{asks, entries_in};
ghost use Rattle.resting_orders.specs.Resting.{rested_at, rested_in, rested_shown, rested_with};

use crate::noted::{EnteredAt, EnteredOrder};
use fix_dictionary::{Amount, Identifier, Price, Side};
use participants::Who;
use row_replay::{asks, entries_in};
use sef_moment::Moment;
use std::alloc::{AllocError, Global};
use venue_core::Venue;
use venue_rules::{Reply, SnapshotEntry};

/// An order that rests: its instrument and terms, what is left of its quantity, its number, its owner, the owner's
/// identifier (11), and where it entered. Quantity and filled quantity count what was filled under replaced numbers
/// too.
#[derive(Clone, Copy)]
pub struct RestedOrder {
    pub symbol: Identifier,
    pub side: Side,
    pub price: Price,
    pub left: Amount,
    pub quantity: u64,
    pub filled: u64,
    pub number: u64,
    pub owner: Who,
    pub id: Identifier,
    pub at: EnteredAt,
}

fn rested_with(symbol: Identifier, entry: &SnapshotEntry, order: &EnteredOrder) -> RestedOrder
    ensures { result ≡ rested_with symbol entry.now order.now }
{
    RestedOrder {
        symbol,
        side: entry.side,
        price: entry.price,
        left: entry.left,
        quantity: order.filled_before.get() + order.quantity.get(),
        filled: order.filled_before.get() + order.quantity.get().saturating_sub(entry.left.get()),
        number: entry.order,
        owner: order.owner,
        id: order.id,
        at: order.at,
    }
}

/// The order with a number: the orders are in order, from 1.
fn order_at(orders: &[EnteredOrder], number: u64) -> Option<&EnteredOrder>
    ensures { option_map (λ o. o.now) result ≡ slice_get orders.now (number - 1) }
{
    orders.get(number.saturating_sub(1) as usize)
}

fn rested_at(
    orders: &[EnteredOrder],
    symbol: Identifier,
    entry: &SnapshotEntry,
) -> Option<RestedOrder>
    ensures { result ≡ rested_at orders.now symbol entry.now }
{
    match order_at(orders, entry.order) {
        Some(order) => Some(rested_with(symbol, entry, order)),
        None => None,
    }
}

fn push_rested(rested: &mut Vec<RestedOrder>, order: Option<RestedOrder>) -> Result<(), AllocError>
    ensures { OnOk result (rested.new.items ≡ rested.old.items ++ cons_option order []) }
{
    match order {
        Some(order) => match rested.push(order) {
            Ok(()) => Ok(()),
            Err(_) => Err(AllocError),
        },
        None => Ok(()),
    }
}

fn push_entries(
    rested: &mut Vec<RestedOrder>,
    orders: &[EnteredOrder],
    symbol: Identifier,
    entries: &[SnapshotEntry],
) -> Result<(), AllocError>
    ensures { OnOk result (rested.new.items ≡ rested.old.items ++ rested_in orders.now symbol entries.now) }
{
    for entry in entries {
        push_rested(rested, rested_at(orders, symbol, entry))?;
    }
    Ok(())
}

fn push_replies(
    rested: &mut Vec<RestedOrder>,
    orders: &[EnteredOrder],
    symbol: Identifier,
    replies: &[Reply],
) -> Result<(), AllocError>
    ensures { OnOk result (rested.new.items ≡ rested.old.items ++ rested_shown orders.now symbol (entries_in replies.now)) }
{
    match entries_in(replies) {
        Some(entries) => push_entries(rested, orders, symbol, entries),
        None => Ok(()),
    }
}

/// Adds every order of an instrument that rests on a venue, with its owner: bids, then offers, each in price-time
/// priority. Nothing where no instrument has the symbol. The moment of the request changes nothing.
pub(crate) fn push_book(
    alloc: Global,
    venue: &mut Venue,
    orders: &[EnteredOrder],
    symbol: Identifier,
    moment: Moment,
    rested: &mut Vec<RestedOrder>,
) -> Result<(), AllocError>
    requires few { venue.old.items ≤ most_items }
    ensures market { venue.new.market ≡ venue.old.market }
    ensures day { standing venue.new.day ≡ standing venue.old.day }
    ensures items { venue.new.items ≡ venue.old.items }
    ensures rested { (h : History) → IsHistory venue.old h → OnOk result (rested.new.items ≡ rested.old.items ++ rested_shown orders.now symbol (entries_in (answer_input venue.old.market h (Message (asks 0 symbol) moment)).replies)) }
{
    let asked = asks(alloc, Who::of(0), symbol)?;
    let plan = venue.plan(&asked, moment)?;
    let pushed = push_replies(rested, orders, symbol, plan.replies());
    drop(plan);
    pushed
}
