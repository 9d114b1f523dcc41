//! The effect of each fact on the resting orders.
ghost use Rattle.std.specs.Prelude.{◌≡◌, ℕ, ◌≤◌, length, true, List, [], IfOk};
ghost use Rattle.venue_rules.specs.Book.{Resting, side_capacity};
ghost use Rattle.venue_rules.specs.Facts.{entries};
ghost use Rattle.price_book.specs.Kept.{are_whole};
ghost use Rattle.price_book.specs.Live.{joined_by, reduced, traded_of, without, change, steps, Ledger, AreLedgers};
ghost use Rattle.price_book.specs.SideIndex.{side_index, held, IsConsistent, HasCapacity};
ghost use Rattle.price_book.specs.Views.{seen};
ghost use Rattle.fix_dictionary.specs.declared.values.Side.{Side};

use crate::entering::MAX_ORDERS_PER_SIDE;
use crate::filling::entering;
use crate::named::{add_name, remove_name};
use crate::numbered::{put, reduce_stored_order, reserve_stored_orders, take};
use crate::orders::is_day;
use crate::resting::Resting as Lent;
use crate::resting_orders::RestingOrders;
use crate::rows::{Rows, row_of};
use crate::sides::{enter_side_queue, leave_side_queue, reduce_side_queue};
use client_ids::hash_key;
use fix_dictionary::Identifier;
use std::alloc::{AllocError, Global};
use std::collections::HashMap;
use venue_rules::{Fact, Trade, TradeSource};

// Most orders that may rest.
const MAX_ENTRIES: usize = 0xffff_ffff;

pub(crate) fn no_orders(alloc: Global) -> RestingOrders
    ensures step { IsConsistent [] result }
    ensures headroom { HasCapacity 0 result }
{
    RestingOrders {
        alloc,
        stored_orders: HashMap::new(alloc),
        names: Vec::new(alloc),
        side_queues: Vec::new(alloc),
        spare: Rows::new(alloc),
    }
}

/// Reserves capacity for a further order on any side.
pub(crate) fn reserve(orders: &mut RestingOrders) -> Result<(), AllocError>
    requires empty { orders.old.spare.items ≡ [] }
    requires places { (x : ℕ) (side : Side) → length (held (side_index x side) orders.old.side_queues.items) ≤ side_capacity }
    ensures step { (rs : List Resting) → IsConsistent rs orders.old → IsConsistent rs orders.new }
    ensures kept { (n : ℕ) → HasCapacity n orders.old → HasCapacity n orders.new }
    ensures headroom { IfOk result (λ _. HasCapacity 1 orders.new) }
{
    if MAX_ENTRIES < orders.names.len() {
        return Err(AllocError);
    }
    reserve_stored_orders(&mut orders.stored_orders)?;
    orders.names.reserve(1)?;
    orders.side_queues.reserve(1)?;
    orders.spare.reserve(MAX_ORDERS_PER_SIDE + 1)?;
    Ok(())
}

// Enters an order with its leaves quantity; it rests where it may.
fn enter(orders: &mut RestingOrders, order: Lent<'_>)
    requires step { (rs : List Resting) × IsConsistent rs orders.old }
    requires headroom { HasCapacity 1 orders.old }
    ensures step { (rs : List Resting) → Ledger 0 (joined_by (seen order.entry) rs) → IsConsistent rs orders.old → IsConsistent (joined_by (seen order.entry) rs) orders.new }
    ensures headroom { HasCapacity 0 orders.new }
{
    let entry = order.entry;
    let _link: Option<Identifier> = entry.order.link;
    if is_day(entry.order.life) && 0 < order.left {
        let hash_key = hash_key(entry.order.who, &entry.order.id);
        add_name(&orders.stored_orders, &mut orders.names, entry, hash_key);
        put(&mut orders.stored_orders, order, hash_key);
        enter_side_queue(
            orders.alloc,
            &mut orders.side_queues,
            &mut orders.spare,
            entry.order.instrument,
            entry.order.side,
            row_of(order),
        );
    }
}

// Removes the order with this number.
fn leave(orders: &mut RestingOrders, number: u64)
    requires { (rs : List Resting) × IsConsistent rs orders.old }
    ensures step { (rs : List Resting) → IsConsistent rs orders.old → IsConsistent (without number rs) orders.new }
    ensures headroom { (n : ℕ) → HasCapacity n orders.old → HasCapacity n orders.new }
{
    let Some(stored_order) = take(&mut orders.stored_orders, number) else {
        return;
    };
    let (instrument, side, price) = (
        stored_order.entry.order.instrument,
        stored_order.entry.order.side,
        stored_order.entry.order.price,
    );
    leave_side_queue(&mut orders.side_queues, instrument, side, price, number);
    remove_name(&mut orders.names, stored_order.hash_key, number);
}

// Reduces the order with this number; removes it at leaves quantity 0.
fn reduce(orders: &mut RestingOrders, number: u64, quantity: u64)
    requires { (rs : List Resting) × IsConsistent rs orders.old }
    ensures step { (rs : List Resting) → IsConsistent rs orders.old → IsConsistent (reduced number quantity rs) orders.new }
    ensures headroom { (n : ℕ) → HasCapacity n orders.old → HasCapacity n orders.new }
{
    let Some(stored_order) = orders.stored_orders.get(&number) else {
        return;
    };
    if stored_order.left <= quantity {
        leave(orders, number);
        return;
    }
    let instrument = stored_order.entry.order.instrument;
    let side = stored_order.entry.order.side;
    let price = stored_order.entry.order.price;
    reduce_side_queue(
        &mut orders.side_queues,
        instrument,
        side,
        price,
        number,
        quantity,
    );
    reduce_stored_order(&mut orders.stored_orders, number, quantity);
}

// Reduces both orders of a trade.
fn trade(orders: &mut RestingOrders, trade: &Trade)
    requires { (rs : List Resting) × IsConsistent rs orders.old }
    ensures step { (rs : List Resting) → IsConsistent rs orders.old → IsConsistent (traded_of trade.now rs) orders.new }
    ensures headroom { (n : ℕ) → HasCapacity n orders.old → HasCapacity n orders.new }
{
    if let TradeSource::Book(resting, entering) = trade.place {
        reduce(orders, resting, trade.quantity.get());
        reduce(orders, entering, trade.quantity.get());
    }
}

// The effect of a fact, before an order enters.
fn change(orders: &mut RestingOrders, fact: &Fact)
    requires { (rs : List Resting) × IsConsistent rs orders.old }
    ensures step { (rs : List Resting) → IsConsistent rs orders.old → IsConsistent (change rs fact.now) orders.new }
    ensures headroom { (n : ℕ) → HasCapacity n orders.old → HasCapacity n orders.new }
{
    match fact {
        Fact::Traded(fact) => trade(orders, fact),
        Fact::Removed(removal) => leave(orders, removal.order),
        _ => {}
    }
}

/// Adds facts, within reserved capacity. The order enters last, with its leaves quantity after its trades: a filled
/// order is never put among the resting ones.
pub(crate) fn add_facts(orders: &mut RestingOrders, facts: &[Fact])
    requires step { (rs : List Resting) × AreLedgers rs facts.now × IsConsistent rs orders.old }
    requires headroom { HasCapacity (length (entries facts.now)) orders.old }
    requires whole { are_whole facts.now ≡ true }
    ensures step { (rs : List Resting) → AreLedgers rs facts.now → IsConsistent rs orders.old → IsConsistent (steps rs facts.now) orders.new }
    ensures headroom { HasCapacity 0 orders.new }
{
    for fact in facts {
        change(orders, fact);
    }
    if let Some(order) = entering(facts) {
        enter(orders, order);
    }
}
