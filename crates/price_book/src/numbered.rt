//! Resting orders by number.
ghost use Rattle.std.specs.Prelude.{◌≡◌, ◌≤◌, ◌<◌, true, List, IfOk};
ghost use Rattle.std.specs.HashMap.{spare};
ghost use Rattle.venue_rules.specs.Book.{Resting};
ghost use Rattle.client_ids.specs.ClientIds.{hash_key_of};
ghost use Rattle.price_book.specs.Live.{joined_by, reduced, without, Ledger, is_live};
ghost use Rattle.price_book.specs.Numbered.{IsNumbered, IsLeft, slot_at};
ghost use Rattle.price_book.specs.Views.{seen};

use crate::resting::Resting as Lent;
use crate::stored_order::StoredOrder;
use crate::stored_orders::stored_order_of;
use fix_dictionary::Identifier;
use std::alloc::{AllocError, Global};
use std::collections::HashMap;
use std::hash::{BuildHasherDefault, FoldHasher};
use venue_rules::{Entry, OrderFact};

/// Orders by number, with constant-time lookup.
pub(crate) type Numbered = HashMap<u64, StoredOrder, BuildHasherDefault<FoldHasher>, Global>;

/// Reserves capacity for a further order.
pub(crate) fn reserve_stored_orders(stored_orders: &mut Numbered) -> Result<(), AllocError>
    ensures kept { (rs : List Resting) → IsNumbered rs stored_orders.old.entries → IsNumbered rs stored_orders.new.entries }
    ensures headroom { IfOk result (λ _. 1 ≤ spare stored_orders.new) }
    ensures grown { spare stored_orders.old ≤ spare stored_orders.new }
{
    stored_orders.reserve(1)
}

/// Adds an order, with the hash key of its name, within reserved capacity.
pub(crate) fn put(stored_orders: &mut Numbered, order: Lent<'_>, hash_key: u64)
    requires headroom { 1 ≤ spare stored_orders.old }
    requires hash_key { hash_key ≡ hash_key_of order.entry.now.order.who order.entry.now.order.id }
    ensures { (rs : List Resting) → is_live (seen order.entry) ≡ true → Ledger 0 (joined_by (seen order.entry) rs) → IsNumbered rs stored_orders.old.entries → IsNumbered (joined_by (seen order.entry) rs) stored_orders.new.entries }
{
    let _link: Option<Identifier> = order.entry.order.link;
    let _before = stored_orders.insert(order.entry.number, stored_order_of(order, hash_key));
}

/// Reduces the order with this number, by less than its leaves quantity.
pub(crate) fn reduce_stored_order(stored_orders: &mut Numbered, number: u64, quantity: u64)
    requires { IsLeft quantity stored_orders.old.entries number }
    ensures stored_orders { (rs : List Resting) → Ledger 0 rs → IsNumbered rs stored_orders.old.entries → IsNumbered (reduced number quantity rs) stored_orders.new.entries }
    ensures headroom { spare stored_orders.new ≡ spare stored_orders.old }
{
    if let Some(stored_order) = stored_orders.get_mut(&number) {
        stored_order.left -= quantity;
    }
}

pub(crate) fn take(stored_orders: &mut Numbered, number: u64) -> Option<StoredOrder>
    ensures value { result ≡ slot_at stored_orders.old.entries number }
    ensures stored_orders { (rs : List Resting) → Ledger 0 rs → IsNumbered rs stored_orders.old.entries → IsNumbered (without number rs) stored_orders.new.entries }
    ensures headroom { spare stored_orders.old ≤ spare stored_orders.new }
{
    let _entry: Option<&Entry> = None;
    let _order: Option<OrderFact> = None;
    let _link: Option<Identifier> = None;
    stored_orders.remove(&number)
}
