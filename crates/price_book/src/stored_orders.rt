//! Conversion of orders to stored ones.
ghost use Rattle.std.specs.Prelude.{◌≡◌};
ghost use Rattle.client_ids.specs.ClientIds.{hash_key_of};
ghost use Rattle.price_book.specs.Live.{seen_slot};
ghost use Rattle.price_book.specs.Views.{seen};

use crate::resting::Resting;
use crate::stored_order::StoredOrder;
use venue_rules::Entry;

pub(crate) fn copy_entry(entry: &Entry) -> Entry
    ensures { result ≡ entry.now }
{
    Entry {
        number: entry.number,
        order: entry.order,
        filled_before: entry.filled_before,
        moment: entry.moment,
    }
}

/// An order as stored, with the hash key of its name.
pub(crate) fn stored_order_of(order: Resting<'_>, hash_key: u64) -> StoredOrder
    requires { hash_key ≡ hash_key_of order.entry.now.order.who order.entry.now.order.id }
    ensures { seen_slot result ≡ seen order.entry }
{
    StoredOrder {
        entry: copy_entry(order.entry),
        left: order.left,
        hash_key,
    }
}
