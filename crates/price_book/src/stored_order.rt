//! A resting order, as the book keeps it.
ghost use Rattle.std.specs.Prelude.{◌≡◌, ◌≤◌, ◌+◌, ◌^◌};
ghost use Rattle.client_ids.specs.ClientIds.{hash_key_of};

use venue_rules::Entry;

/// A resting order, its leaves quantity, and the hash key of its name.
#[derive(Drop)]
pub(crate) struct StoredOrder {
    pub(crate) entry: Entry,
    pub(crate) left: u64,
    pub(crate) hash_key: u64,
    ghost within: { left ≤ entry.order.quantity },
    ghost whole: { entry.filled_before + entry.order.quantity ≤ 10 ^ 15 },
    ghost keyed: { hash_key ≡ hash_key_of entry.order.who entry.order.id },
}
