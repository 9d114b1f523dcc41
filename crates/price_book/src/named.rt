//! Keys of the resting orders, sorted by name.
ghost use Rattle.std.specs.Prelude.{◌≡◌, ℕ, ◌≤◌, ◌<◌, ◌+◌, ◌^◌, ◌∷◌, [], ◌++◌, Bool, List, length, slice_index_or};
ghost use Rattle.std.specs.List.{remove};
ghost use Rattle.std.specs.Vec.{vec_capacity, vec_len};
ghost use Rattle.venue_rules.specs.Book.{Resting};
ghost use Rattle.client_ids.specs.ClientIds.{hash_key_of};
ghost use Rattle.client_ids.specs.Search.{IsPlace};
ghost use Rattle.price_book.specs.Live.{Ledger};
ghost use Rattle.price_book.specs.Numbered.{IsListed, IsNamed, IsKeyAt, AreRisingHashKeys, no_key, answer_at, answer_behind};

use crate::id_key::IdKey;
use crate::inserting::insert_at;
use crate::numbered::Numbered;
use crate::probing::{FirstProbe, LastProbe};
use client_ids::{hash_key, search};
use fix_dictionary::Identifier;
use participants::Who;
use venue_rules::Entry;

/// The first place of a name's keys, whether there is one, and the number of keys compared.
pub(crate) fn place(
    stored_orders: &Numbered,
    keys: &[IdKey],
    who: Who,
    id: &Identifier,
) -> (usize, bool, u32)
    requires { (rs : List Resting) × IsListed rs stored_orders.now.entries keys.now }
    ensures place { IsPlace (answer_at stored_orders.now.entries keys.now (hash_key_of who id.now) who id.now) (length keys.now) result.0 result.1 }
    ensures few { (d : ℕ) → length keys.now < 2 ^ d → result.2 ≤ d }
{
    let mut probe = FirstProbe {
        stored_orders,
        keys,
        hash_key: hash_key(who, id),
        count: 0,
    };
    let (place, found) = search(&mut probe, who, id);
    (place, found, probe.count as u32)
}

// The place after the keys whose names are not greater.
fn behind(
    stored_orders: &Numbered,
    keys: &[IdKey],
    hash_key: u64,
    who: Who,
    id: &Identifier,
) -> usize
    requires listed { (rs : List Resting) × IsListed rs stored_orders.now.entries keys.now }
    requires hash_key { hash_key ≡ hash_key_of who id.now }
    ensures { (found : Bool) × IsPlace (answer_behind stored_orders.now.entries keys.now hash_key who id.now) (length keys.now) result found }
{
    let mut probe = LastProbe {
        stored_orders,
        keys,
        hash_key,
        count: 0,
    };
    let (at, _) = search(&mut probe, who, id);
    at
}

// The place of a number's key, from a place on.
fn spot(keys: &[IdKey], from: usize, number: u64) -> usize
    requires { (i : ℕ) × (from ≤ i) × (i < length keys.now) × ((slice_index_or keys.now i no_key).number ≡ number) }
    ensures within { result < length keys.now }
    ensures here { (slice_index_or keys.now result no_key).number ≡ number }
{
    for at in from..keys.len() {
        if keys[at].number == number {
            return at;
        }
    }
    0
}

/// Adds an order's key, with the hash key of its name, within reserved capacity.
pub(crate) fn add_name(
    stored_orders: &Numbered,
    keys: &mut Vec<IdKey>,
    entry: &Entry,
    hash_key: u64,
)
    requires headroom { vec_len keys.old < vec_capacity keys.old }
    requires few { vec_len keys.old < 2 ^ 32 }
    requires listed { (rs : List Resting) × IsListed rs stored_orders.now.entries keys.old.items }
    requires hash_key { hash_key ≡ hash_key_of entry.now.order.who entry.now.order.id }
    ensures named { (rs : List Resting) (r : Resting) → r.entry ≡ entry.now → IsListed rs stored_orders.now.entries keys.old.items → IsNamed (rs ++ r ∷ []) keys.new.items }
    ensures len { vec_len keys.new ≡ vec_len keys.old + 1 }
    ensures capacity { vec_capacity keys.new ≡ vec_capacity keys.old }
{
    let number = entry.number;
    let at = behind(
        stored_orders,
        keys,
        hash_key,
        entry.order.who,
        &entry.order.id,
    );
    insert_at(keys, at, IdKey { hash_key, number });
}

// The number of keys with a lesser hash key.
fn lesser(keys: &[IdKey], hash_key: u64) -> usize
    requires { AreRisingHashKeys keys.now }
    ensures within { result ≤ length keys.now }
    ensures lesser { (k : ℕ) → k < result → (slice_index_or keys.now k no_key).hash_key < hash_key }
{
    keys.partition_point(|key| key.hash_key < hash_key)
}

/// Removes the key with this hash key and number.
pub(crate) fn remove_name(keys: &mut Vec<IdKey>, hash_key: u64, number: u64)
    requires { (rs : List Resting) × Ledger 0 rs × IsNamed rs keys.old.items × (k : ℕ) × IsKeyAt rs hash_key number k }
    ensures named { (rs : List Resting) (k : ℕ) → Ledger 0 rs → IsKeyAt rs hash_key number k → IsNamed rs keys.old.items → IsNamed (remove rs k) keys.new.items }
    ensures len { vec_len keys.new ≤ vec_len keys.old }
    ensures capacity { vec_capacity keys.new ≡ vec_capacity keys.old }
{
    let from = lesser(keys, hash_key);
    let at = spot(keys, from, number);
    let _key = keys.remove(at);
}
