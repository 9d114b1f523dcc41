//! Side queues: lookup, and the steps of an entry, a trade and a removal.
ghost use Rattle.std.specs.Prelude.{◌≡◌, ◌≤◌, ◌<◌, ◌+◌, ◌==◌, ℕ, length, [], if◌then◌else◌, MatchOption};
ghost use Rattle.std.specs.List.{remove};
ghost use Rattle.std.specs.Vec.{vec_capacity, vec_len};
ghost use Rattle.venue_rules.specs.Book.{side_capacity};
ghost use Rattle.price_book.specs.Rows.{AreRanked, IsRow, put_last, cut_at};
ghost use Rattle.price_book.specs.SideIndex.{side_index, held, AreOrdered, Lacks, IsLadder, lower};

use crate::row::Row;
use crate::rows::{Rows, cut, put_last, take_out};
use crate::side_queue::SideQueue;
use fix_dictionary::{Price, Side};
use std::alloc::Global;
use std::mem;

// Index of an instrument's side among all sides.
fn side_index(instrument: u32, side: Side) -> u64
    ensures { result ≡ side_index instrument side }
{
    match side {
        Side::Buy => instrument as u64 * 2,
        Side::Sell => instrument as u64 * 2 + 1,
    }
}

// The number of side queues with a lesser index.
fn lower(side_queues: &[SideQueue], wanted: u64) -> usize
    requires { AreOrdered 0 side_queues.now }
    ensures { result ≡ lower wanted side_queues.now }
{
    let mut low: usize = 0;
    let mut high = side_queues.len();
    while low < high {
        let middle = low + (high - low) / 2;
        let side_queue = &side_queues[middle];
        if side_index(side_queue.instrument, side_queue.side) < wanted {
            low = middle + 1;
        } else {
            high = middle;
        }
    }
    low
}

/// The place of the queue of an instrument's side.
pub(crate) fn find_side_queue(
    side_queues: &[SideQueue],
    instrument: u32,
    side: Side,
) -> Option<usize>
    requires { AreOrdered 0 side_queues.now }
    ensures { MatchOption result (Lacks (side_index instrument side) side_queues.now) (IsLadder (side_index instrument side) side_queues.now) }
{
    let wanted = side_index(instrument, side);
    let at = lower(side_queues, wanted);
    if at < side_queues.len() {
        let side_queue = &side_queues[at];
        if side_index(side_queue.instrument, side_queue.side) == wanted {
            return Some(at);
        }
    }
    None
}

// Inserts an empty queue for a side that has none; gives its place.
fn open(side_queues: &mut Vec<SideQueue>, rows: Rows, instrument: u32, side: Side) -> usize
    requires headroom { vec_len side_queues.old < vec_capacity side_queues.old }
    requires places { side_capacity < rows.capacity }
    requires empty { rows.items ≡ [] }
    requires ordered { AreOrdered 0 side_queues.old.items }
    requires lacks { Lacks (side_index instrument side) side_queues.old.items }
    ensures ordered { AreOrdered 0 side_queues.new.items }
    ensures there { IsLadder (side_index instrument side) side_queues.new.items result }
    ensures held { (m : ℕ) → held m side_queues.new.items ≡ held m side_queues.old.items }
    ensures len { vec_len side_queues.new ≡ vec_len side_queues.old + 1 }
    ensures capacity { vec_capacity side_queues.new ≡ vec_capacity side_queues.old }
{
    let at = lower(side_queues, side_index(instrument, side));
    let _inserted = side_queues.insert(
        at,
        SideQueue {
            instrument,
            side,
            rows,
        },
    );
    at
}

/// Puts an order on its side.
pub(crate) fn enter_side_queue(
    alloc: Global,
    side_queues: &mut Vec<SideQueue>,
    spare: &mut Rows,
    instrument: u32,
    side: Side,
    row: Row,
)
    requires headroom { vec_len side_queues.old < vec_capacity side_queues.old }
    requires spare { side_capacity < spare.old.capacity }
    requires empty { spare.old.items ≡ [] }
    requires places { length (held (side_index instrument side) side_queues.old.items) ≤ side_capacity }
    requires ordered { AreOrdered 0 side_queues.old.items }
    requires ranked { AreRanked side (held (side_index instrument side) side_queues.old.items) }
    ensures ordered { AreOrdered 0 side_queues.new.items }
    ensures held { (m : ℕ) → held m side_queues.new.items ≡ (if m == side_index instrument side then put_last side row (held m side_queues.old.items) else held m side_queues.old.items) }
    ensures empty { spare.new.items ≡ [] }
    ensures len { vec_len side_queues.new ≤ vec_len side_queues.old + 1 }
    ensures capacity { vec_capacity side_queues.new ≡ vec_capacity side_queues.old }
{
    if let Some(at) = find_side_queue(side_queues, instrument, side) {
        put_last(&mut side_queues[at].rows, side, row);
        return;
    }
    let rows = mem::replace(spare, Rows::new(alloc));
    let at = open(side_queues, rows, instrument, side);
    put_last(&mut side_queues[at].rows, side, row);
}

/// Reduces the order with this price and number on a side.
pub(crate) fn reduce_side_queue(
    side_queues: &mut Vec<SideQueue>,
    instrument: u32,
    side: Side,
    price: Price,
    number: u64,
    quantity: u64,
)
    requires ordered { AreOrdered 0 side_queues.old.items }
    requires ranked { AreRanked side (held (side_index instrument side) side_queues.old.items) }
    requires there { (k : ℕ) × IsRow number price (held (side_index instrument side) side_queues.old.items) k }
    ensures ordered { AreOrdered 0 side_queues.new.items }
    ensures held { (k m : ℕ) → IsRow number price (held (side_index instrument side) side_queues.old.items) k → held m side_queues.new.items ≡ (if m == side_index instrument side then cut_at k quantity (held m side_queues.old.items) else held m side_queues.old.items) }
    ensures len { vec_len side_queues.new ≡ vec_len side_queues.old }
    ensures capacity { vec_capacity side_queues.new ≡ vec_capacity side_queues.old }
{
    if let Some(at) = find_side_queue(side_queues, instrument, side) {
        cut(&mut side_queues[at].rows, side, price, number, quantity);
    }
}

/// Removes the order with this price and number from a side.
pub(crate) fn leave_side_queue(
    side_queues: &mut Vec<SideQueue>,
    instrument: u32,
    side: Side,
    price: Price,
    number: u64,
)
    requires ordered { AreOrdered 0 side_queues.old.items }
    requires ranked { AreRanked side (held (side_index instrument side) side_queues.old.items) }
    requires there { (k : ℕ) × IsRow number price (held (side_index instrument side) side_queues.old.items) k }
    ensures ordered { AreOrdered 0 side_queues.new.items }
    ensures held { (k m : ℕ) → IsRow number price (held (side_index instrument side) side_queues.old.items) k → held m side_queues.new.items ≡ (if m == side_index instrument side then remove (held m side_queues.old.items) k else held m side_queues.old.items) }
    ensures len { vec_len side_queues.new ≡ vec_len side_queues.old }
    ensures capacity { vec_capacity side_queues.new ≡ vec_capacity side_queues.old }
{
    if let Some(at) = find_side_queue(side_queues, instrument, side) {
        take_out(&mut side_queues[at].rows, side, price, number);
    }
}
