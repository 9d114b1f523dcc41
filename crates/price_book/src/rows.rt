//! A side's orders in price-time priority, the best last: lookup, and the steps of an entry, a trade and a removal. The
//! best order trades first, and at the end of the list no other has to move.
ghost use Rattle.std.specs.Prelude.{◌≡◌, ℕ, ◌≤◌, ◌<◌, ◌+◌, [], length, slice_index_or, reverse, IfOk};
ghost use Rattle.std.specs.List.{insert, remove};
ghost use Rattle.price_book.specs.Rows.{row_of, ranks_before, AreRanked, IsRow, behind, put_last, cut_at};
ghost use Rattle.price_book.specs.Views.{seen};

use crate::inserting::insert_at;
use crate::orders::is_better;
use crate::resting::Resting;
use crate::row::{Priority, Row};
use fix_dictionary::{Amount, Price, Side};
use std::alloc::{AllocError, Global};
use std::marker::Model;

/// A side's orders, with priorities and leaves quantities in two lists. A search reads the priorities alone, and
/// elements of whole words move faster than rows of 24 bytes.
#[derive(Drop)]
pub(crate) struct Rows {
    priorities: Vec<Priority>,
    left: Vec<Amount>,
}

impl Model for Rows {
    ghost use Rattle.price_book.specs.Ranks.{Ranks, ranks, ArePaired};

    ghost Value = { Ranks };

    ghost view = { ranks };

    ghost invariant = { ArePaired };
}

impl Rows {
    pub(crate) fn new(alloc: Global) -> Rows
        ensures { result.items ≡ [] }
    {
        Rows {
            priorities: Vec::new(alloc),
            left: Vec::new(alloc),
        }
    }

    pub(crate) fn len(&self) -> usize
        ensures { result ≡ length self.now.items }
    {
        self.left.len()
    }

    pub(crate) fn row(&self, at: usize) -> Row
        requires { at < length self.now.items }
        ensures { result ≡ slice_index_or self.now.items at result }
    {
        let priority = self.priorities[at];
        Row {
            number: priority.number,
            price: priority.price,
            left: self.left[at],
        }
    }

    /// Reserves capacity for this many further orders.
    pub(crate) fn reserve(&mut self, more: usize) -> Result<(), AllocError>
        ensures items { self.new.items ≡ self.old.items }
        ensures headroom { IfOk result (λ _. length self.old.items + more ≤ self.new.capacity) }
        ensures grown { self.old.capacity ≤ self.new.capacity }
    {
        self.priorities.reserve(more)?;
        self.left.reserve(more)?;
        Ok(())
    }

    // Inserts an order at a place, within reserved capacity.
    fn insert(&mut self, at: usize, row: Row)
        requires within { at ≤ length self.old.items }
        requires headroom { length self.old.items < self.old.capacity }
        ensures items { self.new.items ≡ insert self.old.items at row }
        ensures capacity { self.new.capacity ≡ self.old.capacity }
    {
        let priority = Priority {
            number: row.number,
            price: row.price,
        };
        insert_at(&mut self.priorities, at, priority);
        insert_at(&mut self.left, at, row.left);
    }

    // Reduces the order at a place.
    fn reduce(&mut self, at: usize, quantity: u64)
        requires { at < length self.old.items }
        ensures items { self.new.items ≡ cut_at at quantity self.old.items }
        ensures capacity { self.new.capacity ≡ self.old.capacity }
    {
        let left = &mut self.left[at];
        *left = Amount::new(left.get().saturating_sub(quantity));
    }

    fn remove(&mut self, at: usize)
        requires { at < length self.old.items }
        ensures items { self.new.items ≡ remove self.old.items at }
        ensures capacity { self.new.capacity ≡ self.old.capacity }
    {
        let _priority = self.priorities.remove(at);
        let _left = self.left.remove(at);
    }
}

/// A resting order as a row.
pub(crate) fn row_of(order: Resting<'_>) -> Row
    ensures { result ≡ row_of (seen order.entry) }
{
    Row {
        number: order.entry.number,
        price: order.entry.order.price,
        left: Amount::new(order.left),
    }
}

// Whether an order ranks before one with this price and number: at a better price, or at the same price with a lesser
// number.
fn ranks_before(side: Side, price: Price, number: u64, order: &Priority) -> bool
    ensures { result ≡ ranks_before side price number order.now }
{
    is_better(side, order.price, price)
        || (order.number < number && !is_better(side, price, order.price))
}

// The place of the order with this number and price: the last that does not rank after it.
fn place_of(rows: &Rows, side: Side, price: Price, number: u64) -> usize
    requires ranked { AreRanked side (reverse rows.now.items) }
    requires there { (k : ℕ) × IsRow number price (reverse rows.now.items) k }
    ensures { (k : ℕ) → IsRow number price (reverse rows.now.items) k → result + k + 1 ≡ length rows.now.items }
{
    let count = rows
        .priorities
        .partition_point(|order| !ranks_before(side, price, number, order));
    count - 1
}

// The number of orders worse than this price.
fn worse(rows: &Rows, side: Side, price: Price) -> usize
    requires { AreRanked side (reverse rows.now.items) }
    ensures { result + behind side price (reverse rows.now.items) ≡ length rows.now.items }
{
    rows.priorities
        .partition_point(|order| is_better(side, price, order.price))
}

/// Puts an entering order behind all that are as good, and before all that are worse.
pub(crate) fn put_last(rows: &mut Rows, side: Side, row: Row)
    requires headroom { length rows.old.items < rows.old.capacity }
    requires ranked { AreRanked side (reverse rows.old.items) }
    ensures rows { reverse rows.new.items ≡ put_last side row (reverse rows.old.items) }
    ensures capacity { rows.new.capacity ≡ rows.old.capacity }
{
    let at = worse(rows, side, row.price);
    rows.insert(at, row);
}

/// Reduces the order with this number and price.
pub(crate) fn cut(rows: &mut Rows, side: Side, price: Price, number: u64, quantity: u64)
    requires ranked { AreRanked side (reverse rows.old.items) }
    requires there { (k : ℕ) × IsRow number price (reverse rows.old.items) k }
    ensures rows { (k : ℕ) → IsRow number price (reverse rows.old.items) k → reverse rows.new.items ≡ cut_at k quantity (reverse rows.old.items) }
    ensures capacity { rows.new.capacity ≡ rows.old.capacity }
{
    let at = place_of(rows, side, price, number);
    rows.reduce(at, quantity);
}

/// Removes the order with this number and price.
pub(crate) fn take_out(rows: &mut Rows, side: Side, price: Price, number: u64)
    requires ranked { AreRanked side (reverse rows.old.items) }
    requires there { (k : ℕ) × IsRow number price (reverse rows.old.items) k }
    ensures rows { (k : ℕ) → IsRow number price (reverse rows.old.items) k → reverse rows.new.items ≡ remove (reverse rows.old.items) k }
    ensures capacity { rows.new.capacity ≡ rows.old.capacity }
{
    let at = place_of(rows, side, price, number);
    rows.remove(at);
}
