//! An order as an element of its side queue.

use fix_dictionary::{Amount, Price};

/// A resting order's number, price and leaves quantity.
#[derive(Clone, Copy)]
pub(crate) struct Row {
    pub(crate) number: u64,
    pub(crate) price: Price,
    pub(crate) left: Amount,
}

/// Price-time priority on a side: price, then number, since numbers rise with entries.
#[derive(Clone, Copy)]
pub(crate) struct Priority {
    pub(crate) number: u64,
    pub(crate) price: Price,
}
