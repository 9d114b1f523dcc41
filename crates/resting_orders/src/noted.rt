//! What is kept of each order that entered.

use fix_dictionary::{Amount, Identifier};
use participants::Who;
use sef_moment::Moment;

/// Where an order entered: its row, and the moment by which its priority counts. A held side's is its due moment.
#[derive(Clone, Copy)]
pub struct EnteredAt {
    pub row: u64,
    pub moment: Moment,
}

/// An order as it entered: its number, its owner and the owner's identifier (11), its quantity, and what had been
/// filled of it under the numbers that it replaced.
#[derive(Clone, Copy)]
pub struct EnteredOrder {
    pub number: u64,
    pub owner: Who,
    pub id: Identifier,
    pub quantity: Amount,
    pub filled_before: Amount,
    pub at: EnteredAt,
}
