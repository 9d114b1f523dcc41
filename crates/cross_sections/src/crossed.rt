//! A cross, and what became of the side that it holds.

use day_events::NewOrder;
use fix_dictionary::{Identifier, Price};
use participants::Who;
use sef_moment::Moment;

/// What the message of a cross says of it.
#[derive(Clone, Copy)]
pub struct Terms {
    /// 548
    pub cross: Identifier,
    pub price: Option<Price>,
    /// 11 of the side that is held
    pub second: Identifier,
}

/// The held side, as it entered.
#[derive(Clone, Copy)]
pub struct Arrival {
    pub row: u64,
    pub order: Option<u64>,
    /// its trade with the first side as it entered
    pub trade: Option<u64>,
    /// whether it traded with others as it entered
    pub others: bool,
}

/// The held side, as it was refused when it was due.
#[derive(Clone, Copy)]
pub struct Refusal {
    pub row: u64,
    /// 58
    pub cause: Option<Identifier>,
}

/// What became of the held side.
#[derive(Clone, Copy)]
pub enum End {
    /// it is held at the last row
    Held,
    Entered(Arrival),
    /// at this row
    Cancelled(u64),
    Refused(Refusal),
}

/// An accepted cross.
#[derive(Clone, Copy)]
pub struct Crossed {
    pub row: u64,
    pub moment: Moment,
    pub who: Who,
    /// the side that entered at once
    pub first: NewOrder,
    pub terms: Terms,
    /// when the other side is due
    pub due: Moment,
    pub end: End,
}

/// A side that is held, of the cross at this place of all.
#[derive(Clone, Copy)]
pub struct Waiting {
    pub place: usize,
    pub due: Moment,
    pub who: Who,
    /// 11
    pub id: Identifier,
}
