//! Decisions on quote responses.

use crate::refusal::ResponseCause;
use fix_dictionary::{Price, Side};

/// The requester's side of a hit, and the quote's price for it.
#[derive(Clone, Copy)]
pub struct Hit {
    pub side: Side,
    pub price: Price,
}

#[derive(Clone, Copy)]
pub enum Decision {
    Refuse(ResponseCause),
    Pass,
    Trade(Hit),
}
