//! Messages taken, in their turn.

use crate::turn::Turn;
use venue_rules::Taken;

/// A message taken in a turn of the venue.
#[derive(Clone, Copy)]
pub struct Request<'a> {
    pub turn: Turn<'a>,
    pub taken: &'a Taken,
}
