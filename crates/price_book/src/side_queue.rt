//! The orders of an instrument and a side, as the book keeps them.
ghost use Rattle.std.specs.Prelude.{◌<◌};
ghost use Rattle.venue_rules.specs.Book.{side_capacity};

use crate::rows::Rows;
use fix_dictionary::Side;

/// The resting orders of an instrument and a side, the best last, with capacity for the most that may rest and an
/// entering one.
#[derive(Drop)]
pub(crate) struct SideQueue {
    pub(crate) instrument: u32,
    pub(crate) side: Side,
    pub(crate) rows: Rows,
    ghost headroom: { side_capacity < rows.capacity },
}
