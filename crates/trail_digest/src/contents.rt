//! What a digest covers.

use venue_rules::TrailRow;

/// A trail's content: the bytes of both stored files, the stored delays, and the rows.
#[derive(Clone, Copy)]
pub struct Contents<'a> {
    pub participants: &'a [u8],
    pub instruments: &'a [u8],
    pub delays: &'a [u64],
    pub rows: &'a [TrailRow],
}
