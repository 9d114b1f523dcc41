//! Turns of a venue.

use crate::counts::Counts;
use sef_moment::Moment;
use std::alloc::Global;
use venue_rules::Market;

/// What every input is answered with: the allocator, the market, the counts before it, and its moment.
#[derive(Clone, Copy)]
pub struct Turn<'a> {
    pub alloc: Global,
    pub market: Market<'a>,
    pub counts: Counts,
    pub moment: Moment,
}
