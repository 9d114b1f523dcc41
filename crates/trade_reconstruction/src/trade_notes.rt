//! What is noted of a trade at the row where it is made.

use crate::evidence_event::EvidenceEvent;
use crate::quote_note::QuoteFate;

/// Notes on one trade.
#[derive(Drop)]
pub struct TradeNotes {
    pub number: u64,
    /// what rested before the order that it filled
    pub stood: Vec<EvidenceEvent>,
    /// what had become of the quotes in its room
    pub fates: Vec<QuoteFate>,
}
