//! Counts of reports and trades.

/// Execution reports (message 8) sent so far, and trades so far, in the book and in rooms.
#[derive(Clone, Copy)]
pub struct Counts {
    pub reports: u64,
    pub trades: u64,
}
