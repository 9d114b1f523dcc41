//! How an operator runs a served venue: where its rows and counters are written, and what stops it.

/// Where a venue's rows are kept.
#[derive(Drop)]
pub struct KeptPaths {
    /// The trail.
    pub trail: Option<String>,
    /// The heads of the trail.
    pub heads: Option<String>,
}

/// What stops a venue, and where its counters are written.
#[derive(Drop)]
pub struct Operation {
    /// The file whose existence stops the venue.
    pub stop_file: Option<String>,
    /// The file of counters.
    pub metrics: Option<String>,
    /// The end of standard input stops the venue.
    pub until_eof: bool,
}
