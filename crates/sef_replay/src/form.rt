//! The two forms of a printed day.

/// The form of a printed day.
#[derive(Clone, Copy, PartialEq, Eq)]
pub enum Form {
    /// A line for each trade.
    Lines,
    /// Comma-separated values, for a spreadsheet (RFC 4180): the names of the fields, and a row for each trade.
    Table,
}
