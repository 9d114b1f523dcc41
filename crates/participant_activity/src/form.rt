//! How the figures are printed.

/// How the figures are printed.
#[derive(Clone, Copy, PartialEq, Eq)]
pub enum Form {
    /// A heading, and a line for each figure.
    Lines,
    /// Comma-separated values, for a spreadsheet (RFC 4180): the names of the fields, and a row for each figure.
    Table,
}
