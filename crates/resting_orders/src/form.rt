//! How a book is printed.

/// How a book is printed.
#[derive(Clone, Copy, PartialEq, Eq)]
pub enum Form {
    /// A heading, and a line for each order.
    Lines,
    /// Comma-separated values, for a spreadsheet (RFC 4180): the names of the fields, and a row for each order.
    Table,
}
