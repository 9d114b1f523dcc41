//! How what a trail answers is printed.

/// How what a trail answers is printed.
#[derive(Clone, Copy, PartialEq, Eq)]
pub enum Form {
    /// Lines: a message as FIX has it, and in words.
    Lines,
    /// Comma-separated values, for a spreadsheet (RFC 4180): the names of the fields, and a row for each message.
    Table,
    /// JSON Lines: an object of JSON (RFC 8259) for each message, on a line of its own.
    Json,
}
