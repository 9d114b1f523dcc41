//! How alarms are printed.

/// How alarms are printed.
#[derive(Clone, Copy, PartialEq, Eq)]
pub enum Form {
    /// How many there are, and a line for each.
    Lines,
    /// Comma-separated values, for a spreadsheet (RFC 4180): the names of the fields, and a row for each alarm.
    Table,
}
