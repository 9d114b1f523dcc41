//! The two forms of a printed trade.

/// A line, or a row of a table.
#[derive(Clone, Copy)]
pub(crate) enum Form {
    Line,
    Row,
}
