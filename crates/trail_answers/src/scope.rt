//! What narrows the answers that are printed.

use participants::Who;

/// Rows of a trail by their numbers, the first and the last included.
#[derive(Clone, Copy)]
pub struct RowSpan {
    pub first: u64,
    pub last: u64,
}

/// What narrows the answers that are printed: a field that is not given narrows nothing.
#[derive(Clone, Copy)]
pub struct Scope {
    /// The replies to this participant alone, without the messages that they answer.
    pub to: Option<Who>,
    /// The rows that this participant sent.
    pub from: Option<Who>,
    /// These rows.
    pub rows: Option<RowSpan>,
    /// The rows of the life of the order with this number, its replacements included.
    pub order: Option<u64>,
    /// The rows of the conversation of the room with this number.
    pub room: Option<u64>,
}
