//! Why an instrument file, or a list of delays, is refused.

use thiserror::Error;

/// Why an instrument file is refused. The faults are searched over the whole file, in the order 1, 2, 6, 5, 3.
#[derive(Clone, Copy, Debug, PartialEq, Eq, Error)]
pub enum FileFault {
    /// 1: the bytes are not UTF-8, or not a TOML document.
    #[error("not a TOML document")]
    NotToml,
    /// 2: a key is absent, or a list has no entry.
    #[error("a key or an entry is missing")]
    Missing,
    /// 3: a symbol occurs twice.
    #[error("a symbol stands twice")]
    Twice,
    /// 5: more than 256 instruments.
    #[error("too many instruments")]
    TooMany,
    /// 6: a value of another type or outside its range, or a symbol that breaks the rule.
    #[error("a value is not allowed")]
    BadValue,
    /// An allocation failed.
    #[error("out of memory")]
    NoMemory,
}

/// Why a list of delays is refused. The faults are searched in this order.
#[derive(Clone, Copy, Debug, PartialEq, Eq, Error)]
pub enum DelayFault {
    /// 1: not one delay for each instrument.
    #[error("not one delay for each instrument")]
    Count,
    /// 2: a delay below a second, or above an hour.
    #[error("a delay is not allowed")]
    Range,
    /// An allocation failed.
    #[error("out of memory")]
    NoMemory,
}
