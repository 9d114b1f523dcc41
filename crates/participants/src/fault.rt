//! Why a participant file is refused.

use thiserror::Error;

/// Why a participant file is refused. The faults are searched over the whole file, in the order 1, 2, 6, 5, 3, 4.
#[derive(Clone, Copy, Debug, PartialEq, Eq, Error)]
pub enum FileFault {
    /// 1: the bytes are not UTF-8, or not a TOML document.
    #[error("not a TOML document")]
    NotToml,
    /// 2: a key is absent, or a list has no entry.
    #[error("a key or an entry is missing")]
    Missing,
    /// 3: a name or a pair occurs twice.
    #[error("a name or a pair stands twice")]
    Twice,
    /// 4: a pair names an unknown participant.
    #[error("a pair names no participant")]
    UnknownName,
    /// 5: more than 32 participants.
    #[error("too many participants")]
    TooMany,
    /// 6: a value of another type, a name that breaks the rule, or a pair of a name with itself.
    #[error("a value is not allowed")]
    BadValue,
    /// An allocation failed.
    #[error("out of memory")]
    NoMemory,
}
