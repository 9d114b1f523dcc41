//! Why a script did not end.

use thiserror::Error;

/// Why a script did not end.
#[derive(Clone, Copy, Debug, PartialEq, Eq, Error)]
pub enum ClientFault {
    /// 1: the turns were over.
    #[error("the turns are over")]
    Turns,
    /// 2: the line reported a fault.
    #[error("the line reported a fault")]
    LineFault,
    /// An allocation failed.
    #[error("out of memory")]
    NoMemory,
}

/// Why a turn did not end.
#[derive(Clone, Copy)]
pub(crate) enum Stop {
    LineFault,
    NoMemory,
}
