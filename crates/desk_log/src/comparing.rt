//! The application messages of a log compared with those that are owed.

ghost use Rattle.std.specs.Prelude.{◌≡◌, ◌≤◌, IfOk, length, option_map};
ghost use Rattle.desk_log.specs.Comparing as comparing;
ghost use Rattle.desk_log.specs.Numbered.{texts_in};

use crate::frames::Span;
use crate::numbered::{Place, text_at};
use crate::once::Conflict;
use crate::owed::Owed;
use std::alloc::{AllocError, Global};

/// What a log says of the messages that were owed.
#[derive(Clone, Copy)]
pub enum Comparison {
    /// The log has all, in order.
    All,
    /// The log has the first ones, in order, and no other.
    FirstPart,
    /// The log has another message, or two of one number.
    Differs,
}

/// A comparison, and how many of the first messages agree.
#[derive(Clone, Copy)]
pub struct Compared {
    pub comparison: Comparison,
    pub count: usize,
}

/// Whether the text of a message is the one that is owed.
pub(crate) fn is_owed(
    alloc: Global,
    log: &[u8],
    span: Span,
    owed: &Owed,
) -> Result<bool, AllocError>
    ensures { IfOk result (λ same. same ≡ comparing.is_owed log.now span owed.now) }
{
    let text = text_at(alloc, log, span)?;
    let same = text.as_slice() == owed.text.as_slice();
    Ok(same)
}

/// How many of the first messages of a log are the first that are owed.
pub(crate) fn agreed(
    alloc: Global,
    log: &[u8],
    once: &[(Place, Span)],
    owed: &[Owed],
) -> Result<usize, AllocError>
    ensures { IfOk result (λ count. count ≡ comparing.agreed log.now once.now owed.now) }
{
    let least = once.len().min(owed.len());
    for count in 0..least {
        if !is_owed(alloc, log, once[count].1, &owed[count])? {
            return Ok(count);
        }
    }
    Ok(least)
}

/// What the log says.
pub(crate) fn comparison_of(
    conflict: &Option<Conflict>,
    count: usize,
    logged: usize,
    owed: usize,
) -> Comparison
    ensures { result ≡ comparing.comparison_of conflict.now count logged owed }
{
    if conflict.is_some() {
        Comparison::Differs
    } else if count < logged {
        Comparison::Differs
    } else if count == owed {
        Comparison::All
    } else {
        Comparison::FirstPart
    }
}
