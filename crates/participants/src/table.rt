//! The related pairs as a table, for look-up without search.

ghost use Rattle.std.specs.Prelude.{◌≡◌, IfOk};
ghost use Rattle.participants.specs.Relations.{is_related};
ghost use Rattle.participants.specs.Table.{related_table};

use crate::who::Who;
use std::alloc::{AllocError, Global};

/// Whether the pairs have these two, in either order.
fn is_related(pairs: &[(Who, Who)], a: u32, b: u32) -> bool
    ensures { result ≡ is_related pairs.now a b }
{
    pairs.iter().any(|p| {
        (p.0.place() == a && p.1.place() == b) || (p.0.place() == b && p.1.place() == a)
    })
}

/// For each two places below 32, a and b, whether they are related, at index 32 a + b.
pub(crate) fn related_table(alloc: Global, pairs: &[(Who, Who)]) -> Result<Vec<bool>, AllocError>
    ensures { IfOk result (λ table. table.items ≡ related_table pairs.now) }
{
    (0u32..1024)
        .map(|k| is_related(pairs, k / 32, k % 32))
        .collect(alloc)
}
