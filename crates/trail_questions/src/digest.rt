//! The digest of a trail's content.

ghost use Rattle.std.specs.Prelude.{IfErr, OnOk};
ghost use Rattle.trail_digest.specs.Trail.{trail_of};
ghost use Rattle.trail_questions.specs.Digest.{EmitsDigest, IsUnknownRow};
ghost use Rattle.trail_questions.specs.Ending.{Fails};

use crate::fault::{AskedFault, Unknown};
use std::alloc::Global;
use std::io::Write;
use trail_digest::{Contents, DigestFault, print_digest};

/// Prints the digest of a trail's content up to this row, or the last.
pub(crate) fn print_digest_at<W: Write>(
    alloc: Global,
    trail: &Contents<'_>,
    row: Option<u64>,
    writer: &mut W,
) -> Result<(), AskedFault>
    ensures emitted { OnOk result (EmitsDigest (trail_of trail.now) row (W.contents writer.old) (W.contents writer.new)) }
    ensures failed { IfErr result (Fails ⊥ ⊥ (IsUnknownRow (trail_of trail.now) row) (W.contents writer.old) (W.contents writer.new)) }
{
    match print_digest(alloc, trail, row, writer) {
        Ok(()) => Ok(()),
        Err(DigestFault::Memory) => Err(AskedFault::Memory),
        Err(DigestFault::Output) => Err(AskedFault::Output),
        Err(DigestFault::NoRow) => Err(AskedFault::Unknown(Unknown::Row)),
    }
}
