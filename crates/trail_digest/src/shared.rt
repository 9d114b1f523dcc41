//! The first rows that two trails share.

ghost use Rattle.std.specs.Prelude.{◌≡◌, ◌↔◌, IsTrue};
ghost use Rattle.trail_digest.specs.Comparison.{AreShared};

use venue_rules::TrailRow;

pub(crate) fn is_same_row(a: &TrailRow, b: &TrailRow) -> bool
    ensures { IsTrue result ↔ (a.now ≡ b.now) }
{
    a.n == b.n
        && a.who == b.who
        && a.era == b.era
        && a.number == b.number
        && a.moment.ms() == b.moment.ms()
        && a.text.as_slice() == b.text.as_slice()
}

/// The length of the longest beginning that both share.
pub(crate) fn shared_rows(a: &[TrailRow], b: &[TrailRow]) -> usize
    ensures { AreShared a.now b.now result }
{
    let least = a.len().min(b.len());
    for k in 0..least {
        if !is_same_row(&a[k], &b[k]) {
            return k;
        }
    }
    least
}
