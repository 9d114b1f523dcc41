//! Binary search, with a count of comparisons.
ghost use Rattle.std.specs.Prelude.{◌≡◌, ℕ, ◌+◌, ◌≤◌, ◌<◌, ◌^◌, List};
ghost use Rattle.std.specs.declared.cmp.Ordering.{Ordering as Order};
ghost use Rattle.std.specs.Ordering.{is_lt, is_eq};
ghost use Rattle.client_ids.specs.Search.{AreRising, IsPlace, IsFew};

use fix_dictionary::Identifier;
use participants::Who;
use std::cmp::Ordering;

/// Sorted places that compare with a participant's identifier and count the comparisons.
pub trait Probe {
    ghost size: { Self → ℕ };

    ghost answer: { Self → ℕ → List ℕ → ℕ → Order };

    ghost count: { Self → ℕ };

    fn len(&self) -> usize
        ensures { result ≡ size self.now };

    /// Compares the place with a participant's identifier, and adds 1 to the count.
    fn compare(&mut self, k: usize, who: Who, id: &Identifier) -> Ordering
        requires within { k < size self.old }
        requires headroom { count self.old + 1 < 2 ^ 64 }
        ensures answer { result ≡ answer self.old who id.now k }
        ensures counted { count self.new ≡ count self.old + 1 }
        ensures size { size self.new ≡ size self.old }
        ensures same { answer self.new ≡ answer self.old };
}

fn is_less(order: Ordering) -> bool
    ensures { result ≡ is_lt order }
{
    matches!(order, Ordering::Less)
}

fn is_equal(order: Ordering) -> bool
    ensures { result ≡ is_eq order }
{
    matches!(order, Ordering::Equal)
}

/// The first place whose answer is not Less, and whether it is Equal. Makes at most as many comparisons as the length
/// has binary digits.
pub fn search<P: Probe>(probe: &mut P, who: Who, id: &Identifier) -> (usize, bool)
    requires headroom { P.count probe.old + 64 < 2 ^ 64 }
    requires rising { AreRising (P.answer probe.old who id.now) (P.size probe.old) }
    ensures place { IsPlace (P.answer probe.old who id.now) (P.size probe.old) result.0 result.1 }
    ensures few { IsFew (P.size probe.old) (P.count probe.old) (P.count probe.new) }
    ensures size { P.size probe.new ≡ P.size probe.old }
    ensures same { P.answer probe.new ≡ P.answer probe.old }
{
    let mut low: usize = 0;
    let mut high = probe.len();
    let mut found = false;
    while low < high {
        let middle = low + (high - low) / 2;
        let order = probe.compare(middle, who, id);
        if is_less(order) {
            low = middle + 1;
        } else {
            high = middle;
            found = is_equal(order);
        }
    }
    (low, found)
}
