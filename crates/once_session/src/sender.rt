//! The participant whose stream is answered.

ghost use Rattle.std.specs.Prelude.{◌≡◌};

use participants::Who;

pub(crate) fn first() -> Who
    ensures { result ≡ 0 }
{
    Who::of(0)
}
