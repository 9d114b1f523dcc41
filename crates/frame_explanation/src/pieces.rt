//! The value of a piece of a body.

ghost use Rattle.std.specs.Prelude.{◌≡◌};
ghost use Rattle.frame_explanation.specs.Pieces.{value_in};

use fix_pieces::first_value;

/// The text after the prefix in the first piece that begins with it; empty where there is none.
pub(crate) fn value_in<'a>(prefix: &[u8], body: &'a [u8]) -> &'a [u8]
    ensures { result.now ≡ value_in prefix.now body.now }
{
    match first_value(prefix, body) {
        Some(value) => value,
        None => &[],
    }
}
