//! The value of a piece of a body.

ghost use Rattle.std.specs.Prelude.{◌≡◌};
ghost use Rattle.desk_log.specs.Pieces.{is_piece};

use fix_pieces::first_value;

/// Whether the first piece with this prefix has this value.
pub(crate) fn is_piece(prefix: &[u8], value: &[u8], body: &[u8]) -> bool
    ensures { result ≡ is_piece prefix.now value.now body.now }
{
    match first_value(prefix, body) {
        Some(found) => found == value,
        None => false,
    }
}
