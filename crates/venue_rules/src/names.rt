//! Ownership of identifiers: two participants may use the same one.

ghost use Rattle.std.specs.Prelude.{◌≡◌};
ghost use Rattle.venue_rules.specs.Facts.{is_name};

use fix_dictionary::Identifier;
use participants::Who;

/// Whether a name has this owner and these bytes.
pub fn is_name(who: Who, id: &Identifier, other: Who, other_id: &Identifier) -> bool
    ensures { result ≡ is_name who id.now other other_id.now }
{
    who.place() == other.place() && id.is(other_id)
}
