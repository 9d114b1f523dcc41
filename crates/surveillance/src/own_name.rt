//! Identifiers as participants use them.

ghost use Rattle.std.specs.Prelude.{◌≡◌};
ghost use Rattle.surveillance.specs.Names.{own};

use fix_dictionary::Identifier;
use participant_activity::Name;
use participants::Who;

/// An identifier of a participant: of its order (11), or of a room (131) that it quoted in.
#[derive(Clone, Copy, PartialEq, Eq, PartialOrd, Ord)]
pub struct OwnName {
    /// its place
    pub who: u32,
    pub name: Name,
}

pub(crate) fn own(who: Who, id: Identifier) -> OwnName
    ensures { result ≡ own who id }
{
    OwnName {
        who: who.place(),
        name: Name { id },
    }
}
