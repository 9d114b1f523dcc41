//! Readings of a single fact.
ghost use Rattle.std.specs.Prelude.{◌≡◌, option_map};
ghost use Rattle.venue_rules.specs.Facts.{quote_in, room_in};

use venue_rules::{Fact, Room, RoomQuote};

/// The room that the fact opens, if any.
pub(crate) fn room_in(fact: &Fact) -> Option<&Room>
    ensures { option_map (λ r. r.now) result ≡ room_in fact.now }
{
    match fact {
        Fact::Asked(room) => Some(room),
        _ => None,
    }
}

/// The quote that the fact is, if any.
pub(crate) fn quote_in(fact: &Fact) -> Option<&RoomQuote>
    ensures { option_map (λ q. q.now) result ≡ quote_in fact.now }
{
    match fact {
        Fact::Quoted(quote) => Some(quote),
        _ => None,
    }
}
