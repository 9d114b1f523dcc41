//! Readings of the instrument file.
ghost use Rattle.std.specs.Prelude.{◌≡◌, ◌<◌, length, option_map, IfSome};
ghost use Rattle.rfq_handler.specs.Sent.{symbol_in};

use fix_dictionary::Identifier;
use instruments::Instruments;
use venue_rules::{Room, symbol_of};

/// The symbol of a room, if any.
pub(crate) fn symbol_in(instruments: &Instruments, room: Option<&Room>) -> Option<Identifier>
    requires { IfSome room (λ r. r.now.instrument < length instruments.now) }
    ensures { result ≡ symbol_in instruments.now (option_map (λ r. r.now) room.entry) }
{
    match room {
        Some(room) => Some(symbol_of(instruments, room.instrument)),
        None => None,
    }
}
