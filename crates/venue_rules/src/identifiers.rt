//! Names, symbols and the venue's numbers as identifiers of messages.

ghost use Rattle.std.specs.Prelude.{◌≡◌, ◌<◌, true, length};
ghost use Rattle.fix_dictionary.specs.Values.{is_printable};
ghost use Rattle.participants.specs.Names.{is_name};
ghost use Rattle.instruments.specs.Listing.{symbol_of};
ghost use Rattle.venue_rules.specs.Rooms.{printed};

use crate::laws::printed_numbers_are_identifiers;
use arrayvec::ArrayVec;
use fix_dictionary::Identifier;
use instruments::Instruments;
use itoa::Buffer;

/// A participant's name as an identifier.
pub fn name_identifier(name: &[u8]) -> Identifier
    requires { is_name name.now ≡ true }
    ensures { result ≡ name.now }
{
    Identifier::from_slice(name)
}

/// An instrument's symbol as an identifier.
pub fn symbol_of(instruments: &Instruments, instrument: u32) -> Identifier
    requires { instrument < length instruments.now }
    ensures { result ≡ symbol_of instruments.now instrument }
{
    Identifier::from_slice(instruments.get(instrument).symbol.as_slice())
}

/// The venue's identifier for a number: a prefix, such as `O` for an order, then the digits.
pub fn printed_identifier(prefix: u8, number: u64) -> Identifier
    requires { is_printable prefix ≡ true }
    ensures { result ≡ printed prefix number }
{
    let mut digits = Buffer::new();
    let digits = digits.format(number).as_bytes();
    let mut bytes = ArrayVec::<u8, 21>::new();
    bytes.push(prefix);
    bytes.try_extend_from_slice(digits).unwrap();
    printed_numbers_are_identifiers();
    Identifier::from_slice(&bytes)
}
