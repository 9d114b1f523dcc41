//! The venue's identifier for an order.
ghost use Rattle.std.specs.Prelude.{◌≡◌};
ghost use Rattle.venue_rules.specs.Messages.{order_id_or_none};

use fix_dictionary::Identifier;
use venue_rules::printed_identifier;

/// The identifier of an order, or NONE without one.
pub(crate) fn order_id_or_none(order: Option<u64>) -> Identifier
    ensures { result ≡ order_id_or_none order }
{
    match order {
        Some(number) => printed_identifier(b'O', number),
        None => Identifier::from_slice(b"NONE"),
    }
}
