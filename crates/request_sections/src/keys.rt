//! Keys by which events are filed.

ghost use Rattle.std.specs.Prelude.{◌≡◌};
ghost use Rattle.request_sections.specs.Keys.{by_quote, by_room, key_of, name_key, named_key, quote_key, room_key};

use day_events::{Event, What};
use fix_dictionary::Identifier;
use venue_rules::printed_identifier;

/// By what events are filed.
#[derive(Clone, Copy)]
pub enum By {
    Room,
    /// that it was withdrawn or passed
    Quote,
}

/// The bytes as digits of a number, modulo 2^64.
pub(crate) fn name_key(name: &[u8]) -> u64
    ensures { result ≡ name_key name.now }
{
    let mut key: u64 = 0;
    for byte in name {
        key = key.wrapping_mul(10).wrapping_add(u64::from(*byte));
    }
    key
}

fn named_key(name: &Option<Identifier>) -> Option<u64>
    ensures { result ≡ named_key name.now }
{
    match name {
        None => None,
        Some(id) => Some(name_key(id.as_slice())),
    }
}

/// The key of a room.
pub(crate) fn room_key(room: u64) -> u64
    ensures { result ≡ room_key room }
{
    let name = printed_identifier(b'R', room);
    name_key(name.as_slice())
}

/// The key of a quote.
pub(crate) fn quote_key(quote: u64) -> u64
    ensures { result ≡ quote_key quote }
{
    let name = printed_identifier(b'Q', quote);
    name_key(name.as_slice())
}

#[tactic(auto, unfolding(crate::specs::Keys::by_room))]
fn by_room(named: &Option<Identifier>, what: &What) -> Option<u64>
    ensures { result ≡ by_room named.now what.now }
{
    match what {
        What::Asked(request) => Some(room_key(request.room)),
        What::Quoted(_) => named_key(named),
        What::Traded(trade) => Some(room_key(trade.room)),
        What::Refused(_) => named_key(named),
        _ => None,
    }
}

#[tactic(auto, unfolding(crate::specs::Keys::by_quote))]
fn by_quote(named: &Option<Identifier>, what: &What) -> Option<u64>
    ensures { result ≡ by_quote named.now what.now }
{
    match what {
        What::Withdrawn(id) => named_key(id),
        What::Passed => named_key(named),
        _ => None,
    }
}

/// The key of an event, if it is filed.
pub(crate) fn key_of(by: By, event: &Event) -> Option<u64>
    ensures { result ≡ key_of by event.now }
{
    match by {
        By::Room => by_room(&event.at.named, &event.what),
        By::Quote => by_quote(&event.at.named, &event.what),
    }
}
