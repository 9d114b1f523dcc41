//! Keys by which events are looked up.

ghost use Rattle.std.specs.Prelude.{◌≡◌};
ghost use Rattle.trade_reconstruction.specs.Indexed.{first_key, name_key, second_key};

use crate::evidence_event::{EventKind, EvidenceEvent};
use fix_dictionary::Identifier;
use participants::Who;

/// A key of events. Others may have the same.
#[derive(Clone, Copy)]
pub enum Key {
    /// a room, somebody's request, an order that entered, somebody's held side, or the trade of a fill
    First(u64),
    /// the trade of a hit, the identifier of an order that entered, or the order that was filled
    Second(u64),
}

/// The bytes as digits that continue a number, modulo 2^64.
fn digits_behind(start: u64, bytes: &[u8]) -> u64
    ensures { result ≡ name_key start bytes.now }
{
    let mut key = start;
    for byte in bytes {
        key = key.wrapping_mul(127).wrapping_add(u64::from(*byte));
    }
    key
}

/// The key of somebody's identifier.
pub(crate) fn name_key(who: Who, id: &Identifier) -> u64
    ensures { result ≡ name_key who id.now }
{
    digits_behind(u64::from(who.place()), id.as_slice())
}

pub(crate) fn first_key(word: &EvidenceEvent) -> Option<u64>
    ensures { result ≡ first_key word.now }
{
    match &word.said {
        EventKind::Asked(asked) => Some(asked.room),
        EventKind::SnapshotSent(sent) => Some(name_key(word.to, &sent.request)),
        EventKind::Shown(shown) => Some(name_key(word.to, &shown.request)),
        EventKind::Quoted(quoted) => Some(name_key(word.to, &quoted.request)),
        EventKind::Hit(hit) => Some(hit.room),
        EventKind::Entered(entered) => Some(entered.order),
        EventKind::Held(held) => Some(name_key(word.to, &held.id)),
        EventKind::Filled(filled) => Some(filled.trade),
        EventKind::RestedBefore(_) => None,
        EventKind::RestedCount(_) => None,
    }
}

pub(crate) fn second_key(word: &EvidenceEvent) -> Option<u64>
    ensures { result ≡ second_key word.now }
{
    match &word.said {
        EventKind::Hit(hit) => Some(hit.trade),
        EventKind::Entered(entered) => Some(name_key(word.to, &entered.id)),
        EventKind::Filled(filled) => Some(filled.order),
        EventKind::Asked(_) => None,
        EventKind::SnapshotSent(_) => None,
        EventKind::Shown(_) => None,
        EventKind::Quoted(_) => None,
        EventKind::Held(_) => None,
        EventKind::RestedBefore(_) => None,
        EventKind::RestedCount(_) => None,
    }
}
