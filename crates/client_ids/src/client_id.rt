//! A participant's identifier, and the order of such names.
ghost use Rattle.std.specs.Prelude.{◌≡◌, ◌++◌, ◌&&◌, nat_eq, bytes_eq};
ghost use Rattle.std.specs.Hash as fed;
ghost use Rattle.std.specs.List.{fold};
ghost use Rattle.std.specs.Cmp.Lexicographic.{pointwise};
ghost use Rattle.std.specs.Cmp.Rules.{comparing, hashing};
ghost use Rattle.std.specs.Ordering.{on, eq_of_both};
ghost use Rattle.std.proofs.Common.{rules};
ghost use Rattle.client_ids.specs.Pieces.{pieces};
ghost use Rattle.client_ids.specs.ClientIds.{digits_behind, hash_key_of, hash_key_order};

use fix_dictionary::Identifier;
use participants::Who;
use std::cmp::Ordering;
use std::hash::{Hash, Hasher};

#[tactic(auto, using(crate::proofs::Pieces::pieces_more, crate::proofs::Pieces::pieces_last))]
// Four bytes at a time: byte by byte takes three times as long, and with larger pieces whoever picks the bytes could
// cancel the hash.
pub(crate) fn feed<H: Hasher>(bytes: &[u8], state: &mut H)
    ensures { state.new ≡ fold H.write state.old (pieces bytes.now) }
{
    let mut rest = bytes;
    while 4 <= rest.len() {
        state.write(&rest[..4]);
        rest = &rest[4..];
    }
    state.write(rest);
}

/// A name: an identifier and the participant that used it.
#[derive(Clone, Copy)]
pub struct ClientId {
    pub who: Who,
    pub id: Identifier,
}

impl PartialEq for ClientId {
    ghost eq = { eq_of_both (on (λ x. x.who) nat_eq) (on (λ x. x.id) (pointwise nat_eq)) };

    ghost laws = { Prim.search (comparing, rules) };

    fn eq(&self, other: &ClientId) -> bool {
        self.who.place() == other.who.place() && self.id.as_slice() == other.id.as_slice()
    }
}

impl Eq for ClientId {
    ghost laws = { Prim.search (comparing, rules) };
}

impl Hash for ClientId {
    ghost hash_input = { λ x. fed.u32 x.who ++ pieces x.id };

    ghost respects_eq = { Prim.search (hashing, rules) };

    fn hash<H: Hasher>(&self, state: &mut H) {
        self.who.place().hash(state);
        feed(self.id.as_slice(), state);
    }
}

// The bytes as digits that continue a number, modulo 2^64.
fn digits_behind(start: u64, bytes: &[u8]) -> u64
    ensures { result ≡ digits_behind start bytes.now }
{
    let mut hash_key = start;
    for byte in bytes {
        hash_key = hash_key.wrapping_mul(127).wrapping_add(u64::from(*byte));
    }
    hash_key
}

/// Hash key of a name. Names are sorted by it, so that a comparison seldom looks a name up. No promise depends on its
/// value.
pub fn hash_key(who: Who, id: &Identifier) -> u64
    ensures { result ≡ hash_key_of who id.now }
{
    digits_behind(u64::from(who.place()), id.as_slice())
}

/// Order of a name and a participant's identifier with this hash key: by hash key, then participant, then bytes.
pub(crate) fn compare_id(name: &ClientId, key_of_it: u64, who: Who, id: &Identifier) -> Ordering
    ensures { result ≡ hash_key_order name.now key_of_it who id.now }
{
    match hash_key(name.who, &name.id).cmp(&key_of_it) {
        Ordering::Less => return Ordering::Less,
        Ordering::Equal => {}
        Ordering::Greater => return Ordering::Greater,
    }
    match name.who.place().cmp(&who.place()) {
        Ordering::Less => Ordering::Less,
        Ordering::Equal => name.id.as_slice().cmp(id.as_slice()),
        Ordering::Greater => Ordering::Greater,
    }
}
