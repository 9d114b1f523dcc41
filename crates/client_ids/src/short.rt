//! A participant's identifier in fewer bytes, where it is short.
ghost use Rattle.std.specs.Prelude.{◌≡◌, ◌++◌, IsTrue, nat_eq};
ghost use Rattle.std.specs.Hash as fed;
ghost use Rattle.std.specs.Cmp.Lexicographic.{pointwise};
ghost use Rattle.std.specs.Cmp.Rules.{comparing, hashing};
ghost use Rattle.std.specs.Ordering.{on, eq_of_both};
ghost use Rattle.std.proofs.Common.{rules};
ghost use Rattle.client_ids.specs.Pieces.{pieces};
ghost use Rattle.client_ids.specs.Short.{is_short};

use crate::client_id::feed;
use fix_dictionary::Identifier;
use participants::Who;
use std::hash::{Hash, Hasher};
use std::marker::Model;

// Length of a UUID's text.
const MAX_SHORT_LEN: usize = 36;

// Last place of a participant whose identifiers may be short.
const MAX_WHO: u32 = 65_535;

/// A short identifier and the participant that used it: 40 bytes, where a `ClientId` has 72.
#[derive(Drop)]
pub(crate) struct ShortId {
    // The bytes, then padding that is never read.
    padded: [u8; 36],
    len: u8,
    place: u16,
}

impl Model for ShortId {
    ghost use Rattle.std.specs.Prelude.{◌≤◌, take};
    ghost use Rattle.client_ids.specs.declared.client_id.ClientId.{ClientId};

    ghost Value = { ClientId };

    ghost view = { λ s. record { who = s.place; id = take s.len s.padded } };

    ghost invariant = { λ s. s.len ≤ 36 };
}

/// At most 36 bytes, of a participant whose place is below 65,536.
pub(crate) fn is_short(who: Who, id: &Identifier) -> bool
    ensures { result ≡ is_short who id.now }
{
    who.place() <= MAX_WHO && id.as_slice().len() <= MAX_SHORT_LEN
}

impl ShortId {
    pub(crate) fn new(who: Who, id: &Identifier) -> ShortId
        requires { IsTrue (is_short who id.now) }
        ensures { result ≡ record { who = who; id = id.now } }
    {
        let bytes = id.as_slice();
        let mut padded = [0; MAX_SHORT_LEN];
        padded[..bytes.len()].copy_from_slice(bytes);
        ShortId {
            padded,
            len: bytes.len() as u8,
            place: who.place() as u16,
        }
    }

    fn as_slice(&self) -> &[u8]
        ensures { result.now ≡ self.now.id }
    {
        &self.padded[..usize::from(self.len)]
    }
}

impl PartialEq for ShortId {
    ghost eq = { eq_of_both (on (λ x. x.who) nat_eq) (on (λ x. x.id) (pointwise nat_eq)) };

    ghost laws = { Prim.search (comparing, rules) };

    fn eq(&self, other: &ShortId) -> bool {
        self.place == other.place && self.as_slice() == other.as_slice()
    }
}

impl Eq for ShortId {
    ghost laws = { Prim.search (comparing, rules) };
}

impl Hash for ShortId {
    ghost hash_input = { λ x. fed.u32 x.who ++ pieces x.id };

    ghost respects_eq = { Prim.search (hashing, rules) };

    fn hash<H: Hasher>(&self, state: &mut H) {
        u32::from(self.place).hash(state);
        feed(self.as_slice(), state);
    }
}
