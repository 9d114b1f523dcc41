//! The values of single fields.
ghost use Rattle.std.specs.Prelude.{◌≡◌, ◌≤◌, ℕ, length, IfOk, IsTrue, None, Some, bytes_eq, if◌then◌else◌};
ghost use Rattle.fix_dictionary.specs.Kinds.{IsOtherKind};
ghost use Rattle.fix_dictionary.specs.Values.{IsText, is_text, zero_padded, is_graphic, IsFixInt, IsSequenceNumber, IsNewSequenceNumber, IsInterval, IsQuantity, IsAmount, IsPrice};

use fix_fields::read_identifier;
use std::alloc::{AllocError, Global};
use std::marker::Model;

/// An identifier: 1 to 64 bytes, each from 32 to 126, stored inline without allocation.
#[derive(Clone, Copy)]
pub struct Identifier {
    // The bytes, padded with 0.
    padded: [u8; 64],
    len: u8,
}

impl Model for Identifier {
    ghost use Rattle.std.specs.Prelude.{ℕ, List, ◌≡◌, length, take};
    ghost use Rattle.fix_dictionary.specs.Values.{IsText, zero_padded};

    ghost Value = { List ℕ };

    ghost view = { λ a. take a.len a.padded };

    ghost invariant = { λ a. IsText 64 (take a.len a.padded) × (a.len ≡ length (take a.len a.padded)) × (a.padded ≡ zero_padded (take a.len a.padded)) };

    ghost inverse = { λ bytes. record { padded = zero_padded bytes; len = length bytes } };

    ghost use Rattle.std.proofs.Common.{refl};

    ghost inverse_ok = { λ a h. rw (← h.2) (rw (← h.1) refl) };
}

/// Whether these bytes are an identifier: 1 to 64, each from 32 to 126.
pub fn is_identifier(bytes: &[u8]) -> bool
    ensures { result ≡ is_text 64 bytes.now }
{
    read_identifier(bytes).is_ok()
}

// The bytes, padded with 0.
#[tactic(auto, using(crate::proofs::ValueLemmas::zeros_behind))]
fn zero_padded(bytes: &[u8]) -> [u8; 64]
    requires { length bytes.now ≤ 64 }
    ensures { result ≡ zero_padded bytes.now }
{
    let mut all = [0; 64];
    all[..bytes.len()].copy_from_slice(bytes);
    all
}

impl Identifier {
    /// The identifier with these bytes, or `None` where they are not one.
    pub fn read(bytes: &[u8]) -> Option<Identifier>
        ensures { result ≡ (if is_text 64 bytes.now then Some bytes.now else None) }
    {
        if is_identifier(bytes) {
            Some(Identifier::from_slice(bytes))
        } else {
            None
        }
    }

    #[tactic(auto, using(crate::proofs::ValueLemmas::bytes_in_front))]
    pub fn from_slice(bytes: &[u8]) -> Identifier
        requires { IsText 64 bytes.now }
        ensures { result ≡ bytes.now }
    {
        Identifier {
            padded: zero_padded(bytes),
            len: bytes.len() as u8,
        }
    }

    pub fn as_slice(&self) -> &[u8]
        ensures value { result.now ≡ self.now }
        ensures range { IsText 64 result.now }
    {
        &self.padded[..usize::from(self.len)]
    }

    /// Whether both have the same bytes.
    pub fn is(&self, other: &Identifier) -> bool
        ensures { result ≡ bytes_eq self.now other.now }
    {
        self.as_slice() == other.as_slice()
    }
}

/// A text: 1 to 200 bytes, each from 32 to 126.
#[derive(Drop)]
pub struct Text {
    bytes: Vec<u8>,
}

impl Model for Text {
    ghost use Rattle.std.specs.Prelude.{ℕ, List};
    ghost use Rattle.fix_dictionary.specs.Values.{IsText};

    ghost Value = { List ℕ };

    ghost view = { λ a. a.bytes.items };

    ghost invariant = { λ a. IsText 200 a.bytes.items };
}

impl Text {
    pub fn from_slice(alloc: Global, bytes: &[u8]) -> Result<Text, AllocError>
        requires { IsText 200 bytes.now }
        ensures { IfOk result (λ text. text ≡ bytes.now) }
    {
        let bytes = Vec::from_slice(alloc, bytes)?;
        Ok(Text { bytes })
    }

    pub fn as_slice(&self) -> &[u8]
        ensures value { result.now ≡ self.now }
        ensures range { IsText 200 result.now }
    {
        &self.bytes
    }

    /// A copy of the text.
    pub fn copy(&self, alloc: Global) -> Result<Text, AllocError>
        ensures { IfOk result (λ copy. copy ≡ self.now) }
    {
        Text::from_slice(alloc, &self.bytes)
    }
}

/// A character: one byte from 33 to 126.
#[derive(Clone, Copy, PartialEq, Eq)]
pub struct FixChar {
    value: u8,
}

impl Model for FixChar {
    ghost use Rattle.std.specs.Prelude.{ℕ, ◌≡◌, true};
    ghost use Rattle.fix_dictionary.specs.Values.{is_graphic};

    ghost Value = { ℕ };

    ghost view = { λ a. a.value };

    ghost invariant = { λ a. is_graphic a.value ≡ true };

    ghost inverse = { λ n. record { value = n } };
}

impl FixChar {
    pub fn new(value: u8) -> FixChar
        requires { IsTrue (is_graphic value) }
        ensures { result ≡ value }
    {
        FixChar { value }
    }

    pub fn get(self) -> u8
        ensures value { result ≡ self }
        ensures range { IsTrue (is_graphic result) }
    {
        self.value
    }
}

/// An integer, from 0 to 999,999,999.
#[derive(Clone, Copy, PartialEq, Eq)]
pub struct FixInt {
    value: u32,
}

impl Model for FixInt {
    ghost use Rattle.std.specs.Prelude.{ℕ};
    ghost use Rattle.fix_dictionary.specs.Values.{IsFixInt};

    ghost Value = { ℕ };

    ghost view = { λ a. a.value };

    ghost invariant = { λ a. IsFixInt a.value };

    ghost inverse = { λ n. record { value = n } };
}

impl FixInt {
    pub fn new(value: u32) -> FixInt
        requires { IsFixInt value }
        ensures { result ≡ value }
    {
        FixInt { value }
    }

    pub fn get(self) -> u32
        ensures value { result ≡ self }
        ensures range { IsFixInt result }
    {
        self.value
    }
}

/// The sequence number of a message (34, 7), from 1 to 999,999,999.
#[derive(Clone, Copy, PartialEq, Eq)]
pub struct SequenceNumber {
    value: u32,
}

impl Model for SequenceNumber {
    ghost use Rattle.std.specs.Prelude.{ℕ};
    ghost use Rattle.fix_dictionary.specs.Values.{IsSequenceNumber};

    ghost Value = { ℕ };

    ghost view = { λ a. a.value };

    ghost invariant = { λ a. IsSequenceNumber a.value };

    ghost inverse = { λ n. record { value = n } };
}

impl SequenceNumber {
    pub fn new(value: u32) -> SequenceNumber
        requires { IsSequenceNumber value }
        ensures { result ≡ value }
    {
        SequenceNumber { value }
    }

    pub fn get(self) -> u32
        ensures value { result ≡ self }
        ensures range { IsSequenceNumber result }
    {
        self.value
    }
}

/// The next sequence number (36), from 1 to 1,000,000,000: up to one past the greatest sequence number.
#[derive(Clone, Copy, PartialEq, Eq)]
pub struct NewSequenceNumber {
    value: u32,
}

impl Model for NewSequenceNumber {
    ghost use Rattle.std.specs.Prelude.{ℕ};
    ghost use Rattle.fix_dictionary.specs.Values.{IsNewSequenceNumber};

    ghost Value = { ℕ };

    ghost view = { λ a. a.value };

    ghost invariant = { λ a. IsNewSequenceNumber a.value };

    ghost inverse = { λ n. record { value = n } };
}

impl NewSequenceNumber {
    pub fn new(value: u32) -> NewSequenceNumber
        requires { IsNewSequenceNumber value }
        ensures { result ≡ value }
    {
        NewSequenceNumber { value }
    }

    pub fn get(self) -> u32
        ensures value { result ≡ self }
        ensures range { IsNewSequenceNumber result }
    {
        self.value
    }
}

/// Seconds between heartbeats (108), from 0 to 3600.
#[derive(Clone, Copy, PartialEq, Eq)]
pub struct HeartbeatInterval {
    value: u32,
}

impl Model for HeartbeatInterval {
    ghost use Rattle.std.specs.Prelude.{ℕ};
    ghost use Rattle.fix_dictionary.specs.Values.{IsInterval};

    ghost Value = { ℕ };

    ghost view = { λ a. a.value };

    ghost invariant = { λ a. IsInterval a.value };

    ghost inverse = { λ n. record { value = n } };
}

impl HeartbeatInterval {
    pub fn new(value: u32) -> HeartbeatInterval
        requires { IsInterval value }
        ensures { result ≡ value }
    {
        HeartbeatInterval { value }
    }

    pub fn get(self) -> u32
        ensures value { result ≡ self }
        ensures range { IsInterval result }
    {
        self.value
    }
}

/// A price in whole millionths, from -10^18 to 10^18.
#[derive(Clone, Copy, PartialEq, Eq)]
pub struct Price {
    value: i64,
}

impl Model for Price {
    ghost use Rattle.std.specs.Prelude.{ℤ};
    ghost use Rattle.fix_dictionary.specs.Values.{IsPrice};

    ghost Value = { ℤ };

    ghost view = { λ a. a.value };

    ghost invariant = { λ a. IsPrice a.value };

    ghost inverse = { λ n. record { value = n } };
}

impl Price {
    pub fn new(value: i64) -> Price
        requires { IsPrice value }
        ensures { result ≡ value }
    {
        Price { value }
    }

    pub fn get(self) -> i64
        ensures value { result ≡ self }
        ensures range { IsPrice result }
    {
        self.value
    }
}

/// A quantity, from 1 to 10^15.
#[derive(Clone, Copy, PartialEq, Eq)]
pub struct Quantity {
    value: u64,
}

impl Model for Quantity {
    ghost use Rattle.std.specs.Prelude.{ℕ};
    ghost use Rattle.fix_dictionary.specs.Values.{IsQuantity};

    ghost Value = { ℕ };

    ghost view = { λ a. a.value };

    ghost invariant = { λ a. IsQuantity a.value };

    ghost inverse = { λ n. record { value = n } };
}

impl Quantity {
    pub fn new(value: u64) -> Quantity
        requires { IsQuantity value }
        ensures { result ≡ value }
    {
        Quantity { value }
    }

    pub fn get(self) -> u64
        ensures value { result ≡ self }
        ensures range { IsQuantity result }
    {
        self.value
    }
}

/// The leaves quantity, or the filled quantity: from 0 to 10^15.
#[derive(Clone, Copy, PartialEq, Eq)]
pub struct Amount {
    value: u64,
}

impl Model for Amount {
    ghost use Rattle.std.specs.Prelude.{ℕ};
    ghost use Rattle.fix_dictionary.specs.Values.{IsAmount};

    ghost Value = { ℕ };

    ghost view = { λ a. a.value };

    ghost invariant = { λ a. IsAmount a.value };

    ghost inverse = { λ n. record { value = n } };
}

impl Amount {
    pub fn new(value: u64) -> Amount
        requires { IsAmount value }
        ensures { result ≡ value }
    {
        Amount { value }
    }

    pub fn get(self) -> u64
        ensures value { result ≡ self }
        ensures range { IsAmount result }
    {
        self.value
    }
}

/// Side (54).
#[derive(Clone, Copy, PartialEq, Eq)]
pub enum Side {
    Buy,
    Sell,
}

/// A message type other than those of the venue and of the session.
#[derive(Clone, Copy)]
pub struct OtherKind {
    kind: Identifier,
}

impl Model for OtherKind {
    ghost use Rattle.std.specs.Prelude.{ℕ, List};
    ghost use Rattle.fix_dictionary.specs.Kinds.{IsOtherKind};

    ghost Value = { List ℕ };

    ghost view = { λ a. a.kind };

    ghost invariant = { λ a. IsOtherKind a.kind };

    ghost inverse = { λ kind. record { kind = kind } };
}

impl OtherKind {
    pub fn from_slice(bytes: &[u8]) -> OtherKind
        requires { IsOtherKind bytes.now }
        ensures { result ≡ bytes.now }
    {
        OtherKind {
            kind: Identifier::from_slice(bytes),
        }
    }

    pub fn as_slice(&self) -> &[u8]
        ensures value { result.now ≡ self.now }
        ensures range { IsOtherKind result.now }
    {
        self.kind.as_slice()
    }
}
