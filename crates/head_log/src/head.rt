//! The head of a trail.

ghost use Rattle.head_log.specs.Heads.{IsHead};

use sef_moment::Moment;

/// The number and the moment of a row, and the digest of the trail up to it.
#[derive(Clone, Copy)]
pub struct Head {
    pub(crate) n: u64,
    pub(crate) moment: Moment,
    pub(crate) digest: [u8; 32],
    ghost of: { ∥ IsHead n moment digest ∥₁ },
}
