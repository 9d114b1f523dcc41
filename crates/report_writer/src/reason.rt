//! Reason of a refusal.
ghost use Rattle.std.specs.Prelude.{◌≡◌, ◌≤◌, ◌<◌, true, IfOk, IsTrue};
ghost use Rattle.fix_dictionary.specs.Values.{IsText, is_graphic};

use fix_dictionary::{FixInt, Text};
use std::alloc::{AllocError, Global};

/// The refusal's code, in its field of the message, and its Text (58).
#[derive(Clone, Copy)]
pub(crate) struct Reason {
    pub code: u8,
    pub text: &'static str,
    ghost fits: { IsText 200 text.now },
}

impl Reason {
    pub fn new(code: u8, text: &'static str) -> Reason
        requires { IsText 200 text.now }
        ensures code { result.code ≡ code }
        ensures text { result.text.now ≡ text.now }
    {
        Reason { code, text }
    }

    pub fn number(self) -> FixInt
        ensures { result ≡ self.code }
    {
        FixInt::new(u32::from(self.code))
    }

    pub fn text(self, alloc: Global) -> Result<Text, AllocError>
        ensures { IfOk result (λ text. text ≡ self.text.now) }
    {
        Text::from_slice(alloc, self.text.as_bytes())
    }
}
