//! A quote's state as reported.
ghost use Rattle.std.specs.Prelude.{◌≡◌, IfOk, option_map};

use crate::reason::Reason;
use fix_dictionary::{FixInt, Text};
use std::alloc::{AllocError, Global};

/// QuoteStatus (297), with the reason of a refusal.
#[derive(Clone, Copy)]
pub(crate) struct Status {
    pub code: u8,
    pub reason: Option<Reason>,
}

impl Status {
    pub fn new(code: u8, reason: Option<Reason>) -> Status
        ensures code { result.code ≡ code }
        ensures reason { result.reason ≡ reason }
    {
        Status { code, reason }
    }

    pub fn number(self) -> FixInt
        ensures { result ≡ self.code }
    {
        FixInt::new(u32::from(self.code))
    }

    /// QuoteRejectReason (300), if any.
    pub fn reject_reason(self) -> Option<FixInt>
        ensures { result ≡ option_map (λ w. w.code) self.reason }
    {
        match self.reason {
            Some(why) => Some(why.number()),
            None => None,
        }
    }

    /// Text (58), if any.
    pub fn text(self, alloc: Global) -> Result<Option<Text>, AllocError>
        ensures { IfOk result (λ text. text ≡ option_map (λ w. w.text.now) self.reason) }
    {
        match self.reason {
            Some(why) => Ok(Some(why.text(alloc)?)),
            None => Ok(None),
        }
    }
}
