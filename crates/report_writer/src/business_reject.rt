//! BusinessMessageReject (j): messages read and not processed.
ghost use Rattle.std.specs.Prelude.{◌≡◌, IfOk};
ghost use Rattle.venue_rules.specs.declared.replies.ReplyBody.TheVariants as what;
ghost use Rattle.venue_rules.specs.Messages.{message};

use crate::reasons::business_reason;
use fix_dictionary::{App, BusinessMessageReject, FixInt};
use std::alloc::{AllocError, Global};
use venue_rules::BusinessReject;

pub(crate) fn business_reject(alloc: Global, r: &BusinessReject) -> Result<App, AllocError>
    ensures { IfOk result (λ app. app ≡ message (what.BusinessReject r.now)) }
{
    let why = business_reason(r.cause);
    Ok(App::BusinessMessageReject(BusinessMessageReject {
        reference_number: FixInt::new(r.number.get()),
        reference_type: r.kind,
        reject_reason: why.number(),
        text: Some(why.text(alloc)?),
    }))
}
