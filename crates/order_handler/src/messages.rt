//! BusinessMessageReject (j): messages that are not processed.
ghost use Rattle.std.specs.Prelude.{◌≡◌, [], IfOk};
ghost use Rattle.venue_rules.specs.Answer.{business_reject};
ghost use Rattle.venue_request.specs.Senders.{sender};
ghost use Rattle.order_handler.specs.Parts.{answer_of};

use crate::answer::OrderAnswer;
use std::alloc::{AllocError, Global};
use venue_rules::{BusinessRefusal, Taken};

/// The BusinessMessageReject (j) of the message, for this cause; no execution report.
pub fn business_reject(
    alloc: Global,
    taken: &Taken,
    cause: BusinessRefusal,
) -> Result<OrderAnswer, AllocError>
    ensures planned { IfOk result (λ a. answer_of a ≡ business_reject (sender taken.now) cause) }
    ensures quiet { IfOk result (λ a. (a.book ≡ []) × (a.delay ≡ [])) }
{
    let reply = venue_request::business_reject(taken, cause);
    let replies = vec![in alloc; reply]?;
    Ok(OrderAnswer::of_replies(alloc, replies))
}
