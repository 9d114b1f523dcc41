//! BusinessMessageReject (j): messages that are not processed.
ghost use Rattle.std.specs.Prelude.{◌≡◌, IfOk};
ghost use Rattle.venue_rules.specs.Answer.{business_reject};
ghost use Rattle.venue_request.specs.Senders.{sender};

use crate::answer::RoomAnswer;
use rfq_room::RoomPlan;
use std::alloc::AllocError;
use venue_request::Request;
use venue_rules::BusinessRefusal;

/// The BusinessMessageReject of the message, for this cause.
pub(crate) fn business_reject(
    request: &Request<'_>,
    cause: BusinessRefusal,
) -> Result<RoomAnswer, AllocError>
    ensures { IfOk result (λ a. a ≡ business_reject (sender request.now.taken.now) cause) }
{
    let alloc = request.turn.alloc;
    let reply = venue_request::business_reject(request.taken, cause);
    let replies = vec![in alloc; reply]?;
    Ok(RoomAnswer::of(RoomPlan::nothing(alloc), replies, 0, 0))
}
