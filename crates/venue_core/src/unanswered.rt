//! Messages that the venue does not process.
ghost use Rattle.std.specs.Prelude.{IfOk};
ghost use Rattle.venue_rules.specs.declared.refusals.BusinessRefusal.TheVariants.{UnsupportedMessageType};
ghost use Rattle.venue_rules.specs.Answer.{no_answer, business_reject};
ghost use Rattle.venue_rules.specs.Market.{Market};
ghost use Rattle.venue_request.specs.Senders.{sender};
ghost use Rattle.venue_core.specs.declared.venue_state.VenueState.{VenueState as DayValue};
ghost use Rattle.venue_core.specs.Plan.{IsFit, IsPlanned};
ghost use Rattle.venue_core.specs.State.{VenueFacts};

use crate::plan::Plan;
use order_handler::{OrderAnswer, business_reject};
use std::alloc::{AllocError, Global};
use venue_rules::{BusinessRefusal, Taken};

/// A BusinessMessageReject (j) is not answered.
pub(crate) fn plan_nothing(alloc: Global) -> Plan
    ensures planned { (s : VenueFacts) → IsPlanned s (λ h. no_answer) result }
    ensures fit { (m : Market) (d : DayValue) → IsFit m d result }
{
    let answer = OrderAnswer::of_replies(alloc, Vec::new(alloc));
    Plan::of_orders(answer)
}

/// Refuses a message of an unknown type, or of one that only the venue sends.
pub(crate) fn plan_unsupported(alloc: Global, taken: &Taken) -> Result<Plan, AllocError>
    ensures planned { IfOk result (λ p. (s : VenueFacts) → IsPlanned s (λ h. business_reject (sender taken.now) UnsupportedMessageType) p) }
    ensures fit { IfOk result (λ p. (m : Market) (d : DayValue) → IsFit m d p) }
{
    let answer = business_reject(alloc, taken, BusinessRefusal::UnsupportedMessageType)?;
    Ok(Plan::of_orders(answer))
}
