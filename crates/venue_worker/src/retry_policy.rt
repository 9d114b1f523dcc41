//! The reaction of a run to a refusal.

ghost use Rattle.std.specs.Prelude.{◌≡◌};
ghost use Rattle.venue_worker.specs.RetryPolicy.{retry_policy_of};

use venue_rules::EventFault;

/// The reaction to a refusal: cut a participant, try again in the next turn, or end the run.
pub(crate) enum RetryPolicy {
    Cut(usize),
    Wait,
    Stop,
}

pub(crate) fn retry_policy_of(fault: &EventFault) -> RetryPolicy
    ensures { result ≡ retry_policy_of fault.now }
{
    match fault {
        EventFault::Behind(who) => RetryPolicy::Cut(who.place() as usize),
        EventFault::NoMemory | EventFault::Due => RetryPolicy::Wait,
        EventFault::TrailRefused | EventFault::Down(_) => RetryPolicy::Stop,
    }
}
