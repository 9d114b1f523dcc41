//! Plans of held sides that come due.
ghost use Rattle.std.specs.Prelude.{◌≡◌, IfOk};
ghost use Rattle.venue_rules.specs.Run.{Tick, answer_input};
ghost use Rattle.venue_core.specs.Files.{market_of};
ghost use Rattle.venue_core.specs.Plan.{AreFew, IsListed, IsMade, IsPlanned};
ghost use Rattle.venue_core.specs.State.{standing};

use crate::market::Market;
use crate::plan::Plan;
use crate::venue_state::{VenueState, counts};
use sef_moment::Moment;
use std::alloc::{AllocError, Global};
use venue_request::Turn;
use venue_rules::Market as Lent;

/// Plans the first held side due, and reserves memory for it.
pub(crate) fn plan_due(
    alloc: Global,
    market: &Market,
    day: &mut VenueState,
    moment: Moment,
) -> Result<Plan, AllocError>
    requires few { AreFew day.old }
    requires listed { IsListed (market_of market.now) day.old }
    ensures kept { standing day.new ≡ standing day.old }
    ensures planned { IfOk result (IsPlanned (standing day.old) (λ h. answer_input (market_of market.now) h (Tick moment))) }
    ensures made { IfOk result (IsMade (market_of market.now) day.new) }
{
    let (participants, instruments) = (&market.participants, &market.instruments);
    let turn = Turn {
        alloc,
        market: Lent {
            participants,
            instruments,
        },
        counts: counts(day),
        moment,
    };
    let answer = cross_handler::plan_due(&turn, &mut day.book, &mut day.held)?;
    day.traded.reserve(answer.trades() as usize)?;
    Ok(Plan::of_orders(answer))
}
