//! What is kept agrees with the facts, on every day.

ghost use Rattle.resting_orders.specs.Laws.{ClosingsAgree, OrdersAgree, QuotesAgree, RequestsAgree, SidesAgree};

use cross_delay::{delay_is_read_alone, due_side_is_held};

/// The orders that an answer reports as entering are all that enter by it, each with number, owner, identifier,
/// quantity, row and moment. It is so of each further input, after every list of inputs.
#[tactic(auto, using(crate::proofs::Entering::orders_agree))]
pub fn kept_orders_agree()
    ensures { OrdersAgree }
{}

/// The sides that are kept are all that are held, in order of arrival. It is so after each further input, on every day.
pub fn kept_sides_agree()
    ensures { SidesAgree }
{
    delay_is_read_alone();
    due_side_is_held();
}

/// The request that an input opens by the replies to it, and the room that trades, are those of its facts. It is so of
/// each further input, after every list of inputs.
#[tactic(auto, using(crate::proofs::Requesting::requests_agree, crate::proofs::Requesting::closings_agree))]
pub fn kept_requests_agree()
    ensures asked { RequestsAgree }
    ensures closed { ClosingsAgree }
{}

/// The quotes that are kept are all that were made, in order, each with its maker's identifiers, its prices, its end,
/// and the instrument and quantity of its room. It is so after every list of inputs.
#[tactic(auto, using(crate::proofs::OwnQuotes::quotes_agree))]
pub fn kept_quotes_agree()
    ensures { QuotesAgree }
{}
