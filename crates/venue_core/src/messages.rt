//! Plans of messages: the answer of the handler of each type, with memory reserved.
ghost use Rattle.std.specs.Prelude.{◌≡◌, IfOk};
ghost use Rattle.venue_rules.specs.Answers.{answer};
ghost use Rattle.venue_rules.specs.Facts.{History};
ghost use Rattle.venue_request.specs.Counting.{AreCounts};
ghost use Rattle.venue_rules.specs.Market.{market_of as lent_market};
ghost use Rattle.order_handler.specs.Reads.{IsRead};
ghost use Rattle.venue_core.specs.Files.{market_of};
ghost use Rattle.venue_core.specs.Plan.{AreFew, IsFit, IsListed, IsMade, IsPlanned};
ghost use Rattle.venue_core.specs.State.{standing};
ghost use Rattle.venue_core.specs.VenueFacts.{IsStanding};

use crate::market::Market;
use crate::plan::Plan;
use crate::quotes::plan_quote;
use crate::unanswered::{plan_nothing, plan_unsupported};
use crate::venue_state::{VenueState, counts};
use cross_handler::plan_cross;
use fix_dictionary::App;
use order_handler::{plan_cancel, plan_order, plan_prices, plan_replace};
use rfq_handler::{plan_request, plan_response, plan_withdrawal};
use rfq_room::rooms_decide;
use sef_moment::Moment;
use std::alloc::{AllocError, Global};
use venue_request::{Request, Turn};
use venue_rules::{Market as Lent, Taken};

// The answer of the handler of the message, with memory reserved but for its trades.
fn answer_message(request: &Request<'_>, day: &mut VenueState) -> Result<Plan, AllocError>
    requires number { AreCounts request.now.turn.counts }
    requires counted { (h : History) → IsStanding (standing day.old) h → IsRead h day.old.book.facts day.old.held.facts request.now.turn.counts }
    requires listed { IsListed (lent_market request.now.turn.market) day.old }
    ensures kept { standing day.new ≡ standing day.old }
    ensures planned { IfOk result (IsPlanned (standing day.old) (λ h. answer (lent_market request.now.turn.market) h request.now.taken.now request.now.turn.moment)) }
    ensures fit { IfOk result (IsFit (lent_market request.now.turn.market) day.new) }
{
    rooms_decide();
    match request.taken.item.app.get() {
        App::NewOrderSingle(order) => {
            Ok(Plan::of_orders(plan_order(request, &mut day.book, &day.held, order)?))
        }
        App::OrderCancelRequest(message) => {
            Ok(Plan::of_orders(plan_cancel(request, &mut day.book, &mut day.held, message)?))
        }
        App::OrderCancelReplaceRequest(message) => {
            Ok(Plan::of_orders(plan_replace(request, &mut day.book, &day.held, message)?))
        }
        App::MarketDataRequest(message) => {
            Ok(Plan::of_orders(plan_prices(request, &day.book, message)?))
        }
        App::NewOrderCross(cross) => {
            Ok(Plan::of_orders(plan_cross(request, &mut day.book, &mut day.held, cross)?))
        }
        App::QuoteRequest(message) => {
            Ok(Plan::of_rooms(plan_request(request, &mut day.rooms, message)?, None))
        }
        App::Quote(quote) => plan_quote(request, day, quote),
        App::QuoteCancel(message) => {
            Ok(Plan::of_rooms(plan_withdrawal(request, &mut day.rooms, message)?, None))
        }
        App::QuoteResponse(response) => {
            Ok(Plan::of_rooms(plan_response(request, &mut day.rooms, response)?, None))
        }
        App::BusinessMessageReject(_) => Ok(plan_nothing(request.turn.alloc)),
        App::QuoteStatusReport(_)
        | App::QuoteRequestReject(_)
        | App::ExecutionReport(_)
        | App::OrderCancelReject(_)
        | App::MarketDataSnapshot(_)
        | App::MarketDataRequestReject(_)
        | App::Unsupported(_) => plan_unsupported(request.turn.alloc, request.taken),
    }
}

/// Plans a message, and reserves memory for it.
pub(crate) fn plan_message(
    alloc: Global,
    market: &Market,
    day: &mut VenueState,
    taken: &Taken,
    moment: Moment,
) -> Result<Plan, AllocError>
    requires few { AreFew day.old }
    requires listed { IsListed (market_of market.now) day.old }
    ensures kept { standing day.new ≡ standing day.old }
    ensures planned { IfOk result (IsPlanned (standing day.old) (λ h. answer (market_of market.now) h taken.now moment)) }
    ensures made { IfOk result (IsMade (market_of market.now) day.new) }
{
    let (participants, instruments) = (&market.participants, &market.instruments);
    let request = Request {
        turn: Turn {
            alloc,
            market: Lent {
                participants,
                instruments,
            },
            counts: counts(day),
            moment,
        },
        taken,
    };
    let plan = answer_message(&request, day)?;
    day.traded.reserve(plan.trades() as usize)?;
    Ok(plan)
}
