//! Answers to refused crosses.
ghost use Rattle.std.specs.Prelude.{◌≡◌, ◌<◌, ◌^◌, [], IfOk};
ghost use Rattle.venue_rules.specs.Crosses.{cross_refused, side_refused};
ghost use Rattle.venue_request.specs.Counting.{AreCounts};
ghost use Rattle.venue_request.specs.Senders.{sender};
ghost use Rattle.order_handler.specs.Parts.{answer_of};
ghost use Rattle.venue_rules.specs.Orders.{order_under};
ghost use Rattle.cross_handler.specs.Crossing.{IsQuiet, cross_refused_naming, rejection};

use crate::terms::Cause;
use fix_dictionary::{Amount, CrossSide, NewOrderCross};
use order_handler::{OrderAnswer, business_reject};
use price_book::PriceBook;
use std::alloc::AllocError;
use venue_request::Request;
use venue_rules::{
    BusinessRefusal, CrossRefusal, CrossRefused, OrderReport, Reply, ReplyBody, Taken, Who,
};

/// The numbers of the orders that the reports on the two sides name.
#[derive(Clone, Copy)]
pub(crate) struct Named {
    pub first: Option<u64>,
    pub second: Option<u64>,
}

/// The sender's orders that rest under the identifiers of the sides.
pub(crate) fn named_orders(book: &PriceBook, who: Who, cross: &NewOrderCross) -> Named
    ensures { result ≡ record { first = order_under book.now.facts who cross.now.first.order_id; second = order_under book.now.facts who cross.now.second.order_id } }
{
    let (first, _count) = book.find(who, &cross.first.order_id);
    let (second, _count) = book.find(who, &cross.second.order_id);
    Named { first, second }
}

// The report that refuses a side, which has no number of the venue's; it names an order, or none.
fn side_refused(
    named: Option<u64>,
    taken: &Taken,
    cross: &NewOrderCross,
    side: &CrossSide,
    report: u64,
    cause: CrossRefusal,
) -> Reply
    ensures { result ≡ side_refused named (sender taken.now) cross.now cause side.now report }
{
    let order = OrderReport {
        report,
        order: named,
        symbol: cross.symbol,
        side: side.side,
        left: Amount::new(0),
        filled: Amount::new(0),
        id: side.order_id,
    };
    let what = ReplyBody::CrossRefused(CrossRefused { order, cause });
    let to = taken.from;
    Reply { to, what }
}

/// Two reports refuse a cross, one for each side in the message's order; each names an order, or none.
fn refused_naming(
    named: Named,
    request: &Request<'_>,
    cross: &NewOrderCross,
    cause: CrossRefusal,
) -> Result<OrderAnswer, AllocError>
    requires { AreCounts request.now.turn.counts }
    ensures answer { IfOk result (λ a. answer_of a ≡ cross_refused_naming named (record { facts = []; reports = request.now.turn.counts.reports }) (sender request.now.taken.now) cross.now cause) }
    ensures quiet { IfOk result IsQuiet }
{
    let (taken, alloc) = (request.taken, request.turn.alloc);
    let report = request.turn.counts.reports + 1;
    let first = side_refused(named.first, taken, cross, &cross.first, report, cause);
    let second = side_refused(named.second, taken, cross, &cross.second, report + 1, cause);
    let replies = vec![in alloc; first, second]?;
    Ok(OrderAnswer::of_replies(alloc, replies))
}

/// Two reports refuse a cross, and name no order.
pub(crate) fn refused(
    request: &Request<'_>,
    cross: &NewOrderCross,
    cause: CrossRefusal,
) -> Result<OrderAnswer, AllocError>
    requires { AreCounts request.now.turn.counts }
    ensures answer { IfOk result (λ a. answer_of a ≡ cross_refused (record { facts = []; reports = request.now.turn.counts.reports }) (sender request.now.taken.now) cross.now cause) }
    ensures quiet { IfOk result IsQuiet }
{
    let nobody = Named {
        first: None,
        second: None,
    };
    refused_naming(nobody, request, cross, cause)
}

/// The answer to a cross refused before the book is asked.
pub(crate) fn rejection(
    request: &Request<'_>,
    cross: &NewOrderCross,
    cause: Cause,
) -> Result<OrderAnswer, AllocError>
    requires { AreCounts request.now.turn.counts }
    ensures answer { IfOk result (λ a. answer_of a ≡ rejection (record { facts = []; reports = request.now.turn.counts.reports }) (sender request.now.taken.now) cross.now cause) }
    ensures quiet { IfOk result IsQuiet }
{
    match cause {
        Cause::Refused(cause) => refused(request, cross, cause),
        Cause::Duplicate(named, cause) => refused_naming(named, request, cross, cause),
        Cause::PriceMissing => {
            let missing = BusinessRefusal::PriceMissing;
            business_reject(request.turn.alloc, request.taken, missing)
        }
    }
}
