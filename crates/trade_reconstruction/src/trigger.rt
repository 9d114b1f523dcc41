//! The content of a message that its replies depend on.

ghost use Rattle.std.specs.Prelude.{◌≡◌};
ghost use Rattle.instruments.specs.Listing.{delay_of, instrument_of};
ghost use Rattle.trade_reconstruction.specs.EventKinds.{trigger_in, link_at, link_known};

use crate::events::Events;
use crate::evidence_event::Linked;
use crate::finding::{Query, link_of};
use fix_dictionary::{App, Identifier, Price};
use instruments::Instruments;
use participants::Who;

/// A request for quotes: its participant, and its identifier (131).
#[derive(Clone, Copy)]
pub struct Requested {
    pub requester: Who,
    pub request: Identifier,
}

/// An order, or a replacement, which has the link of the order that it replaces.
#[derive(Clone, Copy)]
pub struct Ordered {
    pub price: Option<Price>,
    pub link: Option<Linked>,
}

/// A cross: its identifier (548), those of both sides, their price, and how long the second is held, in milliseconds.
#[derive(Clone, Copy)]
pub struct Crossed {
    pub cross: Identifier,
    pub first: Identifier,
    pub second: Identifier,
    pub price: Option<Price>,
    pub delay: u64,
}

/// The kinds of input.
#[derive(Clone, Copy)]
pub enum Trigger {
    Request(Requested),
    /// the maker's identifier of its quote (117)
    Quote(Identifier),
    /// the quote that it responds to (117)
    Response(Identifier),
    Order(Ordered),
    Cross(Crossed),
    Tick,
    Other,
}

/// The delay of a symbol's instrument, in milliseconds; 0 where there is none.
fn delay_for(instruments: &Instruments, symbol: &Identifier) -> u64
    ensures { result ≡ delay_of instruments.now (instrument_of instruments.now symbol.now) }
{
    match instruments.find(symbol.as_slice()) {
        Some(place) => instruments.delay(place),
        None => 0,
    }
}

/// The link that a message carries, with its row, if any.
fn link_at(row: u64, link: Option<Identifier>) -> Option<Linked>
    ensures { result ≡ link_at row link }
{
    match link {
        Some(link) => Some(Linked { link, row }),
        None => None,
    }
}

/// The link of the order that a participant entered under an identifier (11), if any.
fn link_known(words: &Events, who: Who, id: Identifier) -> Option<Linked>
    ensures { result ≡ link_known words.now who id }
{
    link_of(words, &Query::Entry(who, id))
}

/// The trigger of a participant's message at a row, after the events before it.
#[tactic(auto, unfolding(crate::specs::EventKinds::trigger_in))]
pub fn trigger_in(
    instruments: &Instruments,
    words: &Events,
    row: u64,
    from: Who,
    app: &App,
) -> Trigger
    ensures { result ≡ trigger_in instruments.now words.now row from app.now }
{
    match app {
        App::QuoteRequest(request) => Trigger::Request(Requested {
            requester: from,
            request: request.request_id,
        }),
        App::Quote(quote) => Trigger::Quote(quote.quote_id),
        App::QuoteResponse(response) => Trigger::Response(response.quote_id),
        App::NewOrderSingle(order) => Trigger::Order(Ordered {
            price: order.price,
            link: link_at(row, order.link_id),
        }),
        App::OrderCancelReplaceRequest(order) => Trigger::Order(Ordered {
            price: order.price,
            link: link_known(words, from, order.original_id),
        }),
        App::NewOrderCross(cross) => Trigger::Cross(Crossed {
            cross: cross.cross_id,
            first: cross.first.order_id,
            second: cross.second.order_id,
            price: cross.price,
            delay: delay_for(instruments, &cross.symbol),
        }),
        App::QuoteCancel(_) => Trigger::Other,
        App::QuoteStatusReport(_) => Trigger::Other,
        App::QuoteRequestReject(_) => Trigger::Other,
        App::OrderCancelRequest(_) => Trigger::Other,
        App::ExecutionReport(_) => Trigger::Other,
        App::OrderCancelReject(_) => Trigger::Other,
        App::MarketDataRequest(_) => Trigger::Other,
        App::MarketDataSnapshot(_) => Trigger::Other,
        App::MarketDataRequestReject(_) => Trigger::Other,
        App::BusinessMessageReject(_) => Trigger::Other,
        App::Unsupported(_) => Trigger::Other,
    }
}
