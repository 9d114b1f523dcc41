//! The request for quotes that each input opens, and the one that it closes.

ghost use Rattle.std.specs.Prelude.{◌≡◌, ◌++◌, ◌==◌, [], filter, OnOk, IfOk, false};
ghost use Rattle.std.specs.List.{cons_option, list_any};
ghost use Rattle.instruments.specs.Listing.{instrument_of, is_unknown_instrument};
ghost use Rattle.row_replay.specs.Inputs.{input_of};
ghost use Rattle.resting_orders.specs.Asking.{asked_as, asked_at, asked_by, asked_by_app, asked_in, closed_at, closed_by_app, first_sent, first_traded, is_still_open, sent_in, still_open, traded_in};

use fix_dictionary::{App, Identifier, Quantity, QuoteRequest, Side};
use instruments::Instruments;
use participants::Who;
use sef_moment::Moment;
use std::alloc::{AllocError, Global};
use venue_rules::{Reply, ReplyBody, Taken};

/// A request for quotes: its room, its requester and the requester's identifier (131), what is asked for, and until
/// when.
#[derive(Clone, Copy)]
pub struct Request {
    pub number: u64,
    pub requester: Who,
    pub id: Identifier,
    pub instrument: u32,
    /// none is both
    pub side: Option<Side>,
    pub quantity: Quantity,
    pub end: Moment,
}

fn sent_in(what: &ReplyBody) -> Option<u64>
    ensures { result ≡ sent_in what.now }
{
    match what {
        ReplyBody::RequestSent(sent) => Some(sent.room),
        _ => None,
    }
}

fn first_sent(replies: &[Reply]) -> Option<u64>
    ensures { result ≡ first_sent replies.now }
{
    match replies.split_first() {
        Some((first, _)) => sent_in(&first.what),
        None => None,
    }
}

fn traded_in(what: &ReplyBody) -> Option<u64>
    ensures { result ≡ traded_in what.now }
{
    match what {
        ReplyBody::RoomTraded(report) => Some(report.room),
        _ => None,
    }
}

fn first_traded(replies: &[Reply]) -> Option<u64>
    ensures { result ≡ first_traded replies.now }
{
    match replies.split_first() {
        Some((first, _)) => traded_in(&first.what),
        None => None,
    }
}

/// The request of a message for an instrument, in the room with this number.
fn asked_as(
    instruments: &Instruments,
    who: Who,
    request: &QuoteRequest,
    moment: Moment,
    place: (u32, u64),
) -> Request
    requires known { is_unknown_instrument instruments.now request.now.symbol ≡ false }
    requires there { place.0 ≡ instrument_of instruments.now request.now.symbol }
    ensures { result ≡ asked_as instruments.now who request.now moment place.1 }
{
    let life = 1_000 * instruments.get(place.0).request_life;
    Request {
        number: place.1,
        requester: who,
        id: request.request_id,
        instrument: place.0,
        side: request.side,
        quantity: request.quantity,
        end: moment.plus(life),
    }
}

fn asked_in(
    instruments: &Instruments,
    who: Who,
    request: &QuoteRequest,
    moment: Moment,
    number: u64,
) -> Option<Request>
    ensures { result ≡ asked_in instruments.now who request.now moment number }
{
    let Some(instrument) = instruments.find(request.symbol.as_slice()) else {
        return None;
    };
    Some(asked_as(instruments, who, request, moment, (instrument, number)))
}

fn asked_by(
    instruments: &Instruments,
    who: Who,
    request: &QuoteRequest,
    moment: Moment,
    number: Option<u64>,
) -> Option<Request>
    ensures { result ≡ asked_by instruments.now who request.now moment number }
{
    match number {
        Some(number) => asked_in(instruments, who, request, moment, number),
        None => None,
    }
}

fn asked_by_app(
    instruments: &Instruments,
    who: Who,
    app: &App,
    moment: Moment,
    replies: &[Reply],
) -> Option<Request>
    ensures { result ≡ asked_by_app instruments.now who app.now moment replies.now }
{
    match app {
        App::QuoteRequest(request) => {
            asked_by(instruments, who, request, moment, first_sent(replies))
        }
        App::Quote(_) => None,
        App::QuoteCancel(_) => None,
        App::QuoteResponse(_) => None,
        App::QuoteStatusReport(_) => None,
        App::QuoteRequestReject(_) => None,
        App::NewOrderSingle(_) => None,
        App::OrderCancelRequest(_) => None,
        App::OrderCancelReplaceRequest(_) => None,
        App::NewOrderCross(_) => None,
        App::ExecutionReport(_) => None,
        App::OrderCancelReject(_) => None,
        App::MarketDataRequest(_) => None,
        App::MarketDataSnapshot(_) => None,
        App::MarketDataRequestReject(_) => None,
        App::BusinessMessageReject(_) => None,
        App::Unsupported(_) => None,
    }
}

fn asked_at(
    instruments: &Instruments,
    taken: &Option<Taken>,
    moment: Moment,
    replies: &[Reply],
) -> Option<Request>
    ensures { result ≡ asked_at instruments.now (input_of taken.now moment) replies.now }
{
    match taken {
        Some(taken) => asked_by_app(
            instruments,
            taken.from,
            taken.item.app.get(),
            moment,
            replies,
        ),
        None => None,
    }
}

fn closed_by_app(app: &App, replies: &[Reply]) -> Option<u64>
    ensures { result ≡ closed_by_app app.now replies.now }
{
    match app {
        App::QuoteResponse(_) => first_traded(replies),
        App::QuoteRequest(_) => None,
        App::Quote(_) => None,
        App::QuoteCancel(_) => None,
        App::QuoteStatusReport(_) => None,
        App::QuoteRequestReject(_) => None,
        App::NewOrderSingle(_) => None,
        App::OrderCancelRequest(_) => None,
        App::OrderCancelReplaceRequest(_) => None,
        App::NewOrderCross(_) => None,
        App::ExecutionReport(_) => None,
        App::OrderCancelReject(_) => None,
        App::MarketDataRequest(_) => None,
        App::MarketDataSnapshot(_) => None,
        App::MarketDataRequestReject(_) => None,
        App::BusinessMessageReject(_) => None,
        App::Unsupported(_) => None,
    }
}

fn closed_at(taken: &Option<Taken>, moment: Moment, replies: &[Reply]) -> Option<u64>
    ensures { result ≡ closed_at (input_of taken.now moment) replies.now }
{
    match taken {
        Some(taken) => closed_by_app(taken.item.app.get(), replies),
        None => None,
    }
}

fn push_request(requests: &mut Vec<Request>, request: Option<Request>) -> Result<(), AllocError>
    ensures { OnOk result (requests.new.items ≡ requests.old.items ++ cons_option request []) }
{
    match request {
        Some(request) => match requests.push(request) {
            Ok(()) => Ok(()),
            Err(_) => Err(AllocError),
        },
        None => Ok(()),
    }
}

fn push_closed(closed: &mut Vec<u64>, room: Option<u64>) -> Result<(), AllocError>
    ensures { OnOk result (closed.new.items ≡ closed.old.items ++ cons_option room []) }
{
    match room {
        Some(room) => match closed.push(room) {
            Ok(()) => Ok(()),
            Err(_) => Err(AllocError),
        },
        None => Ok(()),
    }
}

/// Keeps the request that an input opens, by the replies to it.
pub(crate) fn keep_request(
    instruments: &Instruments,
    requests: &mut Vec<Request>,
    taken: &Option<Taken>,
    moment: Moment,
    replies: &[Reply],
) -> Result<(), AllocError>
    ensures { OnOk result (requests.new.items ≡ requests.old.items ++ cons_option (asked_at instruments.now (input_of taken.now moment) replies.now) []) }
{
    let asked = asked_at(instruments, taken, moment, replies);
    push_request(requests, asked)
}

/// Keeps the room that trades at an input, by the replies to it.
pub(crate) fn keep_closed(
    closed: &mut Vec<u64>,
    taken: &Option<Taken>,
    moment: Moment,
    replies: &[Reply],
) -> Result<(), AllocError>
    ensures { OnOk result (closed.new.items ≡ closed.old.items ++ cons_option (closed_at (input_of taken.now moment) replies.now) []) }
{
    push_closed(closed, closed_at(taken, moment, replies))
}

fn is_among(closed: &[u64], room: u64) -> bool
    ensures { result ≡ list_any (λ c. c == room) closed.now }
{
    closed.iter().any(|other| *other == room)
}

/// Whether a request is open at a moment: its end has not passed, and its room has not traded.
fn is_still_open(closed: &[u64], moment: Moment, request: &Request) -> bool
    ensures { result ≡ is_still_open closed.now moment request.now }
{
    if moment.ms() <= request.end.ms() {
        !is_among(closed, request.number)
    } else {
        false
    }
}

fn open_at(
    alloc: Global,
    closed: &[u64],
    requests: &[Request],
    moment: Moment,
) -> Result<Vec<Request>, AllocError>
    ensures { IfOk result (λ v. v.items ≡ filter (is_still_open closed.now moment) requests.now) }
{
    let mut open = Vec::new(alloc);
    for request in requests {
        if is_still_open(closed, moment, request) {
            if open.push(*request).is_err() {
                return Err(AllocError);
            }
        }
    }
    Ok(open)
}

/// The requests that are open at a moment; none where there is no moment.
pub(crate) fn still_open(
    alloc: Global,
    closed: &[u64],
    requests: &[Request],
    moment: Option<Moment>,
) -> Result<Vec<Request>, AllocError>
    ensures { IfOk result (λ v. v.items ≡ still_open closed.now requests.now moment) }
{
    match moment {
        Some(moment) => open_at(alloc, closed, requests, moment),
        None => Ok(Vec::new(alloc)),
    }
}
