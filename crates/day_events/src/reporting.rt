//! What the replies to a row say.

ghost use Rattle.std.specs.Prelude.{◌≡◌, ◌++◌, ◌∷◌, [], OnOk};
ghost use Rattle.std.specs.List.{flat_map};
ghost use Rattle.venue_rules.specs.declared.replies.ReplyBody.TheVariants as body;
ghost use Rattle.day_events.specs.Events.{event, events_at, named_in, origin_of, own_in, reported, reported_what, too_recent};

use crate::event::{
    Event, FilledOrder, NewOrder, NewQuote, NewRequest, Origin, RecentOrder, Replacement,
    RoomTrade, What,
};
use crate::refusing::push_refusal;
use fix_dictionary::{Amount, App, Identifier, Price, Quantity, Side};
use participants::Who;
use sef_moment::Moment;
use std::alloc::{AllocError, Global};
use venue_rules::{
    ChangedReport, FilledReport, OrderRefusal, OrderRefused, OrderReport, QuoteSent, QuoteState,
    QuoteStatus, Reply, ReplyBody, RequestSent, RoomReport, Taken, TrailRow,
};

/// Appends what a reply says.
pub(crate) fn push_event(
    events: &mut Vec<Event>,
    origin: &Origin,
    to: Who,
    what: What,
) -> Result<(), AllocError>
    ensures { OnOk result (events.new.items ≡ events.old.items ++ event origin.now to what ∷ []) }
{
    // Types of an event's content, named here because the proof of the push needs each.
    let _entered: Option<NewOrder> = None;
    let _recent: Option<RecentOrder> = None;
    let _filled: Option<FilledOrder> = None;
    let _replaced: Option<Replacement> = None;
    let _asked: Option<NewRequest> = None;
    let _quoted: Option<NewQuote> = None;
    let _traded: Option<RoomTrade> = None;
    let _side: Option<Side> = None;
    let _price: Option<Price> = None;
    let _quantity: Option<Quantity> = None;
    let _amount: Option<Amount> = None;
    let _moment: Option<Moment> = None;
    let _name: Option<Identifier> = None;
    let event = Event {
        at: *origin,
        to,
        what,
    };
    match events.push(event) {
        Ok(()) => Ok(()),
        Err(_) => Err(AllocError),
    }
}

/// What a message names: a quote its room (131), a response its quote (117), and an order its link (583).
#[tactic(auto, unfolding(crate::specs::Events::named_in))]
fn named_in(app: &App) -> Option<Identifier>
    ensures { result ≡ named_in app.now }
{
    match app {
        App::Quote(d) => Some(d.request_id),
        App::QuoteResponse(d) => Some(d.quote_id),
        App::NewOrderSingle(d) => d.link_id,
        _ => None,
    }
}

/// The sender's own identifier of a request (131), a quote (117) or a response (693).
#[tactic(auto, unfolding(crate::specs::Events::own_in))]
fn own_in(app: &App) -> Option<Identifier>
    ensures { result ≡ own_in app.now }
{
    match app {
        App::QuoteRequest(d) => Some(d.request_id),
        App::Quote(d) => Some(d.quote_id),
        App::QuoteResponse(d) => Some(d.response_id),
        _ => None,
    }
}

/// The origin of what is said at a row.
fn origin_of(row: &TrailRow, taken: &Option<Taken>) -> Origin
    ensures { result ≡ origin_of row.now taken.now }
{
    match taken {
        None => Origin {
            row: row.n,
            moment: row.moment,
            from: row.who,
            named: None,
            own: None,
        },
        Some(taken) => Origin {
            row: row.n,
            moment: row.moment,
            from: row.who,
            named: named_in(taken.item.app.get()),
            own: own_in(taken.item.app.get()),
        },
    }
}

fn push_entered(
    events: &mut Vec<Event>,
    origin: &Origin,
    to: Who,
    report: &OrderReport,
) -> Result<(), AllocError>
    ensures { OnOk result (events.new.items ≡ events.old.items ++ reported_what origin.now to (body.OrderEntered report.now)) }
{
    let order = NewOrder {
        order: report.order,
        id: report.id,
        symbol: report.symbol,
        side: report.side,
        left: report.left,
    };
    push_event(events, origin, to, What::Entered(order))
}

/// Appends that an order is refused, if a linked one is too recent.
#[tactic(auto, unfolding(crate::specs::Events::too_recent))]
fn push_too_recent(
    events: &mut Vec<Event>,
    origin: &Origin,
    to: Who,
    refused: &OrderRefused,
) -> Result<(), AllocError>
    ensures { OnOk result (events.new.items ≡ events.old.items ++ too_recent origin.now to refused.now.order refused.now.cause) }
{
    match &refused.cause {
        OrderRefusal::LinkedOrderTooRecent => {
            let order = RecentOrder {
                symbol: refused.order.symbol,
                side: refused.order.side,
            };
            push_event(events, origin, to, What::TooRecent(order))
        }
        _ => Ok(()),
    }
}

fn push_filled(
    events: &mut Vec<Event>,
    origin: &Origin,
    to: Who,
    report: &FilledReport,
) -> Result<(), AllocError>
    ensures { OnOk result (events.new.items ≡ events.old.items ++ reported_what origin.now to (body.OrderFilled report.now)) }
{
    let order = FilledOrder {
        trade: report.trade,
        order: report.order.order,
        id: report.order.id,
        side: report.order.side,
    };
    push_event(events, origin, to, What::Filled(order))
}

fn push_cancelled(
    events: &mut Vec<Event>,
    origin: &Origin,
    to: Who,
    report: &ChangedReport,
) -> Result<(), AllocError>
    ensures { OnOk result (events.new.items ≡ events.old.items ++ reported_what origin.now to (body.OrderCancelled report.now)) }
{
    push_event(events, origin, to, What::Cancelled(report.order.order))
}

fn push_replaced(
    events: &mut Vec<Event>,
    origin: &Origin,
    to: Who,
    report: &ChangedReport,
) -> Result<(), AllocError>
    ensures { OnOk result (events.new.items ≡ events.old.items ++ reported_what origin.now to (body.OrderReplaced report.now)) }
{
    let order = Replacement {
        order: report.order.order,
        id: report.order.id,
        original_id: report.original_id,
    };
    push_event(events, origin, to, What::Replaced(order))
}

fn push_asked(
    events: &mut Vec<Event>,
    origin: &Origin,
    to: Who,
    sent: &RequestSent,
) -> Result<(), AllocError>
    ensures { OnOk result (events.new.items ≡ events.old.items ++ reported_what origin.now to (body.RequestSent sent.now)) }
{
    let request = NewRequest {
        room: sent.room,
        symbol: sent.symbol,
        side: sent.side,
        quantity: sent.quantity,
    };
    push_event(events, origin, to, What::Asked(request))
}

fn push_quoted(
    events: &mut Vec<Event>,
    origin: &Origin,
    to: Who,
    sent: &QuoteSent,
) -> Result<(), AllocError>
    ensures { OnOk result (events.new.items ≡ events.old.items ++ reported_what origin.now to (body.QuoteSent sent.now)) }
{
    let quote = NewQuote {
        quote: sent.quote,
        bid: sent.bid,
        offer: sent.offer,
        end: sent.end,
    };
    push_event(events, origin, to, What::Quoted(quote))
}

fn push_traded(
    events: &mut Vec<Event>,
    origin: &Origin,
    to: Who,
    report: &RoomReport,
) -> Result<(), AllocError>
    ensures { OnOk result (events.new.items ≡ events.old.items ++ reported_what origin.now to (body.RoomTraded report.now)) }
{
    let trade = RoomTrade {
        room: report.room,
        trade: report.trade,
        side: report.side,
        price: report.price,
        response: report.response_id,
    };
    push_event(events, origin, to, What::Traded(trade))
}

/// Appends that a quote ended, if somebody else than its sender is sent this.
fn push_ended(
    events: &mut Vec<Event>,
    origin: &Origin,
    to: Who,
    status: &QuoteStatus,
) -> Result<(), AllocError>
    ensures { OnOk result (events.new.items ≡ events.old.items ++ reported_what origin.now to (body.QuoteStatus status.now)) }
{
    if u64::from(to.place()) + 1 == u64::from(origin.from) {
        return Ok(());
    }
    match &status.state {
        QuoteState::Withdrawn => push_event(events, origin, to, What::Withdrawn(status.quote_id)),
        QuoteState::Passed => push_event(events, origin, to, What::Passed),
        _ => Ok(()),
    }
}

/// Appends what a reply says.
#[tactic(auto, unfolding(crate::specs::Events::reported_what))]
fn push_reported(events: &mut Vec<Event>, origin: &Origin, reply: &Reply) -> Result<(), AllocError>
    ensures { OnOk result (events.new.items ≡ events.old.items ++ reported origin.now reply.now) }
{
    match &reply.what {
        ReplyBody::OrderRefused(refused) => push_too_recent(events, origin, reply.to, refused),
        ReplyBody::OrderEntered(report) => push_entered(events, origin, reply.to, report),
        ReplyBody::OrderFilled(report) => push_filled(events, origin, reply.to, report),
        ReplyBody::OrderCancelled(report) => push_cancelled(events, origin, reply.to, report),
        ReplyBody::OrderReplaced(report) => push_replaced(events, origin, reply.to, report),
        ReplyBody::RequestSent(sent) => push_asked(events, origin, reply.to, sent),
        ReplyBody::QuoteStatus(status) => push_ended(events, origin, reply.to, status),
        ReplyBody::QuoteSent(sent) => push_quoted(events, origin, reply.to, sent),
        ReplyBody::RoomTraded(report) => push_traded(events, origin, reply.to, report),
        _ => Ok(()),
    }
}

fn push_all_reported(
    events: &mut Vec<Event>,
    origin: &Origin,
    replies: &[Reply],
) -> Result<(), AllocError>
    ensures { OnOk result (events.new.items ≡ events.old.items ++ flat_map (reported origin.now) replies.now) }
{
    for reply in replies {
        push_reported(events, origin, reply)?;
    }
    Ok(())
}

/// Appends what the replies to a row say, and then its refusal, if there is one.
#[tactic(auto, using(crate::proofs::Appending::both))]
pub fn push_events_at(
    alloc: Global,
    events: &mut Vec<Event>,
    row: &TrailRow,
    taken: &Option<Taken>,
    replies: &[Reply],
) -> Result<(), AllocError>
    ensures { OnOk result (events.new.items ≡ events.old.items ++ events_at row.now taken.now replies.now) }
{
    let origin = origin_of(row, taken);
    push_all_reported(events, &origin, replies)?;
    push_refusal(alloc, events, &origin, replies)
}
