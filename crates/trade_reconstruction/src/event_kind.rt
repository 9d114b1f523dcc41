//! The events in the replies to a message: requests, quotes, orders and trades.

ghost use Rattle.std.specs.Prelude.{◌≡◌, ◌++◌, ◌∷◌, [], map, OnOk};
ghost use Rattle.trade_reconstruction.specs.EventKinds.{asked_in, entered_in, filled_in, held_by, held_in, held_of, hit_in, is_tick, link_in, picture_in, pictured_in, price_in, prices_words, quote_id_in, said_by, said_in, shown_word, words_in, words_of};

use crate::evidence_event::{
    Asked, Entered, EventKind, EvidenceEvent, Filled, Held, Hit, Linked, Quoted, RestedBefore,
    RestedCount, Shown, SnapshotSent,
};
use crate::pushing::push_word;
use crate::trigger::{Crossed, Trigger};
use fix_dictionary::{Amount, Identifier, Price, Quantity, Side};
use participants::Who;
use sef_moment::Moment;
use std::alloc::AllocError;
use venue_rules::{
    BookSnapshot, FilledReport, OrderReport, Reply, ReplyBody, RequestSent, RoomReport,
    SnapshotEntry,
};

/// The price that a message gives its orders.
fn price_in(trigger: &Trigger) -> Option<Price>
    ensures { result ≡ price_in trigger.now }
{
    match trigger {
        Trigger::Order(order) => order.price,
        Trigger::Cross(cross) => cross.price,
        Trigger::Request(_) => None,
        Trigger::Quote(_) => None,
        Trigger::Response(_) => None,
        Trigger::Tick => None,
        Trigger::Other => None,
    }
}

/// The link of an order.
fn link_in(trigger: &Trigger) -> Option<Linked>
    ensures { result ≡ link_in trigger.now }
{
    match trigger {
        Trigger::Order(order) => order.link,
        Trigger::Cross(_) => None,
        Trigger::Request(_) => None,
        Trigger::Quote(_) => None,
        Trigger::Response(_) => None,
        Trigger::Tick => None,
        Trigger::Other => None,
    }
}

fn asked_in(trigger: &Trigger, sent: &RequestSent) -> Option<EventKind>
    ensures { result ≡ asked_in trigger.now sent.now }
{
    match trigger {
        Trigger::Request(request) => Some(EventKind::Asked(Asked {
            requester: request.requester,
            request: request.request,
            room: sent.room,
            symbol: sent.symbol,
            side: sent.side,
            quantity: sent.quantity,
        })),
        _ => None,
    }
}

fn pictured_in(trigger: &Trigger, prices: &BookSnapshot) -> Option<EventKind>
    ensures { result ≡ pictured_in trigger.now prices.now }
{
    match trigger {
        Trigger::Quote(_) => Some(EventKind::SnapshotSent(SnapshotSent {
            request: prices.request_id,
            count: prices.entries.as_slice().len() as u64,
        })),
        _ => None,
    }
}

fn hit_in(trigger: &Trigger, report: &RoomReport) -> Option<EventKind>
    ensures { result ≡ hit_in trigger.now report.now }
{
    match trigger {
        Trigger::Response(quote) => Some(EventKind::Hit(Hit {
            room: report.room,
            trade: report.trade,
            quote: *quote,
            side: report.side,
            price: report.price,
            response: report.response_id,
        })),
        _ => None,
    }
}

/// The maker's own identifier of its quote.
fn quote_id_in(trigger: &Trigger) -> Option<Identifier>
    ensures { result ≡ quote_id_in trigger.now }
{
    match trigger {
        Trigger::Quote(id) => Some(*id),
        _ => None,
    }
}

fn filled_in(report: &FilledReport) -> Option<EventKind>
    ensures { result ≡ filled_in report.now }
{
    match report.order.order {
        Some(order) => Some(EventKind::Filled(Filled {
            order,
            trade: report.trade,
        })),
        None => None,
    }
}

fn is_tick(trigger: &Trigger) -> bool
    ensures { result ≡ is_tick trigger.now }
{
    matches!(trigger, Trigger::Tick)
}

/// The order of a report as it enters, with the identifier of the one that it replaces.
fn entered_in(
    trigger: &Trigger,
    original: Option<Identifier>,
    report: &OrderReport,
) -> Option<EventKind>
    ensures { result ≡ entered_in trigger.now original report.now }
{
    match report.order {
        Some(order) => Some(EventKind::Entered(Entered {
            order,
            id: report.id,
            symbol: report.symbol,
            side: report.side,
            quantity: report.left,
            price: price_in(trigger),
            link: link_in(trigger),
            original,
            at_tick: is_tick(trigger),
        })),
        None => None,
    }
}

/// The event in a reply, if it bears on a trade.
fn said_in(trigger: &Trigger, what: &ReplyBody) -> Option<EventKind>
    ensures { result ≡ said_in trigger.now what.now }
{
    match what {
        ReplyBody::RequestSent(sent) => asked_in(trigger, sent),
        ReplyBody::BookSnapshot(prices) => pictured_in(trigger, prices),
        ReplyBody::QuoteSent(quote) => Some(EventKind::Quoted(Quoted {
            request: quote.request_id,
            quote: quote.quote,
            maker: quote.maker,
            bid: quote.bid,
            offer: quote.offer,
            end: quote.end,
            id: quote_id_in(trigger),
        })),
        ReplyBody::OrderEntered(report) => entered_in(trigger, None, report),
        ReplyBody::OrderReplaced(report) => {
            entered_in(trigger, Some(report.original_id), &report.order)
        }
        ReplyBody::OrderFilled(report) => filled_in(report),
        ReplyBody::RoomTraded(report) => hit_in(trigger, report),
        ReplyBody::OrderRefused(_) => None,
        ReplyBody::CrossRefused(_) => None,
        ReplyBody::OrderUnfilled(_) => None,
        ReplyBody::OrderCancelled(_) => None,
        ReplyBody::ChangeRefused(_) => None,
        ReplyBody::RequestRefused(_) => None,
        ReplyBody::QuoteStatus(_) => None,
        ReplyBody::MarketDataReject(_) => None,
        ReplyBody::BusinessReject(_) => None,
    }
}

/// The other side of a cross, of which one side entered.
fn held_of(cross: &Crossed, report: &OrderReport) -> EventKind
    ensures { result ≡ held_of cross.now report.now }
{
    let id = if report.id.is(&cross.first) {
        cross.second
    } else {
        cross.first
    };
    EventKind::Held(Held {
        id,
        cross: cross.cross,
        delay: cross.delay,
    })
}

fn held_by(trigger: &Trigger, report: &OrderReport) -> Option<EventKind>
    ensures { result ≡ held_by trigger.now report.now }
{
    match trigger {
        Trigger::Cross(cross) => Some(held_of(cross, report)),
        _ => None,
    }
}

/// The held side, if a reply says that the other entered.
fn held_in(trigger: &Trigger, what: &ReplyBody) -> Option<EventKind>
    ensures { result ≡ held_in trigger.now what.now }
{
    match what {
        ReplyBody::OrderEntered(report) => held_by(trigger, report),
        _ => None,
    }
}

/// Appends what is said, if anything.
fn push_said(
    words: &mut Vec<EvidenceEvent>,
    row: u64,
    moment: Moment,
    to: Who,
    said: Option<EventKind>,
) -> Result<(), AllocError>
    ensures { OnOk result (words.new.items ≡ words.old.items ++ said_by row moment to said) }
{
    match said {
        Some(said) => {
            let word = EvidenceEvent {
                row,
                moment,
                to,
                said,
            };
            push_word(words, word)
        }
        None => Ok(()),
    }
}

/// A resting order that was shown to a requester.
fn shown_word(
    row: u64,
    moment: Moment,
    to: Who,
    request: &Identifier,
    entry: &SnapshotEntry,
) -> EvidenceEvent
    ensures { result ≡ shown_word row moment to request.now entry.now }
{
    EvidenceEvent {
        row,
        moment,
        to,
        said: EventKind::Shown(Shown {
            request: *request,
            side: entry.side,
            price: entry.price,
            left: entry.left,
            order: entry.order,
        }),
    }
}

/// Appends the resting orders of a snapshot.
fn push_shown(
    words: &mut Vec<EvidenceEvent>,
    row: u64,
    moment: Moment,
    to: Who,
    request: &Identifier,
    entries: &[SnapshotEntry],
) -> Result<(), AllocError>
    ensures { OnOk result (words.new.items ≡ words.old.items ++ map (shown_word row moment to request.now) entries.now) }
{
    for entry in entries {
        push_word(words, shown_word(row, moment, to, request, entry))?;
    }
    Ok(())
}

/// Appends the resting orders of a snapshot that comes with a response.
fn push_prices(
    words: &mut Vec<EvidenceEvent>,
    row: u64,
    moment: Moment,
    trigger: &Trigger,
    to: Who,
    prices: &BookSnapshot,
) -> Result<(), AllocError>
    ensures { OnOk result (words.new.items ≡ words.old.items ++ prices_words row moment to trigger.now prices.now) }
{
    match trigger {
        Trigger::Quote(_) => push_shown(
            words,
            row,
            moment,
            to,
            &prices.request_id,
            prices.entries.as_slice(),
        ),
        _ => Ok(()),
    }
}

/// Appends the resting orders shown to a requester, if a reply shows them with the first response.
fn push_picture(
    words: &mut Vec<EvidenceEvent>,
    row: u64,
    moment: Moment,
    trigger: &Trigger,
    reply: &Reply,
) -> Result<(), AllocError>
    ensures { OnOk result (words.new.items ≡ words.old.items ++ picture_in row moment trigger.now reply.now) }
{
    match &reply.what {
        ReplyBody::BookSnapshot(prices) => push_prices(
            words, row, moment, trigger, reply.to, prices,
        ),
        _ => Ok(()),
    }
}

/// Appends the events of a reply.
#[tactic(auto, unfolding(crate::specs::EventKinds::words_in))]
fn push_reply(
    words: &mut Vec<EvidenceEvent>,
    row: u64,
    moment: Moment,
    trigger: &Trigger,
    reply: &Reply,
) -> Result<(), AllocError>
    ensures { OnOk result (words.new.items ≡ words.old.items ++ words_in row moment trigger.now reply.now) }
{
    push_said(words, row, moment, reply.to, said_in(trigger, &reply.what))?;
    push_said(words, row, moment, reply.to, held_in(trigger, &reply.what))?;
    push_picture(words, row, moment, trigger, reply)
}

/// Appends the events of the replies to a message, or at a tick.
pub fn push_replies(
    words: &mut Vec<EvidenceEvent>,
    row: u64,
    moment: Moment,
    trigger: &Trigger,
    replies: &[Reply],
) -> Result<(), AllocError>
    ensures { OnOk result (words.new.items ≡ words.old.items ++ words_of row moment trigger.now replies.now) }
{
    for reply in replies {
        push_reply(words, row, moment, trigger, reply)?;
    }
    Ok(())
}
