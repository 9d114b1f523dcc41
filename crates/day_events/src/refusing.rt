//! The first reply at a row that refuses.

ghost use Rattle.std.specs.Prelude.{◌≡◌, ◌++◌, IfOk, OnOk};
ghost use Rattle.day_events.specs.Events.{cause, cause_in, is_refusal, is_refusing, refused_at, short};

use crate::event::{Event, Origin, What};
use crate::reporting::push_event;
use fix_dictionary::{App, Identifier, Text};
use report_writer::message_of;
use std::alloc::{AllocError, Global};
use venue_rules::{QuoteState, QuoteStatus, Reply, ReplyBody};

/// A text of at most 64 bytes.
fn short(text: &Option<Text>) -> Option<Identifier>
    ensures { result ≡ short text.now }
{
    match text {
        Some(text) => Identifier::read(text.as_slice()),
        None => None,
    }
}

/// The text (58) of a message that can refuse.
#[tactic(auto, unfolding(crate::specs::Events::cause_in))]
fn cause_in(app: &App) -> Option<Identifier>
    ensures { result ≡ cause_in app.now }
{
    match app {
        App::ExecutionReport(d) => short(&d.text),
        App::OrderCancelReject(d) => short(&d.text),
        App::QuoteRequestReject(d) => short(&d.text),
        App::QuoteStatusReport(d) => short(&d.text),
        App::MarketDataRequestReject(d) => short(&d.text),
        App::BusinessMessageReject(d) => short(&d.text),
        _ => None,
    }
}

/// The text (58) of a reply.
fn cause(alloc: Global, reply: &Reply) -> Result<Option<Identifier>, AllocError>
    ensures { IfOk result (λ text. text ≡ cause reply.now.what) }
{
    let app = message_of(alloc, reply)?;
    Ok(cause_in(&app))
}

/// Whether a status report refuses what was asked: it reports neither that a quote was accepted, nor that one ended.
fn is_refusing(status: &QuoteStatus) -> bool
    ensures { result ≡ is_refusing status.now.response_id status.now.state }
{
    match &status.state {
        QuoteState::Accepted => false,
        QuoteState::Passed => false,
        QuoteState::Withdrawn => status.response_id.is_some(),
        _ => true,
    }
}

#[tactic(auto, unfolding(crate::specs::Events::is_refusal))]
fn is_refusal(what: &ReplyBody) -> bool
    ensures { result ≡ is_refusal what.now }
{
    match what {
        ReplyBody::OrderRefused(_) => true,
        ReplyBody::CrossRefused(_) => true,
        ReplyBody::ChangeRefused(_) => true,
        ReplyBody::RequestRefused(_) => true,
        ReplyBody::QuoteStatus(status) => is_refusing(status),
        ReplyBody::MarketDataReject(_) => true,
        ReplyBody::BusinessReject(_) => true,
        _ => false,
    }
}

/// Appends the refusal of a row: the first reply that refuses.
pub(crate) fn push_refusal(
    alloc: Global,
    events: &mut Vec<Event>,
    origin: &Origin,
    replies: &[Reply],
) -> Result<(), AllocError>
    ensures { OnOk result (events.new.items ≡ events.old.items ++ refused_at origin.now replies.now) }
{
    for reply in replies {
        if is_refusal(&reply.what) {
            let text = cause(alloc, reply)?;
            return push_event(events, origin, reply.to, What::Refused(text));
        }
    }
    Ok(())
}
