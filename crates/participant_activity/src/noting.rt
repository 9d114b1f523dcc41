//! One message that a participant sends or is owed.

ghost use Rattle.std.specs.Prelude.{◌≡◌, ℕ, OnOk, option_map};
ghost use Rattle.participant_activity.specs.Kept.{activity_of};
ghost use Rattle.participant_activity.specs.Noting.{after_message, after_owed, after_sent, after_notice, with_sent};
ghost use Rattle.participant_activity.specs.Replayed.{after_replies, after_reply, after_row};
ghost use Rattle.participant_activity.specs.Turns.{sent_by};
ghost use Rattle.row_replay.specs.Inputs.{input_of};

use crate::activity::{Activity, plus, see};
use crate::occasion::{Notice, Occasion, notice_of, occasion_of};
use crate::quoting::{ask, pass, quote, withdraw};
use crate::reports::{refuse, report};
use fix_dictionary::{App, QuoteStatusReport};
use participants::Who;
use sef_moment::Moment;
use std::alloc::{AllocError, Global};
use venue_core::message_of;
use venue_rules::{Reply, Taken};

/// Notes a status report, by what it says.
fn note_status(
    alloc: Global,
    activity: &mut Activity,
    moment: Moment,
    status: &QuoteStatusReport,
    notice: Notice,
) -> Result<(), AllocError>
    ensures { OnOk result (activity_of activity.new ≡ after_notice (activity_of activity.old) moment status.now notice) }
{
    match notice {
        Notice::Accepted(end) => return quote(activity, moment, end, status.request_id),
        Notice::Refused => return refuse(alloc, activity, &status.text),
        Notice::Passed => return pass(activity, status.request_id),
        Notice::Withdrawn => return withdraw(activity, status.request_id),
        Notice::NotLive => activity.quotes.not_live = plus(activity.quotes.not_live, 1),
        Notice::Nothing => {}
    }
    Ok(())
}

#[tactic(auto, unfolding(crate::specs::Noting::after_message))]
fn note_message(
    alloc: Global,
    activity: &mut Activity,
    moment: Moment,
    occasion: Occasion,
    message: &App,
) -> Result<(), AllocError>
    ensures { OnOk result (activity_of activity.new ≡ after_message (activity_of activity.old) moment occasion message.now) }
{
    match message {
        App::QuoteRequest(request) => ask(activity, moment, request.request_id),
        App::QuoteStatusReport(status) => {
            let notice = notice_of(occasion, status.status.get());
            note_status(alloc, activity, moment, status, notice)
        }
        App::ExecutionReport(executed) => report(alloc, activity, occasion, executed),
        App::QuoteRequestReject(refused) => refuse(alloc, activity, &refused.text),
        App::OrderCancelReject(refused) => refuse(alloc, activity, &refused.text),
        App::MarketDataRequestReject(refused) => refuse(alloc, activity, &refused.text),
        App::BusinessMessageReject(refused) => refuse(alloc, activity, &refused.text),
        _ => Ok(()),
    }
}

fn note_owed(
    alloc: Global,
    activity: &mut Activity,
    moment: Moment,
    occasion: Occasion,
    message: &App,
) -> Result<(), AllocError>
    ensures { OnOk result (activity_of activity.new ≡ after_owed (activity_of activity.old) moment occasion message.now) }
{
    see(activity, moment);
    note_message(alloc, activity, moment, occasion, message)
}

#[tactic(auto, unfolding(crate::specs::Noting::with_sent))]
fn count_sent(activity: &mut Activity, message: &App)
    ensures { activity_of activity.new ≡ with_sent (activity_of activity.old) message.now }
{
    match message {
        App::Quote(_) => activity.quotes.sent = plus(activity.quotes.sent, 1),
        App::QuoteRequest(_) => activity.quotes.requests = plus(activity.quotes.requests, 1),
        App::NewOrderSingle(_) => activity.orders.orders = plus(activity.orders.orders, 1),
        App::NewOrderCross(_) => activity.orders.crosses = plus(activity.orders.crosses, 1),
        _ => {}
    }
}

fn note_sent(activity: &mut Activity, moment: Moment, sent: Option<&App>)
    ensures { activity_of activity.new ≡ after_sent (activity_of activity.old) moment (option_map (λ a. a.now) sent.entry) }
{
    if let Some(message) = sent {
        see(activity, moment);
        count_sent(activity, message);
    }
}

/// Notes a reply, if it is to this participant.
fn note_reply(
    alloc: Global,
    activity: &mut Activity,
    who: Who,
    moment: Moment,
    occasion: Occasion,
    reply: &Reply,
) -> Result<(), AllocError>
    ensures { OnOk result (activity_of activity.new ≡ after_reply (activity_of activity.old) who moment occasion reply.now) }
{
    if reply.to == who {
        let message = message_of(alloc, reply)?;
        note_owed(alloc, activity, moment, occasion, &message)
    } else {
        Ok(())
    }
}

fn note_replies(
    alloc: Global,
    activity: &mut Activity,
    who: Who,
    moment: Moment,
    occasion: Occasion,
    replies: &[Reply],
) -> Result<(), AllocError>
    ensures { OnOk result (activity_of activity.new ≡ after_replies (activity_of activity.old) who moment occasion replies.now) }
{
    for reply in replies {
        note_reply(alloc, activity, who, moment, occasion, reply)?;
    }
    Ok(())
}

/// The message of a row, if this participant sent it.
fn sent_by<'a>(who: Who, taken: &'a Option<Taken>) -> Option<&'a App>
    ensures { (t : ℕ) → option_map (λ a. a.now) result ≡ sent_by who (input_of taken.now t) }
{
    match taken {
        Some(taken) => {
            if taken.from == who {
                Some(taken.item.app.get())
            } else {
                None
            }
        }
        None => None,
    }
}

/// Notes what a participant sends and is owed at a row.
pub(crate) fn note_row(
    alloc: Global,
    activity: &mut Activity,
    who: Who,
    taken: &Option<Taken>,
    moment: Moment,
    replies: &[Reply],
) -> Result<(), AllocError>
    ensures { OnOk result (activity_of activity.new ≡ after_row (activity_of activity.old) who moment (sent_by who (input_of taken.now moment)) replies.now) }
{
    let sent = sent_by(who, taken);
    let occasion = occasion_of(sent);
    note_sent(activity, moment, sent);
    note_replies(alloc, activity, who, moment, occasion, replies)
}
