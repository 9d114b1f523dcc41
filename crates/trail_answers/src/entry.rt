//! One message, printed.
ghost use Rattle.std.specs.Prelude.{◌≡◌, ◌++◌, OnOk};
ghost use Rattle.std.specs.List.{flat_map};
ghost use Rattle.row_replay.specs.Inputs.{input_of};
ghost use Rattle.trail_answers.specs.Entries.{came_text, clock_text, entries_text, input_text, message_text, replies_text, reply_if, reply_text};

use crate::objects::{append_came_object, append_clock_object, append_reply_object};
use crate::table::{append_came_row, append_clock_row, append_reply_row};
use fix_dictionary::App;
use message_words::{Form, append_came_lines, append_clock_line, append_reply_lines};
use participants::{Participants, Who};
use std::alloc::{AllocError, Global};
use venue_core::message_of;
use venue_rules::{Reply, Taken, TrailRow};

#[tactic(auto, unfolding(crate::specs::Entries::came_text))]
fn append_came(
    alloc: Global,
    text: &mut Vec<u8>,
    form: Form,
    participants: &Participants,
    row: &TrailRow,
    app: &App,
) -> Result<(), AllocError>
    ensures { OnOk result (text.new.items ≡ text.old.items ++ came_text form participants.now row.now app.now) }
{
    match form {
        Form::Lines => append_came_lines(alloc, text, participants, row, app),
        Form::Table => append_came_row(alloc, text, participants, row, app),
        Form::Json => append_came_object(alloc, text, participants, row, app),
    }
}

#[tactic(auto, unfolding(crate::specs::Entries::clock_text))]
fn append_clock(
    alloc: Global,
    text: &mut Vec<u8>,
    form: Form,
    participants: &Participants,
    row: &TrailRow,
) -> Result<(), AllocError>
    ensures { OnOk result (text.new.items ≡ text.old.items ++ clock_text form participants.now row.now) }
{
    match form {
        Form::Lines => append_clock_line(alloc, text, row),
        Form::Table => append_clock_row(alloc, text, participants, row),
        Form::Json => append_clock_object(text, participants, row),
    }
}

/// Appends the message of a row, or the clock.
fn append_input(
    alloc: Global,
    text: &mut Vec<u8>,
    form: Form,
    participants: &Participants,
    row: &TrailRow,
    taken: &Option<Taken>,
) -> Result<(), AllocError>
    ensures { OnOk result (text.new.items ≡ text.old.items ++ input_text form participants.now row.now (input_of taken.now row.now.moment)) }
{
    match taken {
        Some(taken) => append_came(alloc, text, form, participants, row, taken.item.app.get()),
        None => append_clock(alloc, text, form, participants, row),
    }
}

#[tactic(auto, unfolding(crate::specs::Entries::message_text))]
fn append_message(
    alloc: Global,
    text: &mut Vec<u8>,
    form: Form,
    participants: &Participants,
    row: &TrailRow,
    to: Who,
    app: &App,
) -> Result<(), AllocError>
    ensures { OnOk result (text.new.items ≡ text.old.items ++ message_text form participants.now row.now to app.now) }
{
    match form {
        Form::Lines => append_reply_lines(alloc, text, participants, row, to, app),
        Form::Table => append_reply_row(alloc, text, participants, row, to, app),
        Form::Json => append_reply_object(alloc, text, participants, row, to, app),
    }
}

/// Appends a reply.
fn append_reply(
    alloc: Global,
    text: &mut Vec<u8>,
    form: Form,
    participants: &Participants,
    row: &TrailRow,
    reply: &Reply,
) -> Result<(), AllocError>
    ensures { OnOk result (text.new.items ≡ text.old.items ++ reply_text form participants.now row.now reply.now) }
{
    let app = message_of(alloc, reply)?;
    append_message(alloc, text, form, participants, row, reply.to, &app)
}

/// Appends replies.
fn append_replies(
    alloc: Global,
    text: &mut Vec<u8>,
    form: Form,
    participants: &Participants,
    row: &TrailRow,
    replies: &[Reply],
) -> Result<(), AllocError>
    ensures { OnOk result (text.new.items ≡ text.old.items ++ replies_text form participants.now row.now replies.now) }
{
    for reply in replies {
        append_reply(alloc, text, form, participants, row, reply)?;
    }
    Ok(())
}

/// Appends a reply, if it is to this participant.
fn append_reply_if(
    alloc: Global,
    text: &mut Vec<u8>,
    form: Form,
    participants: &Participants,
    row: &TrailRow,
    who: Who,
    reply: &Reply,
) -> Result<(), AllocError>
    ensures { OnOk result (text.new.items ≡ text.old.items ++ reply_if form participants.now row.now who reply.now) }
{
    if reply.to == who {
        append_reply(alloc, text, form, participants, row, reply)
    } else {
        Ok(())
    }
}

/// Appends the replies to one participant.
fn append_replies_to(
    alloc: Global,
    text: &mut Vec<u8>,
    form: Form,
    participants: &Participants,
    row: &TrailRow,
    who: Who,
    replies: &[Reply],
) -> Result<(), AllocError>
    ensures { OnOk result (text.new.items ≡ text.old.items ++ flat_map (reply_if form participants.now row.now who) replies.now) }
{
    for reply in replies {
        append_reply_if(alloc, text, form, participants, row, who, reply)?;
    }
    Ok(())
}

/// Appends the message of a row and the replies to it; of one participant, if one is given, the replies to it alone.
pub(crate) fn append_entries(
    alloc: Global,
    text: &mut Vec<u8>,
    form: Form,
    participants: &Participants,
    to: Option<Who>,
    row: &TrailRow,
    taken: &Option<Taken>,
    replies: &[Reply],
) -> Result<(), AllocError>
    ensures { OnOk result (text.new.items ≡ text.old.items ++ entries_text form participants.now to row.now (input_of taken.now row.now.moment) replies.now) }
{
    match to {
        None => {
            append_input(alloc, text, form, participants, row, taken)?;
            append_replies(alloc, text, form, participants, row, replies)
        }
        Some(who) => append_replies_to(alloc, text, form, participants, row, who, replies),
    }
}
