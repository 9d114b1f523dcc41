//! The lines of a row, and of the cause for which its message was refused.

ghost use Rattle.std.specs.Prelude.{◌≡◌, ◌++◌, ◌≤◌, ℕ, OnOk};
ghost use Rattle.std.specs.List.{flat_map};
ghost use Rattle.message_words.specs.Parts.{parts_text};
ghost use Rattle.row_replay.specs.Inputs.{input_of};
ghost use Rattle.refusal_causes.specs.Figures.{figures_parts};
ghost use Rattle.refusal_causes.specs.Printed.{before_lines, came_lines, cause_parts, cause_text, due_lines, first_verdict, is_named, is_recipient, many_before, message_verdict, pair_lines, pair_said, pairs_lines, refused_lines, related_lines, reply_lines, request_lines, row_lines, several_before, takes_part, unlisted_parts, unrefused, verdict, verdict_lines};

use crate::figures::{Figures, append_figures, due_figures, figures_for};
use crate::listed::listed_place;
use crate::sentences::sentence;
use fix_dictionary::{App, Party, QuoteRequest};
use instruments::Instruments;
use message_words::{
    Part, append_came_lines, append_clock_line, append_parts, append_reply_lines, bytes, number,
};
use participants::{Participants, Who};
use std::alloc::{AllocError, Global};
use trade_blotter::name_at;
use venue_core::message_of;
use venue_rules::{Reply, ReplyBody, RequestRefusal, Taken, TrailRow};

macro_rules! part {
    ($before:expr, $value:expr) => {
        Part {
            before: $before,
            value: $value,
        }
    };
}

/// The number of a cause, from 1 (0 where none of the list holds), and the length of the list.
#[derive(Clone, Copy)]
pub(crate) struct Place {
    pub cause: u64,
    pub count: u64,
}

fn append_came(
    alloc: Global,
    text: &mut Vec<u8>,
    participants: &Participants,
    row: &TrailRow,
    taken: &Option<Taken>,
) -> Result<(), AllocError>
    ensures { OnOk result (text.new.items ≡ text.old.items ++ came_lines participants.now row.now (input_of taken.now row.now.moment)) }
{
    match taken {
        Some(taken) => append_came_lines(alloc, text, participants, row, taken.item.app.get()),
        None => append_clock_line(alloc, text, row),
    }
}

fn append_reply(
    alloc: Global,
    text: &mut Vec<u8>,
    participants: &Participants,
    row: &TrailRow,
    reply: &Reply,
) -> Result<(), AllocError>
    ensures { OnOk result (text.new.items ≡ text.old.items ++ reply_lines participants.now row.now reply.now) }
{
    let app = message_of(alloc, reply)?;
    append_reply_lines(alloc, text, participants, row, reply.to, &app)
}

fn append_replies(
    alloc: Global,
    text: &mut Vec<u8>,
    participants: &Participants,
    row: &TrailRow,
    replies: &[Reply],
) -> Result<(), AllocError>
    ensures { OnOk result (text.new.items ≡ text.old.items ++ flat_map (reply_lines participants.now row.now) replies.now) }
{
    for reply in replies {
        append_reply(alloc, text, participants, row, reply)?;
    }
    Ok(())
}

/// Appends the lines of a row: what came, and each reply to it.
pub(crate) fn append_row(
    alloc: Global,
    text: &mut Vec<u8>,
    participants: &Participants,
    row: &TrailRow,
    taken: &Option<Taken>,
    replies: &[Reply],
) -> Result<(), AllocError>
    ensures { OnOk result (text.new.items ≡ text.old.items ++ row_lines participants.now row.now (input_of taken.now row.now.moment) replies.now) }
{
    append_came(alloc, text, participants, row, taken)?;
    append_replies(alloc, text, participants, row, replies)
}

fn append_cause(
    alloc: Global,
    text: &mut Vec<u8>,
    place: Place,
    said: &[u8],
) -> Result<(), AllocError>
    ensures { OnOk result (text.new.items ≡ text.old.items ++ parts_text (cause_parts place.cause place.count said.now)) }
{
    append_parts(
        alloc,
        text,
        &[
            part!(b"refused for cause ", number(place.cause)),
            part!(b" of ", number(place.count)),
            part!(b": ", bytes(said)),
        ],
    )
}

fn append_unlisted(alloc: Global, text: &mut Vec<u8>, said: &[u8]) -> Result<(), AllocError>
    ensures { OnOk result (text.new.items ≡ text.old.items ++ parts_text (unlisted_parts said.now)) }
{
    append_parts(alloc, text, &[part!(b"refused: ", bytes(said))])
}

/// Appends a cause by its number in docs/PROTOCOL.md, or without one.
fn append_said(
    alloc: Global,
    text: &mut Vec<u8>,
    listed: Place,
    said: &[u8],
) -> Result<(), AllocError>
    ensures { OnOk result (text.new.items ≡ text.old.items ++ cause_text listed.cause listed.count said.now) }
{
    if listed.cause == 0 {
        return append_unlisted(alloc, text, said);
    }
    append_cause(alloc, text, listed, said)
}

fn append_many_before(alloc: Global, text: &mut Vec<u8>, last: u64) -> Result<(), AllocError>
    ensures { OnOk result (text.new.items ≡ text.old.items ++ parts_text (many_before last)) }
{
    append_parts(
        alloc,
        text,
        &[
            part!(b"\n    causes 1 to ", number(last)),
            part!(b" do not hold", bytes(b"")),
        ],
    )
}

fn append_several_before(alloc: Global, text: &mut Vec<u8>, cause: u64) -> Result<(), AllocError>
    requires { 3 ≤ cause }
    ensures { OnOk result (text.new.items ≡ text.old.items ++ several_before cause) }
{
    if cause == 3 {
        return text.extend_from_slice(b"\n    causes 1 and 2 do not hold");
    }
    append_many_before(alloc, text, cause - 1)
}

/// Appends that the causes before one do not hold.
fn append_before(alloc: Global, text: &mut Vec<u8>, cause: u64) -> Result<(), AllocError>
    ensures { OnOk result (text.new.items ≡ text.old.items ++ before_lines cause) }
{
    if cause < 2 {
        return Ok(());
    }
    if cause == 2 {
        return text.extend_from_slice(b"\n    cause 1 does not hold");
    }
    append_several_before(alloc, text, cause)
}

fn append_refused(
    alloc: Global,
    text: &mut Vec<u8>,
    listed: Place,
    what: &ReplyBody,
    figures: &Figures,
) -> Result<(), AllocError>
    ensures { OnOk result (text.new.items ≡ text.old.items ++ refused_lines listed.cause listed.count what.now figures.now) }
{
    append_said(alloc, text, listed, sentence(what))?;
    append_figures(alloc, text, figures)?;
    append_before(alloc, text, listed.cause)
}

fn unrefused(what: &ReplyBody) -> &'static [u8]
    ensures { result.now ≡ unrefused what.now }
{
    match what {
        ReplyBody::BusinessReject(_) => {
            b"not processed: the venue takes no messages of this type (BusinessMessageReject, 380=3)"
        }
        _ => b"not refused",
    }
}

fn append_verdict_lines(
    alloc: Global,
    text: &mut Vec<u8>,
    place: Place,
    listed: Place,
    what: &ReplyBody,
    figures: &Figures,
) -> Result<(), AllocError>
    ensures { OnOk result (text.new.items ≡ text.old.items ++ verdict_lines place.cause listed.cause listed.count what.now figures.now) }
{
    if place.cause == 0 {
        return text.extend_from_slice(unrefused(what));
    }
    append_refused(alloc, text, listed, what, figures)
}

/// Whether a party is a recipient (447=D, 452=35) of this name.
fn is_named(party: &Party, name: &[u8]) -> bool
    ensures { result ≡ is_named party.now name.now }
{
    if party.source.get() == b'D' && party.role.get() == 35 {
        party.id.as_slice() == name
    } else {
        false
    }
}

fn is_recipient(name: &[u8], d: &QuoteRequest) -> bool
    ensures { result ≡ is_recipient name.now d.now }
{
    d.parties
        .as_slice()
        .iter()
        .any(|party| is_named(party, name))
}

/// Whether a participant is the sender of a request or one of its recipients.
fn takes_part(participants: &Participants, who: Who, d: &QuoteRequest, a: Who) -> bool
    ensures { result ≡ takes_part participants.now who d.now a }
{
    if a.place() == who.place() {
        return true;
    }
    is_recipient(name_at(participants, a), d)
}

fn append_pair_parts<'a>(
    alloc: Global,
    text: &mut Vec<u8>,
    a: &'a [u8],
    b: &'a [u8],
) -> Result<(), AllocError>
    ensures { OnOk result (text.new.items ≡ text.old.items ++ parts_text (pair_said a.now b.now)) }
{
    append_parts(
        alloc,
        text,
        &[
            part!(b"\n    ", bytes(a)),
            part!(b" is related to ", bytes(b)),
        ],
    )
}

fn append_pair(
    alloc: Global,
    text: &mut Vec<u8>,
    participants: &Participants,
    who: Who,
    d: &QuoteRequest,
    pair: &(Who, Who),
) -> Result<(), AllocError>
    ensures { OnOk result (text.new.items ≡ text.old.items ++ pair_lines participants.now who d.now pair.now) }
{
    let (a, b) = *pair;
    if takes_part(participants, who, d, a) && takes_part(participants, who, d, b) {
        return append_pair_parts(
            alloc,
            text,
            name_at(participants, a),
            name_at(participants, b),
        );
    }
    Ok(())
}

#[tactic(auto, using(crate::proofs::Texts::more_mapped))]
fn append_pairs(
    alloc: Global,
    text: &mut Vec<u8>,
    participants: &Participants,
    who: Who,
    d: &QuoteRequest,
) -> Result<(), AllocError>
    ensures { OnOk result (text.new.items ≡ text.old.items ++ flat_map (pair_lines participants.now who d.now) participants.now.pairs) }
{
    let pairs = participants.pairs();
    for pair in pairs {
        append_pair(alloc, text, participants, who, d, pair)?;
    }
    Ok(())
}

fn append_request(
    alloc: Global,
    text: &mut Vec<u8>,
    participants: &Participants,
    who: Who,
    d: &QuoteRequest,
    cause: RequestRefusal,
) -> Result<(), AllocError>
    ensures { OnOk result (text.new.items ≡ text.old.items ++ pairs_lines participants.now who d.now cause) }
{
    match cause {
        RequestRefusal::RecipientsNotUnrelated => append_pairs(alloc, text, participants, who, d),
        _ => Ok(()),
    }
}

fn append_request_lines(
    alloc: Global,
    text: &mut Vec<u8>,
    participants: &Participants,
    who: Who,
    d: &QuoteRequest,
    what: &ReplyBody,
) -> Result<(), AllocError>
    ensures { OnOk result (text.new.items ≡ text.old.items ++ request_lines participants.now who d.now what.now) }
{
    match what {
        ReplyBody::RequestRefused(refused) => {
            append_request(alloc, text, participants, who, d, refused.cause)
        }
        _ => Ok(()),
    }
}

/// Appends which of the sender and the recipients of a request are related, where that is why it was refused.
fn append_related(
    alloc: Global,
    text: &mut Vec<u8>,
    participants: &Participants,
    taken: &Taken,
    what: &ReplyBody,
) -> Result<(), AllocError>
    ensures { OnOk result (text.new.items ≡ text.old.items ++ related_lines participants.now taken.now.from taken.now.item.app what.now) }
{
    match taken.item.app.get() {
        App::QuoteRequest(d) => {
            append_request_lines(alloc, text, participants, taken.from, d, what)
        }
        _ => Ok(()),
    }
}

fn append_message_verdict(
    alloc: Global,
    text: &mut Vec<u8>,
    participants: &Participants,
    instruments: &Instruments,
    taken: &Taken,
    place: Place,
    what: &ReplyBody,
) -> Result<(), AllocError>
    ensures { OnOk result (text.new.items ≡ text.old.items ++ message_verdict (record { participants = participants.now; instruments = instruments.now }) taken.now place.cause place.count what.now) }
{
    let app = taken.item.app.get();
    let figures = figures_for(instruments, app, what);
    let listed = listed_place(app, place, what);
    append_verdict_lines(alloc, text, place, listed, what, &figures)?;
    append_related(alloc, text, participants, taken, what)
}

/// Appends the same of a held side that is due: of it docs/PROTOCOL.md has no list.
fn append_due_lines(
    alloc: Global,
    text: &mut Vec<u8>,
    place: Place,
    what: &ReplyBody,
) -> Result<(), AllocError>
    ensures { OnOk result (text.new.items ≡ text.old.items ++ due_lines place.cause place.count what.now) }
{
    let is_entered = place.cause == 0;
    if is_entered {
        return text.extend_from_slice(b"not refused: no message came at this row");
    }
    let unlisted = Place {
        cause: 0,
        count: place.count,
    };
    append_refused(alloc, text, unlisted, what, &due_figures(what))
}

fn append_first_verdict(
    alloc: Global,
    text: &mut Vec<u8>,
    participants: &Participants,
    instruments: &Instruments,
    taken: &Option<Taken>,
    place: Place,
    what: &ReplyBody,
) -> Result<(), AllocError>
    ensures { (t : ℕ) → OnOk result (text.new.items ≡ text.old.items ++ first_verdict (record { participants = participants.now; instruments = instruments.now }) (input_of taken.now t) place.cause place.count what.now) }
{
    match taken {
        Some(taken) => append_message_verdict(
            alloc,
            text,
            participants,
            instruments,
            taken,
            place,
            what,
        ),
        None => append_due_lines(alloc, text, place, what),
    }
}

/// Appends the cause for which a message, or a held side, was refused, with its number in docs/PROTOCOL.md and the
/// figures that decide; or that it was not.
pub(crate) fn append_verdict(
    alloc: Global,
    text: &mut Vec<u8>,
    participants: &Participants,
    instruments: &Instruments,
    taken: &Option<Taken>,
    place: Place,
    replies: &[Reply],
) -> Result<(), AllocError>
    ensures { (t : ℕ) → OnOk result (text.new.items ≡ text.old.items ++ verdict (record { participants = participants.now; instruments = instruments.now }) (input_of taken.now t) place.cause place.count replies.now) }
{
    match replies.split_first() {
        Some((first, _)) => append_first_verdict(
            alloc,
            text,
            participants,
            instruments,
            taken,
            place,
            &first.what,
        ),
        None => text.extend_from_slice(b"not refused: there is no answer"),
    }
}
