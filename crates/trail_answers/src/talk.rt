//! The conversation of a room: its request, its quotes, the responses to them, their withdrawals, and its trade.
ghost use Rattle.std.specs.Prelude.{◌≡◌, ℕ, ◌++◌, OnOk, bytes_eq};
ghost use Rattle.std.specs.List.{flat_map, list_any};
ghost use Rattle.venue_rules.specs.Rooms.{printed};
ghost use Rattle.row_replay.specs.Inputs.{input_of};
ghost use Rattle.trail_answers.specs.Talk.{after_row, is_answered, is_opened, is_quote, is_quote_given, is_quoted, is_said, names_quote, opens, quotes_after, quotes_in, sent_on, talk_after, talk_of, reports_to_another, reports_quote, trades, unopened};

use crate::life::push_to;
use fix_dictionary::{App, Identifier};
use itoa::Buffer;
use participants::Who;
use std::alloc::{AllocError, Global};
use venue_rules::{Reply, ReplyBody, Taken};

/// What is known of a room after rows of a day.
#[derive(Drop)]
pub struct Talk {
    /// whether a request was sent in it
    pub opened: bool,
    /// whether the last row is part of its conversation
    pub here: bool,
    /// the numbers of the quotes that were sent on in it
    pub quotes: Vec<u64>,
}

/// What is known of a room before the first row.
pub(crate) fn unopened(alloc: Global) -> Talk
    ensures { talk_of result ≡ unopened }
{
    Talk {
        opened: false,
        here: false,
        quotes: Vec::new(alloc),
    }
}

#[tactic(auto, unfolding(crate::specs::Talk::opens))]
fn opens(room: u64, what: &ReplyBody) -> bool
    ensures { result ≡ opens room what.now }
{
    match what {
        ReplyBody::RequestSent(request) => request.room == room,
        _ => false,
    }
}

fn any_opens(room: u64, replies: &[Reply]) -> bool
    ensures { result ≡ list_any (λ r. opens room r.what) replies.now }
{
    for reply in replies {
        if opens(room, &reply.what) {
            return true;
        }
    }
    false
}

#[tactic(auto, unfolding(crate::specs::Talk::trades))]
fn trades(room: u64, what: &ReplyBody) -> bool
    ensures { result ≡ trades room what.now }
{
    match what {
        ReplyBody::RoomTraded(report) => report.room == room,
        _ => false,
    }
}

fn any_trades(room: u64, replies: &[Reply]) -> bool
    ensures { result ≡ list_any (λ r. trades room r.what) replies.now }
{
    for reply in replies {
        if trades(room, &reply.what) {
            return true;
        }
    }
    false
}

/// Whether an identifier is that of the venue for a number.
fn is_printed(prefix: u8, number: u64, id: &[u8]) -> bool
    ensures { result ≡ bytes_eq (printed prefix number) id.now }
{
    let mut buffer = Buffer::new();
    let digits = buffer.format(number).as_bytes();
    match id.split_first() {
        Some((first, rest)) => prefix == *first && digits == rest,
        None => false,
    }
}

fn is_quote(quotes: &[u64], id: &[u8]) -> bool
    ensures { result ≡ is_quote quotes.now id.now }
{
    for quote in quotes {
        if is_printed(b'Q', *quote, id) {
            return true;
        }
    }
    false
}

fn is_quote_given(quotes: &[u64], id: &Option<Identifier>) -> bool
    ensures { result ≡ is_quote_given quotes.now id.now }
{
    match id {
        Some(id) => is_quote(quotes, id.as_slice()),
        None => false,
    }
}

#[tactic(auto, unfolding(crate::specs::Talk::reports_quote))]
fn reports_quote(quotes: &[u64], what: &ReplyBody) -> bool
    ensures { result ≡ reports_quote quotes.now what.now }
{
    match what {
        ReplyBody::QuoteStatus(status) => is_quote_given(quotes, &status.quote_id),
        _ => false,
    }
}

/// Whether a reply reports to somebody else than the maker on a quote of the room.
fn reports_to_another(quotes: &[u64], maker: Who, reply: &Reply) -> bool
    ensures { result ≡ reports_to_another quotes.now maker reply.now }
{
    reply.to != maker && reports_quote(quotes, &reply.what)
}

fn any_report_to_another(quotes: &[u64], maker: Who, replies: &[Reply]) -> bool
    ensures { result ≡ list_any (reports_to_another quotes.now maker) replies.now }
{
    for reply in replies {
        if reports_to_another(quotes, maker, reply) {
            return true;
        }
    }
    false
}

/// Whether a message is a quote that names the room.
#[tactic(auto, unfolding(crate::specs::Talk::quotes_in))]
fn quotes_in(room: u64, app: &App) -> bool
    ensures { result ≡ quotes_in room app.now }
{
    match app {
        App::Quote(d) => is_printed(b'R', room, d.request_id.as_slice()),
        _ => false,
    }
}

/// Whether a message is a response to a quote of the room, or a withdrawal of one.
#[tactic(auto, unfolding(crate::specs::Talk::names_quote))]
fn names_quote(quotes: &[u64], who: Who, app: &App, replies: &[Reply]) -> bool
    ensures { result ≡ names_quote quotes.now who app.now replies.now }
{
    match app {
        App::QuoteResponse(d) => is_quote(quotes, d.quote_id.as_slice()),
        App::QuoteCancel(_) => any_report_to_another(quotes, who, replies),
        _ => false,
    }
}

fn is_quoted(room: u64, taken: &Option<Taken>) -> bool
    ensures { (t : ℕ) → result ≡ is_quoted room (input_of taken.now t) }
{
    match taken {
        Some(taken) => quotes_in(room, taken.item.app.get()),
        None => false,
    }
}

fn is_answered(quotes: &[u64], taken: &Option<Taken>, replies: &[Reply]) -> bool
    ensures { (t : ℕ) → result ≡ is_answered quotes.now (input_of taken.now t) replies.now }
{
    match taken {
        Some(taken) => names_quote(quotes, taken.from, taken.item.app.get(), replies),
        None => false,
    }
}

/// Whether a row is of the room, as its conversation stands before it.
fn is_said(room: u64, talk: &Talk, taken: &Option<Taken>, replies: &[Reply]) -> bool
    ensures { (t : ℕ) → result ≡ is_said room (talk_of talk.now) (input_of taken.now t) replies.now }
{
    any_opens(room, replies)
        || any_trades(room, replies)
        || is_quoted(room, taken)
        || is_answered(&talk.quotes, taken, replies)
}

#[tactic(auto, unfolding(crate::specs::Talk::sent_on))]
fn push_sent_on(quotes: &mut Vec<u64>, what: &ReplyBody) -> Result<(), AllocError>
    ensures { OnOk result (quotes.new.items ≡ quotes.old.items ++ sent_on what.now) }
{
    match what {
        ReplyBody::QuoteSent(quote) => push_to(quotes, quote.quote),
        _ => Ok(()),
    }
}

/// Adds the numbers of the quotes that are sent on.
fn push_quotes(quotes: &mut Vec<u64>, replies: &[Reply]) -> Result<(), AllocError>
    ensures { OnOk result (quotes.new.items ≡ quotes.old.items ++ flat_map (λ r. sent_on r.what) replies.now) }
{
    for reply in replies {
        push_sent_on(quotes, &reply.what)?;
    }
    Ok(())
}

fn note_quotes(
    quotes: &mut Vec<u64>,
    room: u64,
    taken: &Option<Taken>,
    replies: &[Reply],
) -> Result<(), AllocError>
    ensures { (t : ℕ) → OnOk result (quotes.new.items ≡ quotes_after room quotes.old.items (input_of taken.now t) replies.now) }
{
    if is_quoted(room, taken) {
        push_quotes(quotes, replies)
    } else {
        Ok(())
    }
}

fn note_room(
    talk: &mut Talk,
    room: u64,
    taken: &Option<Taken>,
    replies: &[Reply],
) -> Result<(), AllocError>
    ensures { (t : ℕ) → OnOk result (talk_of talk.new ≡ after_row room (talk_of talk.old) (input_of taken.now t) replies.now) }
{
    let opened = talk.opened || any_opens(room, replies);
    let said = is_said(room, talk, taken, replies);
    note_quotes(&mut talk.quotes, room, taken, replies)?;
    talk.opened = opened;
    talk.here = opened && said;
    Ok(())
}

/// Notes what a row says of the room that is sought, if one is.
pub(crate) fn note_talk(
    talk: &mut Talk,
    room: Option<u64>,
    taken: &Option<Taken>,
    replies: &[Reply],
) -> Result<(), AllocError>
    ensures { (t : ℕ) → OnOk result (talk_of talk.new ≡ talk_after room (talk_of talk.old) (input_of taken.now t) replies.now) }
{
    match room {
        Some(room) => note_room(talk, room, taken, replies),
        None => Ok(()),
    }
}
