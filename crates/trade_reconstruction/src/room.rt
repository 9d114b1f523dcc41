//! The evidence for a trade in a room.

ghost use Rattle.std.specs.Prelude.{◌≡◌, ◌++◌, OnOk, codes, decimal};
ghost use Rattle.std.specs.List.{flat_map};
ghost use Rattle.sef_moment.specs.Utc.{utc_text};
ghost use Rattle.trade_reconstruction.specs.Lines.{answered_word, asked_lines, asked_side, asked_word, at_text, hit_line, hit_side, hit_word, id_text, is_to, others, other_line, pair_line, pictured_line, price_or_none, quote_id_line, quote_line, quote_terms, relation, request_id_line, request_line, request_terms, response_text, room_found, room_lines, row_text, shown_line, shown_side, three_if, three_line, three_text, words_lines};

use crate::events::{Events, pick};
use crate::evidence_event::{Asked, EventKind, EvidenceEvent, Hit, Quoted, Shown, SnapshotSent};
use crate::finding::{Query, find_word, is_asked};
use crate::key::{Key, name_key};
use crate::sent::{append_row, append_sent_row};
use crate::unrelated::{Three, recipients_of, three_of};
use fix_dictionary::{Identifier, Price, Side};
use participants::{Participants, Who};
use sef_moment::{Moment, print_utc};
use std::alloc::{AllocError, Global};
use trade_blotter::{append, append_number, append_price, name_at};
use venue_rules::TrailRow;

/// Appends a moment after a text.
pub(crate) fn append_moment(
    text: &mut Vec<u8>,
    before: &[u8],
    moment: Moment,
) -> Result<(), AllocError>
    ensures { OnOk result (text.new.items ≡ text.old.items ++ (before.now ++ utc_text moment)) }
{
    let emitted = print_utc(moment);
    append(text, &[before, &emitted])
}

/// Appends the moment and the row that support a line, and ends the line.
pub(crate) fn append_at(text: &mut Vec<u8>, moment: Moment, row: u64) -> Result<(), AllocError>
    ensures { OnOk result (text.new.items ≡ text.old.items ++ (at_text moment ++ row_text row)) }
{
    append_moment(text, b" at ", moment)?;
    append_row(text, row)
}

/// Appends a quantity of an instrument after a text.
pub(crate) fn append_quantity(
    text: &mut Vec<u8>,
    before: &[u8],
    quantity: u64,
    symbol: &Identifier,
) -> Result<(), AllocError>
    ensures { OnOk result (text.new.items ≡ text.old.items ++ (before.now ++ (decimal quantity ++ (codes " " ++ symbol.now)))) }
{
    append_number(text, before, quantity)?;
    append(text, &[b" ", symbol.as_slice()])
}

/// The relation of two participants.
fn relation(participants: &Participants, one: Who, other: Who) -> &'static [u8]
    ensures { result.now ≡ relation participants.now one other }
{
    if one.place() == other.place() {
        b" are one participant"
    } else if participants.related(one, other) {
        b" are related"
    } else {
        b" are not related"
    }
}

/// Appends the relation of two participants.
pub(crate) fn append_pair(
    text: &mut Vec<u8>,
    participants: &Participants,
    one: Who,
    other: Who,
    row: u64,
) -> Result<(), AllocError>
    ensures { OnOk result (text.new.items ≡ text.old.items ++ pair_line participants.now one other row) }
{
    let name = name_at(participants, one);
    let other_name = name_at(participants, other);
    append(text, &[name, b" and ", other_name])?;
    append(text, &[relation(participants, one, other)])?;
    append_row(text, row)
}

fn asked_side(side: Option<Side>) -> &'static [u8]
    ensures { result.now ≡ asked_side side }
{
    match side {
        None => b" for both sides of ",
        Some(Side::Buy) => b" to buy ",
        Some(Side::Sell) => b" to sell ",
    }
}

/// Appends somebody's own identifier of an order, a room or a quote.
pub(crate) fn append_id(
    text: &mut Vec<u8>,
    kind: &[u8],
    number: u64,
    said: &[u8],
    id: &Identifier,
) -> Result<(), AllocError>
    ensures { OnOk result (text.new.items ≡ text.old.items ++ id_text kind.now number said.now id.now) }
{
    append_number(text, kind, number)?;
    append(text, &[said, id.as_slice()])
}

fn append_terms(
    text: &mut Vec<u8>,
    participants: &Participants,
    word: &EvidenceEvent,
    asked: &Asked,
) -> Result<(), AllocError>
    ensures { OnOk result (text.new.items ≡ text.old.items ++ request_terms participants.now word.now asked.now) }
{
    let requester = name_at(participants, asked.requester);
    append_number(text, b"request in room R", asked.room)?;
    append(text, &[b" of ", requester])?;
    let side = asked_side(asked.side);
    append_quantity(text, side, asked.quantity.get(), &asked.symbol)?;
    append_at(text, word.moment, word.row)
}

/// Appends the requester's own identifier of its request.
fn append_request_id(
    text: &mut Vec<u8>,
    participants: &Participants,
    rows: &[TrailRow],
    word: &EvidenceEvent,
    asked: &Asked,
) -> Result<(), AllocError>
    ensures { OnOk result (text.new.items ≡ text.old.items ++ request_id_line rows.now participants.now word.now asked.now) }
{
    append_id(
        text,
        b"R",
        asked.room,
        b" has the QuoteReqID ",
        &asked.request,
    )?;
    append_sent_row(text, rows, participants, word.row)
}

/// Appends a request, and its identifier.
fn append_request(
    text: &mut Vec<u8>,
    participants: &Participants,
    rows: &[TrailRow],
    word: &EvidenceEvent,
    asked: &Asked,
) -> Result<(), AllocError>
    ensures { OnOk result (text.new.items ≡ text.old.items ++ request_line rows.now participants.now word.now asked.now) }
{
    append_terms(text, participants, word, asked)?;
    append_request_id(text, participants, rows, word, asked)
}

/// Appends the relation of a recipient to another recipient of the room who comes before it in the file.
fn append_other(
    text: &mut Vec<u8>,
    participants: &Participants,
    room: u64,
    who: Who,
    row: u64,
    other: &EvidenceEvent,
) -> Result<(), AllocError>
    ensures { OnOk result (text.new.items ≡ text.old.items ++ other_line participants.now room who row other.now) }
{
    if is_asked(other, room) && other.to.place() < who.place() {
        append_pair(text, participants, who, other.to, row)
    } else {
        Ok(())
    }
}

fn append_others(
    text: &mut Vec<u8>,
    participants: &Participants,
    words: &[EvidenceEvent],
    room: u64,
    who: Who,
    row: u64,
) -> Result<(), AllocError>
    ensures { OnOk result (text.new.items ≡ text.old.items ++ others participants.now words.now room who row) }
{
    for word in words {
        append_other(text, participants, room, who, row, word)?;
    }
    Ok(())
}

/// Appends that a participant was asked, and its relation to the requester and to the other recipients.
fn append_asked(
    text: &mut Vec<u8>,
    participants: &Participants,
    words: &[EvidenceEvent],
    word: &EvidenceEvent,
    asked: &Asked,
) -> Result<(), AllocError>
    ensures { OnOk result (text.new.items ≡ text.old.items ++ asked_lines participants.now words.now word.now asked.now) }
{
    append(text, &[b"asked ", name_at(participants, word.to)])?;
    append_row(text, word.row)?;
    append_pair(text, participants, word.to, asked.requester, word.row)?;
    append_others(text, participants, words, asked.room, word.to, word.row)
}

fn append_pictured(
    text: &mut Vec<u8>,
    word: &EvidenceEvent,
    pictured: &SnapshotSent,
) -> Result<(), AllocError>
    ensures { OnOk result (text.new.items ≡ text.old.items ++ pictured_line word.now pictured.now) }
{
    append_number(
        text,
        b"resting orders shown with the first response: ",
        pictured.count,
    )?;
    append_row(text, word.row)
}

fn shown_side(side: Side) -> &'static [u8]
    ensures { result.now ≡ shown_side side }
{
    match side {
        Side::Buy => b" bid ",
        Side::Sell => b" offer ",
    }
}

fn append_shown(
    alloc: Global,
    text: &mut Vec<u8>,
    word: &EvidenceEvent,
    shown: &Shown,
) -> Result<(), AllocError>
    ensures { OnOk result (text.new.items ≡ text.old.items ++ shown_line word.now shown.now) }
{
    append_number(text, b"shown O", shown.order)?;
    append_number(text, shown_side(shown.side), shown.left.get())?;
    append(text, &[b" @ "])?;
    append_price(alloc, text, shown.price)?;
    append_row(text, word.row)
}

fn append_price_or_none(
    alloc: Global,
    text: &mut Vec<u8>,
    price: Option<Price>,
) -> Result<(), AllocError>
    ensures { OnOk result (text.new.items ≡ text.old.items ++ price_or_none price) }
{
    match price {
        Some(price) => append_price(alloc, text, price),
        None => append(text, &[b"none"]),
    }
}

fn append_prices(
    alloc: Global,
    text: &mut Vec<u8>,
    bid: Option<Price>,
    offer: Option<Price>,
) -> Result<(), AllocError>
    ensures { OnOk result (text.new.items ≡ text.old.items ++ (codes " bid " ++ (price_or_none bid ++ (codes " offer " ++ price_or_none offer)))) }
{
    append(text, &[b" bid "])?;
    append_price_or_none(alloc, text, bid)?;
    append(text, &[b" offer "])?;
    append_price_or_none(alloc, text, offer)
}

fn append_quote_terms(
    alloc: Global,
    text: &mut Vec<u8>,
    word: &EvidenceEvent,
    quoted: &Quoted,
) -> Result<(), AllocError>
    ensures { OnOk result (text.new.items ≡ text.old.items ++ quote_terms word.now quoted.now) }
{
    append_number(text, b"quote Q", quoted.quote)?;
    append(text, &[b" of ", quoted.maker.as_slice()])?;
    append_prices(alloc, text, quoted.bid, quoted.offer)?;
    append_moment(text, b" until ", quoted.end)?;
    append_at(text, word.moment, word.row)
}

/// Appends the maker's own identifier of its quote.
fn append_quote_id(
    text: &mut Vec<u8>,
    participants: &Participants,
    rows: &[TrailRow],
    word: &EvidenceEvent,
    quoted: &Quoted,
) -> Result<(), AllocError>
    ensures { OnOk result (text.new.items ≡ text.old.items ++ quote_id_line rows.now participants.now word.now quoted.now quoted.now.id) }
{
    match &quoted.id {
        Some(id) => {
            append_id(text, b"Q", quoted.quote, b" has the QuoteID ", id)?;
            append_sent_row(text, rows, participants, word.row)
        }
        None => Ok(()),
    }
}

/// Appends a quote, and its maker's identifier of it.
fn append_quote(
    alloc: Global,
    text: &mut Vec<u8>,
    participants: &Participants,
    rows: &[TrailRow],
    word: &EvidenceEvent,
    quoted: &Quoted,
) -> Result<(), AllocError>
    ensures { OnOk result (text.new.items ≡ text.old.items ++ quote_line rows.now participants.now word.now quoted.now) }
{
    append_quote_terms(alloc, text, word, quoted)?;
    append_quote_id(text, participants, rows, word, quoted)
}

fn hit_side(side: Side) -> &'static [u8]
    ensures { result.now ≡ hit_side side }
{
    match side {
        Side::Buy => b" to buy at ",
        Side::Sell => b" to sell at ",
    }
}

fn append_response(text: &mut Vec<u8>, response: &Option<Identifier>) -> Result<(), AllocError>
    ensures { OnOk result (text.new.items ≡ text.old.items ++ response_text response.now) }
{
    match response {
        Some(id) => append(text, &[b" with the QuoteRespID ", id.as_slice()]),
        None => Ok(()),
    }
}

/// Appends who hit which quote, on which side and at what price.
fn append_hit(
    alloc: Global,
    text: &mut Vec<u8>,
    participants: &Participants,
    rows: &[TrailRow],
    word: &EvidenceEvent,
    hit: &Hit,
) -> Result<(), AllocError>
    ensures { OnOk result (text.new.items ≡ text.old.items ++ hit_line rows.now participants.now word.now hit.now) }
{
    let name = name_at(participants, word.to);
    let side = hit_side(hit.side);
    append(text, &[b"hit of quote ", hit.quote.as_slice()])?;
    append(text, &[b" by ", name])?;
    append(text, &[side])?;
    append_price(alloc, text, hit.price)?;
    append_response(text, &hit.response)?;
    append_moment(text, b" at ", word.moment)?;
    append_sent_row(text, rows, participants, word.row)
}

/// Whether an event is addressed to the requester, about its request.
pub(crate) fn is_to(asked: &Asked, to: Who, request: &Identifier) -> bool
    ensures { result ≡ is_to asked.now to request.now }
{
    to.place() == asked.requester.place() && request.is(&asked.request)
}

/// Appends that somebody was asked, if an event is of this room's request.
#[tactic(auto, unfolding(crate::specs::Lines::asked_word))]
fn append_asked_word(
    text: &mut Vec<u8>,
    participants: &Participants,
    words: &[EvidenceEvent],
    asked: &Asked,
    word: &EvidenceEvent,
) -> Result<(), AllocError>
    ensures { OnOk result (text.new.items ≡ text.old.items ++ asked_word participants.now words.now asked.now word.now) }
{
    match &word.said {
        EventKind::Asked(other) => {
            if other.room == asked.room {
                append_asked(text, participants, words, word, other)
            } else {
                Ok(())
            }
        }
        _ => Ok(()),
    }
}

/// Appends what the requester was sent, if an event is about its request.
#[tactic(auto, unfolding(crate::specs::Lines::answered_word))]
fn append_answered_word(
    alloc: Global,
    text: &mut Vec<u8>,
    participants: &Participants,
    rows: &[TrailRow],
    asked: &Asked,
    word: &EvidenceEvent,
) -> Result<(), AllocError>
    ensures { OnOk result (text.new.items ≡ text.old.items ++ answered_word rows.now participants.now asked.now word.now) }
{
    match &word.said {
        EventKind::SnapshotSent(pictured) => {
            if is_to(asked, word.to, &pictured.request) {
                append_pictured(text, word, pictured)
            } else {
                Ok(())
            }
        }
        EventKind::Shown(shown) => {
            if is_to(asked, word.to, &shown.request) {
                append_shown(alloc, text, word, shown)
            } else {
                Ok(())
            }
        }
        EventKind::Quoted(quoted) => {
            if is_to(asked, word.to, &quoted.request) {
                append_quote(alloc, text, participants, rows, word, quoted)
            } else {
                Ok(())
            }
        }
        _ => Ok(()),
    }
}

/// Appends the requester's hit, if an event is of one in its room.
#[tactic(auto, unfolding(crate::specs::Lines::hit_word))]
fn append_hit_word(
    alloc: Global,
    text: &mut Vec<u8>,
    participants: &Participants,
    rows: &[TrailRow],
    asked: &Asked,
    word: &EvidenceEvent,
) -> Result<(), AllocError>
    ensures { OnOk result (text.new.items ≡ text.old.items ++ hit_word rows.now participants.now asked.now word.now) }
{
    match &word.said {
        EventKind::Hit(hit) => {
            if hit.room == asked.room && word.to.place() == asked.requester.place() {
                append_hit(alloc, text, participants, rows, word, hit)
            } else {
                Ok(())
            }
        }
        _ => Ok(()),
    }
}

fn append_names(
    text: &mut Vec<u8>,
    participants: &Participants,
    requester: Who,
    three: &Three,
    row: u64,
) -> Result<(), AllocError>
    ensures { OnOk result (text.new.items ≡ text.old.items ++ three_text participants.now requester three.now row) }
{
    let first = name_at(participants, three.first);
    let second = name_at(participants, three.second);
    let third = name_at(participants, three.third);
    let asker = name_at(participants, requester);
    append(text, &[first, b", ", second, b" and ", third])?;
    append(text, &[b" are unrelated to ", asker, b" and to each other"])?;
    append_row(text, row)
}

fn append_three_if(
    text: &mut Vec<u8>,
    participants: &Participants,
    requester: Who,
    three: &Option<Three>,
    row: u64,
) -> Result<(), AllocError>
    ensures { OnOk result (text.new.items ≡ text.old.items ++ three_if participants.now requester three.now row) }
{
    match three {
        Some(three) => append_names(text, participants, requester, three, row),
        None => Ok(()),
    }
}

/// Appends the line that names three recipients unrelated to the requester and to each other.
fn append_three(
    alloc: Global,
    text: &mut Vec<u8>,
    participants: &Participants,
    words: &[EvidenceEvent],
    word: &EvidenceEvent,
    asked: &Asked,
) -> Result<(), AllocError>
    ensures { OnOk result (text.new.items ≡ text.old.items ++ three_line participants.now words.now word.now asked.now) }
{
    let recipients = recipients_of(alloc, asked.room, words)?;
    let three = three_of(participants, asked.requester, &recipients);
    append_three_if(text, participants, asked.requester, &three, word.row)
}

fn append_all_asked(
    text: &mut Vec<u8>,
    participants: &Participants,
    words: &[EvidenceEvent],
    asked: &Asked,
) -> Result<(), AllocError>
    ensures { OnOk result (text.new.items ≡ text.old.items ++ flat_map (asked_word participants.now words.now asked.now) words.now) }
{
    for word in words {
        append_asked_word(text, participants, words, asked, word)?;
    }
    Ok(())
}

fn append_answered(
    alloc: Global,
    text: &mut Vec<u8>,
    participants: &Participants,
    rows: &[TrailRow],
    asked: &Asked,
    words: &[EvidenceEvent],
) -> Result<(), AllocError>
    ensures { OnOk result (text.new.items ≡ text.old.items ++ flat_map (answered_word rows.now participants.now asked.now) words.now) }
{
    for word in words {
        append_answered_word(alloc, text, participants, rows, asked, word)?;
    }
    Ok(())
}

fn append_hits(
    alloc: Global,
    text: &mut Vec<u8>,
    participants: &Participants,
    rows: &[TrailRow],
    asked: &Asked,
    words: &[EvidenceEvent],
) -> Result<(), AllocError>
    ensures { OnOk result (text.new.items ≡ text.old.items ++ flat_map (hit_word rows.now participants.now asked.now) words.now) }
{
    for word in words {
        append_hit_word(alloc, text, participants, rows, asked, word)?;
    }
    Ok(())
}

/// Appends the lines of a request, of events in its room and of those to the requester.
fn append_request_answer(
    alloc: Global,
    text: &mut Vec<u8>,
    participants: &Participants,
    rows: &[TrailRow],
    in_room: &[EvidenceEvent],
    to_requester: &[EvidenceEvent],
    word: &EvidenceEvent,
    asked: &Asked,
) -> Result<(), AllocError>
    ensures { OnOk result (text.new.items ≡ text.old.items ++ (request_line rows.now participants.now word.now asked.now ++ (three_line participants.now in_room.now word.now asked.now
        ++ (flat_map (asked_word participants.now in_room.now asked.now) in_room.now ++ (flat_map (answered_word rows.now participants.now asked.now) to_requester.now ++ flat_map (hit_word rows.now participants.now asked.now) in_room.now))))) }
{
    append_request(text, participants, rows, word, asked)?;
    append_three(alloc, text, participants, in_room, word, asked)?;
    append_all_asked(text, participants, in_room, asked)?;
    append_answered(alloc, text, participants, rows, asked, to_requester)?;
    append_hits(alloc, text, participants, rows, asked, in_room)
}

/// Appends the lines of a request, whose events are found by its room and by its key.
fn append_of(
    alloc: Global,
    text: &mut Vec<u8>,
    participants: &Participants,
    rows: &[TrailRow],
    words: &Events,
    word: &EvidenceEvent,
    asked: &Asked,
) -> Result<(), AllocError>
    ensures { OnOk result (text.new.items ≡ text.old.items ++ (request_line rows.now participants.now word.now asked.now ++ (three_line participants.now words.now word.now asked.now ++ words_lines rows.now participants.now words.now asked.now))) }
{
    let in_room = pick(alloc, words, &Key::First(asked.room))?;
    let key = Key::First(name_key(asked.requester, &asked.request));
    let to_requester = pick(alloc, words, &key)?;
    append_request_answer(
        alloc,
        text,
        participants,
        rows,
        &in_room,
        &to_requester,
        word,
        asked,
    )
}

/// Appends the lines of a room, from the first event of its request on.
fn append_found(
    alloc: Global,
    text: &mut Vec<u8>,
    participants: &Participants,
    rows: &[TrailRow],
    words: &Events,
    word: &EvidenceEvent,
) -> Result<(), AllocError>
    ensures { OnOk result (text.new.items ≡ text.old.items ++ room_found rows.now participants.now words.now word.now) }
{
    match &word.said {
        EventKind::Asked(asked) => {
            append_of(alloc, text, participants, rows, words, word, asked)
        }
        _ => Ok(()),
    }
}

/// Appends the lines of a room: the request, three unrelated recipients, all recipients, what was shown and quoted, and
/// the hit.
pub(crate) fn append_room(
    alloc: Global,
    text: &mut Vec<u8>,
    participants: &Participants,
    rows: &[TrailRow],
    words: &Events,
    room: u64,
) -> Result<(), AllocError>
    ensures { OnOk result (text.new.items ≡ text.old.items ++ room_lines rows.now participants.now words.now room) }
{
    match find_word(words, &Query::Request(room)) {
        Some(word) => append_found(alloc, text, participants, rows, words, word),
        None => Ok(()),
    }
}
