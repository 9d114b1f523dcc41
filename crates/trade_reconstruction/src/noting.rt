//! Quotes in a room before a trade there: which had ended, and what had become of each.

ghost use Rattle.std.specs.Prelude.{◌≡◌, ◌++◌, ◌∷◌, ◌≤◌, [], None, Some, IfOk, OnOk};
ghost use Rattle.std.specs.List.{flat_map};
ghost use Rattle.venue_rules.specs.Facts.{History};
ghost use Rattle.venue_rules.specs.Run.{answer_input};
ghost use Rattle.venue_core.specs.Plan.{most_items};
ghost use Rattle.venue_core.specs.VenueFacts.{IsHistory};
ghost use Rattle.venue_core.specs.State.{standing};
ghost use Rattle.trade_reconstruction.specs.QuoteNotes.{earlier, end_of, end_with, ended_at, ended_as, ended_by, ended_state, fate_at, fate_in, fate_note, fate_of, fate_state, fate_what, fates_in, hit_at, is_end_of, is_hit, lacks, lacks_offer, newest, passes, responded, responded_in, room_after, room_what};
ghost use Rattle.trade_reconstruction.specs.Standing.{input_of};

use crate::events::{Events, pick};
use crate::evidence_event::{Asked, EventKind, EvidenceEvent, Quoted};
use crate::finding::{Query, find_word};
use crate::key::{Key, name_key};
use crate::pushing::push_quote_fate;
use crate::quote_note::{Ended, Fate, HitAt, QuoteFate};
use crate::room::is_to;
use crate::standing::plan_item;
use fix_dictionary::{
    App, BoxedApp, FixInt, Identifier, Item, Price, QuoteResponse, SequenceNumber, Side,
};
use participants::Who;
use sef_moment::Moment;
use std::alloc::{AllocError, Global};
use venue_core::Venue;
use venue_rules::{QuoteState, QuoteStatus, Reply, ReplyBody, Taken, TrailRow, printed_identifier};

/// Appends the end of a quote.
fn push_end(ended: &mut Vec<Ended>, end: Ended) -> Result<(), AllocError>
    ensures { OnOk result (ended.new.items ≡ ended.old.items ++ end ∷ []) }
{
    // Types of an end's content, named here because the proof of the push needs each.
    let _name: Option<Identifier> = None;
    let _who: Option<Who> = None;
    match ended.push(end) {
        Ok(()) => Ok(()),
        Err(_) => Err(AllocError),
    }
}

/// Whether a status reports the end of a quote to the requester, and whether it was passed.
fn ended_state(from: Who, to: Who, state: &QuoteState) -> Option<bool>
    ensures { result ≡ ended_state from to state.now }
{
    match state {
        QuoteState::Passed => {
            if to.place() == from.place() {
                Some(true)
            } else {
                None
            }
        }
        QuoteState::Withdrawn => {
            if to.place() == from.place() {
                None
            } else {
                Some(false)
            }
        }
        QuoteState::Accepted => None,
        QuoteState::Refused(_) => None,
        QuoteState::ResponseRefused(_) => None,
        QuoteState::CancelUnsupported => None,
        QuoteState::Expired => None,
        QuoteState::NotFound => None,
    }
}

/// Appends that a quote ended, with the requester's identifier of its request and its own.
fn push_ids(
    ended: &mut Vec<Ended>,
    row: &TrailRow,
    to: Who,
    status: &QuoteStatus,
    is_passed: bool,
) -> Result<(), AllocError>
    ensures { OnOk result (ended.new.items ≡ ended.old.items ++ ended_as row.now to status.now (Some is_passed)) }
{
    match status.request_id {
        Some(request) => match status.quote_id {
            Some(quote) => push_end(
                ended,
                Ended {
                    row: row.n,
                    requester: to,
                    request,
                    quote,
                    is_passed,
                },
            ),
            None => Ok(()),
        },
        None => Ok(()),
    }
}

fn push_status(
    ended: &mut Vec<Ended>,
    row: &TrailRow,
    from: Who,
    to: Who,
    status: &QuoteStatus,
) -> Result<(), AllocError>
    ensures { OnOk result (ended.new.items ≡ ended.old.items ++ ended_as row.now to status.now (ended_state from to status.now.state)) }
{
    match ended_state(from, to, &status.state) {
        Some(is_passed) => push_ids(ended, row, to, status, is_passed),
        None => Ok(()),
    }
}

/// Appends that a quote ended, if a reply reports it to the requester.
fn push_ended_by(
    ended: &mut Vec<Ended>,
    row: &TrailRow,
    from: Who,
    reply: &Reply,
) -> Result<(), AllocError>
    ensures { OnOk result (ended.new.items ≡ ended.old.items ++ ended_by row.now from reply.now) }
{
    match &reply.what {
        ReplyBody::QuoteStatus(status) => push_status(ended, row, from, reply.to, status),
        _ => Ok(()),
    }
}

fn push_ended_of(
    ended: &mut Vec<Ended>,
    row: &TrailRow,
    from: Who,
    replies: &[Reply],
) -> Result<(), AllocError>
    ensures { OnOk result (ended.new.items ≡ ended.old.items ++ flat_map (ended_by row.now from) replies.now) }
{
    for reply in replies {
        push_ended_by(ended, row, from, reply)?;
    }
    Ok(())
}

/// Appends which quotes ended at a row, by the replies to its message.
pub(crate) fn push_ended(
    ended: &mut Vec<Ended>,
    row: &TrailRow,
    taken: &Option<Taken>,
    replies: &[Reply],
) -> Result<(), AllocError>
    ensures { OnOk result (ended.new.items ≡ ended.old.items ++ ended_at row.now taken.now replies.now) }
{
    match taken {
        Some(taken) => push_ended_of(ended, row, taken.from, replies),
        None => Ok(()),
    }
}

fn room_what(number: u64, what: &ReplyBody) -> Option<u64>
    ensures { result ≡ room_what number what.now }
{
    match what {
        ReplyBody::RoomTraded(report) => {
            if report.trade == number {
                Some(report.room)
            } else {
                None
            }
        }
        _ => None,
    }
}

fn earlier(before: Option<u64>, now: Option<u64>) -> Option<u64>
    ensures { result ≡ earlier before now }
{
    match before {
        Some(room) => Some(room),
        None => now,
    }
}

/// The room of the trade with this number, if these replies report it there.
fn room_in(number: u64, replies: &[Reply]) -> Option<u64>
    ensures { result ≡ room_after number None replies.now }
{
    let mut room = None;
    for reply in replies {
        room = earlier(room, room_what(number, &reply.what));
    }
    room
}

/// The room of the trade with this number, if a message or a tick makes it in a room.
fn room_at(
    venue: &mut Venue,
    taken: &Option<Taken>,
    moment: Moment,
    number: u64,
) -> Result<Option<u64>, AllocError>
    requires few { venue.old.items ≤ most_items }
    ensures market { venue.new.market ≡ venue.old.market }
    ensures day { standing venue.new.day ≡ standing venue.old.day }
    ensures items { venue.new.items ≡ venue.old.items }
    ensures room { (h : History) → IsHistory venue.old h → IfOk result (λ room. room ≡ room_after number None (answer_input venue.old.market h (input_of taken.now moment)).replies) }
{
    let plan = plan_item(venue, taken, moment)?;
    let room = room_in(number, plan.replies());
    drop(plan);
    Ok(room)
}

fn responded(app: &App) -> Option<Identifier>
    ensures { result ≡ responded app.now }
{
    match app {
        App::QuoteResponse(response) => Some(response.quote_id),
        _ => None,
    }
}

fn responded_in(taken: &Option<Taken>) -> Option<Identifier>
    ensures { result ≡ responded_in taken.now }
{
    match taken {
        Some(taken) => responded(taken.item.app.get()),
        None => None,
    }
}

fn hit_at(row: &TrailRow, taken: &Option<Taken>) -> HitAt
    ensures { result ≡ hit_at row.now taken.now }
{
    HitAt {
        row: row.n,
        moment: row.moment,
        quote: responded_in(taken),
    }
}

/// The message by which a requester passes a quote.
fn passes(alloc: Global, asked: &Asked, quote: u64) -> Result<Taken, AllocError>
    ensures { IfOk result (λ taken. taken ≡ passes asked.now quote) }
{
    let response = QuoteResponse {
        response_id: asked.request,
        quote_id: printed_identifier(b'Q', quote),
        response_type: FixInt::new(6),
        side: None,
    };
    let app = BoxedApp::new(alloc, App::QuoteResponse(response))?;
    Ok(Taken {
        from: asked.requester,
        item: Item {
            era: 1,
            number: SequenceNumber::new(1),
            app,
        },
    })
}

fn fate_state(state: &QuoteState) -> Option<Fate>
    ensures { result ≡ fate_state state.now }
{
    match state {
        QuoteState::Passed => Some(Fate::Live),
        QuoteState::NotFound => Some(Fate::Replaced),
        QuoteState::Withdrawn => Some(Fate::Withdrawn),
        QuoteState::Expired => Some(Fate::RunOut),
        QuoteState::Accepted => None,
        QuoteState::Refused(_) => None,
        QuoteState::ResponseRefused(_) => None,
        QuoteState::CancelUnsupported => None,
    }
}

fn fate_what(what: &ReplyBody) -> Option<Fate>
    ensures { result ≡ fate_what what.now }
{
    match what {
        ReplyBody::QuoteStatus(status) => fate_state(&status.state),
        _ => None,
    }
}

fn fate_in(replies: &[Reply]) -> Option<Fate>
    ensures { result ≡ fate_in replies.now }
{
    match replies.split_first() {
        Some((first, _)) => fate_what(&first.what),
        None => None,
    }
}

/// What had become of a quote: what the venue would answer, were the requester to pass it now.
fn fate_at(
    alloc: Global,
    venue: &mut Venue,
    asked: &Asked,
    moment: Moment,
    quote: u64,
) -> Result<Option<Fate>, AllocError>
    requires few { venue.old.items ≤ most_items }
    ensures market { venue.new.market ≡ venue.old.market }
    ensures day { standing venue.new.day ≡ standing venue.old.day }
    ensures items { venue.new.items ≡ venue.old.items }
    ensures fate { (h : History) → IsHistory venue.old h → IfOk result (λ fate. fate ≡ fate_at venue.old.market h asked.now moment quote) }
{
    let passed = passes(alloc, asked, quote)?;
    let plan = venue.plan(&passed, moment)?;
    let fate = fate_in(plan.replies());
    drop(plan);
    Ok(fate)
}

fn is_hit(hit: &Option<Identifier>, quote: u64) -> bool
    ensures { result ≡ is_hit hit.now quote }
{
    match hit {
        Some(id) => printed_identifier(b'Q', quote).is(id),
        None => false,
    }
}

/// Whether the end of a quote is that of this one.
fn is_end_of(asked: &Asked, quote: u64, end: &Ended) -> bool
    ensures { result ≡ is_end_of asked.now quote end.now }
{
    is_to(asked, end.requester, &end.request) && printed_identifier(b'Q', quote).is(&end.quote)
}

fn end_of(asked: &Asked, quote: u64, end: &Ended) -> Option<Ended>
    ensures { result ≡ end_of asked.now quote end.now }
{
    if is_end_of(asked, quote, end) {
        Some(*end)
    } else {
        None
    }
}

/// The newest report of the end of a quote.
fn newest_end(ended: &[Ended], asked: &Asked, quote: u64) -> Option<Ended>
    ensures { result ≡ newest (end_of asked.now quote) ended.now }
{
    for at in (0..ended.len()).rev() {
        if let Some(end) = end_of(asked, quote, &ended[at]) {
            return Some(end);
        }
    }
    None
}

/// The report that a quote was withdrawn or passed, if it was, also where its maker quoted again.
fn end_with(ended: &[Ended], asked: &Asked, quote: u64, fate: Fate) -> Option<Ended>
    ensures { result ≡ end_with asked.now quote ended.now fate }
{
    match fate {
        Fate::Withdrawn => newest_end(ended, asked, quote),
        Fate::Live => None,
        Fate::Replaced => newest_end(ended, asked, quote),
        Fate::RunOut => None,
    }
}

fn lacks_offer(offer: Option<Price>) -> Option<Side>
    ensures { result ≡ lacks_offer offer }
{
    match offer {
        Some(_) => None,
        None => Some(Side::Sell),
    }
}

/// Of a request for both sides, the side on which a quote has no price.
fn lacks(asked: Option<Side>, quoted: &Quoted) -> Option<Side>
    ensures { result ≡ lacks asked quoted.now }
{
    match asked {
        Some(_) => None,
        None => match quoted.bid {
            Some(_) => lacks_offer(quoted.offer),
            None => Some(Side::Buy),
        },
    }
}

fn push_fate_note(
    fates: &mut Vec<QuoteFate>,
    hit: &HitAt,
    asked: &Asked,
    ended: &[Ended],
    quoted: &Quoted,
    fate: Option<Fate>,
) -> Result<(), AllocError>
    ensures { OnOk result (fates.new.items ≡ fates.old.items ++ fate_note hit.now asked.now ended.now quoted.now fate) }
{
    match fate {
        Some(fate) => push_quote_fate(
            fates,
            QuoteFate {
                row: hit.row,
                quote: quoted.quote,
                maker: quoted.maker,
                is_hit: is_hit(&hit.quote, quoted.quote),
                fate,
                end: end_with(ended, asked, quoted.quote, fate),
                lacks: lacks(asked.side, quoted),
            },
        ),
        None => Ok(()),
    }
}

/// Appends what had become of a quote.
fn push_fate(
    alloc: Global,
    venue: &mut Venue,
    fates: &mut Vec<QuoteFate>,
    hit: &HitAt,
    asked: &Asked,
    ended: &[Ended],
    quoted: &Quoted,
) -> Result<(), AllocError>
    requires few { venue.old.items ≤ most_items }
    ensures market { venue.new.market ≡ venue.old.market }
    ensures day { standing venue.new.day ≡ standing venue.old.day }
    ensures items { venue.new.items ≡ venue.old.items }
    ensures noted { (h : History) → IsHistory venue.old h → OnOk result (fates.new.items ≡ fates.old.items ++ fate_note hit.now asked.now ended.now quoted.now (fate_at venue.old.market h asked.now hit.now.moment quoted.now.quote)) }
{
    let fate = fate_at(alloc, venue, asked, hit.moment, quoted.quote)?;
    push_fate_note(fates, hit, asked, ended, quoted, fate)
}

/// Appends what had become of a quote that the requester had been sent, if an event is of one.
fn push_fate_of(
    alloc: Global,
    venue: &mut Venue,
    fates: &mut Vec<QuoteFate>,
    hit: &HitAt,
    asked: &Asked,
    ended: &[Ended],
    word: &EvidenceEvent,
) -> Result<(), AllocError>
    requires few { venue.old.items ≤ most_items }
    ensures market { venue.new.market ≡ venue.old.market }
    ensures day { standing venue.new.day ≡ standing venue.old.day }
    ensures items { venue.new.items ≡ venue.old.items }
    ensures noted { (h : History) → IsHistory venue.old h → OnOk result (fates.new.items ≡ fates.old.items ++ fate_of venue.old.market h hit.now asked.now ended.now word.now) }
{
    match &word.said {
        EventKind::Quoted(quoted) => {
            if is_to(asked, word.to, &quoted.request) {
                push_fate(alloc, venue, fates, hit, asked, ended, quoted)
            } else {
                Ok(())
            }
        }
        _ => Ok(()),
    }
}

/// Appends what had become of each quote of a request.
fn push_fates_asked(
    alloc: Global,
    venue: &mut Venue,
    fates: &mut Vec<QuoteFate>,
    hit: &HitAt,
    asked: &Asked,
    ended: &[Ended],
    words: &[EvidenceEvent],
) -> Result<(), AllocError>
    requires few { venue.old.items ≤ most_items }
    ensures market { venue.new.market ≡ venue.old.market }
    ensures day { standing venue.new.day ≡ standing venue.old.day }
    ensures items { venue.new.items ≡ venue.old.items }
    ensures noted { (h : History) → IsHistory venue.old h → OnOk result (fates.new.items ≡ fates.old.items ++ flat_map (fate_of venue.old.market h hit.now asked.now ended.now) words.now) }
{
    for word in words {
        push_fate_of(alloc, venue, fates, hit, asked, ended, word)?;
    }
    Ok(())
}

/// Appends what had become of each quote of a request, which are found by its key.
fn push_fates_found(
    alloc: Global,
    venue: &mut Venue,
    fates: &mut Vec<QuoteFate>,
    hit: &HitAt,
    asked: &Asked,
    ended: &[Ended],
    words: &Events,
) -> Result<(), AllocError>
    requires few { venue.old.items ≤ most_items }
    ensures market { venue.new.market ≡ venue.old.market }
    ensures day { standing venue.new.day ≡ standing venue.old.day }
    ensures items { venue.new.items ≡ venue.old.items }
    ensures noted { (h : History) → IsHistory venue.old h → OnOk result (fates.new.items ≡ fates.old.items ++ flat_map (fate_of venue.old.market h hit.now asked.now ended.now) words.now) }
{
    let key = Key::First(name_key(asked.requester, &asked.request));
    let picked = pick(alloc, words, &key)?;
    push_fates_asked(alloc, venue, fates, hit, asked, ended, &picked)
}

/// Appends what had become of each quote of a room.
fn push_fates_in(
    alloc: Global,
    venue: &mut Venue,
    fates: &mut Vec<QuoteFate>,
    hit: &HitAt,
    words: &Events,
    ended: &[Ended],
    room: u64,
) -> Result<(), AllocError>
    requires few { venue.old.items ≤ most_items }
    ensures market { venue.new.market ≡ venue.old.market }
    ensures day { standing venue.new.day ≡ standing venue.old.day }
    ensures items { venue.new.items ≡ venue.old.items }
    ensures noted { (h : History) → IsHistory venue.old h → OnOk result (fates.new.items ≡ fates.old.items ++ fates_in venue.old.market h hit.now words.now ended.now (Some room)) }
{
    let Some(word) = find_word(words, &Query::Request(room)) else {
        return Ok(());
    };
    match &word.said {
        EventKind::Asked(asked) => {
            push_fates_found(alloc, venue, fates, hit, asked, ended, words)
        }
        _ => Ok(()),
    }
}

/// Appends what had become of each quote of the room in which the trade with this number is about to be made, if a
/// message makes it in a room.
pub(crate) fn push_fates(
    alloc: Global,
    venue: &mut Venue,
    fates: &mut Vec<QuoteFate>,
    words: &Events,
    ended: &[Ended],
    row: &TrailRow,
    taken: &Option<Taken>,
    number: u64,
) -> Result<(), AllocError>
    requires few { venue.old.items ≤ most_items }
    ensures market { venue.new.market ≡ venue.old.market }
    ensures day { standing venue.new.day ≡ standing venue.old.day }
    ensures items { venue.new.items ≡ venue.old.items }
    ensures noted { (h : History) → IsHistory venue.old h → OnOk result (fates.new.items ≡ fates.old.items ++ fates_in venue.old.market h (hit_at row.now taken.now) words.now ended.now (room_after number None (answer_input venue.old.market h (input_of taken.now row.now.moment)).replies)) }
{
    match room_at(venue, taken, row.moment, number)? {
        Some(room) => push_fates_in(alloc, venue, fates, &hit_at(row, taken), words, ended, room),
        None => Ok(()),
    }
}
