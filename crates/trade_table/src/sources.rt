//! How each trade that the replies at a row report was made.

ghost use Rattle.std.specs.Prelude.{◌≡◌, ◌++◌, ◌∷◌, [], None, Some, OnOk};
ghost use Rattle.std.specs.List.{flat_map};
ghost use Rattle.trade_table.specs.Sources.{book_made, cross_joined, cross_known, cross_of, crossed_in, executed, filled_by, hit, id_of, if_matched, joins, known_at, known_by, made_after, made_at, made_by, newest, other_side, own_id, quote_known, quote_sent, quoted_in, responded, responded_in, room_made, side_entered, side_filled, side_what};

use crate::execution::{
    CrossEntered, Execution, Known, Matched, OwnQuote, QuoteHit, SideFilled, Source,
};
use fix_dictionary::{App, Identifier, NewOrderCross, Side};
use participants::Who;
use sef_moment::Moment;
use std::alloc::AllocError;
use venue_rules::{
    FilledReport, OrderReport, Reply, ReplyBody, RoomReport, Taken, TrailRow, printed_identifier,
};

fn push_known(known: &mut Vec<Known>, one: Known) -> Result<(), AllocError>
    ensures { OnOk result (known.new.items ≡ known.old.items ++ one ∷ []) }
{
    match known.push(one) {
        Ok(()) => Ok(()),
        Err(_) => Err(AllocError),
    }
}

/// The maker's own identifier of its quote.
fn quoted_in(app: &App) -> Option<Identifier>
    ensures { result ≡ quoted_in app.now }
{
    match app {
        App::Quote(quote) => Some(quote.quote_id),
        _ => None,
    }
}

fn push_sent(known: &mut Vec<Known>, id: Identifier, what: &ReplyBody) -> Result<(), AllocError>
    ensures { OnOk result (known.new.items ≡ known.old.items ++ quote_sent id what.now) }
{
    match what {
        ReplyBody::QuoteSent(sent) => push_known(
            known,
            Known::Quote(OwnQuote {
                number: sent.quote,
                id,
            }),
        ),
        _ => Ok(()),
    }
}

/// Appends the quote that a reply sends to its requester, if the message is a quote.
fn push_quote(known: &mut Vec<Known>, app: &App, what: &ReplyBody) -> Result<(), AllocError>
    ensures { OnOk result (known.new.items ≡ known.old.items ++ quote_known (quoted_in app.now) what.now) }
{
    match quoted_in(app) {
        Some(id) => push_sent(known, id, what),
        None => Ok(()),
    }
}

/// The identifier (11) of the other side of a cross.
fn other_side(cross: &NewOrderCross, id: &Identifier) -> Identifier
    ensures { result ≡ other_side cross.now id.now }
{
    if id.is(&cross.first.order_id) {
        cross.second.order_id
    } else {
        cross.first.order_id
    }
}

fn push_entered(
    known: &mut Vec<Known>,
    cross: &NewOrderCross,
    who: Who,
    report: &OrderReport,
) -> Result<(), AllocError>
    ensures { OnOk result (known.new.items ≡ known.old.items ++ side_entered cross.now who report.now.id report.now.order) }
{
    match report.order {
        Some(order) => push_known(
            known,
            Known::Cross(CrossEntered {
                order,
                who,
                second: other_side(cross, &report.id),
                cross: cross.cross_id,
            }),
        ),
        None => Ok(()),
    }
}

fn push_side(
    known: &mut Vec<Known>,
    cross: &NewOrderCross,
    who: Who,
    what: &ReplyBody,
) -> Result<(), AllocError>
    ensures { OnOk result (known.new.items ≡ known.old.items ++ side_what cross.now who what.now) }
{
    match what {
        ReplyBody::OrderEntered(report) => push_entered(known, cross, who, report),
        _ => Ok(()),
    }
}

/// Appends the first side of a cross, if a reply reports that it entered.
fn push_cross(
    known: &mut Vec<Known>,
    app: &App,
    who: Who,
    what: &ReplyBody,
) -> Result<(), AllocError>
    ensures { OnOk result (known.new.items ≡ known.old.items ++ cross_known (crossed_in app.now) who what.now) }
{
    match app {
        App::NewOrderCross(cross) => push_side(known, cross, who, what),
        _ => Ok(()),
    }
}

#[tactic(auto, using(crate::proofs::Walking::both))]
fn push_known_by(known: &mut Vec<Known>, app: &App, reply: &Reply) -> Result<(), AllocError>
    ensures { OnOk result (known.new.items ≡ known.old.items ++ known_by app.now reply.now) }
{
    push_quote(known, app, &reply.what)?;
    push_cross(known, app, reply.to, &reply.what)
}

fn push_all_known(known: &mut Vec<Known>, app: &App, replies: &[Reply]) -> Result<(), AllocError>
    ensures { OnOk result (known.new.items ≡ known.old.items ++ flat_map (known_by app.now) replies.now) }
{
    for reply in replies {
        push_known_by(known, app, reply)?;
    }
    Ok(())
}

/// Appends what later trades are looked up in, by the replies to a message.
pub(crate) fn push_known_at(
    known: &mut Vec<Known>,
    taken: &Option<Taken>,
    replies: &[Reply],
) -> Result<(), AllocError>
    ensures { OnOk result (known.new.items ≡ known.old.items ++ known_at taken.now replies.now) }
{
    match taken {
        Some(taken) => push_all_known(known, taken.item.app.get(), replies),
        None => Ok(()),
    }
}

fn id_of(quote: &Identifier, known: &Known) -> Option<Identifier>
    ensures { result ≡ id_of quote.now known.now }
{
    match known {
        Known::Quote(own) => {
            if printed_identifier(b'Q', own.number).is(quote) {
                Some(own.id)
            } else {
                None
            }
        }
        Known::Cross(_) => None,
    }
}

/// The maker's own identifier of a quote, by the one that a message names.
fn own_id(known: &[Known], quote: &Identifier) -> Option<Identifier>
    ensures { result ≡ own_id known.now quote.now }
{
    for at in (0..known.len()).rev() {
        if let Some(id) = id_of(quote, &known[at]) {
            return Some(id);
        }
    }
    None
}

fn joins(cross: &CrossEntered, entering: &SideFilled, resting: &SideFilled) -> bool
    ensures { result ≡ joins cross.now entering.now resting.now }
{
    cross.order == resting.order
        && cross.who.place() == entering.who.place()
        && cross.second.is(&entering.id)
}

fn cross_of(entering: &SideFilled, resting: &SideFilled, known: &Known) -> Option<Identifier>
    ensures { result ≡ cross_of entering.now resting.now known.now }
{
    match known {
        Known::Cross(cross) => {
            if joins(cross, entering, resting) {
                Some(cross.cross)
            } else {
                None
            }
        }
        Known::Quote(_) => None,
    }
}

fn newest_cross(known: &[Known], entering: &SideFilled, resting: &SideFilled) -> Option<Identifier>
    ensures { result ≡ newest (cross_of entering.now resting.now) known.now }
{
    for at in (0..known.len()).rev() {
        if let Some(cross) = cross_of(entering, resting, &known[at]) {
            return Some(cross);
        }
    }
    None
}

/// The cross (548) whose two sides these are.
fn cross_joined(
    known: &[Known],
    at_tick: bool,
    entering: &SideFilled,
    resting: &SideFilled,
) -> Option<Identifier>
    ensures { result ≡ cross_joined known.now at_tick entering.now resting.now }
{
    if at_tick {
        newest_cross(known, entering, resting)
    } else {
        None
    }
}

fn side_filled(to: Who, report: &FilledReport) -> Option<SideFilled>
    ensures { result ≡ side_filled to report.now report.now.order.order }
{
    match report.order.order {
        Some(order) => Some(SideFilled {
            trade: report.trade,
            who: to,
            order,
            id: report.order.id,
            side: report.order.side,
        }),
        None => None,
    }
}

fn filled_by(reply: &Reply) -> Option<SideFilled>
    ensures { result ≡ filled_by reply.now }
{
    match &reply.what {
        ReplyBody::OrderFilled(report) => side_filled(reply.to, report),
        _ => None,
    }
}

fn push_execution(
    executions: &mut Vec<Execution>,
    row: &TrailRow,
    trade: u64,
    source: Source,
) -> Result<(), AllocError>
    ensures { OnOk result (executions.new.items ≡ executions.old.items ++ executed row.now trade source ∷ []) }
{
    // Types of an execution's content, named here because the proof of the push needs each.
    let _matched: Option<Matched> = None;
    let _hit: Option<QuoteHit> = None;
    let _filled: Option<SideFilled> = None;
    let _source: Option<Source> = None;
    let _side: Option<Side> = None;
    let _moment: Option<Moment> = None;
    let _name: Option<Identifier> = None;
    let _who: Option<Who> = None;
    let execution = Execution {
        trade,
        row: row.n,
        moment: row.moment,
        source,
    };
    match executions.push(execution) {
        Ok(()) => Ok(()),
        Err(_) => Err(AllocError),
    }
}

/// A row, its message, and what is known from the rows before it.
#[derive(Clone, Copy)]
pub(crate) struct At<'a> {
    pub row: &'a TrailRow,
    pub taken: &'a Option<Taken>,
    pub known: &'a [Known],
}

/// Appends a trade in the book, if two reports are on its two orders.
fn push_matched(
    executions: &mut Vec<Execution>,
    at: At<'_>,
    entering: &SideFilled,
    resting: &SideFilled,
) -> Result<(), AllocError>
    ensures { OnOk result (executions.new.items ≡ executions.old.items ++ if_matched at.entry.row.now at.entry.taken.now at.entry.known.now entering.now resting.now) }
{
    if entering.trade != resting.trade {
        return Ok(());
    }
    let at_tick = at.taken.is_none();
    let matched = Matched {
        entering: *entering,
        resting: *resting,
        at_tick,
        cross: cross_joined(at.known, at_tick, entering, resting),
    };
    push_execution(executions, at.row, resting.trade, Source::Book(matched))
}

fn push_book(
    executions: &mut Vec<Execution>,
    at: At<'_>,
    before: &Option<SideFilled>,
    now: &Option<SideFilled>,
) -> Result<(), AllocError>
    ensures { OnOk result (executions.new.items ≡ executions.old.items ++ book_made at.entry.row.now at.entry.taken.now at.entry.known.now before.now now.now) }
{
    match before {
        Some(entering) => match now {
            Some(resting) => push_matched(executions, at, entering, resting),
            None => Ok(()),
        },
        None => Ok(()),
    }
}

fn responded(app: &App) -> Option<Identifier>
    ensures { result ≡ responded app.now }
{
    match app {
        App::QuoteResponse(response) => Some(response.quote_id),
        _ => None,
    }
}

/// The quote that a message responds to.
fn responded_in(taken: &Option<Taken>) -> Option<Identifier>
    ensures { result ≡ responded_in taken.now }
{
    match taken {
        Some(taken) => responded(taken.item.app.get()),
        None => None,
    }
}

fn push_hit(
    executions: &mut Vec<Execution>,
    at: At<'_>,
    report: &RoomReport,
) -> Result<(), AllocError>
    ensures { OnOk result (executions.new.items ≡ executions.old.items ++ hit at.entry.row.now at.entry.known.now report.now report.now.response_id (responded_in at.entry.taken.now)) }
{
    if report.response_id.is_none() {
        return Ok(());
    }
    match responded_in(at.taken) {
        Some(quote) => {
            let hit = QuoteHit {
                quote,
                side: report.side,
                id: own_id(at.known, &quote),
            };
            push_execution(executions, at.row, report.trade, Source::Room(hit))
        }
        None => Ok(()),
    }
}

fn push_room(
    executions: &mut Vec<Execution>,
    at: At<'_>,
    what: &ReplyBody,
) -> Result<(), AllocError>
    ensures { OnOk result (executions.new.items ≡ executions.old.items ++ room_made at.entry.row.now at.entry.taken.now at.entry.known.now what.now) }
{
    match what {
        ReplyBody::RoomTraded(report) => push_hit(executions, at, report),
        _ => Ok(()),
    }
}

/// Appends the trades that a reply reports, behind a report of a fill.
#[tactic(auto, using(crate::proofs::Walking::both))]
fn push_made_by(
    executions: &mut Vec<Execution>,
    at: At<'_>,
    before: &Option<SideFilled>,
    reply: &Reply,
) -> Result<(), AllocError>
    ensures { OnOk result (executions.new.items ≡ executions.old.items ++ made_by at.entry.row.now at.entry.taken.now at.entry.known.now before.now reply.now) }
{
    push_book(executions, at, before, &filled_by(reply))?;
    push_room(executions, at, &reply.what)
}

/// Appends how each trade was made that the replies at a row report.
pub(crate) fn push_made_at(
    executions: &mut Vec<Execution>,
    at: At<'_>,
    replies: &[Reply],
) -> Result<(), AllocError>
    ensures { OnOk result (executions.new.items ≡ executions.old.items ++ made_at at.entry.row.now at.entry.taken.now at.entry.known.now replies.now) }
{
    let mut before = None;
    for reply in replies {
        push_made_by(executions, at, &before, reply)?;
        before = filled_by(reply);
    }
    Ok(())
}
