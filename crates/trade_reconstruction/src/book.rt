//! The evidence for a trade in the book.

ghost use Rattle.std.specs.Prelude.{◌≡◌, ◌++◌, OnOk};
ghost use Rattle.venue_rules.specs.Book.{is_same_link};
ghost use Rattle.trade_reconstruction.specs.Lines.{apart_line, are_linked, book_lines, both_lines, entries_linked, entry_lines, held_line, hold_lines, link_id, link_line, linked_line, linked_text, named_line, order_id_line, order_line, order_terms, original_line, orders_lines, price_if, side_text, sides_line, sides_lines, together_lines};

use crate::entry::{Both, Entry, entry_of, hold_of};
use crate::events::Events;
use crate::evidence_event::{EventKind, EvidenceEvent, Linked};
use crate::finding::{Query, filled_order};
use crate::rested::append_standing;
use crate::room::{append_at, append_id, append_moment, append_pair, append_quantity};
use crate::sent::{append_row, append_sent_row};
use fix_dictionary::{Identifier, Price, Side};
use participants::{Participants, Who};
use sef_moment::Moment;
use std::alloc::{AllocError, Global};
use trade_blotter::{append, append_number, append_price, name_at};
use venue_rules::TrailRow;

fn side_text(side: Side) -> &'static [u8]
    ensures { result.now ≡ side_text side }
{
    match side {
        Side::Buy => b" to buy ",
        Side::Sell => b" to sell ",
    }
}

fn append_price_if(
    alloc: Global,
    text: &mut Vec<u8>,
    price: Option<Price>,
) -> Result<(), AllocError>
    ensures { OnOk result (text.new.items ≡ text.old.items ++ price_if price) }
{
    match price {
        Some(price) => {
            append(text, &[b" @ "])?;
            append_price(alloc, text, price)
        }
        None => Ok(()),
    }
}

fn append_terms(
    alloc: Global,
    text: &mut Vec<u8>,
    participants: &Participants,
    entry: &Entry,
) -> Result<(), AllocError>
    ensures { OnOk result (text.new.items ≡ text.old.items ++ order_terms participants.now entry.now) }
{
    let entered = &entry.entered;
    let name = name_at(participants, entry.to);
    append_number(text, b"order O", entered.order)?;
    append(text, &[b" of ", name])?;
    let side = side_text(entered.side);
    append_quantity(text, side, entered.quantity.get(), &entered.symbol)?;
    append_price_if(alloc, text, entered.price)?;
    append_at(text, entry.moment, entry.row)
}

/// Appends a participant's own identifier of its order.
fn append_order_id(
    text: &mut Vec<u8>,
    participants: &Participants,
    rows: &[TrailRow],
    entry: &Entry,
) -> Result<(), AllocError>
    ensures { OnOk result (text.new.items ≡ text.old.items ++ order_id_line rows.now participants.now entry.now) }
{
    append_id(
        text,
        b"O",
        entry.entered.order,
        b" has the ClOrdID ",
        &entry.entered.id,
    )?;
    append_sent_row(text, rows, participants, entry.row)
}

/// Appends an order, and its identifier.
fn append_order(
    alloc: Global,
    text: &mut Vec<u8>,
    participants: &Participants,
    rows: &[TrailRow],
    entry: &Entry,
) -> Result<(), AllocError>
    ensures { OnOk result (text.new.items ≡ text.old.items ++ order_line rows.now participants.now entry.now) }
{
    append_terms(alloc, text, participants, entry)?;
    append_order_id(text, participants, rows, entry)
}

/// Appends the line of an order with an identifier.
fn append_named(
    text: &mut Vec<u8>,
    order: u64,
    said: &[u8],
    id: &Identifier,
    row: u64,
) -> Result<(), AllocError>
    ensures { OnOk result (text.new.items ≡ text.old.items ++ named_line order said.now id.now row) }
{
    append_number(text, b"O", order)?;
    append(text, &[said, id.as_slice()])?;
    append_row(text, row)
}

/// Appends the link of an order, if it has one, with the row of the message that carried it.
fn append_link(text: &mut Vec<u8>, order: u64, link: &Option<Linked>) -> Result<(), AllocError>
    ensures { OnOk result (text.new.items ≡ text.old.items ++ link_line order link.now) }
{
    match link {
        Some(linked) => append_named(text, order, b" carries the link ", &linked.link, linked.row),
        None => Ok(()),
    }
}

/// Appends the identifier of the order that an order replaces, if it replaces one.
fn append_original(
    text: &mut Vec<u8>,
    order: u64,
    original: &Option<Identifier>,
    row: u64,
) -> Result<(), AllocError>
    ensures { OnOk result (text.new.items ≡ text.old.items ++ original_line order original.now row) }
{
    match original {
        Some(id) => append_named(
            text,
            order,
            b" takes the place, for 38 less what was filled before, of the order with the identifier ",
            id,
            row,
        ),
        None => Ok(()),
    }
}

/// Appends that an order was held, from when on and for how long.
fn append_held(
    text: &mut Vec<u8>,
    participants: &Participants,
    rows: &[TrailRow],
    order: u64,
    word: &EvidenceEvent,
) -> Result<(), AllocError>
    ensures { OnOk result (text.new.items ≡ text.old.items ++ held_line rows.now participants.now order word.now) }
{
    match &word.said {
        EventKind::Held(held) => {
            append_number(text, b"O", order)?;
            append(
                text,
                &[
                    b" was held as the second side of cross ",
                    held.cross.as_slice(),
                ],
            )?;
            append_number(text, b" for ", held.delay)?;
            append_moment(text, b" ms from ", word.moment)?;
            append_sent_row(text, rows, participants, word.row)
        }
        _ => Ok(()),
    }
}

/// Appends that an order was held before it entered, if it entered at a tick.
fn append_hold(
    text: &mut Vec<u8>,
    participants: &Participants,
    rows: &[TrailRow],
    words: &Events,
    entry: &Entry,
) -> Result<(), AllocError>
    ensures { OnOk result (text.new.items ≡ text.old.items ++ hold_lines rows.now participants.now words.now entry.now) }
{
    if !entry.entered.at_tick {
        return Ok(());
    }
    match hold_of(words, entry.to, &entry.entered) {
        Some(hold) => append_held(text, participants, rows, entry.entered.order, hold),
        None => Ok(()),
    }
}

/// Appends the lines of an order's entry.
#[tactic(auto, unfolding(crate::specs::Lines::entry_lines))]
fn append_entry(
    alloc: Global,
    text: &mut Vec<u8>,
    participants: &Participants,
    rows: &[TrailRow],
    words: &Events,
    entry: &Entry,
) -> Result<(), AllocError>
    ensures { OnOk result (text.new.items ≡ text.old.items ++ entry_lines rows.now participants.now words.now entry.now) }
{
    let order = entry.entered.order;
    append_order(alloc, text, participants, rows, entry)?;
    append_link(text, order, &entry.entered.link)?;
    append_original(text, order, &entry.entered.original, entry.row)?;
    append_hold(text, participants, rows, words, entry)
}

/// Appends the time between the entries of two orders.
fn append_apart(
    text: &mut Vec<u8>,
    earlier: Moment,
    later: Moment,
    row: u64,
) -> Result<(), AllocError>
    ensures { OnOk result (text.new.items ≡ text.old.items ++ apart_line earlier later row) }
{
    let apart = later.ms().saturating_sub(earlier.ms());
    append_number(text, b"entered ", apart)?;
    append(text, &[b" ms apart"])?;
    append_row(text, row)
}

fn is_same_link(one: &Option<Identifier>, other: &Option<Identifier>) -> bool
    ensures { result ≡ is_same_link one.now other.now }
{
    match one {
        Some(one) => match other {
            Some(other) => one.is(other),
            None => false,
        },
        None => false,
    }
}

/// Whether two orders are linked: of one participant or of related ones, or by a link that both carry.
fn are_linked(
    participants: &Participants,
    one: Who,
    link: &Option<Identifier>,
    other: Who,
    other_link: &Option<Identifier>,
) -> bool
    ensures { result ≡ are_linked participants.now one link.now other other_link.now }
{
    one.place() == other.place()
        || (participants.related(one, other) || is_same_link(link, other_link))
}

/// The identifier of a link.
fn link_id(link: &Option<Linked>) -> Option<Identifier>
    ensures { result ≡ link_id link.now }
{
    match link {
        Some(linked) => Some(linked.link),
        None => None,
    }
}

fn entries_linked(participants: &Participants, one: &Entry, other: &Entry) -> bool
    ensures { result ≡ entries_linked participants.now one.now other.now }
{
    are_linked(
        participants,
        one.to,
        &link_id(&one.entered.link),
        other.to,
        &link_id(&other.entered.link),
    )
}

fn linked_text(linked: bool) -> &'static [u8]
    ensures { result.now ≡ linked_text linked }
{
    if linked {
        b" are linked"
    } else {
        b" are not linked"
    }
}

/// Appends whether two orders are linked.
fn append_linked(
    text: &mut Vec<u8>,
    participants: &Participants,
    both: &Both,
) -> Result<(), AllocError>
    ensures { OnOk result (text.new.items ≡ text.old.items ++ linked_line participants.now both.now) }
{
    let linked = entries_linked(participants, &both.resting, &both.entering);
    append_number(text, b"O", both.resting.entered.order)?;
    append_number(text, b" and O", both.entering.entered.order)?;
    append(text, &[linked_text(linked)])?;
    append_row(text, both.row)
}

/// Appends that two orders are the sides of one cross, by the event at which the second was held.
fn append_sides_of(
    text: &mut Vec<u8>,
    participants: &Participants,
    rows: &[TrailRow],
    both: &Both,
    hold: &EvidenceEvent,
) -> Result<(), AllocError>
    ensures { OnOk result (text.new.items ≡ text.old.items ++ sides_line rows.now participants.now both.now hold.now) }
{
    match &hold.said {
        EventKind::Held(held) => {
            append_number(text, b"O", both.resting.entered.order)?;
            append_number(text, b" and O", both.entering.entered.order)?;
            append(
                text,
                &[b" are the two sides of cross ", held.cross.as_slice()],
            )?;
            append_sent_row(text, rows, participants, hold.row)
        }
        _ => Ok(()),
    }
}

/// Appends that two orders are the sides of one cross, if they are.
fn append_sides(
    text: &mut Vec<u8>,
    participants: &Participants,
    rows: &[TrailRow],
    words: &Events,
    both: &Both,
) -> Result<(), AllocError>
    ensures { OnOk result (text.new.items ≡ text.old.items ++ sides_lines rows.now participants.now words.now both.now) }
{
    if !both.entering.entered.at_tick {
        return Ok(());
    }
    match hold_of(words, both.entering.to, &both.entering.entered) {
        Some(hold) => {
            if hold.row == both.resting.row {
                append_sides_of(text, participants, rows, both, hold)
            } else {
                Ok(())
            }
        }
        None => Ok(()),
    }
}

/// Appends the lines of what rested before the resting order, and of both orders together.
#[tactic(auto, unfolding(crate::specs::Lines::together_lines))]
fn append_together(
    alloc: Global,
    text: &mut Vec<u8>,
    participants: &Participants,
    rows: &[TrailRow],
    words: &Events,
    stood: &[EvidenceEvent],
    both: &Both,
) -> Result<(), AllocError>
    ensures { OnOk result (text.new.items ≡ text.old.items ++ together_lines rows.now participants.now words.now stood.now both.now) }
{
    append_standing(alloc, text, words, stood)?;
    append_pair(
        text,
        participants,
        both.resting.to,
        both.entering.to,
        both.row,
    )?;
    append_sides(text, participants, rows, words, both)?;
    append_linked(text, participants, both)?;
    append_apart(text, both.resting.moment, both.entering.moment, both.row)
}

/// Appends the lines of both orders, the resting one first, and of both together.
fn append_both(
    alloc: Global,
    text: &mut Vec<u8>,
    participants: &Participants,
    rows: &[TrailRow],
    words: &Events,
    stood: &[EvidenceEvent],
    both: &Both,
) -> Result<(), AllocError>
    ensures { OnOk result (text.new.items ≡ text.old.items ++ both_lines rows.now participants.now words.now stood.now both.now) }
{
    append_entry(alloc, text, participants, rows, words, &both.resting)?;
    append_entry(alloc, text, participants, rows, words, &both.entering)?;
    append_together(alloc, text, participants, rows, words, stood, both)
}

/// Appends the lines of two orders.
#[tactic(auto, unfolding(crate::specs::Lines::orders_lines))]
fn append_orders(
    alloc: Global,
    text: &mut Vec<u8>,
    participants: &Participants,
    rows: &[TrailRow],
    words: &Events,
    stood: &[EvidenceEvent],
    resting: u64,
    entering: u64,
    row: u64,
) -> Result<(), AllocError>
    ensures { OnOk result (text.new.items ≡ text.old.items ++ orders_lines rows.now participants.now words.now stood.now resting entering row) }
{
    match entry_of(words, resting) {
        None => Ok(()),
        Some(resting) => match entry_of(words, entering) {
            None => Ok(()),
            Some(entering) => {
                let both = Both {
                    resting,
                    entering,
                    row,
                };
                append_both(alloc, text, participants, rows, words, stood, &both)
            }
        },
    }
}

/// Appends the lines of a trade in the book: the resting order, the entering one, what rested before the resting one,
/// their participants, whether they are the sides of one cross, whether they are linked, and the time between their
/// entries.
pub(crate) fn append_book(
    alloc: Global,
    text: &mut Vec<u8>,
    participants: &Participants,
    rows: &[TrailRow],
    words: &Events,
    stood: &[EvidenceEvent],
    trade: u64,
    row: u64,
) -> Result<(), AllocError>
    ensures { OnOk result (text.new.items ≡ text.old.items ++ book_lines rows.now participants.now words.now stood.now trade row) }
{
    match filled_order(words, &Query::Fill(trade)) {
        None => Ok(()),
        Some(entering) => match filled_order(words, &Query::OtherFill(trade, entering)) {
            None => Ok(()),
            Some(resting) => {
                append_orders(
                    alloc,
                    text,
                    participants,
                    rows,
                    words,
                    stood,
                    resting,
                    entering,
                    row,
                )
            }
        },
    }
}
