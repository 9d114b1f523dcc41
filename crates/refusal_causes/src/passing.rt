//! From when on the cause of a refusal no longer holds, and the answer then.

ghost use Rattle.std.specs.Prelude.{◌≡◌, ◌≤◌, ◌++◌, ◌-◌, OnOk};
ghost use Rattle.std.specs.List.{flat_map};
ghost use Rattle.fix_dictionary.specs.Text.{given};
ghost use Rattle.instruments.specs.Listing.{delay_of, instrument_of};
ghost use Rattle.message_words.specs.Parts.{parts_text};
ghost use Rattle.venue_rules.specs.Answers.{answer};
ghost use Rattle.venue_rules.specs.Facts.{History};
ghost use Rattle.venue_core.specs.Plan.{most_items};
ghost use Rattle.venue_core.specs.State.{standing};
ghost use Rattle.venue_core.specs.VenueFacts.{IsHistory};
ghost use Rattle.row_replay.specs.Inputs.{input_of};
ghost use Rattle.refusal_causes.specs.Linking.{link_lines};
ghost use Rattle.refusal_causes.specs.Printed.{is_number, known_lines, linked_lines, linked_parts, met_lines, met_number, met_order, met_said, met_what, passing_lines, passing_parts, passing_text, relation, then_lines, then_number, then_said, then_symbol};

use crate::linking::append_link;
use fix_dictionary::Identifier;
use instruments::Instruments;
use message_words::{Part, Value, append_parts, bytes, number, words_of};
use participants::{Participants, Who};
use sef_moment::Moment;
use std::alloc::{AllocError, Global};
use trade_blotter::name_at;
use venue_core::{Venue, message_of};
use venue_rules::{Reply, ReplyBody, Taken};

macro_rules! part {
    ($before:expr, $value:expr) => {
        Part {
            before: $before,
            value: $value,
        }
    };
}

/// The instrument of an order that enters or is refused.
fn then_symbol(what: &ReplyBody) -> Option<Identifier>
    ensures { result ≡ then_symbol what.now }
{
    match what {
        ReplyBody::OrderEntered(report) => Some(report.symbol),
        ReplyBody::OrderReplaced(report) => Some(report.order.symbol),
        ReplyBody::OrderRefused(report) => Some(report.order.symbol),
        ReplyBody::CrossRefused(report) => Some(report.order.symbol),
        _ => None,
    }
}

/// The number of an order that enters.
fn then_number(what: &ReplyBody) -> Option<u64>
    ensures { result ≡ then_number what.now }
{
    match what {
        ReplyBody::OrderEntered(report) => report.order,
        ReplyBody::OrderReplaced(report) => report.order.order,
        _ => None,
    }
}

fn is_number(a: Option<u64>, b: Option<u64>) -> bool
    ensures { result ≡ is_number a b }
{
    let Some(a) = a else {
        return false;
    };
    let Some(b) = b else {
        return false;
    };
    a == b
}

fn relation(participants: &Participants, who: Who, to: Who) -> &'static [u8]
    ensures { result.now ≡ relation participants.now who to }
{
    if who.place() == to.place() {
        return b", the sender itself";
    }
    if participants.related(who, to) {
        b", who is related to the sender"
    } else {
        b", who is not related to the sender"
    }
}

fn append_met_said<'a>(
    alloc: Global,
    text: &mut Vec<u8>,
    order: u64,
    name: &'a [u8],
    relation: &'a [u8],
) -> Result<(), AllocError>
    ensures { OnOk result (text.new.items ≡ text.old.items ++ parts_text (met_said order name.now relation.now)) }
{
    append_parts(
        alloc,
        text,
        &[
            part!(b"\n    it would trade with O", number(order)),
            part!(b" of ", bytes(name)),
            part!(b"", bytes(relation)),
        ],
    )
}

fn append_met_number(
    alloc: Global,
    text: &mut Vec<u8>,
    participants: &Participants,
    who: Who,
    to: Who,
    order: Option<u64>,
) -> Result<(), AllocError>
    ensures { OnOk result (text.new.items ≡ text.old.items ++ met_number participants.now who to order) }
{
    match order {
        None => Ok(()),
        Some(order) => append_met_said(
            alloc,
            text,
            order,
            name_at(participants, to),
            relation(participants, who, to),
        ),
    }
}

fn append_met_order(
    alloc: Global,
    text: &mut Vec<u8>,
    participants: &Participants,
    who: Who,
    to: Who,
    entering: Option<u64>,
    order: Option<u64>,
) -> Result<(), AllocError>
    ensures { OnOk result (text.new.items ≡ text.old.items ++ met_order participants.now who to entering order) }
{
    if is_number(entering, order) {
        return Ok(());
    }
    append_met_number(alloc, text, participants, who, to, order)
}

/// Appends the order of a reply that reports a trade of it, but for the entering order itself.
fn append_met(
    alloc: Global,
    text: &mut Vec<u8>,
    participants: &Participants,
    who: Who,
    entering: Option<u64>,
    reply: &Reply,
) -> Result<(), AllocError>
    ensures { OnOk result (text.new.items ≡ text.old.items ++ met_lines participants.now who entering reply.now) }
{
    match &reply.what {
        ReplyBody::OrderFilled(filled) => append_met_order(
            alloc,
            text,
            participants,
            who,
            reply.to,
            entering,
            filled.order.order,
        ),
        _ => Ok(()),
    }
}

fn append_all_met(
    alloc: Global,
    text: &mut Vec<u8>,
    participants: &Participants,
    who: Who,
    entering: Option<u64>,
    replies: &[Reply],
) -> Result<(), AllocError>
    ensures { OnOk result (text.new.items ≡ text.old.items ++ flat_map (met_lines participants.now who entering) replies.now) }
{
    for reply in replies {
        append_met(alloc, text, participants, who, entering, reply)?;
    }
    Ok(())
}

/// The delay of a symbol's instrument, in milliseconds; 0 where there is none.
fn delay_for(instruments: &Instruments, symbol: &Identifier) -> u64
    ensures { result ≡ delay_of instruments.now (instrument_of instruments.now symbol.now) }
{
    match instruments.find(symbol.as_slice()) {
        Some(place) => instruments.delay(place),
        None => 0,
    }
}

/// The moment this many milliseconds before; at the earliest the first of 1970.
fn before(moment: Moment, milliseconds: u64) -> Moment
    ensures { result ≡ moment - milliseconds }
{
    match Moment::of_ms(moment.ms().saturating_sub(milliseconds)) {
        Some(moment) => moment,
        None => moment,
    }
}

/// The milliseconds from a moment to a later one.
fn apart(later: Moment, earlier: Moment) -> u64
    ensures { result ≡ later - earlier }
{
    later.ms().saturating_sub(earlier.ms())
}

fn append_linked_parts(
    alloc: Global,
    text: &mut Vec<u8>,
    moment: Moment,
    entered: Moment,
    delay: u64,
    symbol: &Identifier,
) -> Result<(), AllocError>
    ensures { OnOk result (text.new.items ≡ text.old.items ++ parts_text (linked_parts moment entered delay symbol.now)) }
{
    append_parts(
        alloc,
        text,
        &[
            part!(
                b"\n    the last linked order that it would trade with entered at ",
                Some(Value::Moment(entered))
            ),
            part!(b", ", number(apart(moment, entered))),
            part!(b" ms before; ", bytes(symbol.as_slice())),
            part!(b" asks for ", number(delay)),
            part!(b" ms", bytes(b"")),
        ],
    )
}

/// Appends when the last linked order entered that a message would trade with: the delay before it no longer would be
/// too soon.
fn append_linked(
    alloc: Global,
    text: &mut Vec<u8>,
    instruments: &Instruments,
    moment: Moment,
    passes: Moment,
    symbol: Option<Identifier>,
) -> Result<(), AllocError>
    ensures { OnOk result (text.new.items ≡ text.old.items ++ linked_lines instruments.now moment passes symbol) }
{
    match symbol {
        None => Ok(()),
        Some(symbol) => {
            let delay = delay_for(instruments, &symbol);
            let entered = before(passes, delay);
            append_linked_parts(alloc, text, moment, entered, delay, &symbol)
        }
    }
}

fn append_passing_parts(
    alloc: Global,
    text: &mut Vec<u8>,
    moment: Moment,
    passes: Moment,
) -> Result<(), AllocError>
    ensures { OnOk result (text.new.items ≡ text.old.items ++ parts_text (passing_parts moment passes)) }
{
    append_parts(
        alloc,
        text,
        &[
            part!(b"\n    no longer so from ", Some(Value::Moment(passes))),
            part!(b" on, ", number(apart(passes, moment))),
            part!(
                b" ms later, as the book stands before this row; the answer would then be:",
                bytes(b"")
            ),
        ],
    )
}

fn append_then_said<'a>(
    alloc: Global,
    out: &mut Vec<u8>,
    to: &'a [u8],
    said: &'a [u8],
) -> Result<(), AllocError>
    ensures { OnOk result (out.new.items ≡ out.old.items ++ parts_text (then_said to.now said.now)) }
{
    append_parts(
        alloc,
        out,
        &[part!(b"\n    to ", bytes(to)), part!(b": ", bytes(said))],
    )
}

fn append_then(
    alloc: Global,
    text: &mut Vec<u8>,
    participants: &Participants,
    reply: &Reply,
) -> Result<(), AllocError>
    ensures { OnOk result (text.new.items ≡ text.old.items ++ then_lines participants.now reply.now) }
{
    let app = message_of(alloc, reply)?;
    let said = words_of(alloc, &app)?;
    append_then_said(alloc, text, name_at(participants, reply.to), &said)
}

fn append_all_then(
    alloc: Global,
    text: &mut Vec<u8>,
    participants: &Participants,
    replies: &[Reply],
) -> Result<(), AllocError>
    ensures { OnOk result (text.new.items ≡ text.old.items ++ flat_map (then_lines participants.now) replies.now) }
{
    for reply in replies {
        append_then(alloc, text, participants, reply)?;
    }
    Ok(())
}

/// Appends from when on a cause no longer holds, with the replies of the answer then, of which this is the first.
fn append_known_lines(
    alloc: Global,
    text: &mut Vec<u8>,
    participants: &Participants,
    instruments: &Instruments,
    who: Who,
    moment: Moment,
    passes: Moment,
    what: &ReplyBody,
    replies: &[Reply],
) -> Result<(), AllocError>
    ensures { OnOk result (text.new.items ≡ text.old.items ++ known_lines participants.now instruments.now who moment passes what.now replies.now) }
{
    let entering = then_number(what);
    append_all_met(alloc, text, participants, who, entering, replies)?;
    append_linked(alloc, text, instruments, moment, passes, then_symbol(what))?;
    append_passing_parts(alloc, text, moment, passes)?;
    append_all_then(alloc, text, participants, replies)
}

/// Appends from when on a cause no longer holds, with the replies of the answer then.
fn append_passing_lines(
    alloc: Global,
    text: &mut Vec<u8>,
    participants: &Participants,
    instruments: &Instruments,
    who: Who,
    moment: Moment,
    passes: Moment,
    replies: &[Reply],
) -> Result<(), AllocError>
    ensures { OnOk result (text.new.items ≡ text.old.items ++ passing_lines participants.now instruments.now who moment passes replies.now) }
{
    match replies.split_first() {
        None => append_passing_parts(alloc, text, moment, passes),
        Some((first, _)) => append_known_lines(
            alloc,
            text,
            participants,
            instruments,
            who,
            moment,
            passes,
            &first.what,
            replies,
        ),
    }
}

fn append_message_passing(
    alloc: Global,
    text: &mut Vec<u8>,
    venue: &mut Venue,
    taken: &Taken,
    moment: Moment,
    passes: Moment,
) -> Result<(), AllocError>
    requires few { venue.old.items ≤ most_items }
    ensures market { venue.new.market ≡ venue.old.market }
    ensures day { standing venue.new.day ≡ standing venue.old.day }
    ensures items { venue.new.items ≡ venue.old.items }
    ensures text { (h : History) → IsHistory venue.old h → OnOk result (text.new.items ≡ text.old.items ++ passing_lines venue.old.market.participants venue.old.market.instruments taken.now.from moment passes (answer venue.old.market h taken.now passes).replies) }
{
    let plan = venue.plan(taken, passes)?;
    append_passing_lines(
        alloc,
        text,
        venue.participants(),
        venue.instruments(),
        taken.from,
        moment,
        passes,
        plan.replies(),
    )?;
    drop(plan);
    Ok(())
}

/// Appends which link alone is the cause, if one is; and from when on it no longer holds.
fn append_linked_passing(
    alloc: Global,
    text: &mut Vec<u8>,
    venue: &mut Venue,
    taken: &Taken,
    moment: Moment,
    passes: Moment,
) -> Result<(), AllocError>
    requires few { venue.old.items ≤ most_items }
    ensures market { venue.new.market ≡ venue.old.market }
    ensures day { standing venue.new.day ≡ standing venue.old.day }
    ensures items { venue.new.items ≡ venue.old.items }
    ensures text { (h : History) → IsHistory venue.old h → OnOk result (text.new.items ≡ text.old.items ++ (link_lines venue.old.market h taken.now moment
        ++ passing_lines venue.old.market.participants venue.old.market.instruments taken.now.from moment passes (answer venue.old.market h taken.now passes).replies)) }
{
    append_link(alloc, text, venue, taken, moment)?;
    append_message_passing(alloc, text, venue, taken, moment, passes)
}

/// Appends from when on the cause of a message no longer holds, if it ends by time alone.
pub(crate) fn append_passing(
    alloc: Global,
    text: &mut Vec<u8>,
    venue: &mut Venue,
    taken: &Option<Taken>,
    moment: Moment,
    passes: Option<Moment>,
) -> Result<(), AllocError>
    requires few { venue.old.items ≤ most_items }
    ensures market { venue.new.market ≡ venue.old.market }
    ensures day { standing venue.new.day ≡ standing venue.old.day }
    ensures items { venue.new.items ≡ venue.old.items }
    ensures text { (h : History) → IsHistory venue.old h → OnOk result (text.new.items ≡ text.old.items ++ passing_text venue.old.market h (input_of taken.now moment) passes) }
{
    let Some(passes) = passes else {
        return Ok(());
    };
    match taken {
        None => Ok(()),
        Some(taken) => append_linked_passing(alloc, text, venue, taken, moment, passes),
    }
}
