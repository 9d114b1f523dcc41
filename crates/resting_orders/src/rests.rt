//! What rests, is held, is open or is live after the rows of a day, participant by participant.

ghost use Rattle.std.specs.Prelude.{◌≡◌, ◌≢◌, ◌++◌, ◌≤◌, All, filter, length, IfErr, IfOk, OnOk};
ghost use Rattle.std.specs.Io.KnownBytes.{Appends, Keeps};
ghost use Rattle.instruments.specs.Listing.{instrument_of};
ghost use Rattle.participants.specs.Relations.{name_of};
ghost use Rattle.venue_rules.specs.Facts.{History};
ghost use Rattle.venue_core.specs.Plan.{most_items};
ghost use Rattle.venue_core.specs.Replay.{IsItem};
ghost use Rattle.venue_core.specs.State.{standing};
ghost use Rattle.venue_core.specs.VenueFacts.{IsHistory};
ghost use Rattle.resting_orders.specs.declared.fault.BookFault.TheVariants.{Memory, NoInstrument};
ghost use Rattle.resting_orders.specs.Resting.{books_shown};
ghost use Rattle.resting_orders.specs.Rests.{EmitsRests, IsRests, end_of, is_order_of, is_quote_of, is_request_of, is_side_of, owned_text, participant_text, participants_text, rests_text, wanted_text};

use crate::asking::{Request, still_open};
use crate::book::{last_moment, write_text};
use crate::fault::BookFault;
use crate::form::Form;
use crate::laws::kept_quotes_agree;
use crate::live::push_live_at;
use crate::noted::EnteredOrder;
use crate::quoting::OwnQuote;
use crate::replaying::replay_rows;
use crate::rested::{RestedOrder, push_book};
use crate::rests_text::{
    Counts, DayEnd, Page, append_head, append_orders, append_owner_heading, append_quotes,
    append_requests, append_sides,
};
use instruments::Instruments;
use participants::{Participants, Who};
use row_replay::rows_have_their_inputs;
use sef_moment::Moment;
use std::alloc::{AllocError, Global};
use std::io::Write;
use trade_blotter::name_at;
use venue_core::Venue;
use venue_rules::{HeldSide, TrailRow, every_report_is_numbered, symbol_of};

/// All that rests, in the order of the books, all that is held, in order of arrival, every request that is open, and
/// every quote that is live.
#[derive(Clone, Copy)]
pub struct Found<'a> {
    pub orders: &'a [RestedOrder],
    pub held: &'a [HeldSide],
    pub requests: &'a [Request],
    pub quotes: &'a [OwnQuote],
}

fn orders_of(
    alloc: Global,
    orders: &[RestedOrder],
    who: Who,
) -> Result<Vec<RestedOrder>, AllocError>
    ensures { IfOk result (λ v. v.items ≡ filter (is_order_of who) orders.now) }
{
    let mut owned = Vec::new(alloc);
    for order in orders {
        if order.owner == who {
            if owned.push(*order).is_err() {
                return Err(AllocError);
            }
        }
    }
    Ok(owned)
}

fn sides_of(alloc: Global, held: &[HeldSide], who: Who) -> Result<Vec<HeldSide>, AllocError>
    ensures { IfOk result (λ v. v.items ≡ filter (is_side_of who) held.now) }
{
    let mut owned = Vec::new(alloc);
    for side in held {
        if side.order.who == who {
            if owned.push(*side).is_err() {
                return Err(AllocError);
            }
        }
    }
    Ok(owned)
}

fn requests_of(alloc: Global, requests: &[Request], who: Who) -> Result<Vec<Request>, AllocError>
    ensures { IfOk result (λ v. v.items ≡ filter (is_request_of who) requests.now) }
{
    let mut owned = Vec::new(alloc);
    for request in requests {
        if request.requester == who {
            if owned.push(*request).is_err() {
                return Err(AllocError);
            }
        }
    }
    Ok(owned)
}

fn quotes_of(alloc: Global, quotes: &[OwnQuote], who: Who) -> Result<Vec<OwnQuote>, AllocError>
    ensures { IfOk result (λ v. v.items ≡ filter (is_quote_of who) quotes.now) }
{
    let mut owned = Vec::new(alloc);
    for quote in quotes {
        if quote.maker == who {
            if owned.push(*quote).is_err() {
                return Err(AllocError);
            }
        }
    }
    Ok(owned)
}

/// Appends what a participant has.
fn append_owned(
    alloc: Global,
    text: &mut Vec<u8>,
    page: &Page<'_>,
    who: Who,
    owned: &Found<'_>,
) -> Result<(), AllocError>
    ensures { OnOk result (text.new.items ≡ text.old.items ++ owned_text page.now.form page.now.participants.now page.now.instruments.now page.now.end who (record { orders = owned.now.orders.now; held = owned.now.held.now; requests = owned.now.requests.now; quotes = owned.now.quotes.now })) }
{
    let counts = Counts {
        orders: owned.orders.len() as u64,
        sides: owned.held.len() as u64,
        requests: owned.requests.len() as u64,
        quotes: owned.quotes.len() as u64,
    };
    let name = name_at(page.participants, who);
    append_owner_heading(alloc, text, page.form, name, &counts)?;
    append_orders(alloc, text, page, who, owned.orders)?;
    append_sides(alloc, text, page, who, owned.held)?;
    append_requests(alloc, text, page, who, owned.requests)?;
    append_quotes(alloc, text, page, who, owned.quotes)
}

/// Appends what a participant has of all that was found.
fn append_participant(
    alloc: Global,
    text: &mut Vec<u8>,
    page: &Page<'_>,
    found: &Found<'_>,
    who: Who,
) -> Result<(), AllocError>
    ensures { OnOk result (text.new.items ≡ text.old.items ++ participant_text page.now.form page.now.participants.now page.now.instruments.now page.now.end (record { orders = found.now.orders.now; held = found.now.held.now; requests = found.now.requests.now; quotes = found.now.quotes.now }) who) }
{
    let orders = orders_of(alloc, found.orders, who)?;
    let held = sides_of(alloc, found.held, who)?;
    let requests = requests_of(alloc, found.requests, who)?;
    let quotes = quotes_of(alloc, found.quotes, who)?;
    let owned = Found {
        orders: &orders,
        held: &held,
        requests: &requests,
        quotes: &quotes,
    };
    append_owned(alloc, text, page, who, &owned)
}

/// Appends what each participant has, in the order of the file.
fn append_participants(
    alloc: Global,
    text: &mut Vec<u8>,
    page: &Page<'_>,
    found: &Found<'_>,
) -> Result<(), AllocError>
    ensures { OnOk result (text.new.items ≡ text.old.items ++ participants_text page.now.form page.now.participants.now page.now.instruments.now page.now.end (record { orders = found.now.orders.now; held = found.now.held.now; requests = found.now.requests.now; quotes = found.now.quotes.now }) (length page.now.participants.now.names)) }
{
    for place in 0..page.participants.len() {
        append_participant(alloc, text, page, found, Who::of(place as u32))?;
    }
    Ok(())
}

fn append_wanted(
    alloc: Global,
    text: &mut Vec<u8>,
    page: &Page<'_>,
    found: &Found<'_>,
    who: Option<Who>,
) -> Result<(), AllocError>
    ensures { OnOk result (text.new.items ≡ text.old.items ++ wanted_text page.now.form page.now.participants.now page.now.instruments.now page.now.end (record { orders = found.now.orders.now; held = found.now.held.now; requests = found.now.requests.now; quotes = found.now.quotes.now }) who) }
{
    match who {
        Some(who) => append_participant(alloc, text, page, found, who),
        None => append_participants(alloc, text, page, found),
    }
}

fn append_rests(
    alloc: Global,
    text: &mut Vec<u8>,
    page: &Page<'_>,
    found: &Found<'_>,
    who: Option<Who>,
) -> Result<(), AllocError>
    ensures { OnOk result (text.new.items ≡ text.old.items ++ rests_text page.now.form page.now.participants.now page.now.instruments.now page.now.end (record { orders = found.now.orders.now; held = found.now.held.now; requests = found.now.requests.now; quotes = found.now.quotes.now }) who) }
{
    append_head(alloc, text, page)?;
    append_wanted(alloc, text, page, found, who)
}

/// Adds every order that rests on a venue: the books of all instruments, in the order of the file.
fn push_books(
    alloc: Global,
    venue: &mut Venue,
    orders: &[EnteredOrder],
    rested: &mut Vec<RestedOrder>,
) -> Result<(), AllocError>
    requires few { venue.old.items ≤ most_items }
    ensures market { venue.new.market ≡ venue.old.market }
    ensures rested { (h : History) → IsHistory venue.old h → OnOk result (rested.new.items ≡ rested.old.items ++ books_shown orders.now venue.old.market h venue.old.market.instruments) }
{
    for place in 0..venue.instruments().len() {
        let symbol = symbol_of(venue.instruments(), place as u32);
        push_book(alloc, venue, orders, symbol, Moment::EPOCH, rested)?;
    }
    Ok(())
}

/// The text of what rests, is held, is open or is live after the rows of a trail.
fn rests_after(
    alloc: Global,
    participants: Participants,
    instruments: Instruments,
    rows: &[TrailRow],
    form: Form,
    who: Option<Who>,
) -> Result<Vec<u8>, AllocError>
    requires kept { All IsItem rows.now }
    requires few { length rows.now ≤ most_items }
    ensures { IfOk result (λ text. IsRests form (record { participants = participants; instruments = instruments }) rows.now who text.items) }
{
    every_report_is_numbered();
    rows_have_their_inputs();
    kept_quotes_agree();
    let mut day = replay_rows(alloc, participants, instruments, rows)?;
    let mut quotes = Vec::new(alloc);
    push_live_at(
        alloc,
        &mut day.venue,
        &day.kept.quotes,
        last_moment(rows),
        &mut quotes,
    )?;
    let mut orders = Vec::new(alloc);
    push_books(alloc, &mut day.venue, &day.kept.orders, &mut orders)?;
    let requests = still_open(
        alloc,
        &day.kept.closed,
        &day.kept.requests,
        last_moment(rows),
    )?;
    let page = Page {
        form,
        participants: day.venue.participants(),
        instruments: day.venue.instruments(),
        end: DayEnd {
            row: rows.len() as u64,
            moment: last_moment(rows),
        },
    };
    let found = Found {
        orders: &orders,
        held: &day.kept.held,
        requests: &requests,
        quotes: &quotes,
    };
    let mut text = Vec::new(alloc);
    append_rests(alloc, &mut text, &page, &found, who)?;
    Ok(text)
}

/// Prints what rests, is held, is open or is live after the rows of a trail with these participants and instruments: of
/// one participant, or of each in the order of the file. Of each: every resting order, in the order of the books, with
/// what is left of its quantity, and where it entered; every held side of a cross, with its due moment; every request
/// for quotes of its own that is open at the moment of the last row; and every quote of its own that is live then,
/// with its own identifiers of quote and request. Nothing is written where an allocation fails.
pub fn print_rests<W: Write>(
    alloc: Global,
    participants: Participants,
    instruments: Instruments,
    rows: &[TrailRow],
    form: Form,
    who: Option<Who>,
    writer: &mut W,
) -> Result<(), BookFault>
    requires kept { All IsItem rows.now }
    requires few { length rows.now ≤ most_items }
    ensures emitted { OnOk result (EmitsRests form (record { participants = participants; instruments = instruments }) rows.now who (W.contents writer.old) (W.contents writer.new)) }
    ensures found { IfErr result (λ fault. fault ≢ NoInstrument) }
    ensures begun { IfErr result (λ fault. fault ≡ Memory → Keeps (W.contents writer.old) (W.contents writer.new)) }
{
    let text = rests_after(alloc, participants, instruments, rows, form, who)?;
    write_text(&text, writer)
}
