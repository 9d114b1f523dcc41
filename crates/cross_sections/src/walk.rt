//! The crosses of a day, event by event.

ghost use Rattle.std.specs.Prelude.{◌≡◌, ◌++◌, ◌∷◌, [], All, IfOk, List, None, OnOk};
ghost use Rattle.instruments.specs.Listing.{delay_of, instrument_of};
ghost use Rattle.venue_core.specs.Replay.{AreEmitted, IsItem};
ghost use Rattle.venue_rules.specs.Run.{Input};
ghost use Rattle.cross_sections.specs.Crosses.{at_clock, at_message, cancelled, cancelled_at, cross_of, crossed, crosses, ended, held_with, start, original_of, place_of, step, taken_at, terms_of, waiting, walk_of};

use crate::crossed::{Arrival, Crossed, End, Refusal, Terms, Waiting};
use crate::held::{meet, place_of, put, set_end, take_out};
use crate::messages::{original_of, taken_at, terms_at};
use day_events::{Event, NewOrder, What};
use fix_dictionary::{Amount, Identifier, Price, Side};
use instruments::Instruments;
use participants::Who;
use sef_moment::Moment;
use std::alloc::{AllocError, Global};
use venue_rules::TrailRow;

/// The crosses so far, the sides that are held, and the place of the cross whose side was held last.
#[derive(Drop)]
pub(crate) struct Walk {
    pub(crate) crosses: Vec<Crossed>,
    pub(crate) held: Vec<Waiting>,
    pub(crate) last: usize,
}

/// The rows of a day, and the file of its instruments.
#[derive(Clone, Copy)]
pub(crate) struct Trail<'a> {
    pub(crate) instruments: &'a Instruments,
    pub(crate) rows: &'a [TrailRow],
}

/// The delay of the instrument with a symbol; none where there is no such instrument, which no cross has.
fn delay_by(instruments: &Instruments, symbol: &[u8]) -> u64
    ensures { result ≡ delay_of instruments.now (instrument_of instruments.now symbol.now) }
{
    match instruments.find(symbol) {
        Some(place) => instruments.get(place).delay,
        None => 0,
    }
}

/// The cross whose first side entered with this event.
fn cross_of(instruments: &Instruments, event: &Event, first: &NewOrder, terms: &Terms) -> Crossed
    ensures { result ≡ cross_of instruments.now event.now first.now terms.now }
{
    let delay = delay_by(instruments, first.symbol.as_slice());
    Crossed {
        row: event.at.row,
        moment: event.at.moment,
        who: event.to,
        first: *first,
        terms: *terms,
        due: event.at.moment.plus(delay),
        end: End::Held,
    }
}

fn waiting(cross: &Crossed, place: usize) -> Waiting
    ensures { result ≡ waiting place cross.now }
{
    Waiting {
        place,
        due: cross.due,
        who: cross.who,
        id: cross.terms.second,
    }
}

fn push_cross(crosses: &mut Vec<Crossed>, cross: &Crossed) -> Result<(), AllocError>
    ensures { OnOk result (crosses.new.items ≡ crosses.old.items ++ cross.now ∷ []) }
{
    // Types of its content, named here because the proof of the push needs each.
    let _order: Option<NewOrder> = None;
    let _terms: Option<Terms> = None;
    let _end: Option<End> = None;
    let _arrival: Option<Arrival> = None;
    let _refusal: Option<Refusal> = None;
    let _side: Option<Side> = None;
    let _amount: Option<Amount> = None;
    let _price: Option<Price> = None;
    let _name: Option<Identifier> = None;
    let _who: Option<Who> = None;
    let _moment: Option<Moment> = None;
    match crosses.push(*cross) {
        Ok(()) => Ok(()),
        Err(_) => Err(AllocError),
    }
}

/// Adds a cross, whose other side is held.
fn hold(walk: &mut Walk, cross: &Crossed) -> Result<(), AllocError>
    ensures { OnOk result (walk_of walk.new ≡ held_with cross.now (walk_of walk.old)) }
{
    let side = waiting(cross, walk.crosses.len());
    push_cross(&mut walk.crosses, cross)?;
    put(&mut walk.held, side)
}

/// Notes what became of the side at a place of those that are held; it is held no more.
fn end_held(walk: &mut Walk, place: usize, end: End)
    ensures { walk_of walk.new ≡ ended place end (walk_of walk.old) }
{
    match take_out(&mut walk.held, place) {
        None => {}
        Some(side) => {
            set_end(&mut walk.crosses, side.place, end);
            walk.last = side.place;
        }
    }
}

/// At a row of the clock the first of the held sides enters or is refused; its trades follow.
#[tactic(auto, unfolding(crate::specs::Crosses::at_clock))]
fn take_at_clock(walk: &mut Walk, event: &Event)
    ensures { walk_of walk.new ≡ at_clock event.now.at.row event.now.what (walk_of walk.old) }
{
    match &event.what {
        What::Entered(order) => end_held(
            walk,
            0,
            End::Entered(Arrival {
                row: event.at.row,
                order: order.order,
                trade: None,
                others: false,
            }),
        ),
        What::Refused(cause) => end_held(
            walk,
            0,
            End::Refused(Refusal {
                row: event.at.row,
                cause: *cause,
            }),
        ),
        What::Filled(filled) => meet(&mut walk.crosses, walk.last, filled),
        _ => {}
    }
}

/// Adds a cross, if the message is of one.
fn hold_if(
    instruments: &Instruments,
    walk: &mut Walk,
    event: &Event,
    first: &NewOrder,
    terms: Option<Terms>,
) -> Result<(), AllocError>
    ensures { OnOk result (walk_of walk.new ≡ crossed instruments.now event.now first.now terms (walk_of walk.old)) }
{
    match terms {
        None => Ok(()),
        Some(terms) => hold(walk, &cross_of(instruments, event, first, &terms)),
    }
}

/// Adds a cross, if the message at whose row an order entered is of one.
fn take_cross(
    alloc: Global,
    trail: &Trail<'_>,
    walk: &mut Walk,
    event: &Event,
    first: &NewOrder,
) -> Result<(), AllocError>
    requires kept { All IsItem trail.now.rows.now }
    ensures { (read : List Input) → AreEmitted trail.now.rows.now read → OnOk result (walk_of walk.new ≡ crossed trail.now.instruments.now event.now first.now (terms_of first.now.id (taken_at read event.now.at.row)) (walk_of walk.old)) }
{
    // Named here because the proof needs the type, of the terms' content.
    let _price: Option<Price> = None;
    let terms = terms_at(alloc, trail.rows, event.at.row, &first.id)?;
    hold_if(trail.instruments, walk, event, first, terms)
}

/// The place among those that are held of a participant's side with this identifier (11), if it is held.
fn place_in(walk: &Walk, who: Who, id: &Identifier) -> Option<usize>
    ensures { result ≡ place_of who id.now (walk_of walk.now).held }
{
    place_of(&walk.held, who, id)
}

fn cancel_at(walk: &mut Walk, place: Option<usize>, row: u64)
    ensures { walk_of walk.new ≡ cancelled_at place row (walk_of walk.old) }
{
    match place {
        None => {}
        Some(place) => end_held(walk, place, End::Cancelled(row)),
    }
}

/// Notes that a held side was cancelled, if the message names one.
fn cancel_if(walk: &mut Walk, event: &Event, original: Option<Identifier>)
    ensures { walk_of walk.new ≡ cancelled event.now None original (walk_of walk.old) }
{
    match original {
        None => {}
        Some(id) => cancel_at(walk, place_in(walk, event.to, &id), event.at.row),
    }
}

/// Notes that a held side was cancelled: it has no number, as an order has.
fn take_cancel(
    alloc: Global,
    trail: &Trail<'_>,
    walk: &mut Walk,
    event: &Event,
    order: Option<u64>,
) -> Result<(), AllocError>
    requires kept { All IsItem trail.now.rows.now }
    ensures { (read : List Input) → AreEmitted trail.now.rows.now read → OnOk result (walk_of walk.new ≡ cancelled event.now order (original_of (taken_at read event.now.at.row)) (walk_of walk.old)) }
{
    match order {
        Some(_) => Ok(()),
        None => {
            let taken = taken_at(alloc, trail.rows, event.at.row)?;
            cancel_if(walk, event, original_of(&taken));
            Ok(())
        }
    }
}

fn take_at_message(
    alloc: Global,
    trail: &Trail<'_>,
    walk: &mut Walk,
    event: &Event,
) -> Result<(), AllocError>
    requires kept { All IsItem trail.now.rows.now }
    ensures { (read : List Input) → AreEmitted trail.now.rows.now read → OnOk result (walk_of walk.new ≡ at_message trail.now.instruments.now (taken_at read event.now.at.row) event.now event.now.what (walk_of walk.old)) }
{
    match &event.what {
        What::Entered(order) => take_cross(alloc, trail, walk, event, order),
        What::Cancelled(order) => take_cancel(alloc, trail, walk, event, *order),
        _ => Ok(()),
    }
}

/// What an event says of crosses.
fn take(alloc: Global, trail: &Trail<'_>, walk: &mut Walk, event: &Event) -> Result<(), AllocError>
    requires kept { All IsItem trail.now.rows.now }
    ensures { (read : List Input) → AreEmitted trail.now.rows.now read → OnOk result (walk_of walk.new ≡ step trail.now.instruments.now read event.now (walk_of walk.old)) }
{
    if event.at.from == 0 {
        take_at_clock(walk, event);
        Ok(())
    } else {
        take_at_message(alloc, trail, walk, event)
    }
}

/// The accepted crosses of a day, by its rows and events, in their order.
pub fn crosses_of(
    alloc: Global,
    instruments: &Instruments,
    rows: &[TrailRow],
    events: &[Event],
) -> Result<Vec<Crossed>, AllocError>
    requires kept { All IsItem rows.now }
    ensures { (read : List Input) → AreEmitted rows.now read → IfOk result (λ made. made.items ≡ crosses instruments.now read events.now) }
{
    let trail = Trail { instruments, rows };
    let mut walk = Walk {
        crosses: Vec::new(alloc),
        held: Vec::new(alloc),
        last: 0,
    };
    for event in events {
        take(alloc, &trail, &mut walk, event)?;
    }
    Ok(walk.crosses)
}
