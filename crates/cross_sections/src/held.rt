//! The held sides, by due moment, then by arrival, and what became of them.

ghost use Rattle.std.specs.Prelude.{◌≡◌, ◌<◌, IfSome, MatchOption, OnOk, length, slice_get, unwrap_or};
ghost use Rattle.std.specs.List.{remove};
ghost use Rattle.cross_sections.specs.Crosses.{arrived_with, end_after, first_later, is_order, met, place_of, put, with_end, with_end_at};

use crate::crossed::{Arrival, Crossed, End, Waiting};
use day_events::FilledOrder;
use fix_dictionary::Identifier;
use participants::Who;
use sef_moment::Moment;
use std::alloc::AllocError;
use venue_rules::is_name;

/// The place of the first that is due later, if there is one.
fn first_later(held: &[Waiting], due: Moment) -> Option<usize>
    ensures place { result ≡ first_later due held.now }
    ensures within { IfSome result (λ place. place < length held.now) }
{
    held.iter().position(|other| due.ms() < other.due.ms())
}

fn or_end(place: Option<usize>, end: usize) -> usize
    ensures { result ≡ unwrap_or place end }
{
    match place {
        Some(place) => place,
        None => end,
    }
}

/// Adds a side.
pub(crate) fn put(held: &mut Vec<Waiting>, side: Waiting) -> Result<(), AllocError>
    ensures { OnOk result (held.new.items ≡ put side held.old.items) }
{
    let place = or_end(first_later(held, side.due), held.len());
    match held.insert(place, side) {
        Ok(()) => Ok(()),
        Err(_) => Err(AllocError),
    }
}

/// The place of a participant's side with this identifier (11), if it is held.
pub(crate) fn place_of(held: &[Waiting], who: Who, id: &Identifier) -> Option<usize>
    ensures place { result ≡ place_of who id.now held.now }
    ensures within { IfSome result (λ place. place < length held.now) }
{
    held.iter()
        .position(|side| is_name(who, id, side.who, &side.id))
}

/// Takes out the side at a place, if there is one.
pub(crate) fn take_out(held: &mut Vec<Waiting>, place: usize) -> Option<Waiting>
    ensures taken { result ≡ slice_get held.old.items place }
    ensures left { MatchOption result (held.new.items ≡ held.old.items) (λ _. held.new.items ≡ remove held.old.items place) }
{
    if place < held.len() {
        Some(held.remove(place))
    } else {
        None
    }
}

fn with_end(cross: &Crossed, end: End) -> Crossed
    ensures { result ≡ with_end end cross.now }
{
    Crossed { end, ..*cross }
}

/// Notes what became of the side that the cross at a place holds.
pub(crate) fn set_end(crosses: &mut Vec<Crossed>, place: usize, end: End)
    ensures { crosses.new.items ≡ with_end_at place end crosses.old.items }
{
    if place < crosses.len() {
        crosses[place] = with_end(&crosses[place], end);
    }
}

/// Whether two numbers are there, and the same.
fn is_order(order: Option<u64>, other: Option<u64>) -> bool
    ensures { result ≡ is_order order other }
{
    match (order, other) {
        (Some(order), Some(other)) => order == other,
        _ => false,
    }
}

/// A side that entered, with a trade as it entered: of the first side, of itself, or of another.
fn arrived_with(first: Option<u64>, side: Arrival, filled: &FilledOrder) -> Arrival
    ensures { result ≡ arrived_with first filled.now side }
{
    if is_order(filled.order, first) {
        return Arrival {
            trade: Some(filled.trade),
            ..side
        };
    }
    if is_order(filled.order, side.order) {
        return side;
    }
    Arrival {
        others: true,
        ..side
    }
}

fn end_after(cross: &Crossed, filled: &FilledOrder) -> End
    ensures { result ≡ end_after filled.now cross.now }
{
    match cross.end {
        End::Entered(side) => End::Entered(arrived_with(cross.first.order, side, filled)),
        end => end,
    }
}

/// Notes a trade of the side that entered of the cross at a place.
pub(crate) fn meet(crosses: &mut Vec<Crossed>, place: usize, filled: &FilledOrder)
    ensures { crosses.new.items ≡ met place filled.now crosses.old.items }
{
    if place < crosses.len() {
        let end = end_after(&crosses[place], filled);
        set_end(crosses, place, end);
    }
}
