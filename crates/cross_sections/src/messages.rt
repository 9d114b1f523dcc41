//! What the messages of rows say of crosses.

ghost use Rattle.std.specs.Prelude.{◌≡◌, ◌-◌, All, IfOk, IfSome, List, option_map, slice_get};
ghost use Rattle.venue_core.specs.Replay.{AreEmitted, Emits, IsItem};
ghost use Rattle.venue_rules.specs.Run.{Input};
ghost use Rattle.day_events.specs.Days.{taken_in};
ghost use Rattle.cross_sections.specs.Crosses.{begins_otherwise, original_in, original_of, other_side, taken_at, terms_in, terms_of};

use crate::crossed::Terms;
use fix_dictionary::{App, Identifier, NewOrderCross};
use fix_fields::one_list;
use row_replay::item_of;
use std::alloc::{AllocError, Global};
use venue_rules::{Taken, TrailRow};

/// The row with this number: rows are numbered from 1.
fn row_at(rows: &[TrailRow], number: u64) -> Option<&TrailRow>
    requires kept { All IsItem rows.now }
    ensures row { option_map (λ r. r.now) result ≡ slice_get rows.now (number - 1) }
    ensures kept { IfSome result (λ row. IsItem row.now) }
{
    rows.get(number.saturating_sub(1) as usize)
}

/// The message of the row with this number.
pub(crate) fn taken_at(
    alloc: Global,
    rows: &[TrailRow],
    number: u64,
) -> Result<Option<Taken>, AllocError>
    requires kept { All IsItem rows.now }
    ensures { (read : List Input) → AreEmitted rows.now read → IfOk result (λ taken. taken ≡ taken_at read number) }
{
    one_list();
    match row_at(rows, number) {
        None => Ok(None),
        Some(row) => item_of(alloc, row),
    }
}

/// 11 of the side of a cross that is not the first.
fn other_side(cross: &NewOrderCross, first: &Identifier) -> Identifier
    ensures { result ≡ other_side cross.now first.now }
{
    if cross.first.order_id.is(first) {
        cross.second.order_id
    } else {
        cross.first.order_id
    }
}

/// The terms of a cross whose first side has this identifier (11).
#[tactic(auto, unfolding(crate::specs::Crosses::terms_in))]
fn terms_in(app: &App, first: &Identifier) -> Option<Terms>
    ensures { result ≡ terms_in first.now app.now }
{
    match app {
        App::NewOrderCross(d) => Some(Terms {
            cross: d.cross_id,
            price: d.price,
            second: other_side(d, first),
        }),
        _ => None,
    }
}

fn terms_of(taken: &Option<Taken>, first: &Identifier) -> Option<Terms>
    ensures { result ≡ terms_of first.now taken.now }
{
    match taken {
        None => None,
        Some(taken) => terms_in(taken.item.app.get(), first),
    }
}

/// Whether a text begins with the type (35) of another message than a cross, which need not be read.
fn begins_otherwise(text: &[u8]) -> bool
    ensures { result ≡ begins_otherwise text.now }
{
    match text {
        [x, y, z, kind, end, ..] => {
            *x == b'3' && (*y == b'5' && (*z == b'=' && !(*kind == b's' && *end == 1)))
        }
        _ => false,
    }
}

/// The terms of the cross at a row whose first side has this identifier, if it is a row of one.
fn terms_at_row(
    alloc: Global,
    row: &TrailRow,
    first: &Identifier,
) -> Result<Option<Terms>, AllocError>
    requires kept { IsItem row.now }
    ensures { (i : Input) → Emits row.now i → IfOk result (λ terms. terms ≡ terms_of first.now (taken_in i)) }
{
    one_list();
    if begins_otherwise(row.text.as_slice()) {
        return Ok(None);
    }
    let taken = item_of(alloc, row)?;
    Ok(terms_of(&taken, first))
}

/// The terms of the cross at the row with this number, if it is a row of one.
pub(crate) fn terms_at(
    alloc: Global,
    rows: &[TrailRow],
    number: u64,
    first: &Identifier,
) -> Result<Option<Terms>, AllocError>
    requires kept { All IsItem rows.now }
    ensures { (read : List Input) → AreEmitted rows.now read → IfOk result (λ terms. terms ≡ terms_of first.now (taken_at read number)) }
{
    match row_at(rows, number) {
        None => Ok(None),
        Some(row) => terms_at_row(alloc, row, first),
    }
}

/// The order that a cancel names (41).
#[tactic(auto, unfolding(crate::specs::Crosses::original_in))]
fn original_in(app: &App) -> Option<Identifier>
    ensures { result ≡ original_in app.now }
{
    match app {
        App::OrderCancelRequest(d) => Some(d.original_id),
        _ => None,
    }
}

pub(crate) fn original_of(taken: &Option<Taken>) -> Option<Identifier>
    ensures { result ≡ original_of taken.now }
{
    match taken {
        None => None,
        Some(taken) => original_in(taken.item.app.get()),
    }
}
