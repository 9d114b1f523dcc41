//! The application messages of a log, each once by era and number.

ghost use Rattle.std.specs.Prelude.{◌≡◌, IfOk, OnOk, bytes_eq, option_copied};
ghost use Rattle.std.specs.BTreeMap as tree;
ghost use Rattle.desk_log.specs.declared.numbered.Place.{Place};
ghost use Rattle.desk_log.specs.Numbered as numbered;
ghost use Rattle.desk_log.specs.Once.{conflict_at, conflict_from, found_at, place_cmp, then_at};

use crate::frames::Span;
use crate::numbered::{Place, text_at};
use std::alloc::{AllocError, Global};
use std::collections::BTreeMap;

/// Two messages of one place with different texts.
#[derive(Clone, Copy)]
pub struct Conflict {
    pub place: Place,
    pub first: Span,
    pub second: Span,
}

/// Keeps a message, unless there is one of its place.
fn keep(kept: &mut BTreeMap<Place, Span>, place: Place, span: Span) -> Result<(), AllocError>
    ensures { OnOk result ((p : Place) → tree.get place_cmp kept.new p ≡ then_at p (tree.get place_cmp kept.old p) place span) }
{
    match kept.get(&place) {
        Some(_had) => Ok(()),
        None => {
            kept.insert(place, span)?;
            Ok(())
        }
    }
}

/// The first message of each place.
pub(crate) fn first_in(
    alloc: Global,
    logged: &[(Place, Span)],
) -> Result<BTreeMap<Place, Span>, AllocError>
    ensures { IfOk result (λ kept. (p : Place) → tree.get place_cmp kept p ≡ found_at p logged.now) }
{
    let mut kept = BTreeMap::new(alloc);
    for message in logged {
        keep(&mut kept, message.0, message.1)?;
    }
    Ok(kept)
}

/// The messages of a map, in the order of their places.
pub(crate) fn listed(
    alloc: Global,
    kept: &BTreeMap<Place, Span>,
) -> Result<Vec<(Place, Span)>, AllocError>
    ensures entries { IfOk result (λ once. once.items ≡ kept.now.entries) }
    ensures ordered { OnOk result (tree.IsOrdered place_cmp kept.now) }
{
    let mut once = Vec::new(alloc);
    for (place, span) in kept.iter() {
        once.push((*place, *span))?;
    }
    Ok(once)
}

/// Whether two messages have the same text.
fn is_same(alloc: Global, log: &[u8], first: Span, second: Span) -> Result<bool, AllocError>
    ensures { IfOk result (λ same. same ≡ bytes_eq (numbered.text_at log.now first) (numbered.text_at log.now second)) }
{
    if first.start == second.start && first.end == second.end {
        return Ok(true);
    }
    let one = text_at(alloc, log, first)?;
    let other = text_at(alloc, log, second)?;
    let same = one.as_slice() == other.as_slice();
    Ok(same)
}

/// A message and the first of its place, if their texts differ.
fn conflict_at(
    alloc: Global,
    log: &[u8],
    message: &(Place, Span),
    first: Option<&Span>,
) -> Result<Option<Conflict>, AllocError>
    ensures { IfOk result (λ conflict. conflict ≡ conflict_at log.now message.now (option_copied first.entry)) }
{
    let Some(first) = first else {
        return Ok(None);
    };
    if is_same(alloc, log, *first, message.1)? {
        return Ok(None);
    }
    Ok(Some(Conflict {
        place: message.0,
        first: *first,
        second: message.1,
    }))
}

/// The first message with another text than the first of its place.
#[tactic(auto, using(crate::proofs::Conflicts::conflict_more, crate::proofs::Conflicts::conflict_found))]
pub(crate) fn conflict_in(
    alloc: Global,
    log: &[u8],
    kept: &BTreeMap<Place, Span>,
    logged: &[(Place, Span)],
) -> Result<Option<Conflict>, AllocError>
    requires { (p : Place) → tree.get place_cmp kept.now p ≡ found_at p logged.now }
    ensures { IfOk result (λ conflict. conflict ≡ conflict_from log.now logged.now logged.now) }
{
    for message in logged {
        if let Some(conflict) = conflict_at(alloc, log, message, kept.get(&message.0))? {
            return Ok(Some(conflict));
        }
    }
    Ok(None)
}
