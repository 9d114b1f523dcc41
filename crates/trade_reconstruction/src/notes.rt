//! The notes on one trade among those on all.

ghost use Rattle.std.specs.Prelude.{◌≡◌, ◌++◌, true, IfOk, OnOk};
ghost use Rattle.trade_reconstruction.specs.Emitted.{fates_for, fates_of, stood_for, stood_in};
ghost use Rattle.trade_reconstruction.specs.Notes.{aligned_from, are_aligned, first_number};

use crate::evidence_event::EvidenceEvent;
use crate::pushing::{push_quote_fate, push_word};
use crate::quote_note::QuoteFate;
use crate::trade_notes::TradeNotes;
use std::alloc::{AllocError, Global};

/// Whether these notes are those on the trade with this number, the next one and so on.
fn aligned_from(number: u64, notes: &[TradeNotes]) -> bool
    ensures { result ≡ true → aligned_from number notes.now ≡ true }
{
    let mut next = number;
    for note in notes {
        if note.number != next || next == u64::MAX {
            return false;
        }
        next += 1;
    }
    true
}

/// The number of the first trade that is noted; 0 where there is none.
fn first_number(notes: &[TradeNotes]) -> u64
    ensures { result ≡ first_number notes.now }
{
    match notes.first() {
        Some(first) => first.number,
        None => 0,
    }
}

/// Whether the notes are in the order of their trades, without a gap.
pub(crate) fn are_aligned(notes: &[TradeNotes]) -> bool
    ensures { result ≡ true → are_aligned notes.now ≡ true }
{
    aligned_from(first_number(notes), notes)
}

/// The notes on the trade with this number, perhaps among others. Of those in order they are found by their place.
pub(crate) fn narrowed(notes: &[TradeNotes], is_aligned: bool, number: u64) -> &[TradeNotes]
    requires aligned { is_aligned ≡ true → are_aligned notes.now ≡ true }
    ensures stood { stood_for number result.now ≡ stood_for number notes.now }
    ensures fates { fates_for number result.now ≡ fates_for number notes.now }
{
    let first = first_number(notes);
    if !is_aligned || number < first {
        return notes;
    }
    let at = (number - first) as usize;
    if at >= notes.len() {
        return notes;
    }
    &notes[at..at + 1]
}

fn push_stood(stood: &mut Vec<EvidenceEvent>, words: &[EvidenceEvent]) -> Result<(), AllocError>
    ensures { OnOk result (stood.new.items ≡ stood.old.items ++ words.now) }
{
    for word in words {
        push_word(stood, *word)?;
    }
    Ok(())
}

fn push_fates(fates: &mut Vec<QuoteFate>, more: &[QuoteFate]) -> Result<(), AllocError>
    ensures { OnOk result (fates.new.items ≡ fates.old.items ++ more.now) }
{
    for fate in more {
        push_quote_fate(fates, *fate)?;
    }
    Ok(())
}

fn push_stood_in(
    stood: &mut Vec<EvidenceEvent>,
    note: &TradeNotes,
    number: u64,
) -> Result<(), AllocError>
    ensures { OnOk result (stood.new.items ≡ stood.old.items ++ stood_in number note.now) }
{
    if note.number == number {
        push_stood(stood, &note.stood)
    } else {
        Ok(())
    }
}

fn push_fates_of(
    fates: &mut Vec<QuoteFate>,
    note: &TradeNotes,
    number: u64,
) -> Result<(), AllocError>
    ensures { OnOk result (fates.new.items ≡ fates.old.items ++ fates_of number note.now) }
{
    if note.number == number {
        push_fates(fates, &note.fates)
    } else {
        Ok(())
    }
}

/// What rested before the order that the trade with this number filled.
pub(crate) fn stood_for(
    alloc: Global,
    notes: &[TradeNotes],
    number: u64,
) -> Result<Vec<EvidenceEvent>, AllocError>
    ensures { IfOk result (λ stood. stood.items ≡ stood_for number notes.now) }
{
    let mut stood = Vec::new(alloc);
    for note in notes {
        push_stood_in(&mut stood, note, number)?;
    }
    Ok(stood)
}

/// What had become of the quotes in the room of the trade with this number.
pub(crate) fn fates_for(
    alloc: Global,
    notes: &[TradeNotes],
    number: u64,
) -> Result<Vec<QuoteFate>, AllocError>
    ensures { IfOk result (λ fates. fates.items ≡ fates_for number notes.now) }
{
    let mut fates = Vec::new(alloc);
    for note in notes {
        push_fates_of(&mut fates, note, number)?;
    }
    Ok(fates)
}
