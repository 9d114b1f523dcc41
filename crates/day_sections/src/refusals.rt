//! The section of the refusals, by cause.

ghost use Rattle.std.specs.Prelude.{◌≡◌, ◌++◌, ◌∷◌, [], OnOk, IfOk, take};
ghost use Rattle.std.specs.List.{flat_map, list_any};
ghost use Rattle.page_text.specs.Parts.{with_part, with_parts};
ghost use Rattle.day_sections.specs.Picks.{is_same};
ghost use Rattle.day_sections.specs.Refusals.{cause_parts, cause_text, causes, more_part, most_rows, refused_parts, refusals_parts, seen_with, some_refusals, with_cause};

use crate::picks::{Pick, is_same, picked};
use crate::rooms::many;
use crate::template::{CAUSE, MORE_ROWS, NO_MORE_ROWS, NO_REFUSAL, REFUSALS, REFUSED, TABLE_END};
use crate::values::add_row_number;
use day_events::{Event, What};
use day_tables::{grouped_text, name_at};
use fix_dictionary::Identifier;
use page_text::Page;
use participants::Participants;
use std::alloc::{AllocError, Global};

/// The most rows of a cause that are named.
const MOST_ROWS: usize = 24;

fn is_among(cause: &Option<Identifier>, causes: &[Option<Identifier>]) -> bool
    ensures { result ≡ list_any (is_same cause.now) causes.now }
{
    causes.iter().any(|other| is_same(cause, other))
}

/// Adds a cause, unless it is there.
fn note_cause(
    causes: &mut Vec<Option<Identifier>>,
    cause: &Option<Identifier>,
) -> Result<(), AllocError>
    ensures { OnOk result (causes.new.items ≡ with_cause causes.old.items cause.now) }
{
    if is_among(cause, causes.as_slice()) {
        return Ok(());
    }
    match causes.push(*cause) {
        Ok(()) => Ok(()),
        Err(_) => Err(AllocError),
    }
}

#[tactic(auto, unfolding(crate::specs::Refusals::seen_with))]
fn note(causes: &mut Vec<Option<Identifier>>, what: &What) -> Result<(), AllocError>
    ensures { OnOk result (causes.new.items ≡ seen_with causes.old.items what.now) }
{
    match what {
        What::Refused(cause) => note_cause(causes, cause),
        _ => Ok(()),
    }
}

/// The causes of the refusals, each once, in the order of their first rows.
fn causes(alloc: Global, events: &[Event]) -> Result<Vec<Option<Identifier>>, AllocError>
    ensures { IfOk result (λ found. found.items ≡ causes events.now) }
{
    let mut causes = Vec::new(alloc);
    for event in events {
        note(&mut causes, &event.what)?;
    }
    Ok(causes)
}

/// A cause in words: the text (58) of the answer, where it has one.
fn cause_text(cause: &Option<Identifier>) -> &[u8]
    ensures { result.now ≡ cause_text cause.now }
{
    match cause {
        None => b"no such quote is live (297)",
        Some(text) => text.as_slice(),
    }
}

/// Adds whose message was refused, and its row.
fn add_refused(
    alloc: Global,
    page: &mut Page,
    participants: &Participants,
    linked: bool,
    event: &Event,
) -> Result<(), AllocError>
    ensures { OnOk result (page.new ≡ with_parts page.old (refused_parts participants.now linked event.now)) }
{
    let name = name_at(participants, event.to);
    page.add(REFUSED, &[name])?;
    add_row_number(alloc, page, linked, event.at.row)
}

fn add_each_refused(
    alloc: Global,
    page: &mut Page,
    participants: &Participants,
    linked: bool,
    events: &[Event],
) -> Result<(), AllocError>
    ensures { OnOk result (page.new ≡ with_parts page.old (flat_map (refused_parts participants.now linked) events.now)) }
{
    for event in events {
        add_refused(alloc, page, participants, linked, event)?;
    }
    Ok(())
}

/// Adds whether there are more rows than are named.
fn add_more(page: &mut Page, count: u64) -> Result<(), AllocError>
    ensures { OnOk result (page.new ≡ with_part page.old (more_part count)) }
{
    if count > MOST_ROWS as u64 {
        page.add(MORE_ROWS, &[])
    } else {
        page.add(NO_MORE_ROWS, &[])
    }
}

/// The first of some events.
fn first_of(events: &[Event]) -> &[Event]
    ensures { result.now ≡ take most_rows events.now }
{
    if events.len() > MOST_ROWS {
        let (first, _) = events.split_at(MOST_ROWS);
        first
    } else {
        events
    }
}

/// Adds a cause.
fn add_cause(
    alloc: Global,
    page: &mut Page,
    participants: &Participants,
    linked: bool,
    events: &[Event],
    cause: &Option<Identifier>,
) -> Result<(), AllocError>
    ensures { OnOk result (page.new ≡ with_parts page.old (cause_parts participants.now linked events.now cause.now)) }
{
    let refused = picked(alloc, events, &Pick::Refused(*cause))?;
    let count = grouped_text(alloc, many(&refused))?;
    page.add(CAUSE, &[cause_text(cause), &count])?;
    add_each_refused(alloc, page, participants, linked, first_of(&refused))?;
    add_more(page, many(&refused))
}

fn add_each_cause(
    alloc: Global,
    page: &mut Page,
    participants: &Participants,
    linked: bool,
    events: &[Event],
    causes: &[Option<Identifier>],
) -> Result<(), AllocError>
    ensures { OnOk result (page.new ≡ with_parts page.old (flat_map (cause_parts participants.now linked events.now) causes.now)) }
{
    for cause in causes {
        add_cause(alloc, page, participants, linked, events, cause)?;
    }
    Ok(())
}

/// Adds the section of a day with refusals, by their causes.
fn add_some(
    alloc: Global,
    page: &mut Page,
    participants: &Participants,
    linked: bool,
    events: &[Event],
    causes: &[Option<Identifier>],
) -> Result<(), AllocError>
    ensures { OnOk result (page.new ≡ with_parts page.old (some_refusals participants.now linked events.now causes.now)) }
{
    let count = grouped_text(alloc, causes.len() as u64)?;
    page.add(REFUSALS, &[&count])?;
    add_each_cause(alloc, page, participants, linked, events, causes)?;
    page.add(TABLE_END, &[])
}

fn add_by_cause(
    alloc: Global,
    page: &mut Page,
    participants: &Participants,
    linked: bool,
    events: &[Event],
    causes: &[Option<Identifier>],
) -> Result<(), AllocError>
    ensures { OnOk result (page.new ≡ with_parts page.old (refusals_parts participants.now linked events.now causes.now)) }
{
    if causes.len() == 0 {
        page.add(NO_REFUSAL, &[])
    } else {
        add_some(alloc, page, participants, linked, events, causes)
    }
}

/// Adds the section of the refusals; each with a link to its row, if the rows are on the page.
pub fn add_refusals(
    alloc: Global,
    page: &mut Page,
    participants: &Participants,
    linked: bool,
    events: &[Event],
) -> Result<(), AllocError>
    ensures { OnOk result (page.new ≡ with_parts page.old (refusals_parts participants.now linked events.now (causes events.now))) }
{
    let refused = picked(alloc, events, &Pick::Refusals)?;
    let causes = causes(alloc, &refused)?;
    add_by_cause(alloc, page, participants, linked, &refused, &causes)
}
