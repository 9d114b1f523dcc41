//! The section of the rows.

ghost use Rattle.std.specs.Prelude.{◌≡◌, ◌<◌, All, OnOk, length};
ghost use Rattle.page_text.specs.Parts.{with_part};
ghost use Rattle.venue_core.specs.Replay.{IsItem};
ghost use Rattle.row_replay.specs.Inputs.{input_of};
ghost use Rattle.day_page.specs.Rows.{AddsNext, AddsRow, AddsRows, AddsSection, listed, message_part, row_part, tick_part};

use crate::folds::{add_opening, closing};
use crate::template::{MESSAGE, ROWS, TICK};
use day_sections::are_shown;
use day_tables::{grouped_text, number_text};
use fix_dictionary::App;
use message_words::{came_words_of, readable_text, sender_name};
use page_text::Page;
use participants::Participants;
use row_replay::item_of;
use sef_moment::print_utc;
use std::alloc::{AllocError, Global};
use venue_rules::{Taken, TrailRow};

/// The rows that the page has: all, or none of more than 5,000.
fn listed(rows: &[TrailRow]) -> &[TrailRow]
    ensures { result.now ≡ listed rows.now }
{
    if are_shown(rows) { rows } else { &[] }
}

fn add_message(
    alloc: Global,
    page: &mut Page,
    participants: &Participants,
    row: &TrailRow,
    app: &App,
) -> Result<(), AllocError>
    ensures { OnOk result (page.new ≡ with_part page.old (message_part participants.now row.now app.now)) }
{
    let number = number_text(alloc, row.n)?;
    let sequence = number_text(alloc, u64::from(row.number))?;
    let era = number_text(alloc, u64::from(row.era))?;
    let moment = print_utc(row.moment);
    let words = came_words_of(alloc, app)?;
    let text = readable_text(alloc, row.text.as_slice())?;
    page.add(
        MESSAGE,
        &[
            &number,
            &number,
            &moment,
            sender_name(participants, row.who),
            &sequence,
            &era,
            &words,
            &text,
        ],
    )
}

fn add_tick(alloc: Global, page: &mut Page, row: &TrailRow) -> Result<(), AllocError>
    ensures { OnOk result (page.new ≡ with_part page.old (tick_part row.now)) }
{
    let number = number_text(alloc, row.n)?;
    let moment = print_utc(row.moment);
    page.add(TICK, &[&number, &number, &moment])
}

fn add_taken(
    alloc: Global,
    page: &mut Page,
    participants: &Participants,
    row: &TrailRow,
    taken: &Option<Taken>,
) -> Result<(), AllocError>
    ensures { OnOk result (page.new ≡ with_part page.old (row_part participants.now row.now (input_of taken.now row.now.moment))) }
{
    match taken {
        None => add_tick(alloc, page, row),
        Some(taken) => add_message(alloc, page, participants, row, taken.item.app.get()),
    }
}

/// Adds a row, with the message that it spells.
fn add_row(
    alloc: Global,
    page: &mut Page,
    participants: &Participants,
    row: &TrailRow,
) -> Result<(), AllocError>
    requires kept { IsItem row.now }
    ensures { OnOk result (AddsRow participants.now row.now page.old page.new) }
{
    let taken = item_of(alloc, row)?;
    add_taken(alloc, page, participants, row, &taken)
}

/// Adds the row at this place of all, and before it what begins there.
fn add_next(
    alloc: Global,
    page: &mut Page,
    participants: &Participants,
    all: &[TrailRow],
    place: usize,
    row: &TrailRow,
) -> Result<(), AllocError>
    requires kept { IsItem row.now }
    requires within { place < length all.now }
    ensures { OnOk result (AddsNext participants.now all.now place row.now page.old page.new) }
{
    add_opening(alloc, page, all, place, row)?;
    add_row(alloc, page, participants, row)
}

/// Adds the rows, in order, and what begins before them.
fn add_each(
    alloc: Global,
    page: &mut Page,
    participants: &Participants,
    rows: &[TrailRow],
) -> Result<(), AllocError>
    requires kept { All IsItem rows.now }
    ensures { OnOk result (AddsRows participants.now rows.now rows.now page.old page.new) }
{
    for (place, row) in rows.iter().enumerate() {
        add_next(alloc, page, participants, rows, place, row)?;
    }
    Ok(())
}

/// Adds the section of the rows.
pub(crate) fn add_rows(
    alloc: Global,
    page: &mut Page,
    participants: &Participants,
    rows: &[TrailRow],
) -> Result<(), AllocError>
    requires kept { All IsItem rows.now }
    ensures { OnOk result (AddsSection participants.now rows.now page.old page.new) }
{
    let count = grouped_text(alloc, rows.len() as u64)?;
    page.add(ROWS, &[&count])?;
    add_each(alloc, page, participants, listed(rows))?;
    page.add(closing(rows), &[])
}
