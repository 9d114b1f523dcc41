//! The section of the alarms, by the usual bounds.

ghost use Rattle.std.specs.Prelude.{◌≡◌, OnOk, length};
ghost use Rattle.std.specs.List.{flat_map};
ghost use Rattle.page_text.specs.Parts.{with_part, with_parts};
ghost use Rattle.day_tables.specs.Parts.{each_from};
ghost use Rattle.day_sections.specs.Folds.{folded, folds_200, whole_or_folded};
ghost use Rattle.alarm_sections.specs.Alarms.{alarm_parts, alarms_parts, end_part, more_part, place_part, some_alarms, table_parts};

use crate::template::{
    ALARM, ALARMS, CELL_END, LIST_END, MORE_ALARMS, NO_ALARM, NO_ROW, SECTION_END, TABLE_OF_ALARMS,
};
use day_sections::{
    MOST_FOLDED, add_fold_end, add_fold_head, add_row_number, folds_200, of_200, up_to,
};
use day_tables::grouped_text;
use page_text::Page;
use participants::Participants;
use std::alloc::{AllocError, Global};
use surveillance::{Alarm, Place, alarm_words};

/// Adds the row of an alarm; of what is counted over the day there is none.
fn add_place(
    alloc: Global,
    page: &mut Page,
    linked: bool,
    at: &Option<Place>,
) -> Result<(), AllocError>
    ensures { OnOk result (page.new ≡ with_part page.old (place_part linked at.now)) }
{
    match at {
        None => page.add(NO_ROW, &[]),
        Some(at) => add_row_number(alloc, page, linked, at.row),
    }
}

/// Adds an alarm.
fn add_alarm(
    alloc: Global,
    page: &mut Page,
    participants: &Participants,
    linked: bool,
    alarm: &Alarm,
) -> Result<(), AllocError>
    ensures { OnOk result (page.new ≡ with_parts page.old (alarm_parts participants.now linked alarm.now)) }
{
    let words = alarm_words(alloc, participants, alarm)?;
    page.add(ALARM, &[&words])?;
    add_place(alloc, page, linked, &alarm.at)?;
    page.add(CELL_END, &[])
}

/// Adds some alarms, in order.
fn add_each(
    alloc: Global,
    page: &mut Page,
    participants: &Participants,
    linked: bool,
    alarms: &[Alarm],
) -> Result<(), AllocError>
    ensures { OnOk result (page.new ≡ with_parts page.old (flat_map (alarm_parts participants.now linked) alarms.now)) }
{
    for alarm in alarms {
        add_alarm(alloc, page, participants, linked, alarm)?;
    }
    Ok(())
}

/// Adds a table of some alarms.
fn add_table(
    alloc: Global,
    page: &mut Page,
    participants: &Participants,
    linked: bool,
    alarms: &[Alarm],
) -> Result<(), AllocError>
    ensures { OnOk result (page.new ≡ with_parts page.old (table_parts participants.now linked alarms.now)) }
{
    page.add(TABLE_OF_ALARMS, &[])?;
    add_each(alloc, page, participants, linked, alarms)?;
    page.add(LIST_END, &[])
}

/// Adds a fold of 200 alarms.
fn add_fold(
    alloc: Global,
    page: &mut Page,
    participants: &Participants,
    linked: bool,
    alarms: &[Alarm],
    number: usize,
) -> Result<(), AllocError>
    ensures { OnOk result (page.new ≡ with_parts page.old (folded (table_parts participants.now linked) alarms.now number)) }
{
    let some = of_200(alarms, number);
    add_fold_head(alloc, page, number, some.len())?;
    add_table(alloc, page, participants, linked, some)?;
    add_fold_end(page)
}

/// Adds all folds.
fn add_folds(
    alloc: Global,
    page: &mut Page,
    participants: &Participants,
    linked: bool,
    alarms: &[Alarm],
) -> Result<(), AllocError>
    ensures { OnOk result (page.new ≡ with_parts page.old (each_from (folded (table_parts participants.now linked) alarms.now) 0 (folds_200 (length alarms.now)))) }
{
    for number in 0..folds_200(alarms.len()) {
        add_fold(alloc, page, participants, linked, alarms, number)?;
    }
    Ok(())
}

/// Adds alarms whole, or in folds.
fn add_listed(
    alloc: Global,
    page: &mut Page,
    participants: &Participants,
    linked: bool,
    alarms: &[Alarm],
) -> Result<(), AllocError>
    ensures { OnOk result (page.new ≡ with_parts page.old (whole_or_folded (table_parts participants.now linked) alarms.now)) }
{
    if alarms.len() <= 200 {
        add_table(alloc, page, participants, linked, alarms)
    } else {
        add_folds(alloc, page, participants, linked, alarms)
    }
}

/// Adds the end of the section, and how many more there are.
fn add_more(alloc: Global, page: &mut Page, more: usize) -> Result<(), AllocError>
    ensures { OnOk result (page.new ≡ with_part page.old (more_part more)) }
{
    let count = grouped_text(alloc, more as u64)?;
    page.add(MORE_ALARMS, &[&count])
}

/// Adds the end of the section: whether all are there, or how many more there are.
fn add_end(alloc: Global, page: &mut Page, count: usize) -> Result<(), AllocError>
    ensures { OnOk result (page.new ≡ with_part page.old (end_part count)) }
{
    if count <= MOST_FOLDED {
        page.add(SECTION_END, &[])
    } else {
        add_more(alloc, page, count - MOST_FOLDED)
    }
}

/// Adds the section of a day with alarms.
fn add_some(
    alloc: Global,
    page: &mut Page,
    participants: &Participants,
    linked: bool,
    alarms: &[Alarm],
) -> Result<(), AllocError>
    ensures { OnOk result (page.new ≡ with_parts page.old (some_alarms participants.now linked alarms.now)) }
{
    let count = grouped_text(alloc, alarms.len() as u64)?;
    page.add(ALARMS, &[&count])?;
    add_listed(
        alloc,
        page,
        participants,
        linked,
        up_to(alarms, MOST_FOLDED),
    )?;
    add_end(alloc, page, alarms.len())
}

/// Adds the section of the alarms; each with a link to its row, if the rows are on the page.
pub fn add_alarms(
    alloc: Global,
    page: &mut Page,
    participants: &Participants,
    linked: bool,
    alarms: &[Alarm],
) -> Result<(), AllocError>
    ensures { OnOk result (page.new ≡ with_parts page.old (alarms_parts participants.now linked alarms.now)) }
{
    if alarms.len() == 0 {
        page.add(NO_ALARM, &[])
    } else {
        add_some(alloc, page, participants, linked, alarms)
    }
}
