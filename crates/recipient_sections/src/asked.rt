//! Whom a request asked.

ghost use Rattle.std.specs.Prelude.{◌≡◌, OnOk};
ghost use Rattle.std.specs.List.{flat_map};
ghost use Rattle.page_text.specs.Parts.{with_parts};
ghost use Rattle.recipient_sections.specs.Asked.{asked_section, name_parts, recipients_parts};

use crate::template::{ASKED_ROW, NAME, ROOM_ASKED};
use crate::three::add_three_of;
use day_events::Event;
use day_sections::add_row_number;
use day_tables::{name_at, number_text};
use page_text::Page;
use participants::Participants;
use std::alloc::{AllocError, Global};

/// Adds a name in a list.
fn add_name(page: &mut Page, participants: &Participants, asked: &Event) -> Result<(), AllocError>
    ensures { OnOk result (page.new ≡ with_parts page.old (name_parts participants.now asked.now)) }
{
    let name = name_at(participants, asked.to);
    page.add(NAME, &[name])
}

/// Adds the names of those who were asked.
pub fn add_names(
    page: &mut Page,
    participants: &Participants,
    asked: &[Event],
) -> Result<(), AllocError>
    ensures { OnOk result (page.new ≡ with_parts page.old (flat_map (name_parts participants.now) asked.now)) }
{
    for event in asked {
        add_name(page, participants, event)?;
    }
    Ok(())
}

/// Adds whom a request asked, and its row.
fn add_asked(
    alloc: Global,
    page: &mut Page,
    participants: &Participants,
    linked: bool,
    opened: &Event,
    room: u64,
    asked: &[Event],
) -> Result<(), AllocError>
    ensures { OnOk result (page.new ≡ with_parts page.old (asked_section participants.now linked opened.now.at.row room asked.now)) }
{
    let number = number_text(alloc, room)?;
    page.add(ROOM_ASKED, &[&number])?;
    add_names(page, participants, asked)?;
    page.add(ASKED_ROW, &[])?;
    add_row_number(alloc, page, linked, opened.at.row)
}

/// Adds whom a request asked and its row, three of them who are unrelated, and who of all named are related. The row
/// is a link, if it is on the page.
pub fn add_recipients(
    alloc: Global,
    page: &mut Page,
    participants: &Participants,
    linked: bool,
    opened: &Event,
    room: u64,
    asked: &[Event],
) -> Result<(), AllocError>
    ensures { OnOk result (page.new ≡ with_parts page.old (recipients_parts participants.now linked opened.now room asked.now)) }
{
    add_asked(alloc, page, participants, linked, opened, room, asked)?;
    add_three_of(alloc, page, participants, opened, asked)
}
