//! The message at a row: its sender's own number of it, and the era.

ghost use Rattle.std.specs.Prelude.{◌≡◌, ◌++◌, find, option_map, OnOk};
ghost use Rattle.trade_reconstruction.specs.Lines.{era_text, is_row, moment_text, row_at, row_text, sent_at, sent_in, sent_row, sent_text};

use participants::{Participants, Who};
use sef_moment::print_utc;
use std::alloc::AllocError;
use trade_blotter::{append, append_number, name_at};
use venue_rules::TrailRow;

/// A message: its sender, and the sender's own number of it.
#[derive(Clone, Copy)]
pub struct Sent {
    pub who: Who,
    pub era: u32,
    pub number: u32,
}

fn is_row(of: &TrailRow, row: u64) -> bool
    ensures { result ≡ is_row row of.now }
{
    of.n == row
}

/// The first row with this number.
fn find_row(rows: &[TrailRow], number: u64) -> Option<&TrailRow>
    ensures { option_map (λ r. r.now) result ≡ find (is_row number) rows.now }
{
    for row in rows {
        if is_row(row, number) {
            return Some(row);
        }
    }
    None
}

fn sent_in(row: &TrailRow) -> Option<Sent>
    ensures { result ≡ sent_in row.now }
{
    if row.who == 0 {
        None
    } else {
        Some(Sent {
            who: Who::of(row.who - 1),
            era: row.era,
            number: row.number,
        })
    }
}

/// The row with this number: the one at its place, if it has this number, or else the first that has it.
fn row_at(rows: &[TrailRow], number: u64) -> Option<&TrailRow>
    ensures { option_map (λ r. r.now) result ≡ row_at rows.now number }
{
    match rows.get(number.saturating_sub(1) as usize) {
        Some(row) => {
            if is_row(row, number) {
                Some(row)
            } else {
                find_row(rows, number)
            }
        }
        None => find_row(rows, number),
    }
}

/// The message at the row with this number; a tick has none.
fn sent_at(rows: &[TrailRow], number: u64) -> Option<Sent>
    ensures { result ≡ sent_at rows.now number }
{
    match row_at(rows, number) {
        Some(row) => sent_in(row),
        None => None,
    }
}

/// Appends an era, unless it is the first.
fn append_era(text: &mut Vec<u8>, era: u32) -> Result<(), AllocError>
    ensures { OnOk result (text.new.items ≡ text.old.items ++ era_text era) }
{
    if era == 1 {
        Ok(())
    } else {
        append_number(text, b" of era ", era as u64)
    }
}

/// Appends a message, if there is one, with its sender's name.
fn append_sent(
    text: &mut Vec<u8>,
    participants: &Participants,
    sent: &Option<Sent>,
) -> Result<(), AllocError>
    ensures { OnOk result (text.new.items ≡ text.old.items ++ sent_text participants.now sent.now) }
{
    match sent {
        Some(sent) => {
            append_number(text, b", in message ", sent.number as u64)?;
            append_era(text, sent.era)?;
            append(text, &[b" of ", name_at(participants, sent.who)])
        }
        None => Ok(()),
    }
}

/// Appends the moment of a row, if there is such a row.
pub(crate) fn append_row_moment(
    text: &mut Vec<u8>,
    rows: &[TrailRow],
    row: u64,
) -> Result<(), AllocError>
    ensures { OnOk result (text.new.items ≡ text.old.items ++ moment_text rows.now row) }
{
    match row_at(rows, row) {
        Some(row) => {
            let printed = print_utc(row.moment);
            append(text, &[b" at ", &printed])
        }
        None => Ok(()),
    }
}

/// Appends the row that supports a line, and ends the line.
pub(crate) fn append_row(text: &mut Vec<u8>, row: u64) -> Result<(), AllocError>
    ensures { OnOk result (text.new.items ≡ text.old.items ++ row_text row) }
{
    append_number(text, b" row ", row)?;
    append(text, &[b"\n"])
}

/// Appends the message at a row with its sender's name, and the row, and ends the line.
pub(crate) fn append_sent_row(
    text: &mut Vec<u8>,
    rows: &[TrailRow],
    participants: &Participants,
    row: u64,
) -> Result<(), AllocError>
    ensures { OnOk result (text.new.items ≡ text.old.items ++ sent_row rows.now participants.now row) }
{
    append_sent(text, participants, &sent_at(rows, row))?;
    append_row(text, row)
}
