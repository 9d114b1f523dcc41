//! The lines about what had become of each quote in a room just before the trade there.

ghost use Rattle.std.specs.Prelude.{◌≡◌, ◌++◌, OnOk};
ghost use Rattle.trade_reconstruction.specs.NoteLines.{end_text, fate_line, fate_lines, fate_text, followed_text, gone_text, lacks_text, live_text};

use crate::quote_note::{Ended, Fate, QuoteFate};
use crate::sent::append_row;
use fix_dictionary::Side;
use std::alloc::AllocError;
use trade_blotter::{append, append_number};

fn end_text(is_passed: bool) -> &'static [u8]
    ensures { result.now ≡ end_text is_passed }
{
    if is_passed {
        b" had been passed"
    } else {
        b" had been withdrawn"
    }
}

/// Appends that a quote was withdrawn or passed, with the row of the message that did it.
fn append_gone(text: &mut Vec<u8>, row: u64, ended: &Option<Ended>) -> Result<(), AllocError>
    ensures { OnOk result (text.new.items ≡ text.old.items ++ gone_text row ended.now) }
{
    match ended {
        Some(ended) => {
            append(text, &[end_text(ended.is_passed)])?;
            append_row(text, ended.row)
        }
        None => {
            append(text, &[b" had been withdrawn"])?;
            append_row(text, row)
        }
    }
}

/// Appends that the maker of a quote quoted again, perhaps after the end of this one.
fn append_followed(text: &mut Vec<u8>, row: u64, ended: &Option<Ended>) -> Result<(), AllocError>
    ensures { OnOk result (text.new.items ≡ text.old.items ++ followed_text row ended.now) }
{
    match ended {
        Some(ended) => {
            append(text, &[end_text(ended.is_passed), b" row "])?;
            append_number(text, b"", ended.row)?;
            append(text, &[b" and followed by another of its maker"])?;
            append_row(text, row)
        }
        None => {
            append(text, &[b" had been followed by another of its maker"])?;
            append_row(text, row)
        }
    }
}

fn lacks_text(lacks: Option<Side>) -> &'static [u8]
    ensures { result.now ≡ lacks_text lacks }
{
    match lacks {
        None => b"",
        Some(Side::Buy) => b", without a bid",
        Some(Side::Sell) => b", without an offer",
    }
}

fn append_live(text: &mut Vec<u8>, is_hit: bool, lacks: Option<Side>) -> Result<(), AllocError>
    ensures { OnOk result (text.new.items ≡ text.old.items ++ live_text is_hit lacks) }
{
    if is_hit {
        return append(text, &[b" was live and was hit"]);
    }
    append(text, &[b" was live at the trade", lacks_text(lacks)])
}

/// Appends what had become of a quote, and the row that supports it.
fn append_fate_text(text: &mut Vec<u8>, fate: &QuoteFate) -> Result<(), AllocError>
    ensures { OnOk result (text.new.items ≡ text.old.items ++ fate_text fate.now fate.now.fate) }
{
    match fate.fate {
        Fate::Live => {
            append_live(text, fate.is_hit, fate.lacks)?;
            append_row(text, fate.row)
        }
        Fate::Replaced => append_followed(text, fate.row, &fate.end),
        Fate::Withdrawn => append_gone(text, fate.row, &fate.end),
        Fate::RunOut => {
            append(text, &[b" had run out"])?;
            append_row(text, fate.row)
        }
    }
}

fn append_fate(text: &mut Vec<u8>, fate: &QuoteFate) -> Result<(), AllocError>
    ensures { OnOk result (text.new.items ≡ text.old.items ++ fate_line fate.now) }
{
    append_number(text, b"quote Q", fate.quote)?;
    append(text, &[b" of ", fate.maker.as_slice()])?;
    append_fate_text(text, fate)
}

/// Appends what had become of each quote in the room of a trade.
pub(crate) fn append_fates(text: &mut Vec<u8>, fates: &[QuoteFate]) -> Result<(), AllocError>
    ensures { OnOk result (text.new.items ≡ text.old.items ++ fate_lines fates.now) }
{
    for fate in fates {
        append_fate(text, fate)?;
    }
    Ok(())
}
