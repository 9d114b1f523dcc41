//! The lines about the orders that rested before the filled one.

ghost use Rattle.std.specs.Prelude.{◌≡◌, ◌++◌, OnOk};
ghost use Rattle.trade_reconstruction.specs.Lines.{counted_line, filled_text, filler_of, standing_line, standing_lines, stood_line, stood_side};

use crate::events::Events;
use crate::evidence_event::{EventKind, EvidenceEvent, RestedBefore, RestedCount};
use crate::finding::{Query, filling_trade};
use crate::sent::append_row;
use fix_dictionary::Side;
use std::alloc::{AllocError, Global};
use trade_blotter::{append, append_number, append_price};

fn stood_side(side: Side) -> &'static [u8]
    ensures { result.now ≡ stood_side side }
{
    match side {
        Side::Buy => b" with a bid of ",
        Side::Sell => b" with an offer of ",
    }
}

/// The trade at this row that filled an order, if one did.
fn filler_of(words: &Events, order: u64, row: u64) -> Option<u64>
    ensures { result ≡ filler_of words.now order row }
{
    filling_trade(words, &Query::FillAt(order, row))
}

fn append_filled(text: &mut Vec<u8>, trade: Option<u64>) -> Result<(), AllocError>
    ensures { OnOk result (text.new.items ≡ text.old.items ++ filled_text trade) }
{
    match trade {
        Some(trade) => append_number(text, b", filled by T", trade),
        None => Ok(()),
    }
}

fn append_stood(
    alloc: Global,
    text: &mut Vec<u8>,
    words: &Events,
    word: &EvidenceEvent,
    stood: &RestedBefore,
) -> Result<(), AllocError>
    ensures { OnOk result (text.new.items ≡ text.old.items ++ stood_line words.now word.now stood.now) }
{
    append_number(text, b"O", stood.order)?;
    append_number(text, b" rested before O", stood.resting)?;
    append_number(text, stood_side(stood.side), stood.left.get())?;
    append(text, &[b" @ "])?;
    append_price(alloc, text, stood.price)?;
    append_filled(text, filler_of(words, stood.order, word.row))?;
    append_row(text, word.row)
}

fn append_counted(
    text: &mut Vec<u8>,
    word: &EvidenceEvent,
    counted: &RestedCount,
) -> Result<(), AllocError>
    ensures { OnOk result (text.new.items ≡ text.old.items ++ counted_line word.now counted.now) }
{
    append_number(
        text,
        b"orders that rested on its side before O",
        counted.resting,
    )?;
    append_number(text, b": ", counted.count)?;
    append_row(text, word.row)
}

/// Appends the line of one event about what rested before the order.
fn append_word(
    alloc: Global,
    text: &mut Vec<u8>,
    words: &Events,
    word: &EvidenceEvent,
) -> Result<(), AllocError>
    ensures { OnOk result (text.new.items ≡ text.old.items ++ standing_line words.now word.now) }
{
    match &word.said {
        EventKind::RestedBefore(stood) => append_stood(alloc, text, words, word, stood),
        EventKind::RestedCount(counted) => append_counted(text, word, counted),
        _ => Ok(()),
    }
}

/// Appends what rested before the order, each with the trade that filled it at the same row, and the count.
pub(crate) fn append_standing(
    alloc: Global,
    text: &mut Vec<u8>,
    words: &Events,
    stood: &[EvidenceEvent],
) -> Result<(), AllocError>
    ensures { OnOk result (text.new.items ≡ text.old.items ++ standing_lines words.now stood.now) }
{
    for word in stood {
        append_word(alloc, text, words, word)?;
    }
    Ok(())
}
