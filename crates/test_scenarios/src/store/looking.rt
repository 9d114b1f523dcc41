//! Calls that look at the store.

use crate::emitting::{emit, emit_bytes, emit_line};
use fix_dictionary::SequenceNumber;
use fix_encoder::print_app;
use resend_store::{Resend, Store};
use std::alloc::{AllocError, Global};

/// The greatest sequence number.
const MAX_SEQ_NUM: u32 = 999_999_999;

fn emit_resend(alloc: Global, resend: Resend<'_>, emitted: &mut Vec<u8>) -> Result<(), AllocError> {
    match resend {
        Resend::Repeat {
            number,
            app,
            first_sent,
        } => {
            let (number, first) = (number.get(), first_sent.ms());
            let words = format!(in alloc; "{number}, first sent at {first}: ")?;
            let mut text = Vec::from_slice(alloc, words.as_bytes())?;
            print_app(app, &mut text)?;
            emit_bytes(&text, emitted)
        }
        Resend::GapFill { number, new } => {
            let (number, new) = (number.get(), new.get());
            emit_line(
                format!(in alloc; "{number}, gap fill to {new}")?.as_str(),
                emitted,
            )
        }
    }
}

// Prints what is sent again for these numbers; false where the first is no number.
fn emit_resends(
    alloc: Global,
    store: &Store,
    from: u32,
    to: u32,
    emitted: &mut Vec<u8>,
) -> Result<bool, AllocError> {
    if from == 0 || from > MAX_SEQ_NUM {
        return Ok(false);
    }
    for resend in store.resends(SequenceNumber::new(from), to) {
        emit_resend(alloc, resend, emitted)?;
    }
    Ok(true)
}

// The first and the last number of a range.
fn range_in(text: &str) -> Option<(u32, u32)> {
    let (from, to) = text.split_once(' ')?;
    Some((from.parse::<u32>().ok()?, to.parse::<u32>().ok()?))
}

/// Prints the answer of the store to a call, if it is one that only reads.
pub fn look(
    alloc: Global,
    store: &Store,
    word: &str,
    rest: &str,
    emitted: &mut Vec<u8>,
) -> Result<bool, AllocError> {
    match word {
        "next" => emit(alloc, &store.next_number(), emitted)?,
        "eras" => emit(alloc, &store.era(), emitted)?,
        "range" | "resends" => {
            let Some((from, to)) = range_in(rest) else {
                return Ok(false);
            };
            if word == "resends" {
                return emit_resends(alloc, store, from, to, emitted);
            }
            emit(alloc, &store.range(from, to).len(), emitted)?
        }
        _ => return Ok(false),
    }
    Ok(true)
}
