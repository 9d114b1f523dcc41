//! The groups of a request for quotes: its symbols, and the parties of one.

use crate::bytes::emitting::emit_last;
use crate::emitting::{emit, emit_count, emit_line};
use fix_fields::{Field, Fields, Group, append_bytes, group_among};
use std::alloc::{AllocError, Global};

const SYMBOLS: Group<'static> = Group {
    count: 146,
    low: 1,
    high: 1,
    first: 55,
    others: &[54, 38, 453, 448, 447, 452],
    outside: &[131],
};

const PARTIES: Group<'static> = Group {
    count: 453,
    low: 1,
    high: 64,
    first: 448,
    others: &[447, 452],
    outside: &[55, 54, 38],
};

// Appends the text of some fields.
fn emit_instance(
    alloc: Global,
    words: &str,
    fields: &[Field<'_>],
    emitted: &mut Vec<u8>,
) -> Result<(), AllocError> {
    let mut text = Vec::new(alloc);
    for field in fields {
        append_bytes(&mut text, field.tag, field.value)?;
    }
    emit_last(alloc, words, &text, emitted)
}

/// Prints how many parties are among some fields, and each of them.
pub fn emit_parties(
    alloc: Global,
    fields: &[Field<'_>],
    emitted: &mut Vec<u8>,
) -> Result<(), AllocError> {
    let parties = match group_among(fields, &PARTIES) {
        Ok(Some(parties)) => parties,
        Ok(None) => return emit_line("no parties", emitted),
        Err(fault) => return emit(alloc, &fault, emitted),
    };
    emit_count(alloc, parties.number(), "parties", emitted)?;
    for party in parties {
        emit_instance(alloc, "party ", party, emitted)?;
    }
    Ok(())
}

/// Prints how many symbols the fields have, and each with its parties.
pub fn emit_symbols(
    alloc: Global,
    fields: &Fields<'_>,
    emitted: &mut Vec<u8>,
) -> Result<(), AllocError> {
    let symbols = match fields.group(&SYMBOLS) {
        Ok(Some(symbols)) => symbols,
        Ok(None) => return emit_line("no symbols", emitted),
        Err(fault) => return emit(alloc, &fault, emitted),
    };
    emit_count(alloc, symbols.number(), "symbols", emitted)?;
    for symbol in symbols {
        emit_instance(alloc, "symbol ", symbol, emitted)?;
        emit_parties(alloc, symbol, emitted)?;
    }
    Ok(())
}
