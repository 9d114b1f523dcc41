//! Messages as the lines of a transcript have them.

use crate::texts::app_of;
use crate::venue::line::Trouble;
use fix_dictionary::{BoxedApp, Item, SequenceNumber};
use participants::Participants;
use sef_moment::Moment;
use std::alloc::{AllocError, Global};
use venue_rules::Taken;

/// The last number that a message may have.
const MAX_SEQ_NUM: u32 = 999_999_999;

/// A message as a line has it: who sends it, and its text with `|` for SOH.
#[derive(Clone, Copy)]
pub struct Sent<'a> {
    pub from: &'a str,
    pub text: &'a str,
}

// A byte of a text as a body has it: `|` is SOH, and `*` a number.
fn append_byte(byte: u8, number: &[u8], body: &mut Vec<u8>) -> Result<(), AllocError> {
    match byte {
        b'|' => body.push(1)?,
        b'*' => body.extend_from_slice(number)?,
        _ => body.push(byte)?,
    }
    Ok(())
}

// A text's body, with a number for each `*`.
fn body_in(alloc: Global, text: &str, number: u32) -> Result<Vec<u8>, AllocError> {
    let digits = format!(in alloc; "{number}")?;
    let mut body = Vec::new(alloc);
    for byte in text.as_bytes() {
        append_byte(*byte, digits.as_bytes(), &mut body)?;
    }
    Ok(body)
}

/// The message that a line sends under a number, with its place among the line's messages for each `*`.
pub fn taken(
    alloc: Global,
    participants: &Participants,
    number: u32,
    sent: Sent<'_>,
    place: u32,
) -> Result<Taken, Trouble> {
    if number == 0 || number > MAX_SEQ_NUM {
        return Err(Trouble::NoCall);
    }
    let from = participants
        .find(sent.from.as_bytes())
        .ok_or(Trouble::NoCall)?;
    let body = body_in(alloc, sent.text, place)?;
    let app = app_of(alloc, &body)?.ok_or(Trouble::NoCall)?;
    Ok(Taken {
        from,
        item: Item {
            era: 1,
            number: SequenceNumber::new(number),
            app: BoxedApp::new(alloc, app)?,
        },
    })
}
