//! Texts for people.

ghost use Rattle.std.specs.Prelude.{◌≡◌, ◌++◌, ◌-◌, ◌<◌, IfErr, IfOk, OnOk};
ghost use Rattle.std.specs.Io.KnownBytes.{Appends};
ghost use Rattle.fix_fields.specs.Views.{joined};
ghost use Rattle.participants.specs.Relations.{name_of};
ghost use Rattle.trail_digest.specs.Printed.{concat, message_pieces, row_text, clock_pieces, hex_digit, readable, readable_byte};
ghost use Rattle.trail_digest.specs.declared.fault.DigestFault.TheVariants.{Output};

use crate::fault::DigestFault;
use itoa::Buffer;
use participants::{Participants, Who};
use sef_moment::print_utc;
use std::alloc::{AllocError, Global};
use std::io::Write;
use venue_rules::TrailRow;

/// Appends texts in order.
pub(crate) fn append(text: &mut Vec<u8>, pieces: &[&[u8]]) -> Result<(), AllocError>
    ensures { OnOk result (text.new.items ≡ text.old.items ++ joined pieces.now) }
{
    for piece in pieces {
        text.extend_from_slice(piece)?;
    }
    Ok(())
}

pub(crate) fn write_text<W: Write>(text: &[u8], writer: &mut W) -> Result<(), DigestFault>
    ensures written { OnOk result (Appends (W.contents writer.old) (W.contents writer.new) text.now) }
    ensures output { IfErr result (λ fault. fault ≡ Output) }
{
    match writer.write_all(text) {
        Ok(()) => Ok(()),
        Err(_) => Err(DigestFault::Output),
    }
}

fn hex_digit(n: u8) -> u8
    requires { n < 16 }
    ensures { result ≡ hex_digit n }
{
    if n < 10 { n + 48 } else { n + 87 }
}

/// Appends what stands in the place of a byte.
fn append_readable(out: &mut Vec<u8>, byte: u8) -> Result<(), AllocError>
    ensures { OnOk result (out.new.items ≡ out.old.items ++ readable_byte byte) }
{
    if byte == 1 {
        append(out, &[b"|"])
    } else if byte < 32 || 126 < byte {
        append(
            out,
            &[b"\\x", &[hex_digit(byte / 16), hex_digit(byte % 16)]],
        )
    } else {
        append(out, &[&[byte]])
    }
}

/// The text of a row with | for the byte 1, and \x and two hexadecimal digits for each other byte that is not printed.
fn readable(alloc: Global, text: &[u8]) -> Result<Vec<u8>, AllocError>
    ensures { IfOk result (λ shown. shown.items ≡ readable text.now) }
{
    let mut shown = Vec::with_capacity(alloc, text.len())?;
    for byte in text {
        append_readable(&mut shown, *byte)?;
    }
    Ok(shown)
}

/// A participant's name; empty where the file has none at this place.
fn name_at(participants: &Participants, who: Who) -> &[u8]
    ensures { result.now ≡ name_of participants.now who }
{
    if (who.place() as usize) < participants.len() {
        participants.name(who)
    } else {
        b""
    }
}

fn append_clock(text: &mut Vec<u8>, row: &TrailRow) -> Result<(), AllocError>
    ensures { OnOk result (text.new.items ≡ text.old.items ++ concat (clock_pieces row.now)) }
{
    let mut n = Buffer::new();
    let moment = print_utc(row.moment);
    append(
        text,
        &[
            b"row ",
            n.format(row.n).as_bytes(),
            b" at ",
            &moment,
            b": the clock\n",
        ],
    )
}

fn append_message(
    alloc: Global,
    text: &mut Vec<u8>,
    participants: &Participants,
    row: &TrailRow,
) -> Result<(), AllocError>
    ensures { OnOk result (text.new.items ≡ text.old.items ++ concat (message_pieces participants.now row.now)) }
{
    let mut n = Buffer::new();
    let mut number = Buffer::new();
    let mut era = Buffer::new();
    let moment = print_utc(row.moment);
    let shown = readable(alloc, row.text.as_slice())?;
    append(
        text,
        &[
            b"row ",
            n.format(row.n).as_bytes(),
            b" at ",
            &moment,
            b" from ",
            name_at(participants, Who::of(row.who.saturating_sub(1))),
            b", sequence number ",
            number.format(row.number).as_bytes(),
            b" in era ",
            era.format(row.era).as_bytes(),
            b": ",
            &shown,
            b"\n",
        ],
    )
}

/// Appends a row as a line.
#[tactic(auto, unfolding(crate::specs::Printed::row_text))]
pub(crate) fn append_row(
    alloc: Global,
    text: &mut Vec<u8>,
    participants: &Participants,
    row: &TrailRow,
) -> Result<(), AllocError>
    ensures { OnOk result (text.new.items ≡ text.old.items ++ row_text participants.now row.now) }
{
    if row.who == 0 {
        append_clock(text, row)
    } else {
        append_message(alloc, text, participants, row)
    }
}
