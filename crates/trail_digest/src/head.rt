//! The line that names a trail by its content, and the digest after a row.

ghost use Rattle.std.specs.Prelude.{◌≡◌, ◌++◌, ◌⊎◌, true, false, length, IfErr, IfNone, IfOk, IfSome, OnOk, ◌≤◌, string_bytes};
ghost use Rattle.std.specs.Io.KnownBytes.{Appends, Keeps};
ghost use Rattle.trail_digest.specs.Chain.{chain};
ghost use Rattle.trail_digest.specs.Head.{count_asked, digest_text, head_text, is_there, json_pieces, line_pieces, row_digest_text, rows_word, sha256_text};
ghost use Rattle.trail_digest.specs.Printed.{concat};
ghost use Rattle.trail_digest.specs.Trail.{trail_of};
ghost use Rattle.trail_digest.specs.declared.fault.DigestFault.TheVariants.{Memory, NoRow};

use crate::chain::digest;
use crate::contents::Contents;
use crate::fault::DigestFault;
use crate::text::{append, write_text};
use itoa::Buffer;
use sha2::{Digest, Sha256};
use std::alloc::{AllocError, Global};
use std::io::Write;

/// How the head of an output names the trail.
#[derive(Clone, Copy, Debug, PartialEq, Eq)]
pub enum HeadForm {
    /// words
    Line,
    /// an object on a line
    Json,
}

/// The SHA-256 of a file, as sha256sum prints it.
fn sha256_text(alloc: Global, bytes: &[u8]) -> Result<String, AllocError>
    ensures { IfOk result (λ text. string_bytes text ≡ sha256_text bytes.now) }
{
    hex::encode(alloc, Sha256::digest(bytes))
}

fn digest_text(alloc: Global, trail: &Contents) -> Result<String, AllocError>
    ensures { IfOk result (λ text. string_bytes text ≡ digest_text (trail_of trail.now)) }
{
    hex::encode(alloc, digest(trail))
}

fn rows_word(n: u64) -> &'static [u8]
    ensures { result.now ≡ rows_word n }
{
    if n == 1 { b" row" } else { b" rows" }
}

fn append_line(alloc: Global, text: &mut Vec<u8>, trail: &Contents) -> Result<(), AllocError>
    ensures { OnOk result (text.new.items ≡ text.old.items ++ concat (line_pieces (trail_of trail.now))) }
{
    let mut n = Buffer::new();
    let count = trail.rows.len() as u64;
    let participants = sha256_text(alloc, trail.participants)?;
    let instruments = sha256_text(alloc, trail.instruments)?;
    let digest = digest_text(alloc, trail)?;
    append(
        text,
        &[
            b"trail of ",
            n.format(count).as_bytes(),
            rows_word(count),
            b", participants SHA-256 ",
            participants.as_bytes(),
            b", instruments SHA-256 ",
            instruments.as_bytes(),
            b", digest ",
            digest.as_bytes(),
            b"\n",
        ],
    )
}

fn append_json(alloc: Global, text: &mut Vec<u8>, trail: &Contents) -> Result<(), AllocError>
    ensures { OnOk result (text.new.items ≡ text.old.items ++ concat (json_pieces (trail_of trail.now))) }
{
    let mut n = Buffer::new();
    let participants = sha256_text(alloc, trail.participants)?;
    let instruments = sha256_text(alloc, trail.instruments)?;
    let digest = digest_text(alloc, trail)?;
    append(
        text,
        &[
            b"{\"trail\":{\"rows\":",
            n.format(trail.rows.len()).as_bytes(),
            b",\"participants_sha256\":\"",
            participants.as_bytes(),
            b"\",\"instruments_sha256\":\"",
            instruments.as_bytes(),
            b"\",\"digest\":\"",
            digest.as_bytes(),
            b"\"}}\n",
        ],
    )
}

/// Appends the line that names a trail: its count of rows, the SHA-256 of both stored files, and its digest.
#[tactic(auto, unfolding(crate::specs::Head::head_text))]
pub fn append_head(
    alloc: Global,
    text: &mut Vec<u8>,
    form: HeadForm,
    trail: &Contents,
) -> Result<(), AllocError>
    ensures { OnOk result (text.new.items ≡ text.old.items ++ head_text form (trail_of trail.now)) }
{
    match form {
        HeadForm::Line => append_line(alloc, text, trail),
        HeadForm::Json => append_json(alloc, text, trail),
    }
}

/// Writes the line that names a trail.
pub fn print_head<W: Write>(
    alloc: Global,
    form: HeadForm,
    trail: &Contents,
    writer: &mut W,
) -> Result<(), DigestFault>
    ensures emitted { OnOk result (Appends (W.contents writer.old) (W.contents writer.new) (head_text form (trail_of trail.now))) }
    ensures unwritten { IfErr result (λ fault. fault ≡ Memory → Keeps (W.contents writer.old) (W.contents writer.new)) }
    ensures failed { IfErr result (λ fault. fault ≡ NoRow → ⊥) }
{
    let mut text = Vec::new(alloc);
    append_head(alloc, &mut text, form, trail)?;
    write_text(&text, writer)
}

/// This row, if it is there; 0 is the beginning, before the first.
fn there(n: u64, count: u64) -> Option<u64>
    ensures there { IfSome result (λ row. (row ≡ n) × (is_there (Some n) count ≡ true)) }
    ensures lost { IfNone result (is_there (Some n) count ≡ false) }
{
    if n <= count { Some(n) } else { None }
}

/// How many rows are asked for: all, or those up to a row, if it is there.
fn count_asked(row: Option<u64>, count: u64) -> Option<u64>
    ensures there { IfSome result (λ n. (n ≡ count_asked row count) × (is_there row count ≡ true)) }
    ensures lost { IfNone result (is_there row count ≡ false) }
{
    match row {
        None => Some(count),
        Some(n) => there(n, count),
    }
}

fn append_row_digest(
    alloc: Global,
    text: &mut Vec<u8>,
    trail: &Contents,
    n: u64,
) -> Result<(), AllocError>
    requires { n ≤ length trail.now.rows.now }
    ensures { OnOk result (text.new.items ≡ text.old.items ++ row_digest_text n (trail_of trail.now)) }
{
    let mut digits = Buffer::new();
    let first = Contents {
        participants: trail.participants,
        instruments: trail.instruments,
        delays: trail.delays,
        rows: &trail.rows[..n as usize],
    };
    let digest = digest_text(alloc, &first)?;
    append(
        text,
        &[digits.format(n).as_bytes(), b" ", digest.as_bytes(), b"\n"],
    )
}

/// Writes the number of a row and the digest after it: of the row that is asked for, or of the last.
pub fn print_digest<W: Write>(
    alloc: Global,
    trail: &Contents,
    row: Option<u64>,
    writer: &mut W,
) -> Result<(), DigestFault>
    ensures emitted { OnOk result (Appends (W.contents writer.old) (W.contents writer.new) (row_digest_text (count_asked row (length trail.now.rows.now)) (trail_of trail.now))) }
    ensures there { OnOk result (is_there row (length trail.now.rows.now) ≡ true) }
    ensures lost { is_there row (length trail.now.rows.now) ≡ false → result ≡ Err NoRow }
    ensures refused { IfErr result (λ fault. fault ≡ NoRow → is_there row (length trail.now.rows.now) ≡ false) }
    ensures unwritten { IfErr result (λ fault. (fault ≡ Memory) ⊎ (fault ≡ NoRow) → Keeps (W.contents writer.old) (W.contents writer.new)) }
{
    let Some(n) = count_asked(row, trail.rows.len() as u64) else {
        return Err(DigestFault::NoRow);
    };
    let mut text = Vec::new(alloc);
    append_row_digest(alloc, &mut text, trail, n)?;
    write_text(&text, writer)
}
