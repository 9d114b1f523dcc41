//! What begins as a frame and is none: what its length and its checksum would have to be.

ghost use Rattle.std.specs.Prelude.{◌≡◌, ◌++◌, ◌≤◌, IfOk, OnOk, length, true};
ghost use Rattle.fix_frame.specs.Frame.{counted, frame};
ghost use Rattle.std.specs.Fmt.{decimal};
ghost use Rattle.frame_explanation.specs.Broken as broken;

use crate::frames::{OPENING, body_length, checksum, has_soh, three_digits, trailer};
use crate::parts::{Part, append_parts};
use fix_pieces::{SOH, begins, first_value, piece, rest_of};
use itoa::Buffer;
use message_words::readable_text;
use std::alloc::{AllocError, Global};

/// The greatest body that the venue reads.
pub(crate) const LONGEST: usize = 8_192;

/// The frame of a body.
pub(crate) fn framed(alloc: Global, body: &[u8]) -> Result<Vec<u8>, AllocError>
    ensures { IfOk result (λ text. text.items ≡ frame (decimal (length body.now)) body.now) }
{
    let mut digits = Buffer::new();
    let mut text = counted(alloc, digits.format(body.len() as u64).as_bytes(), body)?;
    let sum = trailer(checksum(&text));
    text.extend_from_slice(&sum)?;
    Ok(text)
}

/// All of a frame that precedes the trailer.
fn counted<'a>(alloc: Global, digits: &'a [u8], body: &'a [u8]) -> Result<Vec<u8>, AllocError>
    ensures { IfOk result (λ text. text.items ≡ counted digits.now body.now) }
{
    let mut text = Vec::new(alloc);
    append_parts(
        &mut text,
        &[
            Part::Bytes(&OPENING),
            Part::Bytes(digits),
            Part::Bytes(b"\x01"),
            Part::Bytes(body),
        ],
    )?;
    Ok(text)
}

/// What stands behind `8=FIXT.1.1|9=`.
fn behind_opening(text: &[u8]) -> &[u8]
    ensures { result.now ≡ broken.behind_opening text.now }
{
    match text.get(OPENING.len()..) {
        Some(rest) => rest,
        None => &[],
    }
}

/// The number of bytes before the piece that begins with `10=`; all, where there is none.
fn to_trailer(rest: &[u8]) -> usize
    ensures length { result ≡ broken.to_trailer true rest.now }
    ensures within { result ≤ length rest.now }
{
    let mut starts = true;
    for at in 0..rest.len() {
        if starts && begins(b"10=", &rest[at..]) {
            return at;
        }
        starts = rest[at] == SOH;
    }
    rest.len()
}

/// The three digits of the checksum of a frame with this BodyLength and body.
fn sum_of(alloc: Global, digits: &[u8], body: &[u8]) -> Result<[u8; 3], AllocError>
    ensures { IfOk result (λ sum. sum ≡ broken.sum_of digits.now body.now) }
{
    let text = counted(alloc, digits, body)?;
    Ok(three_digits(checksum(&text)))
}

/// Appends that CheckSum is wrong, and what it has to be.
fn append_wrong_sum(
    alloc: Global,
    out: &mut Vec<u8>,
    digits: &[u8],
    sum: &[u8],
    body: &[u8],
) -> Result<(), AllocError>
    ensures { OnOk result (out.new.items ≡ out.old.items ++ broken.wrong_sum digits.now sum.now body.now) }
{
    let stated = readable_text(alloc, sum)?;
    let right = sum_of(alloc, digits, body)?;
    append_parts(
        out,
        &[
            Part::Bytes(b"    CheckSum (10) is "),
            Part::Bytes(&stated),
            Part::Bytes(b", and has to be "),
            Part::Bytes(&right),
            Part::Bytes(b"\n"),
        ],
    )
}

/// Appends that BodyLength is wrong, and what it and CheckSum have to be.
fn append_wrong_length(
    alloc: Global,
    out: &mut Vec<u8>,
    digits: &[u8],
    body: &[u8],
) -> Result<(), AllocError>
    ensures { OnOk result (out.new.items ≡ out.old.items ++ broken.wrong_length digits.now body.now) }
{
    let stated = readable_text(alloc, digits)?;
    let mut digits = Buffer::new();
    let right = sum_of(alloc, digits.format(body.len() as u64).as_bytes(), body)?;
    append_parts(
        out,
        &[
            Part::Bytes(b"    BodyLength (9) is "),
            Part::Bytes(&stated),
            Part::Bytes(b", and has to be "),
            Part::Number(body.len() as u64),
            Part::Bytes(b", the bytes from 35= up to 10=; CheckSum (10) is then "),
            Part::Bytes(&right),
            Part::Bytes(b"\n"),
        ],
    )
}

fn is_length(stated: Option<usize>, length: usize) -> bool
    ensures { result ≡ broken.is_length stated length }
{
    match stated {
        Some(stated) => stated == length,
        None => false,
    }
}

/// Appends which of BodyLength and CheckSum is wrong, and what it has to be.
fn append_wrong(
    alloc: Global,
    out: &mut Vec<u8>,
    digits: &[u8],
    sum: &[u8],
    body: &[u8],
) -> Result<(), AllocError>
    ensures { OnOk result (out.new.items ≡ out.old.items ++ broken.wrong digits.now sum.now body.now) }
{
    if is_length(body_length(digits), body.len()) {
        return append_wrong_sum(alloc, out, digits, sum, body);
    }
    append_wrong_length(alloc, out, digits, body)
}

/// Appends what is wrong with a body between a BodyLength and a CheckSum.
fn append_body_fault(
    alloc: Global,
    out: &mut Vec<u8>,
    digits: &[u8],
    sum: &[u8],
    body: &[u8],
) -> Result<(), AllocError>
    ensures { OnOk result (out.new.items ≡ out.old.items ++ broken.why_body digits.now sum.now body.now) }
{
    if !begins(b"35=", body) {
        return out.extend_from_slice(b"    its third field is not MsgType (35=)\n");
    }
    if body.len() > LONGEST {
        return append_parts(
            out,
            &[
                Part::Bytes(b"    its body has "),
                Part::Number(body.len() as u64),
                Part::Bytes(b" bytes, and the venue reads 8192 at most\n"),
            ],
        );
    }
    append_wrong(alloc, out, digits, sum, body)
}

/// Appends what is wrong with what follows a BodyLength.
fn append_why(
    alloc: Global,
    out: &mut Vec<u8>,
    digits: &[u8],
    rest: &[u8],
) -> Result<(), AllocError>
    ensures { OnOk result (out.new.items ≡ out.old.items ++ broken.why_behind digits.now rest.now) }
{
    let length = to_trailer(rest);
    let Some(sum) = first_value(b"10=", rest) else {
        return out.extend_from_slice(b"    it has no CheckSum (10=), with which each frame ends\n");
    };
    if !has_soh(&rest[length..]) {
        return out.extend_from_slice(
            b"    no SOH ends its CheckSum (10=), which is its last field\n",
        );
    }
    append_body_fault(alloc, out, digits, sum, &rest[..length])
}

/// Appends why what begins as a frame is none.
pub(crate) fn append_broken(alloc: Global, out: &mut Vec<u8>, text: &[u8]) -> Result<(), AllocError>
    ensures { OnOk result (out.new.items ≡ out.old.items ++ broken.why text.now) }
{
    let behind = behind_opening(text);
    append_why(alloc, out, piece(behind), rest_of(behind))
}
