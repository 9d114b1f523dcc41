//! Sentences, part by part.
ghost use Rattle.std.specs.Prelude.{◌≡◌, ◌++◌, OnOk, decimal};
ghost use Rattle.frame_explanation.specs.Parts as specs;

use itoa::Buffer;
use std::alloc::AllocError;

/// A part of a sentence.
#[derive(Clone, Copy)]
pub(crate) enum Part<'a> {
    Bytes(&'a [u8]),
    Number(u64),
}

fn append_number(out: &mut Vec<u8>, number: u64) -> Result<(), AllocError>
    ensures { OnOk result (out.new.items ≡ out.old.items ++ decimal number) }
{
    let mut digits = Buffer::new();
    out.extend_from_slice(digits.format(number).as_bytes())
}

fn append_part(out: &mut Vec<u8>, part: &Part) -> Result<(), AllocError>
    ensures { OnOk result (out.new.items ≡ out.old.items ++ specs.shown part.now) }
{
    match part {
        Part::Bytes(bytes) => out.extend_from_slice(bytes),
        Part::Number(number) => append_number(out, *number),
    }
}

/// Appends parts, one behind the other.
pub(crate) fn append_parts(out: &mut Vec<u8>, parts: &[Part]) -> Result<(), AllocError>
    ensures { OnOk result (out.new.items ≡ out.old.items ++ specs.all_shown parts.now) }
{
    for part in parts {
        append_part(out, part)?;
    }
    Ok(())
}
