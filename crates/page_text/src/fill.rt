//! Filling the places of a template.
ghost use Rattle.std.specs.Prelude.{◌≡◌, ◌++◌, IfOk, OnOk, drop};
ghost use Rattle.page_text.specs.declared.spot.Reading.TheVariants.{Own};
ghost use Rattle.page_text.specs.Parts.{emitted, filled, left, shown};
ghost use Rattle.page_text.specs.Spots.{after};
ghost use Rattle.page_text.specs.Texts.{texts};

use crate::escape::{escape_all, push};
use crate::spot::{Reading, Spot, next_of, spot_at};
use std::alloc::AllocError;

/// Appends the first value.
fn show(out: &mut Vec<u8>, spot: Spot, values: &[&[u8]]) -> Result<(), AllocError>
    ensures { OnOk result (out.new.items ≡ out.old.items ++ shown spot (texts values.now)) }
{
    match values.split_first() {
        None => Ok(()),
        Some((value, _)) => match spot {
            Spot::Text => escape_all(out, value),
            Spot::Tag => Ok(()),
            Spot::Quoted => escape_all(out, value),
        },
    }
}

/// Appends what the page has for a byte of the template.
fn emit(out: &mut Vec<u8>, reading: Reading, byte: u8, values: &[&[u8]]) -> Result<(), AllocError>
    ensures { OnOk result (out.new.items ≡ out.old.items ++ emitted reading byte (texts values.now)) }
{
    match reading {
        Reading::Own(spot) => {
            if byte == b'$' {
                show(out, spot, values)
            } else {
                push(out, byte)
            }
        }
        Reading::Name(_) => Ok(()),
    }
}

/// The values for the places after a byte of the template.
fn values_left<'a, 'b>(reading: Reading, byte: u8, values: &'b [&'a [u8]]) -> &'b [&'a [u8]]
    ensures { texts result.now ≡ left reading byte (texts values.now) }
{
    match reading {
        Reading::Own(_) => if byte == b'$' {
            others_of(values)
        } else {
            values
        },
        Reading::Name(_) => values,
    }
}

/// All but the first value.
fn others_of<'a, 'b>(values: &'b [&'a [u8]]) -> &'b [&'a [u8]]
    ensures { texts result.now ≡ drop 1 (texts values.now) }
{
    if values.is_empty() {
        return values;
    }
    let (_, others) = values.split_at(1);
    others
}

/// Appends a template with values in its places, at this spot, and says where the next byte stands.
pub(crate) fn fill(
    out: &mut Vec<u8>,
    spot: Spot,
    template: &[u8],
    values: &[&[u8]],
) -> Result<Spot, AllocError>
    ensures filled { OnOk result (out.new.items ≡ out.old.items ++ filled (Own spot) template.now (texts values.now)) }
    ensures spot { IfOk result (λ s. s ≡ after spot (filled (Own spot) template.now (texts values.now))) }
{
    let mut reading = Reading::Own(spot);
    let mut rest = values;
    for byte in template {
        emit(out, reading, *byte, rest)?;
        rest = values_left(reading, *byte, rest);
        reading = next_of(reading, *byte);
    }
    Ok(spot_at(reading))
}
