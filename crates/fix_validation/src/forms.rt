//! Whether a value has the form and the range of its tag.
ghost use Rattle.std.specs.Prelude.{◌≡◌, ℕ, ◌≤◌, ◌<◌};
ghost use Rattle.fix_dictionary.specs.Values.{is_character, is_either};
ghost use Rattle.sef_moment.specs.UtcTest.{is_utc};
ghost use Rattle.fix_validation.specs.Table.{why, unless, text_fault, version_fault, side_fault, end_fault, value_fault};

use crate::table::Form;
use fix_dictionary::is_identifier;
use fix_fields::{
    ValueFault, read_amount, read_identifier, read_integer, read_price, read_quantity, read_text,
};
use sef_moment::read_utc;

/// One byte from 33 to 126.
pub(crate) fn is_character(bytes: &[u8]) -> bool
    ensures { result ≡ is_character bytes.now }
{
    match bytes {
        [byte] => 33 <= *byte && *byte <= 126,
        _ => false,
    }
}

/// One byte, one of the two.
pub(crate) fn is_either(first: u8, second: u8, bytes: &[u8]) -> bool
    ensures { result ≡ is_either first second bytes.now }
{
    match bytes {
        [byte] => *byte == first || *byte == second,
        _ => false,
    }
}

fn is_utc(bytes: &[u8]) -> bool
    ensures { result ≡ is_utc bytes.now }
{
    read_utc(bytes).is_ok()
}

fn unless(right: bool, fault: ValueFault) -> Option<ValueFault>
    ensures { result ≡ unless right fault }
{
    if right { None } else { Some(fault) }
}

fn identifier_fault(bytes: &[u8]) -> Option<ValueFault>
    ensures { result ≡ text_fault 64 bytes.now }
{
    read_identifier(bytes).err()
}

fn printable_fault(bytes: &[u8]) -> Option<ValueFault>
    ensures { result ≡ text_fault 200 bytes.now }
{
    read_text(bytes).err()
}

fn version_fault(bytes: &[u8]) -> Option<ValueFault>
    ensures { result ≡ version_fault bytes.now }
{
    if is_identifier(bytes) {
        unless(is_either(b'9', b'9', bytes), ValueFault::Range)
    } else {
        identifier_fault(bytes)
    }
}

fn side_fault(bytes: &[u8]) -> Option<ValueFault>
    ensures { result ≡ side_fault bytes.now }
{
    if is_character(bytes) {
        unless(is_either(b'1', b'2', bytes), ValueFault::Range)
    } else {
        Some(ValueFault::Format)
    }
}

// The fault of the last number of a resend request.
fn end_fault(begin: u32, end: Result<u64, ValueFault>) -> Option<ValueFault>
    ensures { result ≡ end_fault begin end }
{
    match end {
        Ok(end) => unless(end == 0 || u64::from(begin) <= end, ValueFault::Range),
        Err(fault) => Some(fault),
    }
}

pub(crate) fn value_fault(form: Form, bytes: &[u8]) -> Option<ValueFault>
    ensures { result ≡ value_fault form bytes.now }
{
    match form {
        Form::Kind => unless(is_identifier(bytes), ValueFault::Format),
        Form::Integer(low, high) => read_integer(bytes, u64::from(low), u64::from(high)).err(),
        Form::End(begin) => end_fault(begin, read_integer(bytes, 0, 999_999_999)),
        Form::Price => read_price(bytes).err(),
        Form::Quantity => read_quantity(bytes).err(),
        Form::Amount => read_amount(bytes).err(),
        Form::Identifier => identifier_fault(bytes),
        Form::Version => version_fault(bytes),
        Form::Character => unless(is_character(bytes), ValueFault::Format),
        Form::OneOrTwo => side_fault(bytes),
        Form::Flag => unless(is_either(b'Y', b'N', bytes), ValueFault::Format),
        Form::Utc => unless(is_utc(bytes), ValueFault::Format),
        Form::Printable => printable_fault(bytes),
    }
}
