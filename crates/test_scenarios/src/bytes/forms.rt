//! Values of fields in their forms.

use crate::bytes::emitting::emit_last;
use crate::emitting::{emit, emit_line};
use fix_fields::{
    Fields, ValueFault, read_amount, read_character, read_flag, read_integer, read_moment,
    read_price, read_quantity,
};
use std::alloc::{AllocError, Global};

/// A form whose values are numbers: a character is its code, a flag 1 or 0, a moment its milliseconds.
#[derive(Clone, Copy)]
pub enum Form {
    Integer(u32, u32),
    Quantity,
    Amount,
    Price,
    Character,
    Flag,
    Moment,
}

// A number as one that may be negative; no form has one past 10^18.
fn signed(number: u64) -> i64 {
    number.min(1_000_000_000_000_000_000) as i64
}

/// The number of a text in a form.
pub fn read(form: Form, text: &[u8]) -> Result<i64, ValueFault> {
    Ok(match form {
        Form::Integer(low, high) => signed(read_integer(text, u64::from(low), u64::from(high))?),
        Form::Quantity => signed(read_quantity(text)?),
        Form::Amount => signed(read_amount(text)?),
        Form::Price => read_price(text)?,
        Form::Character => i64::from(read_character(text)?),
        Form::Flag => i64::from(read_flag(text)?),
        Form::Moment => signed(read_moment(text)?.ms()),
    })
}

fn numbered(found: Option<u64>) -> Option<i64> {
    match found {
        Some(number) => Some(signed(number)),
        None => None,
    }
}

/// What the first field with the tag has in a form.
pub fn got(fields: &Fields<'_>, tag: u32, form: Form) -> Result<Option<i64>, ValueFault> {
    Ok(match form {
        Form::Integer(low, high) => {
            numbered(fields.get_int(tag, u64::from(low), u64::from(high))?)
        }
        Form::Quantity => numbered(fields.get_qty(tag)?),
        Form::Amount => numbered(fields.get_amount(tag)?),
        Form::Price => fields.get_price(tag)?,
        Form::Moment => match fields.get_utc(tag)? {
            Some(moment) => Some(signed(moment.ms())),
            None => None,
        },
        Form::Character | Form::Flag => match fields.get(tag) {
            Some(value) => Some(read(form, value)?),
            None => None,
        },
    })
}

/// Appends a number, that there is none, or why it is none.
pub fn emit_got(
    alloc: Global,
    got: Result<Option<i64>, ValueFault>,
    emitted: &mut Vec<u8>,
) -> Result<(), AllocError> {
    match got {
        Ok(Some(number)) => emit(alloc, &number, emitted),
        Ok(None) => emit_line("none", emitted),
        Err(fault) => emit(alloc, &fault, emitted),
    }
}

/// Appends bytes, or why they are not of their form.
pub fn emit_text(
    alloc: Global,
    read: Result<&[u8], ValueFault>,
    emitted: &mut Vec<u8>,
) -> Result<(), AllocError> {
    match read {
        Ok(value) => emit_last(alloc, "", value, emitted),
        Err(fault) => emit(alloc, &fault, emitted),
    }
}

// The integers that a text begins with, and the rest.
fn integer_in(text: &str) -> Option<(Form, &str)> {
    let (low, rest) = text.split_once(' ')?;
    let (high, rest) = rest.split_once(' ').unwrap_or((rest, ""));
    let form = Form::Integer(low.parse::<u32>().ok()?, high.parse::<u32>().ok()?);
    Some((form, rest))
}

/// The form that a text begins with, and the rest.
pub fn form_in(text: &str) -> Option<(Form, &str)> {
    let (word, rest) = text.split_once(' ').unwrap_or((text, ""));
    let form = match word {
        "integer" => return integer_in(rest),
        "quantity" => Form::Quantity,
        "amount" => Form::Amount,
        "price" => Form::Price,
        "character" => Form::Character,
        "flag" => Form::Flag,
        "moment" => Form::Moment,
        _ => return None,
    };
    Some((form, rest))
}
