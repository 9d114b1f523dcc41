//! Sentences, part by part.
ghost use Rattle.std.specs.Prelude.{◌≡◌, ◌++◌, ◌∷◌, [], OnOk, Some, decimal};
ghost use Rattle.fix_fields.specs.Forms.{price_text};
ghost use Rattle.sef_moment.specs.Utc.{utc_text};
ghost use Rattle.fix_dictionary.specs.Text.{given};
ghost use Rattle.message_words.specs.Parts.{lent_text, part_text, shown, shown_option};

use fix_dictionary::{Amount, FixInt, Identifier, Price, Quantity, Text};
use sef_moment::{Moment, print_utc};
use std::alloc::{AllocError, Global};
use trade_blotter::{append, append_number, append_price};

/// What stands behind a text.
#[derive(Clone, Copy)]
pub enum Value<'a> {
    Bytes(&'a [u8]),
    Number(u64),
    Price(Price),
    Moment(Moment),
    Byte(u8),
}

/// A text and what stands behind it; without a value the part says nothing.
#[derive(Clone, Copy)]
pub struct Part<'a> {
    pub before: &'a [u8],
    pub value: Option<Value<'a>>,
}

fn append_priced(
    alloc: Global,
    text: &mut Vec<u8>,
    before: &[u8],
    price: Price,
) -> Result<(), AllocError>
    ensures { OnOk result (text.new.items ≡ text.old.items ++ (before.now ++ price_text price)) }
{
    append(text, &[before])?;
    append_price(alloc, text, price)
}

fn append_moment(text: &mut Vec<u8>, before: &[u8], moment: Moment) -> Result<(), AllocError>
    ensures { OnOk result (text.new.items ≡ text.old.items ++ (before.now ++ utc_text moment)) }
{
    let emitted = print_utc(moment);
    append(text, &[before, &emitted])
}

fn append_value(
    alloc: Global,
    text: &mut Vec<u8>,
    before: &[u8],
    value: &Value,
) -> Result<(), AllocError>
    ensures { OnOk result (text.new.items ≡ text.old.items ++ (before.now ++ shown value.now)) }
{
    match value {
        Value::Bytes(bytes) => append(text, &[before, bytes]),
        Value::Number(number) => append_number(text, before, *number),
        Value::Price(price) => append_priced(alloc, text, before, *price),
        Value::Moment(moment) => append_moment(text, before, *moment),
        Value::Byte(byte) => append(text, &[before, &[*byte]]),
    }
}

fn append_part(alloc: Global, text: &mut Vec<u8>, part: &Part) -> Result<(), AllocError>
    ensures { OnOk result (text.new.items ≡ text.old.items ++ part_text part.now.before.now (shown_option part.now.value)) }
{
    match &part.value {
        Some(value) => append_value(alloc, text, part.before, value),
        None => Ok(()),
    }
}

/// Appends parts, one behind the other.
pub fn append_parts(alloc: Global, text: &mut Vec<u8>, parts: &[Part]) -> Result<(), AllocError>
    ensures { OnOk result (text.new.items ≡ text.old.items ++ lent_text parts.now) }
{
    for part in parts {
        append_part(alloc, text, part)?;
    }
    Ok(())
}

// Values that are perhaps there.

pub fn identifier_value<'a>(v: &'a Option<Identifier>) -> Option<Value<'a>>
    ensures { shown_option result ≡ v.now }
{
    match v {
        Some(x) => Some(Value::Bytes(x.as_slice())),
        None => None,
    }
}

pub fn text_value<'a>(v: &'a Option<Text>) -> Option<Value<'a>>
    ensures { shown_option result ≡ v.now }
{
    match v {
        Some(x) => Some(Value::Bytes(x.as_slice())),
        None => None,
    }
}

pub fn number_value<'a>(v: Option<FixInt>) -> Option<Value<'a>>
    ensures { shown_option result ≡ given decimal v }
{
    match v {
        Some(x) => Some(Value::Number(u64::from(x.get()))),
        None => None,
    }
}

pub fn quantity_value<'a>(v: Option<Quantity>) -> Option<Value<'a>>
    ensures { shown_option result ≡ given decimal v }
{
    match v {
        Some(x) => Some(Value::Number(x.get())),
        None => None,
    }
}

pub fn amount_value<'a>(v: Option<Amount>) -> Option<Value<'a>>
    ensures { shown_option result ≡ given decimal v }
{
    match v {
        Some(x) => Some(Value::Number(x.get())),
        None => None,
    }
}

pub fn price_value<'a>(v: Option<Price>) -> Option<Value<'a>>
    ensures { shown_option result ≡ given price_text v }
{
    match v {
        Some(x) => Some(Value::Price(x)),
        None => None,
    }
}

pub fn moment_value<'a>(v: Option<Moment>) -> Option<Value<'a>>
    ensures { shown_option result ≡ given utc_text v }
{
    match v {
        Some(x) => Some(Value::Moment(x)),
        None => None,
    }
}

/// A text, as a value that is there.
pub fn bytes<'a>(text: &'a [u8]) -> Option<Value<'a>>
    ensures { shown_option result ≡ Some text.now }
{
    Some(Value::Bytes(text))
}

/// A number, as a value that is there.
pub fn number<'a>(n: u64) -> Option<Value<'a>>
    ensures { shown_option result ≡ Some (decimal n) }
{
    Some(Value::Number(n))
}

/// A number of up to ten digits, as a value that is there.
pub fn small_number<'a>(n: u32) -> Option<Value<'a>>
    ensures { shown_option result ≡ Some (decimal n) }
{
    Some(Value::Number(u64::from(n)))
}
