//! The values of fields in which the table of the message found no fault.
ghost use Rattle.std.specs.Prelude.{◌≡◌, ℕ, ◌≤◌, ◌<◌, IfOk, MatchOption, None, Some};
ghost use Rattle.fix_fields.specs.Fields.{value_of};
ghost use Rattle.fix_fields.specs.Views.{entries};
ghost use Rattle.fix_validation.specs.declared.table.Form.TheVariants as form;
ghost use Rattle.fix_validation.specs.Table.{needs, takes, value_fault};
ghost use Rattle.fix_validation.specs.Holding.{RowHolds};
ghost use Rattle.fix_validation.specs.Stated.{stated, bytes_at, number_in, sequence_number_in, new_sequence_number_in, interval_in, quantity_in, amount_in, price_in, character_in, side_in, flag_in};
ghost use Rattle.fix_decoder.specs.Messages.{begin_in};
ghost use Rattle.sef_moment.specs.Utc.{moment_of};

use fix_dictionary::{
    Amount, FixChar, FixInt, HeartbeatInterval, Identifier, NewSequenceNumber, Price, Quantity,
    SequenceNumber, Side, Text,
};
use fix_fields::{Field, read_amount, read_integer, read_price, read_quantity};
use sef_moment::{Moment, read_utc};
use std::alloc::{AllocError, Global};

pub(crate) fn value_of<'a>(fields: &[Field<'a>], tag: u32) -> Option<&'a [u8]>
    ensures { MatchOption result (value_of tag (entries fields.now) ≡ None) (λ value. value_of tag (entries fields.now) ≡ Some value.now) }
{
    for field in fields {
        if field.tag == tag {
            return Some(field.value);
        }
    }
    None
}

// The value of a required tag.
pub(crate) fn bytes_at<'a>(fields: &[Field<'a>], tag: u32) -> &'a [u8]
    ensures { result.now ≡ bytes_at tag (entries fields.now) }
{
    match value_of(fields, tag) {
        Some(bytes) => bytes,
        None => &[],
    }
}

pub(crate) fn identifier(fields: &[Field], tag: u32) -> Identifier
    requires { RowHolds (needs tag form.Identifier) (value_of tag (entries fields.now)) }
    ensures { result ≡ bytes_at tag (entries fields.now) }
{
    Identifier::from_slice(bytes_at(fields, tag))
}

pub(crate) fn optional_identifier(fields: &[Field], tag: u32) -> Option<Identifier>
    requires { RowHolds (takes tag form.Identifier) (value_of tag (entries fields.now)) }
    ensures { result ≡ value_of tag (entries fields.now) }
{
    match value_of(fields, tag) {
        Some(bytes) => Some(Identifier::from_slice(bytes)),
        None => None,
    }
}

pub(crate) fn optional_text(
    alloc: Global,
    fields: &[Field],
    tag: u32,
) -> Result<Option<Text>, AllocError>
    requires { RowHolds (takes tag form.Printable) (value_of tag (entries fields.now)) }
    ensures { IfOk result (λ text. text ≡ value_of tag (entries fields.now)) }
{
    match value_of(fields, tag) {
        Some(bytes) => Ok(Some(Text::from_slice(alloc, bytes)?)),
        None => Ok(None),
    }
}

fn number_in(bytes: &[u8]) -> FixInt
    ensures { result ≡ number_in bytes.now }
{
    match read_integer(bytes, 0, 999_999_999) {
        Ok(number) => FixInt::new(number as u32),
        Err(_) => FixInt::new(0),
    }
}

pub(crate) fn number(fields: &[Field], tag: u32) -> FixInt
    ensures { result ≡ number_in (bytes_at tag (entries fields.now)) }
{
    number_in(bytes_at(fields, tag))
}

pub(crate) fn sequence_number(fields: &[Field], tag: u32) -> SequenceNumber
    ensures { result ≡ sequence_number_in (bytes_at tag (entries fields.now)) }
{
    match read_integer(bytes_at(fields, tag), 1, 999_999_999) {
        Ok(number) => SequenceNumber::new(number as u32),
        Err(_) => SequenceNumber::new(1),
    }
}

// The first number that a resend request asks for, or 10^9, which is past every number.
pub(crate) fn begin_in(fields: &[Field]) -> u32
    ensures { result ≡ begin_in (entries fields.now) }
{
    match read_integer(bytes_at(fields, 7), 0, 1_000_000_000) {
        Ok(number) => number as u32,
        Err(_) => 1_000_000_000,
    }
}

pub(crate) fn new_sequence_number(fields: &[Field], tag: u32) -> NewSequenceNumber
    ensures { result ≡ new_sequence_number_in (bytes_at tag (entries fields.now)) }
{
    match read_integer(bytes_at(fields, tag), 1, 1_000_000_000) {
        Ok(number) => NewSequenceNumber::new(number as u32),
        Err(_) => NewSequenceNumber::new(1),
    }
}

pub(crate) fn interval(fields: &[Field], tag: u32) -> HeartbeatInterval
    ensures { result ≡ interval_in (bytes_at tag (entries fields.now)) }
{
    match read_integer(bytes_at(fields, tag), 0, 3600) {
        Ok(seconds) => HeartbeatInterval::new(seconds as u32),
        Err(_) => HeartbeatInterval::new(0),
    }
}

pub(crate) fn optional_number(fields: &[Field], tag: u32) -> Option<FixInt>
    ensures { result ≡ stated number_in (value_of tag (entries fields.now)) }
{
    match value_of(fields, tag) {
        Some(bytes) => Some(number_in(bytes)),
        None => None,
    }
}

fn quantity_in(bytes: &[u8]) -> Quantity
    ensures { result ≡ quantity_in bytes.now }
{
    match read_quantity(bytes) {
        Ok(quantity) => Quantity::new(quantity),
        Err(_) => Quantity::new(1),
    }
}

pub(crate) fn quantity(fields: &[Field], tag: u32) -> Quantity
    ensures { result ≡ quantity_in (bytes_at tag (entries fields.now)) }
{
    quantity_in(bytes_at(fields, tag))
}

pub(crate) fn optional_quantity(fields: &[Field], tag: u32) -> Option<Quantity>
    ensures { result ≡ stated quantity_in (value_of tag (entries fields.now)) }
{
    match value_of(fields, tag) {
        Some(bytes) => Some(quantity_in(bytes)),
        None => None,
    }
}

fn amount_in(bytes: &[u8]) -> Amount
    ensures { result ≡ amount_in bytes.now }
{
    match read_amount(bytes) {
        Ok(amount) => Amount::new(amount),
        Err(_) => Amount::new(0),
    }
}

pub(crate) fn amount(fields: &[Field], tag: u32) -> Amount
    ensures { result ≡ amount_in (bytes_at tag (entries fields.now)) }
{
    amount_in(bytes_at(fields, tag))
}

pub(crate) fn optional_amount(fields: &[Field], tag: u32) -> Option<Amount>
    ensures { result ≡ stated amount_in (value_of tag (entries fields.now)) }
{
    match value_of(fields, tag) {
        Some(bytes) => Some(amount_in(bytes)),
        None => None,
    }
}

fn price_in(bytes: &[u8]) -> Price
    ensures { result ≡ price_in bytes.now }
{
    match read_price(bytes) {
        Ok(price) => Price::new(price),
        Err(_) => Price::new(0),
    }
}

pub(crate) fn optional_price(fields: &[Field], tag: u32) -> Option<Price>
    ensures { result ≡ stated price_in (value_of tag (entries fields.now)) }
{
    match value_of(fields, tag) {
        Some(bytes) => Some(price_in(bytes)),
        None => None,
    }
}

fn character_in(bytes: &[u8]) -> FixChar
    requires { value_fault form.Character bytes.now ≡ None }
    ensures { result ≡ character_in bytes.now }
{
    FixChar::new(bytes[0])
}

pub(crate) fn character(fields: &[Field], tag: u32) -> FixChar
    requires { RowHolds (needs tag form.Character) (value_of tag (entries fields.now)) }
    ensures { result ≡ character_in (bytes_at tag (entries fields.now)) }
{
    character_in(bytes_at(fields, tag))
}

pub(crate) fn optional_character(fields: &[Field], tag: u32) -> Option<FixChar>
    requires { RowHolds (takes tag form.Character) (value_of tag (entries fields.now)) }
    ensures { result ≡ stated character_in (value_of tag (entries fields.now)) }
{
    match value_of(fields, tag) {
        Some(bytes) => Some(character_in(bytes)),
        None => None,
    }
}

pub(crate) fn side(fields: &[Field], tag: u32) -> Side
    ensures { result ≡ side_in (bytes_at tag (entries fields.now)) }
{
    match bytes_at(fields, tag) {
        [b'1', ..] => Side::Buy,
        _ => Side::Sell,
    }
}

pub(crate) fn optional_side(fields: &[Field], tag: u32) -> Option<Side>
    ensures { result ≡ stated side_in (value_of tag (entries fields.now)) }
{
    match value_of(fields, tag) {
        Some([b'1', ..]) => Some(Side::Buy),
        Some(_) => Some(Side::Sell),
        None => None,
    }
}

pub(crate) fn optional_flag(fields: &[Field], tag: u32) -> Option<bool>
    ensures { result ≡ stated flag_in (value_of tag (entries fields.now)) }
{
    match value_of(fields, tag) {
        Some([b'Y', ..]) => Some(true),
        Some(_) => Some(false),
        None => None,
    }
}

fn moment_in(bytes: &[u8]) -> Moment
    requires { value_fault form.Utc bytes.now ≡ None }
    ensures { result ≡ moment_of bytes.now }
{
    match read_utc(bytes) {
        Ok(moment) => moment,
        Err(_) => unreachable!(),
    }
}

pub(crate) fn moment(fields: &[Field], tag: u32) -> Moment
    requires { RowHolds (needs tag form.Utc) (value_of tag (entries fields.now)) }
    ensures { result ≡ moment_of (bytes_at tag (entries fields.now)) }
{
    moment_in(bytes_at(fields, tag))
}

pub(crate) fn optional_moment(fields: &[Field], tag: u32) -> Option<Moment>
    requires { RowHolds (takes tag form.Utc) (value_of tag (entries fields.now)) }
    ensures { result ≡ stated moment_of (value_of tag (entries fields.now)) }
{
    match value_of(fields, tag) {
        Some(bytes) => Some(moment_in(bytes)),
        None => None,
    }
}
