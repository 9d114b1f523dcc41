//! Fields appended to a text: whole, or not at all.
ghost use Rattle.std.specs.Prelude.{◌≡◌, ℕ, ◌+◌, ◌-◌, ◌*◌, ◌/◌, ◌%◌, ◌^◌, ◌<◌, ◌≤◌, ◌++◌, ◌∷◌, [], length, decimal, sum_by, vec_len, vec_capacity, OnOk, OnErr, unsigned_abs};
ghost use Rattle.fix_fields.specs.Fields.{field_text, Appends};
ghost use Rattle.fix_fields.specs.Forms.{four_digits, six_digits, without_trailing_zeros, price_text, sign_text, point_text};
ghost use Rattle.fix_fields.specs.Views.{joined};
ghost use Rattle.sef_moment.specs.Utc.{utc_text};

use crate::fields::SOH;
use itoa::Buffer;
use sef_moment::{Moment, print_utc};
use std::alloc::AllocError;

fn total_len(parts: &[&[u8]]) -> usize
    requires { sum_by (λ part. length part.now) parts.now < 2 ^ 64 }
    ensures { result ≡ length (joined parts.now) }
{
    parts.iter().map(|part| part.len()).sum()
}

// Appends the parts in order.
fn append_parts(bytes: &mut Vec<u8>, parts: &[&[u8]]) -> Result<(), AllocError>
    requires { sum_by (λ part. length part.now) parts.now < 2 ^ 64 }
    ensures appends { Appends bytes.old.items bytes.new.items (joined parts.now) result }
    ensures unchanged { OnErr result (bytes.new.items ≡ bytes.old.items) }
    ensures headroom { OnErr result (vec_capacity bytes.old < vec_len bytes.old + length (joined parts.now)) }
    ensures capacity { vec_capacity bytes.old ≤ vec_capacity bytes.new }
{
    bytes.reserve(total_len(parts))?;
    for part in parts {
        bytes.extend_from_slice(part).unwrap();
    }
    Ok(())
}

// Appends a digit, for which capacity is reserved.
#[inline]
fn push_digit(bytes: &mut Vec<u8>, digit: u64)
    requires digit { digit < 10 }
    requires headroom { vec_len bytes.old < vec_capacity bytes.old }
    ensures items { bytes.new.items ≡ bytes.old.items ++ (48 + digit) ∷ [] }
    ensures len { vec_len bytes.new ≡ vec_len bytes.old + 1 }
    ensures capacity { vec_capacity bytes.new ≡ vec_capacity bytes.old }
{
    bytes.push_reserved(b'0' + digit as u8);
}

// Appends the last four digits of a number, for which capacity is reserved.
#[inline]
fn push_four(bytes: &mut Vec<u8>, n: u64)
    requires { vec_len bytes.old + 4 ≤ vec_capacity bytes.old }
    ensures items { bytes.new.items ≡ bytes.old.items ++ four_digits n }
    ensures len { vec_len bytes.new ≡ vec_len bytes.old + 4 }
    ensures capacity { vec_capacity bytes.new ≡ vec_capacity bytes.old }
{
    push_digit(bytes, n / 1000 % 10);
    push_digit(bytes, n / 100 % 10);
    push_digit(bytes, n / 10 % 10);
    push_digit(bytes, n % 10);
}

// Appends the digits of a number below 10,000, for which capacity is reserved.
#[inline]
#[tactic(auto, using(std::proofs::lemmas::Fmt::decimal_digit, crate::proofs::DecimalLemmas::decimal_two, crate::proofs::DecimalLemmas::decimal_three, crate::proofs::DecimalLemmas::decimal_four))]
fn push_short(bytes: &mut Vec<u8>, n: u64)
    requires short { n < 10_000 }
    requires headroom { vec_len bytes.old + length (decimal n) ≤ vec_capacity bytes.old }
    ensures items { bytes.new.items ≡ bytes.old.items ++ decimal n }
    ensures len { vec_len bytes.new ≡ vec_len bytes.old + length (decimal n) }
    ensures capacity { vec_capacity bytes.new ≡ vec_capacity bytes.old }
{
    if n < 10 {
        push_digit(bytes, n);
        return;
    }
    if n < 100 {
        push_digit(bytes, n / 10);
        push_digit(bytes, n % 10);
        return;
    }
    if n < 1000 {
        push_digit(bytes, n / 100);
        push_digit(bytes, n / 10 % 10);
        push_digit(bytes, n % 10);
        return;
    }
    push_four(bytes, n);
}

// Appends the digits of a number, for which capacity is reserved.
#[tactic(auto, using(crate::proofs::DecimalLemmas::decimal_last_four))]
fn push_decimal(bytes: &mut Vec<u8>, n: u64)
    requires { vec_len bytes.old + length (decimal n) ≤ vec_capacity bytes.old }
    ensures items { bytes.new.items ≡ bytes.old.items ++ decimal n }
    ensures len { vec_len bytes.new ≡ vec_len bytes.old + length (decimal n) }
    ensures capacity { vec_capacity bytes.new ≡ vec_capacity bytes.old }
{
    if n < 10_000 {
        push_short(bytes, n);
        return;
    }
    push_decimal(bytes, n / 10_000);
    push_four(bytes, n);
}

// The number of digits of a number below 10,000.
#[inline]
#[tactic(auto, using(std::proofs::lemmas::Fmt::decimal_digit, crate::proofs::DecimalLemmas::decimal_two, crate::proofs::DecimalLemmas::decimal_three, crate::proofs::DecimalLemmas::decimal_four))]
fn short_len(n: u64) -> usize
    requires { n < 10_000 }
    ensures { result ≡ length (decimal n) }
{
    if n < 10 {
        return 1;
    }
    if n < 100 {
        return 2;
    }
    if n < 1000 {
        return 3;
    }
    4
}

// The number of digits of a number.
#[tactic(auto, using(crate::proofs::DecimalLemmas::decimal_last_four, crate::proofs::DecimalLemmas::decimal_short))]
fn decimal_len(n: u64) -> usize
    ensures exact { result ≡ length (decimal n) }
    ensures short { result ≤ 20 }
{
    if n < 10_000 {
        return short_len(n);
    }
    decimal_len(n / 10_000) + 4
}

// Reserves capacity for `more` bytes.
#[inline]
fn reserve_for(bytes: &mut Vec<u8>, more: usize) -> Result<(), AllocError>
    ensures items { bytes.new.items ≡ bytes.old.items }
    ensures enough { OnOk result (vec_len bytes.new + more ≤ vec_capacity bytes.new) }
    ensures refused { OnErr result (vec_capacity bytes.old < vec_len bytes.old + more) }
    ensures capacity { vec_capacity bytes.old ≤ vec_capacity bytes.new }
{
    if bytes.capacity() - bytes.len() >= more {
        return Ok(());
    }
    bytes.reserve(more)
}

// Reserves capacity for a field whose value has `len` bytes, and appends its tag.
fn begin_field(bytes: &mut Vec<u8>, tag: u32, len: usize) -> Result<(), AllocError>
    requires { len < 2 ^ 63 }
    ensures tag { OnOk result (bytes.new.items ≡ bytes.old.items ++ (decimal tag ++ 61 ∷ [])) }
    ensures left { OnOk result (vec_len bytes.new + len + 1 ≤ vec_capacity bytes.new) }
    ensures unchanged { OnErr result (bytes.new.items ≡ bytes.old.items) }
    ensures headroom { OnErr result (vec_capacity bytes.old < vec_len bytes.old + (length (decimal tag) + (len + 2))) }
    ensures capacity { vec_capacity bytes.old ≤ vec_capacity bytes.new }
{
    let tag = u64::from(tag);
    reserve_for(bytes, decimal_len(tag) + len + 2)?;
    push_decimal(bytes, tag);
    bytes.push_reserved(b'=');
    Ok(())
}

/// Appends a field with these bytes as its value. It fails only where the spare capacity is too small for the field.
pub fn append_bytes(bytes: &mut Vec<u8>, tag: u32, value: &[u8]) -> Result<(), AllocError>
    ensures appends { Appends bytes.old.items bytes.new.items (field_text tag value.now) result }
    ensures unchanged { OnErr result (bytes.new.items ≡ bytes.old.items) }
    ensures headroom { OnErr result (vec_capacity bytes.old < vec_len bytes.old + length (field_text tag value.now)) }
    ensures capacity { vec_capacity bytes.old ≤ vec_capacity bytes.new }
{
    begin_field(bytes, tag, value.len())?;
    bytes.extend_from_slice(value).unwrap();
    bytes.push_reserved(SOH);
    Ok(())
}

/// Appends a field with one byte as its value.
pub fn append_byte(bytes: &mut Vec<u8>, tag: u32, value: u8) -> Result<(), AllocError>
    ensures appends { Appends bytes.old.items bytes.new.items (field_text tag (value ∷ [])) result }
    ensures unchanged { OnErr result (bytes.new.items ≡ bytes.old.items) }
    ensures headroom { OnErr result (vec_capacity bytes.old < vec_len bytes.old + length (field_text tag (value ∷ []))) }
    ensures capacity { vec_capacity bytes.old ≤ vec_capacity bytes.new }
{
    begin_field(bytes, tag, 1)?;
    bytes.push_reserved(value);
    bytes.push_reserved(SOH);
    Ok(())
}

// The last six digits of a number.
fn six_digits(n: u64) -> [u8; 6]
    ensures { result ≡ six_digits n }
{
    [
        b'0' + (n / 100_000 % 10) as u8,
        b'0' + (n / 10_000 % 10) as u8,
        b'0' + (n / 1000 % 10) as u8,
        b'0' + (n / 100 % 10) as u8,
        b'0' + (n / 10 % 10) as u8,
        b'0' + (n % 10) as u8,
    ]
}

// The digits up to the last one that is not 0.
fn without_trailing_zeros(digits: &[u8]) -> &[u8]
    ensures { result.now ≡ without_trailing_zeros digits.now }
{
    let mut kept = digits.len();
    while kept > 0 && digits[kept - 1] == b'0' {
        kept -= 1;
    }
    &digits[..kept]
}

// The minus of a price below 0.
fn sign_of(price: i64) -> &'static [u8]
    ensures { result.now ≡ sign_text price }
{
    if price < 0 { b"-" } else { b"" }
}

// The millionths of a price without its sign.
fn magnitude_of(price: i64) -> u64
    ensures { result ≡ unsigned_abs price }
{
    price.unsigned_abs()
}

// The point before a fraction other than 0.
fn point_of(fraction: u64) -> &'static [u8]
    ensures { result.now ≡ point_text fraction }
{
    if fraction == 0 { b"" } else { b"." }
}

/// Appends a field with a price, given in millionths.
pub fn append_price(bytes: &mut Vec<u8>, tag: u32, price: i64) -> Result<(), AllocError>
    ensures appends { Appends bytes.old.items bytes.new.items (field_text tag (price_text price)) result }
    ensures unchanged { OnErr result (bytes.new.items ≡ bytes.old.items) }
    ensures headroom { OnErr result (vec_capacity bytes.old < vec_len bytes.old + length (field_text tag (price_text price))) }
    ensures capacity { vec_capacity bytes.old ≤ vec_capacity bytes.new }
{
    let mut tag_digits = Buffer::new();
    let mut whole_digits = Buffer::new();
    let millionths = magnitude_of(price);
    let fraction = millionths % 1_000_000;
    append_parts(
        bytes,
        &[
            tag_digits.format(tag).as_bytes(),
            b"=",
            sign_of(price),
            whole_digits.format(millionths / 1_000_000).as_bytes(),
            point_of(fraction),
            without_trailing_zeros(&six_digits(fraction)),
            &[SOH],
        ],
    )
}

/// Appends a field with an integer.
pub fn append_number(bytes: &mut Vec<u8>, tag: u32, number: u64) -> Result<(), AllocError>
    ensures appends { Appends bytes.old.items bytes.new.items (field_text tag (decimal number)) result }
    ensures unchanged { OnErr result (bytes.new.items ≡ bytes.old.items) }
    ensures headroom { OnErr result (vec_capacity bytes.old < vec_len bytes.old + length (field_text tag (decimal number))) }
    ensures capacity { vec_capacity bytes.old ≤ vec_capacity bytes.new }
{
    begin_field(bytes, tag, decimal_len(number))?;
    push_decimal(bytes, number);
    bytes.push_reserved(SOH);
    Ok(())
}

/// Appends a field with a moment.
pub fn append_moment(bytes: &mut Vec<u8>, tag: u32, moment: Moment) -> Result<(), AllocError>
    ensures appends { Appends bytes.old.items bytes.new.items (field_text tag (utc_text moment)) result }
    ensures unchanged { OnErr result (bytes.new.items ≡ bytes.old.items) }
    ensures headroom { OnErr result (vec_capacity bytes.old < vec_len bytes.old + length (field_text tag (utc_text moment))) }
    ensures capacity { vec_capacity bytes.old ≤ vec_capacity bytes.new }
{
    append_bytes(bytes, tag, &print_utc(moment))
}
