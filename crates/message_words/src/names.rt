//! What codes of messages stand for, in words.
ghost use Rattle.std.specs.Prelude.{◌≡◌, ◌==◌, bytes_eq, codes};
ghost use Rattle.fix_dictionary.specs.Text.{given};
ghost use Rattle.message_words.specs.Kinds.{report_kind};
ghost use Rattle.message_words.specs.Parts.{shown_option};
ghost use Rattle.message_words.specs.Words.{response_name, outcome_name, asked_side, change_name, entry_name, holder, life_name, order_known_as, order_number, other_type, report_known_as, report_number, side_name, status_name, to_side, withdrawal_name};

use crate::parts::Value;
use fix_dictionary::{FixChar, FixInt, Identifier, Side};

pub(crate) fn to_side(side: Side) -> &'static [u8]
    ensures { result.now ≡ to_side side }
{
    match side {
        Side::Buy => b" to buy ",
        Side::Sell => b" to sell ",
    }
}

pub(crate) fn asked_side(side: Option<Side>) -> &'static [u8]
    ensures { result.now ≡ asked_side side }
{
    match side {
        None => b" for both sides of ",
        Some(side) => to_side(side),
    }
}

fn side_name(side: Side) -> &'static [u8]
    ensures { result.now ≡ side_name side }
{
    match side {
        Side::Buy => b"to buy",
        Side::Sell => b"to sell",
    }
}

pub(crate) fn side_value<'a>(side: Option<Side>) -> Option<Value<'a>>
    ensures { shown_option result ≡ given side_name side }
{
    match side {
        Some(side) => Some(Value::Bytes(side_name(side))),
        None => None,
    }
}

/// An order type (40) that is not a limit.
pub(crate) fn other_type<'a>(order_type: FixChar) -> Option<Value<'a>>
    ensures { shown_option result ≡ other_type order_type }
{
    let code = order_type.get();
    if code == b'2' {
        None
    } else {
        Some(Value::Byte(code))
    }
}

fn life_name(code: u8) -> &'static [u8]
    ensures { result.now ≡ life_name code }
{
    if code == b'0' {
        b"for the day"
    } else if code == b'3' {
        b"immediate or cancel"
    } else if code == b'4' {
        b"fill or kill"
    } else {
        b"of another life"
    }
}

pub(crate) fn life_value<'a>(life: Option<FixChar>) -> Option<Value<'a>>
    ensures { shown_option result ≡ given life_name life }
{
    match life {
        Some(life) => Some(Value::Bytes(life_name(life.get()))),
        None => None,
    }
}

pub(crate) fn withdrawal_name(kind: FixInt) -> &'static [u8]
    ensures { result.now ≡ withdrawal_name kind }
{
    let kind = kind.get();
    if kind == 4 {
        b"withdrawal of all quotes"
    } else if kind == 5 {
        b"withdrawal of quote"
    } else {
        b"withdrawal of another type"
    }
}

pub(crate) fn response_name(kind: FixInt) -> &'static [u8]
    ensures { result.now ≡ response_name kind }
{
    let kind = kind.get();
    if kind == 1 {
        b"hit of quote "
    } else if kind == 6 {
        b"pass of quote "
    } else {
        b"response of another type to quote "
    }
}

pub(crate) fn status_name(status: FixInt) -> &'static [u8]
    ensures { result.now ≡ status_name status }
{
    let status = status.get();
    if status == 0 {
        b"accepted"
    } else if status == 5 {
        b"refused"
    } else if status == 7 {
        b"expired"
    } else if status == 9 {
        b"not found"
    } else if status == 11 {
        b"passed"
    } else if status == 17 {
        b"withdrawn"
    } else {
        b"of another status"
    }
}

/// The status of a quote (297) that answers a response.
pub(crate) fn outcome_name(status: FixInt) -> &'static [u8]
    ensures { result.now ≡ outcome_name status }
{
    let code = status.get();
    if code == 7 {
        b"refused: the quote had run out"
    } else if code == 9 {
        b"refused: no such live quote"
    } else if code == 17 {
        b"refused: the quote had been withdrawn or passed"
    } else {
        status_name(status)
    }
}

pub(crate) fn change_name(response_to: FixChar) -> &'static [u8]
    ensures { result.now ≡ change_name response_to }
{
    if response_to.get() == b'1' {
        b"cancel "
    } else {
        b"replacement "
    }
}

pub(crate) fn entry_name(entry_type: FixChar) -> &'static [u8]
    ensures { result.now ≡ entry_name entry_type }
{
    let kind = entry_type.get();
    if kind == b'0' {
        b"; bid"
    } else if kind == b'1' {
        b"; offer"
    } else {
        b"; nothing rests"
    }
}

pub(crate) fn report_kind(execution_type: FixChar) -> &'static [u8]
    ensures { result.now ≡ report_kind execution_type }
{
    let kind = execution_type.get();
    if kind == b'0' {
        b"entered"
    } else if kind == b'F' {
        b"traded"
    } else if kind == b'4' {
        b"cancelled"
    } else if kind == b'5' {
        b"replaced"
    } else if kind == b'8' {
        b"refused"
    } else {
        b"report"
    }
}

/// Whether a number of an order (37) says that it has none.
fn has_no_number(number: &Identifier) -> bool
    ensures { result ≡ bytes_eq number.now (codes "NONE") }
{
    number.as_slice() == b"NONE".as_slice()
}

pub(crate) fn order_number<'a>(number: &'a Identifier) -> Option<Value<'a>>
    ensures { shown_option result ≡ order_number number.now }
{
    if has_no_number(number) {
        None
    } else {
        Some(Value::Bytes(number.as_slice()))
    }
}

fn order_known_as(number: &Identifier) -> &'static [u8]
    ensures { result.now ≡ order_known_as number.now }
{
    if has_no_number(number) {
        b": order "
    } else {
        b" as "
    }
}

/// Whether a report refuses an order.
fn is_refusal(execution_type: FixChar) -> bool
    ensures { result ≡ (execution_type == 56) }
{
    execution_type.get() == b'8'
}

/// The number of the order that a report is on.
pub(crate) fn report_number<'a>(
    execution_type: FixChar,
    number: &'a Identifier,
) -> Option<Value<'a>>
    ensures { shown_option result ≡ report_number execution_type number.now }
{
    if is_refusal(execution_type) {
        None
    } else {
        order_number(number)
    }
}

/// What stands before the identifier in a report.
pub(crate) fn report_known_as(execution_type: FixChar, number: &Identifier) -> &'static [u8]
    ensures { result.now ≡ report_known_as execution_type number.now }
{
    if is_refusal(execution_type) {
        b": order "
    } else {
        order_known_as(number)
    }
}

/// The number of the order that has the identifier of one that is refused.
pub(crate) fn holder<'a>(execution_type: FixChar, number: &'a Identifier) -> Option<Value<'a>>
    ensures { shown_option result ≡ holder execution_type number.now }
{
    if is_refusal(execution_type) {
        order_number(number)
    } else {
        None
    }
}
