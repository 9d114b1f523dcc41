//! The fault of an entry.

ghost use Rattle.std.specs.Prelude.{◌≡◌, ◌||◌, ◌&&◌, not, pos, nat_abs, nat_le, int_lt, codes, map, bytes_eq};
ghost use Rattle.std.specs.List.{list_any};
ghost use Rattle.toml.specs.Data.{get};
ghost use Rattle.toml.specs.View.{view};
ghost use Rattle.config_format.specs.Document.{text_at};
ghost use Rattle.participants.specs.Reading.{is_known, is_same_named, named, names};
ghost use Rattle.instruments.specs.Numbers.{is_no_number};
ghost use Rattle.file_diagnosis.specs.Causes.{lack_in, repeat_in, repeated_pair, unknown_in, venue_name_in, wrong_in, wrong_instrument, wrong_pair, wrong_participant};

use crate::cause::{Key, Look, Wrong};
use crate::words::key_word;
use config_format::{entries, is_absent, is_no_name, text_at};
use toml::Value;

fn lack_in(key: Key, entry: &Value) -> Option<Wrong>
    ensures { result ≡ lack_in key (view entry.now) }
{
    if entry.is_table() && is_absent(entry, key_word(key)) {
        Some(Wrong::Lacks(key))
    } else {
        None
    }
}

fn wrong_participant(entry: &Value) -> Option<Wrong>
    ensures { result ≡ wrong_participant (view entry.now) }
{
    if !entry.is_table() {
        return Some(Wrong::NoTable);
    }
    if is_no_name(entry, "name") {
        return Some(Wrong::NoName(Key::Name));
    }
    None
}

fn wrong_pair(entry: &Value) -> Option<Wrong>
    ensures { result ≡ wrong_pair (view entry.now) }
{
    if !entry.is_table() {
        return Some(Wrong::NoTable);
    }
    if is_no_name(entry, "a") {
        return Some(Wrong::NoName(Key::A));
    }
    if is_no_name(entry, "b") {
        return Some(Wrong::NoName(Key::B));
    }
    if text_at(entry, "a") == text_at(entry, "b") {
        return Some(Wrong::Same);
    }
    None
}

fn is_out_of(number: i64, low: u64, high: u64) -> bool
    ensures { result ≡ (int_lt number (pos 0) || not (nat_le low (nat_abs number) && nat_le (nat_abs number) high)) }
{
    number < 0 || !(low <= number.unsigned_abs() && number.unsigned_abs() <= high)
}

/// Whether a value is stated that is not a whole number from low to high.
fn is_no_number(entry: &Value, key: &str, low: u64, high: u64) -> bool
    ensures { result ≡ is_no_number low high (get key.now (view entry.now)) }
{
    match entry.get(key) {
        Some(Value::Integer(number)) => is_out_of(*number, low, high),
        None => false,
        _ => true,
    }
}

fn wrong_instrument(entry: &Value) -> Option<Wrong>
    ensures { result ≡ wrong_instrument (view entry.now) }
{
    if !entry.is_table() {
        return Some(Wrong::NoTable);
    }
    if is_no_name(entry, "symbol") {
        return Some(Wrong::NoName(Key::Symbol));
    }
    if is_no_number(entry, "tick", 1, 1_000_000_000_000) {
        return Some(Wrong::NoNumber(Key::Tick));
    }
    if is_no_number(entry, "least", 1, 1_000_000_000_000_000) {
        return Some(Wrong::NoNumber(Key::Least));
    }
    if is_no_number(entry, "rfq_life", 1, 86_400) {
        return Some(Wrong::NoNumber(Key::RequestLife));
    }
    if is_no_number(entry, "delay_ms", 1_000, 3_600_000) {
        return Some(Wrong::NoNumber(Key::Delay));
    }
    None
}

fn venue_name_in(file: &Value, entry: &Value) -> Option<Wrong>
    ensures { result ≡ venue_name_in (view file.now) (view entry.now) }
{
    if text_at(file, "venue") == text_at(entry, "name") {
        Some(Wrong::OfVenue)
    } else {
        None
    }
}

/// Whether an entry has this text at a key.
fn has_text(list: &[Value], key: &str, text: &[u8]) -> bool
    ensures { result ≡ list_any (λ d. bytes_eq (text_at key.now (view d)) text.now) list.now }
{
    list.iter().any(|other| text_at(other, key) == text)
}

fn repeat_in(key: Key, before: &[Value], entry: &Value) -> Option<Wrong>
    ensures { result ≡ repeat_in key (map view before.now) (view entry.now) }
{
    let key = key_word(key);
    if has_text(before, key, text_at(entry, key)) {
        Some(Wrong::Twice)
    } else {
        None
    }
}

/// Whether two pairs have the same names, in either order.
fn is_same_pair(one: &Value, other: &Value) -> bool
    ensures { result ≡ is_same_named (named (view one.now)) (named (view other.now)) }
{
    let (a, b) = (text_at(one, "a"), text_at(one, "b"));
    let (c, d) = (text_at(other, "a"), text_at(other, "b"));
    (a == c && b == d) || (a == d && b == c)
}

fn has_pair(list: &[Value], pair: &Value) -> bool
    ensures { result ≡ list_any (λ d. is_same_named (named (view d)) (named (view pair.now))) list.now }
{
    list.iter().any(|other| is_same_pair(other, pair))
}

fn repeated_pair(before: &[Value], pair: &Value) -> Option<Wrong>
    ensures { result ≡ repeated_pair (map view before.now) (view pair.now) }
{
    if has_pair(before, pair) {
        Some(Wrong::Twice)
    } else {
        None
    }
}

fn names_one(list: &[Value], name: &[u8]) -> bool
    ensures { result ≡ list_any (λ d. bytes_eq name.now (text_at (codes "name") (view d))) list.now }
{
    list.iter().any(|one| name == text_at(one, "name"))
}

/// Whether a participant has this name.
fn is_known(file: &Value, name: &[u8]) -> bool
    ensures { result ≡ is_known (names (view file.now)) name.now }
{
    names_one(entries(file, "participant"), name)
}

fn unknown_in(file: &Value, pair: &Value) -> Option<Wrong>
    ensures { result ≡ unknown_in (view file.now) (view pair.now) }
{
    if !is_known(file, text_at(pair, "a")) {
        return Some(Wrong::Unknown(Key::A));
    }
    if !is_known(file, text_at(pair, "b")) {
        return Some(Wrong::Unknown(Key::B));
    }
    None
}

/// The fault of an entry that is looked for, where `before` has the entries before it.
pub(crate) fn wrong_in(file: &Value, look: Look, before: &[Value], entry: &Value) -> Option<Wrong>
    ensures { result ≡ wrong_in (view file.now) look (map view before.now) (view entry.now) }
{
    match look {
        Look::Lack(key) => lack_in(key, entry),
        Look::BadParticipant => wrong_participant(entry),
        Look::BadPair => wrong_pair(entry),
        Look::BadInstrument => wrong_instrument(entry),
        Look::VenueName => venue_name_in(file, entry),
        Look::Repeat(key) => repeat_in(key, before, entry),
        Look::RepeatedPair => repeated_pair(before, entry),
        Look::UnknownName => unknown_in(file, entry),
    }
}
