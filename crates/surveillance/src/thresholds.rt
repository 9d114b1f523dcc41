//! The bounds of the alarms, and the TOML file that states them.

ghost use Rattle.std.specs.Prelude.{◌≡◌, ◌||◌, not, pos, nat_abs, nat_le, int_lt, option_copied, None, IfOk, IfErr};
ghost use Rattle.toml.specs.Data.{get};
ghost use Rattle.toml.specs.View.{table_view, view};
ghost use Rattle.surveillance.specs.Thresholds.{IsBadIn, IsFaultOf, IsRefusedIn, IsUnknownIn, AreStated, States, bad_bound, is_bad, is_bound, stated, stated_or, unknown_key, usual};

use std::alloc::Global;
use thiserror::Error;
use toml::{Table, Value};

/// The greatest that a bound may be.
const GREATEST: u64 = 1_000_000_000;

/// The usual bounds.
const CANCELLED_WITHIN_MS: u64 = 1_000;

const ORDERS_PER_TRADE: u64 = 20;

const CANCELLED_PERCENT: u64 = 90;

const HIT_PERCENT: u64 = 90;

const FEWEST_FOR_RATIO: u64 = 10;

const SAME_THREE_REQUESTS: u64 = 10;

const LINKED_WITHIN_MS: u64 = 1_000;

/// The bounds of the alarms.
#[derive(Clone, Copy)]
pub struct Thresholds {
    /// an order is cancelled at most so long after it entered, in milliseconds
    pub cancelled_within_ms: u64,
    /// more orders than this for each trade in the book
    pub orders_per_trade: u64,
    /// more of the orders than this are cancelled, in percent
    pub cancelled_percent: u64,
    /// more of the quotes than this are hit, in percent
    pub hit_percent: u64,
    /// the fewest orders or quotes of which a ratio is looked at
    pub fewest_for_ratio: u64,
    /// the fewest requests that go to the same three
    pub same_three_requests: u64,
    /// a linked order enters at most so long after its delay, in milliseconds
    pub linked_within_ms: u64,
}

/// A bound, as the file names it, and its range.
#[derive(Clone, Copy, Debug, PartialEq, Eq, Error)]
pub enum Bound {
    #[error("cancelled_within_ms is not a whole number from 0 to 1000000000")]
    CancelledWithin,
    #[error("orders_per_trade is not a whole number from 0 to 1000000000")]
    OrdersPerTrade,
    #[error("cancelled_percent is not a whole number from 0 to 100")]
    CancelledPercent,
    #[error("hit_percent is not a whole number from 0 to 100")]
    HitPercent,
    #[error("fewest_for_ratio is not a whole number from 0 to 1000000000")]
    FewestForRatio,
    #[error("same_three_requests is not a whole number from 0 to 1000000000")]
    SameThreeRequests,
    #[error("linked_within_ms is not a whole number from 0 to 1000000000")]
    LinkedWithin,
}

/// Why a file of thresholds is refused.
#[derive(Debug, Drop, Error)]
pub enum ThresholdsFault {
    /// The bytes are not UTF-8, or not a TOML document.
    #[error("not a TOML document")]
    NotToml,
    /// A key that names no bound, as a misspelt one.
    #[error("{0:?} is no threshold")]
    UnknownKey(String),
    /// A value is not a whole number, or outside its range.
    #[error("{0}")]
    BadValue(Bound),
    /// An allocation failed.
    #[error("out of memory")]
    NoMemory,
}

/// The usual bounds: those of a file that states none.
pub fn usual_bounds() -> Thresholds
    ensures { result ≡ usual }
{
    Thresholds {
        cancelled_within_ms: CANCELLED_WITHIN_MS,
        orders_per_trade: ORDERS_PER_TRADE,
        cancelled_percent: CANCELLED_PERCENT,
        hit_percent: HIT_PERCENT,
        fewest_for_ratio: FEWEST_FOR_RATIO,
        same_three_requests: SAME_THREE_REQUESTS,
        linked_within_ms: LINKED_WITHIN_MS,
    }
}

fn is_past(number: i64, most: u64) -> bool
    ensures { result ≡ (int_lt number (pos 0) || not (nat_le (nat_abs number) most)) }
{
    number < 0 || !(number.unsigned_abs() <= most)
}

/// Whether a value is stated that is not a whole number up to the greatest.
fn is_bad(file: &Value, key: &str, most: u64) -> bool
    ensures { result ≡ is_bad most (get key.now (view file.now)) }
{
    match file.get(key) {
        Some(Value::Integer(number)) => is_past(*number, most),
        None => false,
        _ => true,
    }
}

/// The number at a key, or the usual one where none is stated.
fn stated_or(file: &Value, key: &str, usual: u64) -> u64
    ensures { result ≡ stated_or usual (get key.now (view file.now)) }
{
    match file.get(key) {
        Some(Value::Integer(number)) => number.unsigned_abs(),
        _ => usual,
    }
}

/// The first bound whose value is stated and not allowed.
fn bad_bound(file: &Value) -> Option<Bound>
    ensures { result ≡ bad_bound (view file.now) }
{
    if is_bad(file, "cancelled_within_ms", GREATEST) {
        return Some(Bound::CancelledWithin);
    }
    if is_bad(file, "orders_per_trade", GREATEST) {
        return Some(Bound::OrdersPerTrade);
    }
    if is_bad(file, "cancelled_percent", 100) {
        return Some(Bound::CancelledPercent);
    }
    if is_bad(file, "hit_percent", 100) {
        return Some(Bound::HitPercent);
    }
    if is_bad(file, "fewest_for_ratio", GREATEST) {
        return Some(Bound::FewestForRatio);
    }
    if is_bad(file, "same_three_requests", GREATEST) {
        return Some(Bound::SameThreeRequests);
    }
    if is_bad(file, "linked_within_ms", GREATEST) {
        return Some(Bound::LinkedWithin);
    }
    None
}

fn stated(file: &Value) -> Thresholds
    ensures { result ≡ stated (view file.now) }
{
    Thresholds {
        cancelled_within_ms: stated_or(file, "cancelled_within_ms", CANCELLED_WITHIN_MS),
        orders_per_trade: stated_or(file, "orders_per_trade", ORDERS_PER_TRADE),
        cancelled_percent: stated_or(file, "cancelled_percent", CANCELLED_PERCENT),
        hit_percent: stated_or(file, "hit_percent", HIT_PERCENT),
        fewest_for_ratio: stated_or(file, "fewest_for_ratio", FEWEST_FOR_RATIO),
        same_three_requests: stated_or(file, "same_three_requests", SAME_THREE_REQUESTS),
        linked_within_ms: stated_or(file, "linked_within_ms", LINKED_WITHIN_MS),
    }
}

/// The bounds that a document states, if each is allowed.
fn stated_in(file: &Value) -> Result<Thresholds, ThresholdsFault>
    ensures read { IfOk result (λ bounds. (bad_bound (view file.now) ≡ None) × (bounds ≡ stated (view file.now))) }
    ensures fault { IfErr result (IsBadIn (view file.now)) }
{
    match bad_bound(file) {
        Some(bound) => Err(ThresholdsFault::BadValue(bound)),
        None => Ok(stated(file)),
    }
}

/// Whether this key names a bound.
fn is_bound(key: &str) -> bool
    ensures { result ≡ is_bound key.now }
{
    key == "cancelled_within_ms"
        || key == "orders_per_trade"
        || key == "cancelled_percent"
        || key == "hit_percent"
        || key == "fewest_for_ratio"
        || key == "same_three_requests"
        || key == "linked_within_ms"
}

/// The first key, in the order of their bytes, that names no bound.
fn unknown_key(table: &Table) -> Option<&str>
    ensures { option_copied result ≡ unknown_key (table_view table.now) }
{
    'members: for (key, _value) in table.iter() {
        if !is_bound(key.as_str()) {
            return Some(key.as_str());
        }
    }
    None
}

/// Refuses a document with a key that names no bound.
fn check_keys(alloc: Global, table: &Table) -> Result<(), ThresholdsFault>
    ensures known { IfOk result (λ _. unknown_key (table_view table.now) ≡ None) }
    ensures fault { IfErr result (IsUnknownIn (table_view table.now)) }
{
    let Some(key) = unknown_key(table) else {
        return Ok(());
    };
    match String::from_str(alloc, key) {
        Ok(key) => Err(ThresholdsFault::UnknownKey(key)),
        Err(_) => Err(ThresholdsFault::NoMemory),
    }
}

/// The bounds that a table states, if each of its keys names one and each value is allowed.
fn bounds_in(alloc: Global, table: Table) -> Result<Thresholds, ThresholdsFault>
    ensures read { IfOk result (AreStated (table_view table)) }
    ensures fault { IfErr result (IsRefusedIn (table_view table)) }
{
    match check_keys(alloc, &table) {
        Ok(()) => stated_in(&Value::Table(table)),
        Err(fault) => Err(fault),
    }
}

/// Reads a file of thresholds: an empty one states none, so that each is the usual one.
pub fn thresholds_in(alloc: Global, text: &[u8]) -> Result<Thresholds, ThresholdsFault>
    ensures read { IfOk result (States text.now) }
    ensures fault { IfErr result (IsFaultOf text.now) }
{
    match toml::table_from_slice(alloc, text) {
        Ok(table) => bounds_in(alloc, table),
        Err(error) => {
            if error.is_memory() {
                Err(ThresholdsFault::NoMemory)
            } else {
                Err(ThresholdsFault::NotToml)
            }
        }
    }
}
