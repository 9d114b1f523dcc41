//! What is kept of a participant's day.

ghost use Rattle.std.specs.Prelude.{◌≡◌};
ghost use Rattle.participant_activity.specs.Kept.{activity_of, no_activity, no_orders, no_quotes};
ghost use Rattle.participant_activity.specs.Noting.{first_or, plus, plus_wide, seen};

use crate::key::{Cause, Name};
use sef_moment::Moment;
use std::alloc::Global;
use std::collections::BTreeMap;

/// Its requests and quotes.
#[derive(Clone, Copy)]
pub struct QuoteCounts {
    /// requests that it was asked in
    pub asked: u64,
    /// of these, requests in which a quote of its own was accepted
    pub quoted: u64,
    /// quotes that it sent
    pub sent: u64,
    pub accepted: u64,
    pub hit: u64,
    pub passed: u64,
    pub withdrawn: u64,
    /// quotes that a later one of its own in the request followed while their time ran
    pub replaced: u64,
    /// quotes that a later one followed, after their own end (62)
    pub lapsed: u64,
    /// requests that it made
    pub requests: u64,
    /// requests that it traded
    pub requests_traded: u64,
    /// withdrawals and responses that named no live quote
    pub not_live: u64,
}

/// Its orders.
#[derive(Clone, Copy)]
pub struct OrderCounts {
    /// orders that it sent
    pub orders: u64,
    /// crosses that it sent
    pub crosses: u64,
    /// orders and sides of crosses that entered
    pub entered: u64,
    /// orders with a fill; an order and what replaces it are one
    pub filled: u64,
    /// orders that were filled whole
    pub whole: u64,
    /// orders that it cancelled
    pub cancelled: u64,
    /// orders of which the rest was cancelled as they entered
    pub unfilled: u64,
    /// held sides that it cancelled
    pub held: u64,
    pub replaced: u64,
    /// messages of all kinds that were refused
    pub refused: u64,
}

/// A request that it was asked in.
#[derive(Clone, Copy)]
pub struct OwnRequest {
    /// in milliseconds since 1970
    pub moment: u64,
    /// whether a quote of its own was accepted
    pub quoted: bool,
    /// whether no answer ended its last quote
    pub live: bool,
    /// the end (62) that its last quote gave, in milliseconds since 1970
    pub end: Option<u64>,
}

/// Its trades in an instrument.
#[derive(Clone, Copy)]
pub struct Traded {
    pub bought: u64,
    pub quantity_bought: u128,
    pub sold: u64,
    pub quantity_sold: u128,
}

/// What is kept of a participant's day.
#[derive(Drop)]
pub struct Activity {
    pub first: Option<Moment>,
    pub last: Option<Moment>,
    pub quotes: QuoteCounts,
    pub orders: OrderCounts,
    /// requests that it was asked in, by the identifier (131) that it was sent
    pub asked: BTreeMap<Name, OwnRequest>,
    /// milliseconds from a request to its first quote, and in how many requests
    pub times: BTreeMap<u64, u64>,
    pub causes: BTreeMap<Cause, u64>,
    pub trades: BTreeMap<Name, Traded>,
}

/// A sum that stops at the greatest number.
pub(crate) fn plus(a: u64, b: u64) -> u64
    ensures { result ≡ plus a b }
{
    a.saturating_add(b)
}

/// A sum that stops at the greatest number.
pub(crate) fn plus_wide(a: u128, b: u128) -> u128
    ensures { result ≡ plus_wide a b }
{
    a.saturating_add(b)
}

fn no_quotes() -> QuoteCounts
    ensures { result ≡ no_quotes }
{
    QuoteCounts {
        asked: 0,
        quoted: 0,
        sent: 0,
        accepted: 0,
        hit: 0,
        passed: 0,
        withdrawn: 0,
        replaced: 0,
        lapsed: 0,
        requests: 0,
        requests_traded: 0,
        not_live: 0,
    }
}

fn no_orders() -> OrderCounts
    ensures { result ≡ no_orders }
{
    OrderCounts {
        orders: 0,
        crosses: 0,
        entered: 0,
        filled: 0,
        whole: 0,
        cancelled: 0,
        unfilled: 0,
        held: 0,
        replaced: 0,
        refused: 0,
    }
}

/// What is kept before the first row.
pub(crate) fn no_activity(alloc: Global) -> Activity
    ensures { activity_of result ≡ no_activity }
{
    Activity {
        first: None,
        last: None,
        quotes: no_quotes(),
        orders: no_orders(),
        asked: BTreeMap::new(alloc),
        times: BTreeMap::new(alloc),
        causes: BTreeMap::new(alloc),
        trades: BTreeMap::new(alloc),
    }
}

fn first_or(first: Option<Moment>, moment: Moment) -> Option<Moment>
    ensures { result ≡ first_or first moment }
{
    match first {
        Some(first) => Some(first),
        None => Some(moment),
    }
}

/// Notes the moment of a message.
pub(crate) fn see(activity: &mut Activity, moment: Moment)
    ensures { activity_of activity.new ≡ seen (activity_of activity.old) moment }
{
    activity.first = first_or(activity.first, moment);
    activity.last = Some(moment);
}
