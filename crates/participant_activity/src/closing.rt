//! What is read off at the end of the day: the quotes that no message ended, and the times to a first quote.

ghost use Rattle.std.specs.Prelude.{◌≡◌, ◌-◌, ◌/◌};
ghost use Rattle.participant_activity.specs.Figures.{ends_at, ends_from, greatest, least, median, no_ends, nth, resting, with_end, with_live};

use crate::activity::{OrderCounts, OwnRequest, plus};
use crate::key::Name;
use crate::quoting::is_past;
use sef_moment::Moment;
use std::collections::BTreeMap;

/// Quotes that no message ended: those whose own end (62) passed before the participant's last message, and the others.
#[derive(Clone, Copy)]
pub struct QuoteEnds {
    pub lapsed: u64,
    pub unreported: u64,
}

fn no_ends() -> QuoteEnds
    ensures { result ≡ no_ends }
{
    QuoteEnds {
        lapsed: 0,
        unreported: 0,
    }
}

fn with_live(ends: QuoteEnds, past: bool) -> QuoteEnds
    ensures { result ≡ with_live ends past }
{
    if past {
        QuoteEnds {
            lapsed: plus(ends.lapsed, 1),
            ..ends
        }
    } else {
        QuoteEnds {
            unreported: plus(ends.unreported, 1),
            ..ends
        }
    }
}

fn with_end(last: u64, ends: QuoteEnds, request: &OwnRequest) -> QuoteEnds
    ensures { result ≡ with_end last ends request.now }
{
    if request.live {
        with_live(ends, is_past(request.end, last))
    } else {
        ends
    }
}

fn ends_from(last: u64, asked: &BTreeMap<Name, OwnRequest>) -> QuoteEnds
    ensures { result ≡ ends_from last no_ends asked.now.entries }
{
    let mut ends = no_ends();
    for (_name, request) in asked.iter() {
        ends = with_end(last, ends, request);
    }
    ends
}

/// The quotes that no message ended, by the moment of the last one.
pub(crate) fn ends_at(last: Option<Moment>, asked: &BTreeMap<Name, OwnRequest>) -> QuoteEnds
    ensures { result ≡ ends_at last asked.now.entries }
{
    match last {
        Some(last) => ends_from(last.ms(), asked),
        None => ends_from(0, asked),
    }
}

/// The k-th time, from 0, in ascending order.
fn nth(times: &BTreeMap<u64, u64>, k: u64) -> Option<u64>
    ensures { result ≡ nth times.now.entries k }
{
    let mut left = k;
    for (ms, count) in times.iter() {
        if left < *count {
            return Some(*ms);
        }
        left -= *count;
    }
    None
}

pub(crate) fn least(times: &BTreeMap<u64, u64>) -> Option<u64>
    ensures { result ≡ least times.now.entries }
{
    nth(times, 0)
}

/// The time in the middle; of an even number the lower of the two.
pub(crate) fn median(times: &BTreeMap<u64, u64>, count: u64) -> Option<u64>
    ensures { result ≡ median times.now.entries count }
{
    nth(times, count.saturating_sub(1) / 2)
}

pub(crate) fn greatest(times: &BTreeMap<u64, u64>, count: u64) -> Option<u64>
    ensures { result ≡ greatest times.now.entries count }
{
    nth(times, count.saturating_sub(1))
}

/// Orders that entered, but for what was filled whole or cancelled.
pub(crate) fn resting(counts: &OrderCounts) -> u64
    ensures { result ≡ resting counts.now }
{
    counts
        .entered
        .saturating_sub(counts.whole)
        .saturating_sub(counts.cancelled)
        .saturating_sub(counts.unfilled)
}
