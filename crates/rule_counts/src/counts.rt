//! What is counted of a day, rule by rule.

ghost use Rattle.std.specs.Prelude.{◌≡◌, ◌≤◌};
ghost use Rattle.rule_counts.specs.Counts.{adjusted, is_adjusted, is_near, is_refused_for, is_text, least_over, lesser, near, one_if, over, refused_for};

use day_events::{Event, What};
use fix_dictionary::Identifier;
use instruments::Instruments;
use surveillance::LinkedTrade;

fn is_text(text: &[u8], cause: &Option<Identifier>) -> bool
    ensures { result ≡ is_text text.now cause.now }
{
    match cause {
        None => false,
        Some(cause) => cause.as_slice() == text,
    }
}

#[tactic(auto, unfolding(crate::specs::Counts::is_refused_for))]
fn is_refused_for(text: &[u8], what: &What) -> bool
    ensures { result ≡ is_refused_for text.now what.now }
{
    match what {
        What::Refused(cause) => is_text(text, cause),
        _ => false,
    }
}

/// The refusals with this text.
pub(crate) fn refused_for(events: &[Event], text: &[u8]) -> u64
    ensures { result ≡ refused_for text.now events.now }
{
    events
        .iter()
        .filter(|event| is_refused_for(text, &event.what))
        .count() as u64
}

/// Whether two linked orders entered less than the delay apart.
fn is_near(linked: &LinkedTrade) -> bool
    ensures { result ≡ is_near linked.now }
{
    linked.between < linked.delay
}

/// The trades whose linked orders entered less than the delay apart.
pub(crate) fn near(linked: &[LinkedTrade]) -> u64
    ensures { result ≡ near linked.now }
{
    linked.iter().filter(|linked| is_near(linked)).count() as u64
}

/// The time between two linked orders, less the delay.
fn over(linked: &LinkedTrade) -> u64
    ensures { result ≡ over linked.now }
{
    linked.between.saturating_sub(linked.delay)
}

fn lesser(time: u64, later: Option<u64>) -> u64
    ensures { result ≡ lesser time later }
{
    match later {
        None => time,
        Some(later) => { if time <= later { time } else { later } }
    }
}

/// The least such time of trades; none of no trades.
pub(crate) fn least_over(linked: &[LinkedTrade]) -> Option<u64>
    ensures { result ≡ least_over linked.now }
{
    let mut least = None;
    for at in (0..linked.len()).rev() {
        least = Some(lesser(over(&linked[at]), least));
    }
    least
}

/// Whether this is a delay that the venue adjusted.
pub(crate) fn is_adjusted(delay: u64) -> bool
    ensures { result ≡ is_adjusted delay }
{
    delay != 15_000
}

fn one_if(test: bool) -> u64
    ensures result { result ≡ one_if test }
    ensures few { result ≤ 1 }
{
    if test { 1 } else { 0 }
}

/// The instruments whose delay was adjusted.
pub(crate) fn adjusted(instruments: &Instruments) -> u64
    ensures { result ≡ adjusted instruments.now }
{
    let mut count = 0;
    for instrument in 0..instruments.len() {
        count += one_if(is_adjusted(instruments.delay(instrument as u32)));
    }
    count
}
