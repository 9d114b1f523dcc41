//! What is counted of a day's events and rows.

ghost use Rattle.std.specs.Prelude.{◌≡◌, count_by};
ghost use Rattle.day_sections.specs.Counts.{counts, is_asked, is_cancelled, is_entered, is_hit, is_quoted, is_refused, is_replaced, is_counted, is_his, is_of_sender, is_sent};

use day_events::{Event, What};
use venue_rules::TrailRow;

/// What is counted.
#[derive(Clone, Copy)]
pub enum Kind {
    Entered,
    Replaced,
    Cancelled,
    Refused,
    /// quotes, by their maker
    Quotes,
    /// quotes hit, by their maker
    Hits,
    /// requests, by each recipient
    Asked,
}

#[tactic(auto, unfolding(crate::specs::Counts::is_entered))]
fn is_entered(what: &What) -> bool
    ensures { result ≡ is_entered what.now }
{
    match what {
        What::Entered(_) => true,
        _ => false,
    }
}

#[tactic(auto, unfolding(crate::specs::Counts::is_replaced))]
fn is_replaced(what: &What) -> bool
    ensures { result ≡ is_replaced what.now }
{
    match what {
        What::Replaced(_) => true,
        _ => false,
    }
}

#[tactic(auto, unfolding(crate::specs::Counts::is_cancelled))]
fn is_cancelled(what: &What) -> bool
    ensures { result ≡ is_cancelled what.now }
{
    match what {
        What::Cancelled(_) => true,
        _ => false,
    }
}

#[tactic(auto, unfolding(crate::specs::Counts::is_refused))]
pub(crate) fn is_refused(what: &What) -> bool
    ensures { result ≡ is_refused what.now }
{
    match what {
        What::Refused(_) => true,
        _ => false,
    }
}

#[tactic(auto, unfolding(crate::specs::Counts::is_quoted))]
pub fn is_quoted(what: &What) -> bool
    ensures { result ≡ is_quoted what.now }
{
    match what {
        What::Quoted(_) => true,
        _ => false,
    }
}

#[tactic(auto, unfolding(crate::specs::Counts::is_hit))]
fn is_hit(what: &What) -> bool
    ensures { result ≡ is_hit what.now }
{
    match what {
        What::Traded(trade) => trade.response.is_none(),
        _ => false,
    }
}

#[tactic(auto, unfolding(crate::specs::Counts::is_asked))]
fn is_asked(what: &What) -> bool
    ensures { result ≡ is_asked what.now }
{
    match what {
        What::Asked(_) => true,
        _ => false,
    }
}

/// Whether an event is of this kind.
pub(crate) fn is_counted(kind: Kind, what: &What) -> bool
    ensures { result ≡ is_counted kind what.now }
{
    match kind {
        Kind::Entered => is_entered(what),
        Kind::Replaced => is_replaced(what),
        Kind::Cancelled => is_cancelled(what),
        Kind::Refused => is_refused(what),
        Kind::Quotes => is_quoted(what),
        Kind::Hits => is_hit(what),
        Kind::Asked => is_asked(what),
    }
}

/// Whether an event of this kind is of the sender of its row, and not of whom it was sent to.
pub(crate) fn is_of_sender(kind: Kind) -> bool
    ensures { result ≡ is_of_sender kind }
{
    match kind {
        Kind::Entered => false,
        Kind::Replaced => false,
        Kind::Cancelled => false,
        Kind::Refused => false,
        Kind::Quotes => true,
        Kind::Hits => false,
        Kind::Asked => false,
    }
}

/// Whether an event of this kind is of the participant at this place.
fn is_his(kind: Kind, place: u32, event: &Event) -> bool
    ensures { result ≡ is_his kind place event.now }
{
    if is_of_sender(kind) {
        u64::from(event.at.from) == u64::from(place) + 1
    } else {
        event.to.place() == place
    }
}

/// Whether an event is of this kind, and of the participant at this place, or of any.
fn counts(kind: Kind, place: Option<u32>, event: &Event) -> bool
    ensures { result ≡ counts kind place event.now }
{
    match place {
        None => is_counted(kind, &event.what),
        Some(place) => is_counted(kind, &event.what) && is_his(kind, place, event),
    }
}

/// How many events of a kind there are, of the participant at this place, or of any.
pub(crate) fn count(events: &[Event], kind: Kind, place: Option<u32>) -> usize
    ensures { result ≡ count_by (counts kind place) events.now }
{
    events
        .iter()
        .filter(|event| counts(kind, place, event))
        .count()
}

/// Whether a row has a message, of the participant at this place, or of any.
fn is_sent(place: Option<u32>, row: &TrailRow) -> bool
    ensures { result ≡ is_sent place row.now }
{
    match place {
        None => row.who != 0,
        Some(place) => u64::from(row.who) == u64::from(place) + 1,
    }
}

/// How many rows have a message, of the participant at this place, or of any.
pub(crate) fn count_sent(rows: &[TrailRow], place: Option<u32>) -> usize
    ensures { result ≡ count_by (is_sent place) rows.now }
{
    rows.iter().filter(|row| is_sent(place, row)).count()
}
