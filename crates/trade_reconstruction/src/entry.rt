//! The entry of an order, found among the events.

ghost use Rattle.std.specs.Prelude.{◌≡◌, find, option_map};
ghost use Rattle.trade_reconstruction.specs.Lines.{entry_in, entry_moment, entry_of, held_until, is_sought};
ghost use Rattle.trade_reconstruction.specs.declared.finding.Query.TheVariants.{HeldSide, Order};

use crate::events::Events;
use crate::evidence_event::{Entered, EventKind, EvidenceEvent};
use crate::finding::{Query, find_word};
use participants::Who;
use sef_moment::Moment;

/// An order as it entered.
#[derive(Clone, Copy)]
pub struct Entry {
    /// the row of its entry event
    pub row: u64,
    /// its participant
    pub to: Who,
    /// the moment of its entry: of a held side the end of its delay
    pub moment: Moment,
    pub entered: Entered,
}

/// Two orders that were matched, and the row at which they were.
#[derive(Clone, Copy)]
pub struct Both {
    pub resting: Entry,
    pub entering: Entry,
    pub row: u64,
}

/// The event that a participant's order was held, if it was.
pub(crate) fn hold_of<'a>(
    words: &'a Events,
    to: Who,
    entered: &Entered,
) -> Option<&'a EvidenceEvent>
    ensures { option_map (λ w. w.now) result ≡ find (is_sought (HeldSide to entered.now.id)) words.now }
{
    find_word(words, &Query::HeldSide(to, entered.id))
}

/// The moment at which a held side entered: the end of its delay.
fn held_moment(hold: &EvidenceEvent) -> Moment
    ensures { result ≡ held_until hold.now }
{
    match &hold.said {
        EventKind::Held(held) => hold.moment.plus(held.delay),
        _ => hold.moment,
    }
}

/// The moment at which an order entered.
fn entry_moment(words: &Events, word: &EvidenceEvent, entered: &Entered) -> Moment
    ensures { result ≡ entry_moment words.now word.now entered.now }
{
    if !entered.at_tick {
        return word.moment;
    }
    match hold_of(words, word.to, entered) {
        Some(hold) => held_moment(hold),
        None => word.moment,
    }
}

fn entry_in(words: &Events, word: &EvidenceEvent) -> Option<Entry>
    ensures { result ≡ entry_in words.now word.now }
{
    match &word.said {
        EventKind::Entered(entered) => Some(Entry {
            row: word.row,
            to: word.to,
            moment: entry_moment(words, word, entered),
            entered: *entered,
        }),
        _ => None,
    }
}

/// The entry of the order with this number, if it is found.
pub(crate) fn entry_of(words: &Events, order: u64) -> Option<Entry>
    ensures { result ≡ entry_of words.now (find (is_sought (Order order)) words.now) }
{
    match find_word(words, &Query::Order(order)) {
        Some(word) => entry_in(words, word),
        None => None,
    }
}
