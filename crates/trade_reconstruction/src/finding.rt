//! Search for the first event of some content.

ghost use Rattle.std.specs.Prelude.{◌≡◌, find, option_map};
ghost use Rattle.std.specs.List.{flat_map};
ghost use Rattle.trade_reconstruction.specs.Indexed.{at};
ghost use Rattle.trade_reconstruction.specs.Lines.{enters, fills, fills_at, fills_other, hits, holds, is_asked, is_entry, is_sought, key_of, link_in, link_of, order_in, order_of, row_of, trade_in, trade_of};

use crate::events::Events;
use crate::evidence_event::{EventKind, EvidenceEvent, Linked};
use crate::key::{Key, name_key};
use fix_dictionary::Identifier;
use participants::Who;

/// The content that is searched for.
#[derive(Clone, Copy)]
pub enum Query {
    /// a request in this room
    Request(u64),
    /// the entry of this order
    Order(u64),
    /// a fill by this trade
    Fill(u64),
    /// a fill by this trade of another order than this
    OtherFill(u64, u64),
    /// a fill of this order at this row
    FillAt(u64, u64),
    /// the hit that made this trade
    Hit(u64),
    /// the hold of this participant's order with this identifier (11)
    HeldSide(Who, Identifier),
    /// the entry of this participant's order with this identifier (11)
    Entry(Who, Identifier),
}

pub(crate) fn is_asked(word: &EvidenceEvent, room: u64) -> bool
    ensures { result ≡ is_asked room word.now }
{
    match &word.said {
        EventKind::Asked(asked) => asked.room == room,
        _ => false,
    }
}

fn enters(word: &EvidenceEvent, order: u64) -> bool
    ensures { result ≡ enters order word.now }
{
    match &word.said {
        EventKind::Entered(entered) => entered.order == order,
        _ => false,
    }
}

fn fills(word: &EvidenceEvent, trade: u64) -> bool
    ensures { result ≡ fills trade word.now }
{
    match &word.said {
        EventKind::Filled(filled) => filled.trade == trade,
        _ => false,
    }
}

fn fills_other(word: &EvidenceEvent, trade: u64, order: u64) -> bool
    ensures { result ≡ fills_other trade order word.now }
{
    match &word.said {
        EventKind::Filled(filled) => filled.trade == trade && filled.order != order,
        _ => false,
    }
}

fn fills_at(word: &EvidenceEvent, order: u64, row: u64) -> bool
    ensures { result ≡ fills_at order row word.now }
{
    match &word.said {
        EventKind::Filled(filled) => filled.order == order && word.row == row,
        _ => false,
    }
}

fn hits(word: &EvidenceEvent, trade: u64) -> bool
    ensures { result ≡ hits trade word.now }
{
    match &word.said {
        EventKind::Hit(hit) => hit.trade == trade,
        _ => false,
    }
}

fn holds(word: &EvidenceEvent, who: Who, id: &Identifier) -> bool
    ensures { result ≡ holds who id.now word.now }
{
    match &word.said {
        EventKind::Held(held) => word.to.place() == who.place() && held.id.is(id),
        _ => false,
    }
}

fn is_entry(word: &EvidenceEvent, who: Who, id: &Identifier) -> bool
    ensures { result ≡ is_entry who id.now word.now }
{
    match &word.said {
        EventKind::Entered(entered) => word.to.place() == who.place() && entered.id.is(id),
        _ => false,
    }
}

fn is_sought(sought: &Query, word: &EvidenceEvent) -> bool
    ensures { result ≡ is_sought sought.now word.now }
{
    match sought {
        Query::Request(room) => is_asked(word, *room),
        Query::Order(order) => enters(word, *order),
        Query::Fill(trade) => fills(word, *trade),
        Query::OtherFill(trade, order) => fills_other(word, *trade, *order),
        Query::FillAt(order, row) => fills_at(word, *order, *row),
        Query::Hit(trade) => hits(word, *trade),
        Query::HeldSide(who, id) => holds(word, *who, id),
        Query::Entry(who, id) => is_entry(word, *who, id),
    }
}

/// A key of the events with this content.
fn key_of(sought: &Query) -> Key
    ensures { result ≡ key_of sought.now }
{
    match sought {
        Query::Request(room) => Key::First(*room),
        Query::Order(order) => Key::First(*order),
        Query::Fill(trade) => Key::First(*trade),
        Query::OtherFill(trade, _) => Key::First(*trade),
        Query::FillAt(order, _) => Key::Second(*order),
        Query::Hit(trade) => Key::Second(*trade),
        Query::HeldSide(who, id) => Key::First(name_key(*who, id)),
        Query::Entry(who, id) => Key::Second(name_key(*who, id)),
    }
}

/// The event at a place, if it has the content that is searched for.
fn fitting<'a>(
    words: &'a [EvidenceEvent],
    place: usize,
    sought: &Query,
) -> Option<&'a EvidenceEvent>
    ensures { option_map (λ w. w.now) result ≡ find (is_sought sought.now) (at words.now place) }
{
    match words.get(place) {
        Some(word) => {
            if is_sought(sought, word) {
                Some(word)
            } else {
                None
            }
        }
        None => None,
    }
}

/// The first of the events at these places with the content that is searched for.
fn find_at<'a>(
    words: &'a [EvidenceEvent],
    places: &[usize],
    sought: &Query,
) -> Option<&'a EvidenceEvent>
    ensures { option_map (λ w. w.now) result ≡ find (is_sought sought.now) (flat_map (at words.now) places.now) }
{
    for place in places {
        if let Some(word) = fitting(words, *place, sought) {
            return Some(word);
        }
    }
    None
}

/// The first of the events with the content that is searched for.
pub fn find_word<'a>(words: &'a Events, sought: &Query) -> Option<&'a EvidenceEvent>
    ensures { option_map (λ w. w.now) result ≡ find (is_sought sought.now) words.now }
{
    find_at(words.words(), words.places(&key_of(sought)), sought)
}

fn order_in(word: &EvidenceEvent) -> Option<u64>
    ensures { result ≡ order_in word.now }
{
    match &word.said {
        EventKind::Filled(filled) => Some(filled.order),
        _ => None,
    }
}

/// The order that is filled, if a fill is found.
pub fn filled_order(words: &Events, sought: &Query) -> Option<u64>
    ensures { result ≡ order_of (find (is_sought sought.now) words.now) }
{
    match find_word(words, sought) {
        Some(word) => order_in(word),
        None => None,
    }
}

fn trade_in(word: &EvidenceEvent) -> Option<u64>
    ensures { result ≡ trade_in word.now }
{
    match &word.said {
        EventKind::Filled(filled) => Some(filled.trade),
        _ => None,
    }
}

/// The trade of the fill, if one is found.
pub fn filling_trade(words: &Events, sought: &Query) -> Option<u64>
    ensures { result ≡ trade_of (find (is_sought sought.now) words.now) }
{
    match find_word(words, sought) {
        Some(word) => trade_in(word),
        None => None,
    }
}

/// The row of the first event with the content that is searched for, if there is one.
pub fn row_of(words: &Events, sought: &Query) -> u64
    ensures { result ≡ row_of (find (is_sought sought.now) words.now) }
{
    match find_word(words, sought) {
        Some(word) => word.row,
        None => 0,
    }
}

fn link_in(word: &EvidenceEvent) -> Option<Linked>
    ensures { result ≡ link_in word.now }
{
    match &word.said {
        EventKind::Entered(entered) => entered.link,
        _ => None,
    }
}

/// The link of the order that entered, if one is found.
pub fn link_of(words: &Events, sought: &Query) -> Option<Linked>
    ensures { result ≡ link_of (find (is_sought sought.now) words.now) }
{
    match find_word(words, sought) {
        Some(word) => link_in(word),
        None => None,
    }
}
