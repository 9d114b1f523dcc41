//! What is counted of each participant.

ghost use Rattle.std.specs.Prelude.{◌≡◌, ◌==◌, ◌++◌, ◌∷◌, [], count_by, length, IfOk, OnOk};
ghost use Rattle.surveillance.specs.Deeds.{asked_by, asked_times, book_trades, cancel_in, deed, deeds, deeds_by, hit_in, is_book_trade, is_deed, is_first_in, is_order, is_same, orders_times, places_from, put_quote, put_quote_in, quote_at, quote_deed, recipients, sender, times, was_asked};

use crate::own_name::{OwnName, own};
use day_events::{Event, NewQuote, What};
use fix_dictionary::Identifier;
use participants::{Participants, Who};
use std::alloc::{AllocError, Global};
use std::collections::BTreeMap;
use venue_rules::TradeFact;

/// What a participant does.
#[derive(Clone, Copy)]
pub enum Act {
    Entered,
    Replaced,
    Cancelled,
    Asked,
    /// first in a room
    Quoted,
    Hit,
}

/// What a participant did, and to whom: to itself where there is nobody else.
#[derive(Clone, Copy)]
pub struct Deed {
    pub act: Act,
    pub who: Who,
    pub other: Who,
}

fn push_deed(deeds: &mut Vec<Deed>, act: Act, who: Who, other: Who) -> Result<(), AllocError>
    ensures { OnOk result (deeds.new.items ≡ deeds.old.items ++ deed act who other ∷ []) }
{
    match deeds.push(Deed { act, who, other }) {
        Ok(()) => Ok(()),
        Err(_) => Err(AllocError),
    }
}

/// The sender of a row.
fn sender(event: &Event) -> Who
    ensures { result ≡ sender event.now }
{
    Who::of(event.at.from.saturating_sub(1))
}

fn push_hit(
    deeds: &mut Vec<Deed>,
    response: &Option<Identifier>,
    who: Who,
) -> Result<(), AllocError>
    ensures { OnOk result (deeds.new.items ≡ deeds.old.items ++ hit_in response.now who) }
{
    match response {
        None => push_deed(deeds, Act::Hit, who, who),
        Some(_) => Ok(()),
    }
}

fn push_cancel(deeds: &mut Vec<Deed>, order: Option<u64>, who: Who) -> Result<(), AllocError>
    ensures { OnOk result (deeds.new.items ≡ deeds.old.items ++ cancel_in order who) }
{
    match order {
        None => Ok(()),
        Some(_) => push_deed(deeds, Act::Cancelled, who, who),
    }
}

fn put_quote_in(
    quotes: &mut BTreeMap<OwnName, u64>,
    who: Who,
    room: &Option<Identifier>,
    quote: &NewQuote,
) -> Result<(), AllocError>
    ensures { OnOk result (quotes.new.entries ≡ put_quote_in quotes.old.entries who room.now quote.now) }
{
    match room {
        None => {}
        Some(room) => {
            quotes.insert(own(who, *room), quote.quote)?;
        }
    }
    Ok(())
}

/// Notes a quote.
#[tactic(auto, unfolding(crate::specs::Deeds::put_quote))]
fn put_quote(quotes: &mut BTreeMap<OwnName, u64>, event: &Event) -> Result<(), AllocError>
    ensures { OnOk result (quotes.new.entries ≡ put_quote quotes.old.entries event.now event.now.what) }
{
    match &event.what {
        What::Quoted(quote) => put_quote_in(quotes, sender(event), &event.at.named, quote),
        _ => Ok(()),
    }
}

fn quote_at(quotes: &BTreeMap<OwnName, u64>, who: Who, room: Identifier) -> Option<u64>
    ensures { result ≡ quote_at quotes.now.entries who room }
{
    quotes.get(&own(who, room)).copied()
}

/// Whether a maker has no quote in a room yet.
fn is_first_in(quotes: &BTreeMap<OwnName, u64>, who: Who, room: &Option<Identifier>) -> bool
    ensures { result ≡ is_first_in quotes.now.entries who room.now }
{
    match room {
        None => true,
        Some(room) => quote_at(quotes, who, *room).is_none(),
    }
}

fn push_quote(deeds: &mut Vec<Deed>, is_first: bool, who: Who, other: Who) -> Result<(), AllocError>
    ensures { OnOk result (deeds.new.items ≡ deeds.old.items ++ quote_deed is_first who other) }
{
    if is_first {
        push_deed(deeds, Act::Quoted, who, other)
    } else {
        Ok(())
    }
}

/// Appends what a participant did.
#[tactic(auto, unfolding(crate::specs::Deeds::deeds_by))]
fn push_deeds_by(
    deeds: &mut Vec<Deed>,
    quotes: &BTreeMap<OwnName, u64>,
    event: &Event,
) -> Result<(), AllocError>
    ensures { OnOk result (deeds.new.items ≡ deeds.old.items ++ deeds_by quotes.now.entries event.now event.now.what) }
{
    let (from, to) = (sender(event), event.to);
    match &event.what {
        What::Entered(_) => push_deed(deeds, Act::Entered, to, to),
        What::Replaced(_) => push_deed(deeds, Act::Replaced, to, to),
        What::Cancelled(order) => push_cancel(deeds, *order, to),
        What::Asked(_) => push_deed(deeds, Act::Asked, from, to),
        What::Quoted(_) => {
            let is_first = is_first_in(quotes, from, &event.at.named);
            push_quote(deeds, is_first, from, to)
        }
        What::Traded(trade) => push_hit(deeds, &trade.response, to),
        _ => Ok(()),
    }
}

/// What each participant did on a day.
pub fn deeds_of(alloc: Global, events: &[Event]) -> Result<Vec<Deed>, AllocError>
    ensures { IfOk result (λ made. made.items ≡ deeds events.now) }
{
    let mut deeds = Vec::new(alloc);
    let mut quotes = BTreeMap::new(alloc);
    for event in events {
        push_deeds_by(&mut deeds, &quotes, event)?;
        put_quote(&mut quotes, event)?;
    }
    Ok(deeds)
}

#[tactic(auto, unfolding(crate::specs::Deeds::is_same))]
fn is_same(act: Act, other: Act) -> bool
    ensures { result ≡ is_same act other }
{
    match (act, other) {
        (Act::Entered, Act::Entered) => true,
        (Act::Replaced, Act::Replaced) => true,
        (Act::Cancelled, Act::Cancelled) => true,
        (Act::Asked, Act::Asked) => true,
        (Act::Quoted, Act::Quoted) => true,
        (Act::Hit, Act::Hit) => true,
        _ => false,
    }
}

fn is_deed(act: Act, who: Who, deed: &Deed) -> bool
    ensures { result ≡ is_deed act who deed.now }
{
    is_same(act, deed.act) && deed.who.place() == who.place()
}

/// How often a participant did this.
pub fn times(act: Act, who: Who, deeds: &[Deed]) -> u64
    ensures { result ≡ times act who deeds.now }
{
    deeds.iter().filter(|deed| is_deed(act, who, deed)).count() as u64
}

fn is_order(who: Who, deed: &Deed) -> bool
    ensures { result ≡ is_order who deed.now }
{
    (is_same(Act::Entered, deed.act) || is_same(Act::Replaced, deed.act))
        && deed.who.place() == who.place()
}

/// How many orders and replacements a participant sent.
pub fn orders_times(who: Who, deeds: &[Deed]) -> u64
    ensures { result ≡ orders_times who deeds.now }
{
    deeds.iter().filter(|deed| is_order(who, deed)).count() as u64
}

fn is_book_trade(who: Who, trade: &TradeFact) -> bool
    ensures { result ≡ is_book_trade who trade.now }
{
    trade.room.is_none()
        && (trade.buyer.place() == who.place() || trade.seller.place() == who.place())
}

/// How often it traded in the book.
pub fn book_trades(who: Who, trades: &[TradeFact]) -> u64
    ensures { result ≡ book_trades who trades.now }
{
    trades
        .iter()
        .filter(|trade| is_book_trade(who, trade))
        .count() as u64
}

/// The requests of a participant, each as often as it was sent.
pub(crate) fn asked_by(alloc: Global, who: Who, deeds: &[Deed]) -> Result<Vec<Deed>, AllocError>
    ensures { IfOk result (λ asked. asked.items ≡ asked_by who deeds.now) }
{
    let mut asked = Vec::new(alloc);
    for deed in deeds {
        if is_deed(Act::Asked, who, deed) {
            asked.push(*deed)?;
        }
    }
    Ok(asked)
}

fn is_to(other: Who, deed: &Deed) -> bool
    ensures { result ≡ (deed.now.other == other) }
{
    deed.other.place() == other.place()
}

fn was_asked(asked: &[Deed], other: Who) -> bool
    ensures { result ≡ was_asked asked.now other }
{
    asked.iter().any(|deed| is_to(other, deed))
}

/// How often one was asked.
pub(crate) fn asked_times(asked: &[Deed], other: Who) -> u64
    ensures { result ≡ asked_times asked.now other }
{
    asked.iter().filter(|deed| is_to(other, deed)).count() as u64
}

/// All participants, in their file's order.
pub(crate) fn everybody(alloc: Global, participants: &Participants) -> Result<Vec<Who>, AllocError>
    ensures { IfOk result (λ places. places.items ≡ places_from 0 (length participants.now.names)) }
{
    let mut places = Vec::new(alloc);
    for place in 0..participants.len() {
        places.push(Who::of(place as u32))?;
    }
    Ok(places)
}

/// Those of these who were asked.
pub(crate) fn recipients(
    alloc: Global,
    everybody: &[Who],
    asked: &[Deed],
) -> Result<Vec<Who>, AllocError>
    ensures { IfOk result (λ asked_of. asked_of.items ≡ recipients everybody.now asked.now) }
{
    let mut asked_of = Vec::new(alloc);
    for who in everybody {
        if was_asked(asked, *who) {
            asked_of.push(*who)?;
        }
    }
    Ok(asked_of)
}
