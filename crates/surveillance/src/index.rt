//! What is looked up of a day's events: where orders entered and trades were reported, and the orders of each trade.

ghost use Rattle.std.specs.Prelude.{◌≡◌, IfOk, OnOk};
ghost use Rattle.surveillance.specs.Index.{entered_at, entered_id, entered_order, entries, entry_at, link_at, link_of, no_orders, orders, orders_at, place, place_at, put_entry, put_link, put_link_of, put_order, put_place, reported_trade, reports, with_order};
ghost use Rattle.surveillance.specs.Alarms.{looked};
ghost use Rattle.surveillance.specs.Numbers.{held};

use crate::alarm::Place;
use crate::numbered::{Numbered, found_at, no_number, put};
use crate::own_name::{OwnName, own};
use day_events::{Event, What};
use fix_dictionary::{Identifier, Side};
use participants::Who;
use sef_moment::Moment;
use std::alloc::{AllocError, Global};
use std::collections::BTreeMap;

/// Where an order entered.
#[derive(Clone, Copy)]
pub struct Entry {
    pub at: Place,
    /// at a row of the clock, as a held side of a cross
    pub by_clock: bool,
    /// 583
    pub link: Option<Identifier>,
}

/// The orders of a trade in the book.
#[derive(Clone, Copy)]
pub struct Pair {
    pub buy: Option<u64>,
    pub sell: Option<u64>,
}

/// Where the trades of a day were reported, where its orders entered, and the orders of each trade in the book.
#[derive(Drop)]
pub(crate) struct Indexes {
    pub reports: Numbered<Place>,
    pub entries: Numbered<Entry>,
    pub orders: Numbered<Pair>,
}

/// The row and moment of an event.
pub(crate) fn place(event: &Event) -> Place
    ensures { result ≡ place event.now }
{
    Place {
        row: event.at.row,
        moment: event.at.moment,
    }
}

fn put_place(
    places: &mut Numbered<Place>,
    number: Option<u64>,
    place: Place,
) -> Result<(), AllocError>
    ensures { OnOk result (held places.new ≡ put_place (held places.old) number place) }
{
    match number {
        None => {}
        Some(number) => {
            put(places, number, place)?;
        }
    }
    Ok(())
}

/// The place of what has this number.
pub(crate) fn place_at(places: &Numbered<Place>, number: u64) -> Option<Place>
    ensures { result ≡ place_at (held places.now) number }
{
    found_at(places, number)
}

/// The link of a participant's order that has entered.
fn link_at(links: &BTreeMap<OwnName, Identifier>, who: Who, id: Identifier) -> Option<Identifier>
    ensures { result ≡ link_at links.now.entries who id }
{
    links.get(&own(who, id)).copied()
}

/// The link of the order that enters: one that replaces another has that one's.
#[tactic(auto, unfolding(crate::specs::Index::link_of))]
fn link_of(links: &BTreeMap<OwnName, Identifier>, event: &Event) -> Option<Identifier>
    ensures { result ≡ link_of links.now.entries event.now event.now.what }
{
    match &event.what {
        What::Replaced(order) => link_at(links, event.to, order.original_id),
        _ => event.at.named,
    }
}

/// The identifier (11) of the order that enters.
#[tactic(auto, unfolding(crate::specs::Index::entered_id))]
fn entered_id(what: &What) -> Option<Identifier>
    ensures { result ≡ entered_id what.now }
{
    match what {
        What::Entered(order) => Some(order.id),
        What::Replaced(order) => Some(order.id),
        _ => None,
    }
}

fn put_link_of(
    links: &mut BTreeMap<OwnName, Identifier>,
    who: Who,
    id: Identifier,
    link: &Option<Identifier>,
) -> Result<(), AllocError>
    ensures { OnOk result (links.new.entries ≡ put_link_of links.old.entries who id link.now) }
{
    match link {
        None => {}
        Some(link) => {
            links.insert(own(who, id), *link)?;
        }
    }
    Ok(())
}

fn put_link(
    links: &mut BTreeMap<OwnName, Identifier>,
    who: Who,
    id: &Option<Identifier>,
    link: &Option<Identifier>,
) -> Result<(), AllocError>
    ensures { OnOk result (links.new.entries ≡ put_link links.old.entries who id.now link.now) }
{
    match id {
        None => Ok(()),
        Some(id) => put_link_of(links, who, *id, link),
    }
}

fn entered_at(event: &Event, link: Option<Identifier>) -> Entry
    ensures { result ≡ entered_at event.now link }
{
    Entry {
        at: place(event),
        by_clock: event.at.from == 0,
        link,
    }
}

fn put_entry(
    entries: &mut Numbered<Entry>,
    number: Option<u64>,
    entry: Entry,
) -> Result<(), AllocError>
    ensures { OnOk result (held entries.new ≡ put_entry (held entries.old) number entry) }
{
    // Types of an entry's content, named here because the proof of the insertion needs each.
    let _place: Option<Place> = None;
    let _moment: Option<Moment> = None;
    let _link: Option<Identifier> = None;
    match number {
        None => {}
        Some(number) => {
            put(entries, number, entry)?;
        }
    }
    Ok(())
}

/// Where an order entered.
pub(crate) fn entry_at(entries: &Numbered<Entry>, order: u64) -> Option<Entry>
    ensures { result ≡ entry_at (held entries.now) order }
{
    found_at(entries, order)
}

/// The order that enters, new or in the place of another.
#[tactic(auto, unfolding(crate::specs::Index::entered_order))]
fn entered_order(what: &What) -> Option<u64>
    ensures { result ≡ entered_order what.now }
{
    match what {
        What::Entered(order) => order.order,
        What::Replaced(order) => order.order,
        _ => None,
    }
}

/// Where each order of a day entered.
pub(crate) fn entries(alloc: Global, events: &[Event]) -> Result<Numbered<Entry>, AllocError>
    ensures { IfOk result (λ made. held made ≡ entries events.now) }
{
    let mut places = no_number(alloc);
    let mut links = BTreeMap::new(alloc);
    for event in events {
        let link = link_of(&links, event);
        put_entry(
            &mut places,
            entered_order(&event.what),
            entered_at(event, link),
        )?;
        put_link(&mut links, event.to, &entered_id(&event.what), &link)?;
    }
    Ok(places)
}

fn no_orders() -> Pair
    ensures { result ≡ no_orders }
{
    Pair {
        buy: None,
        sell: None,
    }
}

/// The orders of a trade in the book.
pub(crate) fn orders_at(orders: &Numbered<Pair>, trade: u64) -> Pair
    ensures { result ≡ orders_at (held orders.now) trade }
{
    match found_at(orders, trade) {
        Some(pair) => pair,
        None => no_orders(),
    }
}

fn with_order(pair: Pair, side: Side, order: Option<u64>) -> Pair
    ensures { result ≡ with_order pair side order }
{
    match side {
        Side::Buy => Pair {
            buy: order,
            sell: pair.sell,
        },
        Side::Sell => Pair {
            buy: pair.buy,
            sell: order,
        },
    }
}

#[tactic(auto, unfolding(crate::specs::Index::put_order))]
fn put_order(orders: &mut Numbered<Pair>, what: &What) -> Result<(), AllocError>
    ensures { OnOk result (held orders.new ≡ put_order (held orders.old) what.now) }
{
    match what {
        What::Filled(filled) => {
            let pair = with_order(orders_at(orders, filled.trade), filled.side, filled.order);
            put(orders, filled.trade, pair)
        }
        _ => Ok(()),
    }
}

/// The orders of each trade of a day in the book.
pub(crate) fn orders(alloc: Global, events: &[Event]) -> Result<Numbered<Pair>, AllocError>
    ensures { IfOk result (λ made. held made ≡ orders events.now) }
{
    let mut pairs = no_number(alloc);
    for event in events {
        put_order(&mut pairs, &event.what)?;
    }
    Ok(pairs)
}

#[tactic(auto, unfolding(crate::specs::Index::reported_trade))]
fn reported_trade(what: &What) -> Option<u64>
    ensures { result ≡ reported_trade what.now }
{
    match what {
        What::Filled(order) => Some(order.trade),
        What::Traded(trade) => Some(trade.trade),
        _ => None,
    }
}

/// Where each trade of a day was reported.
pub(crate) fn reports(alloc: Global, events: &[Event]) -> Result<Numbered<Place>, AllocError>
    ensures { IfOk result (λ places. held places ≡ reports events.now) }
{
    let mut places = no_number(alloc);
    for event in events {
        put_place(&mut places, reported_trade(&event.what), place(event))?;
    }
    Ok(places)
}

/// All of these of a day.
pub(crate) fn indexes_of(alloc: Global, events: &[Event]) -> Result<Indexes, AllocError>
    ensures { IfOk result (λ made. record { reports = held made.reports; entries = held made.entries; orders = held made.orders } ≡ looked events.now) }
{
    Ok(Indexes {
        reports: reports(alloc, events)?,
        entries: entries(alloc, events)?,
        orders: orders(alloc, events)?,
    })
}
