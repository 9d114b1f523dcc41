//! Trades of a participant with itself, of related ones, and of linked orders soon after the delay.

ghost use Rattle.std.specs.Prelude.{◌≡◌, ◌++◌, OnOk};
ghost use Rattle.surveillance.specs.Alarms.{are_linked, between, both, delay_at, entry_of, has_held, is_same_link, is_second_held, linked_after, linked_alarm, linked_by, orders_of, own_kind, parties_alarm, party_alarms, trade_alarms, trades_alarms};
ghost use Rattle.surveillance.specs.Numbers.{held};

use crate::alarm::{Alarm, Figure, Kind, Others, Place, push_alarm};
use crate::index::{Entry, Pair, entry_at, orders_at, place_at};
use crate::numbered::Numbered;
use fix_dictionary::Identifier;
use instruments::Instruments;
use participants::Participants;
use std::alloc::AllocError;
use venue_rules::TradeFact;

/// What trades are looked up in.
#[derive(Clone, Copy)]
pub(crate) struct Looked<'a> {
    pub reports: &'a Numbered<Place>,
    pub entries: &'a Numbered<Entry>,
    pub orders: &'a Numbered<Pair>,
}

/// Who trades what, on a venue.
#[derive(Clone, Copy)]
pub(crate) struct Listed<'a> {
    pub participants: &'a Participants,
    pub instruments: &'a Instruments,
}

fn both(buy: Option<Entry>, sell: Option<Entry>) -> Option<(Entry, Entry)>
    ensures { result ≡ both buy sell }
{
    match buy {
        None => None,
        Some(buy) => match sell {
            None => None,
            Some(sell) => Some((buy, sell)),
        },
    }
}

fn entry_of(entries: &Numbered<Entry>, order: Option<u64>) -> Option<Entry>
    ensures { result ≡ entry_of (held entries.now) order }
{
    match order {
        None => None,
        Some(order) => entry_at(entries, order),
    }
}

/// Both orders of a trade.
pub(crate) fn orders_of(looked: &Looked<'_>, trade: u64) -> Option<(Entry, Entry)>
    ensures { result ≡ orders_of (record { reports = held looked.now.reports.now; entries = held looked.now.entries.now; orders = held looked.now.orders.now }) trade }
{
    let pair = orders_at(looked.orders, trade);
    both(
        entry_of(looked.entries, pair.buy),
        entry_of(looked.entries, pair.sell),
    )
}

/// Whether one of them is a held side.
fn has_held(orders: &Option<(Entry, Entry)>) -> bool
    ensures { result ≡ has_held orders.now }
{
    match orders {
        None => false,
        Some((buy, sell)) => buy.by_clock || sell.by_clock,
    }
}

fn parties_alarm(kind: Kind, reports: &Numbered<Place>, trade: &TradeFact) -> Alarm
    ensures { result ≡ parties_alarm kind (held reports.now) trade.now }
{
    Alarm {
        kind,
        at: place_at(reports, trade.number),
        who: trade.buyer,
        others: Others::One(trade.seller),
        trade: Some(trade.number),
        order: None,
        found: None,
        base: None,
        bound: None,
    }
}

fn own_kind(has_held: bool) -> Kind
    ensures { result ≡ own_kind has_held }
{
    if has_held {
        Kind::OwnWithHeld
    } else {
        Kind::OwnTrade
    }
}

/// Appends the alarm of a trade of a participant with itself, or with a related one.
fn push_party(
    alarms: &mut Vec<Alarm>,
    participants: &Participants,
    looked: &Looked<'_>,
    trade: &TradeFact,
) -> Result<(), AllocError>
    ensures { OnOk result (alarms.new.items ≡ alarms.old.items ++ party_alarms participants.now (record { reports = held looked.now.reports.now; entries = held looked.now.entries.now; orders = held looked.now.orders.now }) trade.now) }
{
    if trade.buyer.place() == trade.seller.place() {
        let kind = own_kind(has_held(&orders_of(looked, trade.number)));
        return push_alarm(alarms, parties_alarm(kind, looked.reports, trade));
    }
    if participants.related(trade.buyer, trade.seller) {
        return push_alarm(
            alarms,
            parties_alarm(Kind::RelatedTrade, looked.reports, trade),
        );
    }
    Ok(())
}

fn is_same_link(link: &Option<Identifier>, other: &Option<Identifier>) -> bool
    ensures { result ≡ is_same_link link.now other.now }
{
    match (link, other) {
        (Some(link), Some(other)) => link.is(other),
        _ => false,
    }
}

pub(crate) fn are_linked(
    participants: &Participants,
    trade: &TradeFact,
    buy: &Entry,
    sell: &Entry,
) -> bool
    ensures { result ≡ are_linked participants.now trade.now buy.now sell.now }
{
    trade.buyer.place() == trade.seller.place()
        || participants.related(trade.buyer, trade.seller)
        || is_same_link(&buy.link, &sell.link)
}

pub(crate) fn delay_at(instruments: &Instruments, instrument: u32) -> u64
    ensures { result ≡ delay_at instruments.now instrument }
{
    if (instrument as usize) < instruments.len() {
        instruments.delay(instrument)
    } else {
        0
    }
}

/// The time between two entries.
fn between(a: &Entry, b: &Entry) -> u64
    ensures { result ≡ between a.now b.now }
{
    let (a, b) = (a.at.moment.ms(), b.at.moment.ms());
    a.saturating_sub(b) + b.saturating_sub(a)
}

/// Whether the later of two orders entered at a row of the clock.
fn is_second_held(a: &Entry, b: &Entry) -> bool
    ensures { result ≡ is_second_held a.now b.now }
{
    if a.at.row <= b.at.row {
        b.by_clock
    } else {
        a.by_clock
    }
}

fn linked_alarm(
    bound: u64,
    reports: &Numbered<Place>,
    trade: &TradeFact,
    delay: u64,
    ms: u64,
) -> Alarm
    ensures { result ≡ linked_alarm bound (held reports.now) trade.now delay ms }
{
    Alarm {
        kind: Kind::LinkedSoon,
        at: place_at(reports, trade.number),
        who: trade.buyer,
        others: Others::One(trade.seller),
        trade: Some(trade.number),
        order: None,
        found: Some(Figure::Number(ms.saturating_sub(delay))),
        base: Some(delay),
        bound: Some(Figure::Number(bound)),
    }
}

fn push_linked_after(
    alarms: &mut Vec<Alarm>,
    bound: u64,
    reports: &Numbered<Place>,
    trade: &TradeFact,
    delay: u64,
    ms: u64,
) -> Result<(), AllocError>
    ensures { OnOk result (alarms.new.items ≡ alarms.old.items ++ linked_after bound (held reports.now) trade.now delay ms) }
{
    if delay <= ms && ms.saturating_sub(delay) <= bound {
        push_alarm(alarms, linked_alarm(bound, reports, trade, delay, ms))
    } else {
        Ok(())
    }
}

/// Appends the alarm of a trade of two linked orders, of which the second entered soon after the delay.
fn push_linked(
    alarms: &mut Vec<Alarm>,
    bound: u64,
    listed: &Listed<'_>,
    reports: &Numbered<Place>,
    trade: &TradeFact,
    orders: &Option<(Entry, Entry)>,
) -> Result<(), AllocError>
    ensures { OnOk result (alarms.new.items ≡ alarms.old.items ++ linked_by bound (record { participants = listed.now.participants.now; instruments = listed.now.instruments.now }) (held reports.now) trade.now orders.now) }
{
    let Some((buy, sell)) = orders else {
        return Ok(());
    };
    if are_linked(listed.participants, trade, buy, sell) && !is_second_held(buy, sell) {
        let delay = delay_at(listed.instruments, trade.instrument);
        push_linked_after(alarms, bound, reports, trade, delay, between(buy, sell))
    } else {
        Ok(())
    }
}

fn push_trade(
    alarms: &mut Vec<Alarm>,
    bound: u64,
    listed: &Listed<'_>,
    looked: &Looked<'_>,
    trade: &TradeFact,
) -> Result<(), AllocError>
    ensures { OnOk result (alarms.new.items ≡ alarms.old.items ++ trade_alarms bound (record { participants = listed.now.participants.now; instruments = listed.now.instruments.now }) (record { reports = held looked.now.reports.now; entries = held looked.now.entries.now; orders = held looked.now.orders.now }) trade.now) }
{
    push_party(alarms, listed.participants, looked, trade)?;
    let orders = orders_of(looked, trade.number);
    push_linked(alarms, bound, listed, looked.reports, trade, &orders)
}

/// Appends the alarms of trades.
pub(crate) fn push_trades(
    alarms: &mut Vec<Alarm>,
    bound: u64,
    listed: &Listed<'_>,
    looked: &Looked<'_>,
    trades: &[TradeFact],
) -> Result<(), AllocError>
    ensures { OnOk result (alarms.new.items ≡ alarms.old.items ++ trades_alarms bound (record { participants = listed.now.participants.now; instruments = listed.now.instruments.now }) (record { reports = held looked.now.reports.now; entries = held looked.now.entries.now; orders = held looked.now.orders.now }) trades.now) }
{
    for trade in trades {
        push_trade(alarms, bound, listed, looked, trade)?;
    }
    Ok(())
}
