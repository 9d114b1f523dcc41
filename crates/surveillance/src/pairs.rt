//! The trades of two linked orders, with the time between them.

ghost use Rattle.std.specs.Prelude.{◌≡◌, ◌++◌, ◌∷◌, [], IfOk, OnOk};
ghost use Rattle.surveillance.specs.Pairs.{in_order, linked_at, linked_in, linked_of, linked_trade};
ghost use Rattle.surveillance.specs.Numbers.{held};

use crate::alarm::Place;
use crate::index::Entry;
use crate::trades::{Listed, Looked, are_linked, delay_at, orders_of};
use instruments::Instruments;
use participants::{Participants, Who};
use sef_moment::Moment;
use std::alloc::{AllocError, Global};
use venue_rules::TradeFact;

/// A trade in the book of two linked orders, or of the two sides of a cross.
#[derive(Clone, Copy)]
pub struct LinkedTrade {
    pub trade: u64,
    pub buyer: Who,
    pub seller: Who,
    pub first: Place,
    pub second: Place,
    /// the second is the held side of a cross
    pub is_held: bool,
    /// milliseconds from the first order to the second
    pub between: u64,
    /// of the instrument, in milliseconds
    pub delay: u64,
}

fn linked_trade(
    instruments: &Instruments,
    trade: &TradeFact,
    first: &Entry,
    second: &Entry,
) -> LinkedTrade
    ensures { result ≡ linked_trade instruments.now trade.now first.now second.now }
{
    LinkedTrade {
        trade: trade.number,
        buyer: trade.buyer,
        seller: trade.seller,
        first: first.at,
        second: second.at,
        is_held: second.by_clock,
        between: second.at.moment.ms().saturating_sub(first.at.moment.ms()),
        delay: delay_at(instruments, trade.instrument),
    }
}

/// The order that entered first, and the other.
fn in_order(instruments: &Instruments, trade: &TradeFact, buy: &Entry, sell: &Entry) -> LinkedTrade
    ensures { result ≡ in_order instruments.now trade.now buy.now sell.now }
{
    if buy.at.row <= sell.at.row {
        linked_trade(instruments, trade, buy, sell)
    } else {
        linked_trade(instruments, trade, sell, buy)
    }
}

/// Appends a trade.
fn push_linked_trade(linked: &mut Vec<LinkedTrade>, trade: LinkedTrade) -> Result<(), AllocError>
    ensures { OnOk result (linked.new.items ≡ linked.old.items ++ trade ∷ []) }
{
    // Types of its content, named here because the proof of the push needs each.
    let _place: Option<Place> = None;
    let _who: Option<Who> = None;
    let _moment: Option<Moment> = None;
    match linked.push(trade) {
        Ok(()) => Ok(()),
        Err(_) => Err(AllocError),
    }
}

fn push_linked_of(
    linked: &mut Vec<LinkedTrade>,
    listed: &Listed<'_>,
    trade: &TradeFact,
    orders: &Option<(Entry, Entry)>,
) -> Result<(), AllocError>
    ensures { OnOk result (linked.new.items ≡ linked.old.items ++ linked_of (record { participants = listed.now.participants.now; instruments = listed.now.instruments.now }) trade.now orders.now) }
{
    let Some((buy, sell)) = orders else {
        return Ok(());
    };
    if are_linked(listed.participants, trade, buy, sell) {
        push_linked_trade(linked, in_order(listed.instruments, trade, buy, sell))
    } else {
        Ok(())
    }
}

fn push_linked_at(
    linked: &mut Vec<LinkedTrade>,
    listed: &Listed<'_>,
    looked: &Looked<'_>,
    trade: &TradeFact,
) -> Result<(), AllocError>
    ensures { OnOk result (linked.new.items ≡ linked.old.items ++ linked_at (record { participants = listed.now.participants.now; instruments = listed.now.instruments.now }) (record { reports = held looked.now.reports.now; entries = held looked.now.entries.now; orders = held looked.now.orders.now }) trade.now) }
{
    let orders = orders_of(looked, trade.number);
    push_linked_of(linked, listed, trade, &orders)
}

/// The trades of two linked orders.
pub(crate) fn linked_in(
    alloc: Global,
    listed: &Listed<'_>,
    looked: &Looked<'_>,
    trades: &[TradeFact],
) -> Result<Vec<LinkedTrade>, AllocError>
    ensures { IfOk result (λ linked. linked.items ≡ linked_in (record { participants = listed.now.participants.now; instruments = listed.now.instruments.now }) (record { reports = held looked.now.reports.now; entries = held looked.now.entries.now; orders = held looked.now.orders.now }) trades.now) }
{
    let mut linked = Vec::new(alloc);
    for trade in trades {
        push_linked_at(&mut linked, listed, looked, trade)?;
    }
    Ok(linked)
}
