//! Who trades what, and their requests, each as a venue makes it: looked up, planned and applied.

use crate::book::stream::quantity;
use crate::fixture::fixture;
use crate::moments::start;
use anyhow::{Result, anyhow};
use fix_dictionary::{Identifier, Price};
use instruments::Instruments;
use participants::{Participants, Who};
use price_book::PriceBook;
use sef_moment::Moment;
use std::alloc::{AllocError, Global};
use venue_rules::{Market as Files, OrderFact};

/// Who trades what, and when.
#[derive(Drop)]
pub(crate) struct Market {
    pub(crate) participants: Participants,
    pub(crate) instruments: Instruments,
    pub(crate) moment: Moment,
}

impl Market {
    /// The two files, lent.
    pub(crate) fn files(&self) -> Files<'_> {
        Files {
            participants: &self.participants,
            instruments: &self.instruments,
        }
    }
}

/// Five participants, and two instruments.
pub(crate) fn market_of(alloc: Global) -> Result<Market, AllocError> {
    let (participants, instruments) = fixture(alloc)?;
    Ok(Market {
        participants,
        instruments,
        moment: start(),
    })
}

pub(crate) fn enter(market: &Market, book: &mut PriceBook, order: &OrderFact) -> Result<()> {
    if book.used(order.who, &order.id) {
        return Err(anyhow!("used"));
    }
    let Ok(plan) = book.plan_entry(market.files(), order, market.moment) else {
        return Err(anyhow!("refused"));
    };
    book.apply(plan);
    Ok(())
}

pub(crate) fn cancel(
    book: &mut PriceBook,
    who: Who,
    old: &Identifier,
    id: &Identifier,
) -> Result<()> {
    if book.used(who, id) {
        return Err(anyhow!("used"));
    }
    let Some(order) = book.order(who, old) else {
        return Err(anyhow!("unknown"));
    };
    let number = order.entry.number;
    let plan = book.plan_cancel(who, number, id)?;
    book.apply(plan);
    Ok(())
}

pub(crate) fn replace(
    market: &Market,
    book: &mut PriceBook,
    who: Who,
    old: &Identifier,
    id: &Identifier,
    price: Price,
) -> Result<()> {
    let units = quantity(49);
    if book.used(who, id) {
        return Err(anyhow!("used"));
    }
    let Some(order) = book.order(who, old) else {
        return Err(anyhow!("unknown"));
    };
    if units.get() <= order.filled().get() {
        return Err(anyhow!("filled"));
    }
    let number = order.entry.number;
    let Ok(plan) = book.plan_replace(market.files(), who, number, id, units, price, market.moment)
    else {
        return Err(anyhow!("refused"));
    };
    book.apply(plan);
    Ok(())
}
