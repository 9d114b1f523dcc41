//! A book filled to its capacity, without a refusal below it.

use crate::book::market::{Market, enter, market_of};
use crate::book::stream::{order_of, quantity, standing};
use crate::emitting::emit_line;
use anyhow::Result;
use fix_dictionary::Side;
use participants::Who;
use price_book::{PriceBook, Refusal};
use std::alloc::Global;
use venue_rules::OrderFact;

// The n-th of orders of 10 that rest, of two participants.
fn resting(n: u64, instrument: u32, side: Side) -> OrderFact {
    let mut order = standing(n, instrument, side);
    order.who = Who::of((n % 2) as u32);
    order.quantity = quantity(9);
    order
}

// The n-th of orders that rest, 200 on a side of each instrument.
fn spread(n: u64) -> OrderFact {
    let side = if n / 200 % 2 == 0 {
        Side::Buy
    } else {
        Side::Sell
    };
    resting(n, (n / 400 % 4) as u32, side)
}

/// Enters this many orders that rest; how many were refused.
pub(crate) fn enter_all(market: &Market, book: &mut PriceBook, orders: u64) -> u64 {
    let mut refused: u64 = 0;
    for n in 0..orders {
        if enter(market, book, &spread(n)).is_err() {
            refused = refused.saturating_add(1);
        }
    }
    refused
}

// Whether one more order on a full side is refused for that.
fn refuses_more(market: &Market, book: &mut PriceBook) -> bool {
    let order = resting(400, 0, Side::Buy);
    match book.plan_entry(market.files(), &order, market.moment) {
        Err(refusal) => refusal == Refusal::Full,
        Ok(_) => false,
    }
}

// How many orders an order fills; none where it is refused.
fn fills_of(market: &Market, book: &mut PriceBook, order: &OrderFact) -> usize {
    match book.plan_entry(market.files(), order, market.moment) {
        Ok(plan) => {
            let fills = plan.fills().len();
            book.apply(plan);
            fills
        }
        Err(_) => 0,
    }
}

// How many orders are shown.
fn shown(book: &PriceBook) -> Result<usize> {
    let entries = book.picture(0)?;
    Ok(entries.len())
}

/// What a book answered that was filled to the brim.
#[derive(Clone, Copy)]
struct Filled {
    refused: u64,
    is_full: bool,
    shown: usize,
    fills: usize,
    left: usize,
}

fn fill_sides(market: &Market, book: &mut PriceBook) -> Result<Filled> {
    let refused = enter_all(market, book, 400);
    let is_full = refuses_more(market, book);
    let shown_first = shown(book)?;
    let mut bid_for_all = order_of(401, 3, 0, Side::Buy, 600);
    bid_for_all.quantity = quantity(1_999);
    let fills = fills_of(market, book, &bid_for_all);
    let left = shown(book)?;
    Ok(Filled {
        refused,
        is_full,
        shown: shown_first,
        fills,
        left,
    })
}

fn fill_book(alloc: Global) -> Result<Filled> {
    let market = market_of(alloc)?;
    let mut book = PriceBook::new(alloc);
    let filled = fill_sides(&market, &mut book);
    drop(book);
    drop(market);
    filled
}

/// Fills both sides of an instrument, shows them, and takes one side off by one order.
pub(crate) fn fill(alloc: Global, emitted: &mut Vec<u8>) -> Result<()> {
    let filled = fill_book(alloc)?;
    let text = format!(in alloc;
        "200 orders on each side: {} refused\n  one more is refused as the side is full: {}\n  shown {}\n  filled by one order {}, shown then {}",
        filled.refused, filled.is_full, filled.shown, filled.fills, filled.left
    )?;
    Ok(emit_line(text.as_str(), emitted)?)
}
