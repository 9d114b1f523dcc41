//! Times each kind of request in the book.

use crate::book::market::{Market, cancel, enter, replace};
use crate::book::stream::{id_of, order_of, price, standing};
use crate::times::since;
use anyhow::Result;
use fix_dictionary::Side;
use participants::Who;
use price_book::PriceBook;
use std::time::Instant;

/// Enters `resting` orders on each side of each instrument, with identifiers from 0 on.
pub(crate) fn rest_all(
    market: &Market,
    book: &mut PriceBook,
    resting: u64,
    instruments: u32,
) -> Result<u64> {
    let mut next: u64 = 0;
    for instrument in 0..instruments {
        for n in 0..resting.saturating_mul(2) {
            let side = if n < resting { Side::Buy } else { Side::Sell };
            let mut order = standing(n, instrument, side);
            order.id = id_of(next);
            enter(market, book, &order)?;
            next = next.saturating_add(1);
        }
    }
    Ok(next)
}

/// An offer between the sides, and a bid that fills it; the bid is timed.
pub(crate) fn pass(
    rt: &HostRuntime,
    market: &Market,
    book: &mut PriceBook,
    n: u64,
    instrument: u32,
) -> Result<u64> {
    let offer = order_of(n, 0, instrument, Side::Sell, 500);
    enter(market, book, &offer)?;
    let bid = order_of(n.saturating_add(1), 3, instrument, Side::Buy, 500);
    let start = Instant::now(rt)?;
    enter(market, book, &bid)?;
    since(rt, start)
}

/// A bid that rests, is replaced and cancelled, an offer that a bid fills, and a book snapshot: six identifiers from n
/// on.
pub(crate) fn scenario(
    rt: &HostRuntime,
    market: &Market,
    book: &mut PriceBook,
    n: u64,
    instrument: u32,
) -> Result<[u64; 5]> {
    let who = Who::of(0);
    let away = n % 49;
    let bid = order_of(n, 0, instrument, Side::Buy, 499 - away);
    let start = Instant::now(rt)?;
    enter(market, book, &bid)?;
    let rest = since(rt, start)?;
    let (old, new, last) = (
        id_of(n),
        id_of(n.saturating_add(1)),
        id_of(n.saturating_add(2)),
    );
    let start = Instant::now(rt)?;
    replace(market, book, who, &old, &new, price(498 - away))?;
    let replaced = since(rt, start)?;
    let start = Instant::now(rt)?;
    cancel(book, who, &new, &last)?;
    let cancelled = since(rt, start)?;
    let filled = pass(rt, market, book, n.saturating_add(3), instrument)?;
    let start = Instant::now(rt)?;
    let shown = book.picture(instrument)?;
    let picture = since(rt, start)?;
    let _count = shown.len();
    Ok([rest, replaced, cancelled, filled, picture])
}
