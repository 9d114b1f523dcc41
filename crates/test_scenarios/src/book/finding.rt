//! How many identifiers a search looks at.

use crate::book::filling::enter_all;
use crate::book::market::market_of;
use crate::book::stream::id_of;
use crate::emitting::emit_line;
use anyhow::Result;
use participants::Who;
use price_book::PriceBook;
use std::alloc::Global;

/// How many orders were refused, how many were not found, and how many identifiers a search looked at, at most.
#[derive(Clone, Copy)]
struct Looks {
    refused: u64,
    lost: u64,
    most: u32,
}

fn look(book: &PriceBook, orders: u64, refused: u64) -> Looks {
    let mut looks = Looks {
        refused,
        lost: 0,
        most: 0,
    };
    for n in 0..orders {
        let (number, count) = book.find(Who::of((n % 2) as u32), &id_of(n));
        if number != Some(n + 1) {
            looks.lost = looks.lost.saturating_add(1);
        }
        looks.most = looks.most.max(count);
    }
    looks
}

fn look_for_all(alloc: Global, orders: u64) -> Result<Looks> {
    let market = market_of(alloc)?;
    let mut book = PriceBook::new(alloc);
    let refused = enter_all(&market, &mut book, orders);
    let looks = look(&book, orders, refused);
    drop(book);
    drop(market);
    Ok(looks)
}

/// Looks for each of this many orders that rest.
pub(crate) fn find(alloc: Global, orders: u64, emitted: &mut Vec<u8>) -> Result<()> {
    let looks = look_for_all(alloc, orders)?;
    let text = format!(in alloc;
        "{orders} identifiers: {} refused, {} not found, at most {} looked at",
        looks.refused, looks.lost, looks.most
    )?;
    Ok(emit_line(text.as_str(), emitted)?)
}
