//! How long requests take.

use crate::book::facility::Facility;
use crate::book::market::{Market, market_of};
use crate::book::room_timing::time_rooms;
use crate::book::timing::{pass, rest_all, scenario};
use crate::times::emit_middles;
use anyhow::Result;
use price_book::PriceBook;

/// How many orders rest on each side of an instrument, how many came and went, how many instruments there are, and how
/// many requests of each kind are timed.
#[derive(Clone, Copy)]
pub(crate) struct Size {
    pub(crate) resting: u64,
    pub(crate) gone: u64,
    pub(crate) instruments: u32,
    pub(crate) timed: u64,
}

fn time_all(
    rt: &HostRuntime,
    market: &Market,
    book: &mut PriceBook,
    size: Size,
    turns: &mut Vec<[u64; 5]>,
) -> Result<()> {
    let mut next = rest_all(market, book, size.resting, size.instruments)?;
    for _ in 0..size.gone / 2 {
        let _spent = pass(rt, market, book, next, 0)?;
        next = next.saturating_add(2);
    }
    for turn in 0..size.timed {
        let instrument = (turn % u64::from(size.instruments.max(1))) as u32;
        turns.push(scenario(rt, market, book, next, instrument)?)?;
        next = next.saturating_add(6);
    }
    Ok(())
}

// The times of a request of each kind.
fn time(rt: &HostRuntime, size: Size) -> Result<Vec<[u64; 5]>> {
    let market = market_of(rt.alloc())?;
    let mut book = PriceBook::new(rt.alloc());
    let mut turns = Vec::new(rt.alloc());
    let timed = time_all(rt, &market, &mut book, size, &mut turns);
    drop(book);
    drop(market);
    timed?;
    Ok(turns)
}

/// Prints the middle time of each kind.
pub(crate) fn emit(rt: &HostRuntime, size: Size) -> Result<()> {
    let turns = time(rt, size)?;
    emit_middles(
        rt,
        &turns,
        &["rest", "replace", "cancel", "fill", "picture"],
    )
}

// The times of a request for quotes, a quote and a hit.
fn time_in_rooms(rt: &HostRuntime, gone: u64, timed: u64) -> Result<Vec<[u64; 3]>> {
    let mut facility = Facility::new(rt.alloc(), market_of(rt.alloc())?);
    let turns = time_rooms(rt, &mut facility, gone, timed);
    drop(facility);
    turns
}

/// Prints the middle times of a request for quotes, a quote and a hit.
pub(crate) fn emit_rooms(rt: &HostRuntime, gone: u64, timed: u64) -> Result<()> {
    let turns = time_in_rooms(rt, gone, timed)?;
    emit_middles(rt, &turns, &["request", "quote", "hit"])
}

/// A few requests through the book, and through rooms.
pub(crate) fn try_all(rt: &HostRuntime) -> Result<()> {
    let size = Size {
        resting: 4,
        gone: 4,
        instruments: 2,
        timed: 4,
    };
    let _turns = time(rt, size)?;
    let _rooms = time_in_rooms(rt, 4, 4)?;
    Ok(())
}
