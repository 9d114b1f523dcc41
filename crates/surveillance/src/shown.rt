//! The best prices that each request was shown.

ghost use Rattle.std.specs.Prelude.{◌≡◌, ℕ, List, if◌then◌else◌, ◌==◌, IfOk, OnOk};
ghost use Rattle.surveillance.specs.Kept.{kept_at, kept_in, put_first, put_quoted, row_at, with_last};
ghost use Rattle.surveillance.specs.ShownBest.{best_at, best_in, first_quote, higher, lower, nothing_shown, with_price};

use day_events::{Event, ShownPrice, What};
use fix_dictionary::{Identifier, Price, Side};
use participant_activity::Name;
use std::alloc::{AllocError, Global};
use std::collections::BTreeMap;
use venue_rules::printed_identifier;

/// The highest bid and the lowest offer that were shown.
#[derive(Clone, Copy)]
pub struct Best {
    pub bid: Option<Price>,
    pub offer: Option<Price>,
}

/// The best prices at a row.
#[derive(Clone, Copy)]
pub struct RowBest {
    pub row: u64,
    pub best: Best,
}

/// The row of each room's first quote, and the best of the prices shown at each row.
#[derive(Drop)]
pub(crate) struct Prices {
    pub rows: BTreeMap<Name, u64>,
    pub bests: BTreeMap<u64, Best>,
}

fn nothing_shown() -> Best
    ensures { result ≡ nothing_shown }
{
    Best {
        bid: None,
        offer: None,
    }
}

fn higher(best: Option<Price>, price: Price) -> Option<Price>
    ensures { result ≡ higher best price }
{
    match best {
        None => Some(price),
        Some(best) => if best.get() < price.get() {
            Some(price)
        } else {
            Some(best)
        },
    }
}

fn lower(best: Option<Price>, price: Price) -> Option<Price>
    ensures { result ≡ lower best price }
{
    match best {
        None => Some(price),
        Some(best) => if price.get() < best.get() {
            Some(price)
        } else {
            Some(best)
        },
    }
}

fn with_price(best: Best, side: Side, price: Price) -> Best
    ensures { result ≡ with_price best side price }
{
    match side {
        Side::Buy => Best {
            bid: higher(best.bid, price),
            offer: best.offer,
        },
        Side::Sell => Best {
            bid: best.bid,
            offer: lower(best.offer, price),
        },
    }
}

fn best_at(bests: &BTreeMap<u64, Best>, row: u64) -> Best
    ensures { result ≡ kept_at bests.now.entries row }
{
    match bests.get(&row) {
        Some(best) => *best,
        None => nothing_shown(),
    }
}

fn put_best(bests: &mut BTreeMap<u64, Best>, last: RowBest) -> Result<(), AllocError>
    ensures { (row : ℕ) → OnOk result (kept_at bests.new.entries row ≡ with_last bests.old.entries last row) }
{
    // Types of its content, named here because the proof of the insertion needs each.
    let _price: Option<Price> = None;
    bests.insert(last.row, last.best)?;
    Ok(())
}

/// The best prices of the row of a price shown, which follows one of another row.
fn next_row(bests: &BTreeMap<u64, Best>, price: &ShownPrice) -> RowBest
    ensures { result ≡ record { row = price.now.row; best = with_price (kept_at bests.now.entries price.now.row) price.now.side price.now.price } }
{
    RowBest {
        row: price.row,
        best: with_price(best_at(bests, price.row), price.side, price.price),
    }
}

/// The best prices of a row, with one more of it.
fn same_row(last: RowBest, price: &ShownPrice) -> RowBest
    ensures { result ≡ record { row = last.row; best = with_price last.best price.now.side price.now.price } }
{
    RowBest {
        row: last.row,
        best: with_price(last.best, price.side, price.price),
    }
}

/// Takes in a price. The best prices of its row are put into the map when the next row begins.
fn take_price(
    bests: &mut BTreeMap<u64, Best>,
    last: RowBest,
    price: &ShownPrice,
) -> Result<RowBest, AllocError>
    ensures { (row : ℕ) → IfOk result (λ now. with_last bests.new.entries now row ≡ (if price.now.row == row then with_price (with_last bests.old.entries last row) price.now.side price.now.price else with_last bests.old.entries last row)) }
{
    if price.row == last.row {
        return Ok(same_row(last, price));
    }
    put_best(bests, last)?;
    Ok(next_row(bests, price))
}

/// The best of the prices shown at each row.
fn bests_of(alloc: Global, shown: &[ShownPrice]) -> Result<BTreeMap<u64, Best>, AllocError>
    ensures { (row : ℕ) → IfOk result (λ bests. kept_at bests.entries row ≡ best_at shown.now row) }
{
    let mut bests = BTreeMap::new(alloc);
    let mut last = RowBest {
        row: 0,
        best: nothing_shown(),
    };
    for price in shown {
        last = take_price(&mut bests, last, price)?;
    }
    put_best(&mut bests, last)?;
    Ok(bests)
}

fn row_at(rows: &BTreeMap<Name, u64>, id: Identifier) -> Option<u64>
    ensures { result ≡ row_at rows.now.entries id }
{
    rows.get(&Name { id }).copied()
}

fn put_first(
    rows: &mut BTreeMap<Name, u64>,
    id: &Option<Identifier>,
    row: u64,
) -> Result<(), AllocError>
    ensures { OnOk result (rows.new.entries ≡ put_first rows.old.entries id.now row) }
{
    match id {
        None => {}
        Some(id) => {
            if row_at(rows, *id).is_none() {
                rows.insert(Name { id: *id }, row)?;
            }
        }
    }
    Ok(())
}

/// Notes a quote, if it is the first of its room.
#[tactic(auto, unfolding(crate::specs::Kept::put_quoted))]
fn put_quoted(rows: &mut BTreeMap<Name, u64>, event: &Event) -> Result<(), AllocError>
    ensures { OnOk result (rows.new.entries ≡ put_quoted rows.old.entries event.now event.now.what) }
{
    match &event.what {
        What::Quoted(_) => put_first(rows, &event.at.named, event.at.row),
        _ => Ok(()),
    }
}

/// The row of each room's first quote.
fn first_quotes(alloc: Global, events: &[Event]) -> Result<BTreeMap<Name, u64>, AllocError>
    ensures { (id : List ℕ) → IfOk result (λ rows. row_at rows.entries id ≡ first_quote id events.now) }
{
    let mut rows = BTreeMap::new(alloc);
    for event in events {
        put_quoted(&mut rows, event)?;
    }
    Ok(rows)
}

/// The best prices that each room of a day was shown.
pub(crate) fn prices_of(
    alloc: Global,
    events: &[Event],
    shown: &[ShownPrice],
) -> Result<Prices, AllocError>
    ensures { IfOk result (λ prices. kept_in prices.rows.entries prices.bests.entries ≡ best_in events.now shown.now) }
{
    Ok(Prices {
        rows: first_quotes(alloc, events)?,
        bests: bests_of(alloc, shown)?,
    })
}

/// What a room was shown, by the venue's identifier of it, as R1.
pub(crate) fn best_in(prices: &Prices, room: u64) -> Best
    ensures { result ≡ kept_in prices.now.rows.entries prices.now.bests.entries room }
{
    match row_at(&prices.rows, printed_identifier(b'R', room)) {
        None => nothing_shown(),
        Some(row) => best_at(&prices.bests, row),
    }
}
