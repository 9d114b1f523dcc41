//! The book of an instrument at the end of a day, price by price.

ghost use Rattle.std.specs.Prelude.{◌≡◌, ◌++◌, IfOk, OnOk, None, length, take};
ghost use Rattle.std.specs.List.{flat_map};
ghost use Rattle.page_text.specs.Parts.{with_part, with_parts};
ghost use Rattle.day_tables.specs.Lists.{kept_if};
ghost use Rattle.instrument_charts.specs.Ladders.{end_parts, firsts, is_at, is_new, ladder_parts, left_at, level_part, level_parts, more_part, most_levels, orders_at, quantity_at, rests_in, side_parts};

use crate::template::{LADDER, LADDER_END, LEVEL, MORE, NO_SIDE};
use crate::values::{quoted_side, sides_of};
use day_tables::{grouped_text, number_text, ticked_price, wide_text};
use fix_dictionary::{Amount, Price, Side};
use page_text::Page;
use std::alloc::{AllocError, Global};
use venue_rules::is_side;

/// A resting order of an instrument, by the instrument's place in the file, from 0.
#[derive(Clone, Copy)]
pub struct Rest {
    pub instrument: u32,
    pub side: Side,
    pub price: Price,
    pub left: Amount,
    pub order: u64,
}

/// A side of a book: the tick of its instrument, and its orders.
#[derive(Clone, Copy)]
struct Half<'a> {
    tick: u64,
    side: Side,
    rests: &'a [Rest],
}

/// The most prices of a side.
const MOST_LEVELS: usize = 8;

fn is_at(instrument: u32, side: Side, rest: &Rest) -> bool
    ensures { result ≡ is_at instrument side rest.now }
{
    rest.instrument == instrument && is_side(rest.side, side)
}

/// Appends an order, if it is kept.
fn keep(rests: &mut Vec<Rest>, rest: &Rest, kept: bool) -> Result<(), AllocError>
    ensures { OnOk result (rests.new.items ≡ rests.old.items ++ kept_if kept rest.now) }
{
    // Types of its content, named here because the proof of the push needs each.
    let _side: Option<Side> = None;
    let _price: Option<Price> = None;
    let _amount: Option<Amount> = None;
    if !kept {
        return Ok(());
    }
    match rests.push(*rest) {
        Ok(()) => Ok(()),
        Err(_) => Err(AllocError),
    }
}

/// The orders of a side of an instrument.
pub(crate) fn rests_in(
    alloc: Global,
    rests: &[Rest],
    instrument: u32,
    side: Side,
) -> Result<Vec<Rest>, AllocError>
    ensures { IfOk result (λ kept. kept.items ≡ rests_in instrument side rests.now) }
{
    let mut kept = Vec::new(alloc);
    for rest in rests {
        keep(&mut kept, rest, is_at(instrument, side, rest))?;
    }
    Ok(kept)
}

/// Whether a price is not that of the order before.
fn is_new(before: Option<Price>, price: Price) -> bool
    ensures { result ≡ is_new before price }
{
    match before {
        None => true,
        Some(before) => before.get() != price.get(),
    }
}

/// The first order of each price.
fn firsts(alloc: Global, rests: &[Rest]) -> Result<Vec<Rest>, AllocError>
    ensures { IfOk result (λ kept. kept.items ≡ firsts None rests.now) }
{
    let mut kept = Vec::new(alloc);
    let mut before = None;
    for rest in rests {
        keep(&mut kept, rest, is_new(before, rest.price))?;
        before = Some(rest.price);
    }
    Ok(kept)
}

/// What is left of an order, if it has this price.
fn left_at(price: Price, rest: &Rest) -> u64
    ensures { result ≡ left_at price rest.now }
{
    if rest.price.get() == price.get() {
        rest.left.get()
    } else {
        0
    }
}

/// What is left of the orders at a price.
fn quantity_at(rests: &[Rest], price: Price) -> u128
    ensures { result ≡ quantity_at price rests.now }
{
    let mut total: u128 = 0;
    for rest in rests {
        total += u128::from(left_at(price, rest));
    }
    total
}

/// How many orders have a price.
fn orders_at(rests: &[Rest], price: Price) -> usize
    ensures { result ≡ orders_at price rests.now }
{
    rests
        .iter()
        .filter(|rest| rest.price.get() == price.get())
        .count()
}

/// Adds the price of an order, which is the first at it.
fn add_level(
    alloc: Global,
    page: &mut Page,
    book: &Half<'_>,
    first: &Rest,
) -> Result<(), AllocError>
    ensures { OnOk result (page.new ≡ with_part page.old (level_part book.now.tick book.now.side book.now.rests.now first.now)) }
{
    let price = ticked_price(alloc, book.tick, first.price)?;
    let quantity = wide_text(alloc, quantity_at(book.rests, first.price))?;
    let orders = grouped_text(alloc, orders_at(book.rests, first.price) as u64)?;
    let order = number_text(alloc, first.order)?;
    page.add(
        LEVEL,
        &[quoted_side(book.side), &price, &quantity, &orders, &order],
    )
}

/// Adds some prices, in order.
fn add_levels(
    alloc: Global,
    page: &mut Page,
    book: &Half<'_>,
    levels: &[Rest],
) -> Result<(), AllocError>
    ensures { OnOk result (page.new ≡ with_parts page.old (flat_map (level_parts book.now.tick book.now.side book.now.rests.now) levels.now)) }
{
    for first in levels {
        add_level(alloc, page, book, first)?;
    }
    Ok(())
}

/// The best of some prices.
fn best_of(levels: &[Rest]) -> &[Rest]
    ensures { result.now ≡ take most_levels levels.now }
{
    if levels.len() > MOST_LEVELS {
        let (best, _) = levels.split_at(MOST_LEVELS);
        best
    } else {
        levels
    }
}

fn add_more(alloc: Global, page: &mut Page, side: Side, count: usize) -> Result<(), AllocError>
    ensures { OnOk result (page.new ≡ with_part page.old (more_part side count)) }
{
    let more = grouped_text(alloc, count.saturating_sub(MOST_LEVELS) as u64)?;
    page.add(MORE, &[sides_of(side), &more])
}

/// Adds what comes after the best of this many prices.
fn add_end(alloc: Global, page: &mut Page, side: Side, count: usize) -> Result<(), AllocError>
    ensures { OnOk result (page.new ≡ with_parts page.old (end_parts side count)) }
{
    if count == 0 {
        page.add(NO_SIDE, &[sides_of(side)])
    } else if count > MOST_LEVELS {
        add_more(alloc, page, side, count)
    } else {
        Ok(())
    }
}

/// How many prices there are.
fn count_of(levels: &[Rest]) -> usize
    ensures { result ≡ length levels.now }
{
    levels.len()
}

/// Adds the prices of a side's orders.
fn add_side(alloc: Global, page: &mut Page, book: &Half<'_>) -> Result<(), AllocError>
    ensures { OnOk result (page.new ≡ with_parts page.old (side_parts book.now.tick book.now.side book.now.rests.now)) }
{
    let levels = firsts(alloc, book.rests)?;
    add_levels(alloc, page, book, best_of(&levels))?;
    add_end(alloc, page, book.side, count_of(&levels))
}

/// Adds the book of an instrument.
pub(crate) fn add_ladder(
    alloc: Global,
    page: &mut Page,
    tick: u64,
    rests: &[Rest],
    instrument: u32,
) -> Result<(), AllocError>
    ensures { OnOk result (page.new ≡ with_parts page.old (ladder_parts tick instrument rests.now)) }
{
    let bids = rests_in(alloc, rests, instrument, Side::Buy)?;
    let offers = rests_in(alloc, rests, instrument, Side::Sell)?;
    page.add(LADDER, &[])?;
    let buyers = Half {
        tick,
        side: Side::Buy,
        rests: &bids,
    };
    let sellers = Half {
        tick,
        side: Side::Sell,
        rests: &offers,
    };
    add_side(alloc, page, &buyers)?;
    add_side(alloc, page, &sellers)?;
    page.add(LADDER_END, &[])
}
