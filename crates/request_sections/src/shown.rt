//! What was shown with the first quote of a request.

ghost use Rattle.std.specs.Prelude.{◌≡◌, OnOk, take};
ghost use Rattle.std.specs.List.{flat_map};
ghost use Rattle.page_text.specs.Parts.{with_part, with_parts};
ghost use Rattle.request_sections.specs.Requests.{IsKept};
ghost use Rattle.request_sections.specs.Shown.{both_parts, first_parts, more_part, more_parts, no_price_part, price_part, price_parts, prices_parts, shown_parts, shown_section, side_parts, some_prices, with_part_of, with_parts_of, word_part};

use crate::day::Day;
use crate::prices::{at_row, on_side, total};
use crate::template::{
    BIDS, MORE_SHOWN, NO_BID, NO_OFFER, NOBODY_QUOTED, NOTHING_RESTED, OFFERS, ROOM_SHOWN, SHOWN,
    SHOWN_WITH,
};
use day_events::{Event, ShownPrice, What};
use day_sections::up_to;
use day_tables::{grouped_text, number_text, ticked_price, wide_text};
use page_text::Page;
use std::alloc::{AllocError, Global};

/// The most orders of a side that are listed.
const MOST_SHOWN: usize = 4;

/// Adds a resting order that was shown.
fn add_price(
    alloc: Global,
    page: &mut Page,
    tick: u64,
    shown: &ShownPrice,
) -> Result<(), AllocError>
    ensures { OnOk result (page.new ≡ with_parts page.old (price_parts tick shown.now)) }
{
    let quantity = grouped_text(alloc, shown.left.get())?;
    let price = ticked_price(alloc, tick, shown.price)?;
    let order = number_text(alloc, shown.order)?;
    page.add(SHOWN, &[&quantity, &price, &order])
}

fn add_each_price(
    alloc: Global,
    page: &mut Page,
    tick: u64,
    prices: &[ShownPrice],
) -> Result<(), AllocError>
    ensures { OnOk result (page.new ≡ with_parts page.old (flat_map (price_parts tick) prices.now)) }
{
    for price in prices {
        add_price(alloc, page, tick, price)?;
    }
    Ok(())
}

/// Adds how many more than four there are, and the quantity of all.
fn add_more_of(alloc: Global, page: &mut Page, prices: &[ShownPrice]) -> Result<(), AllocError>
    ensures { OnOk result (page.new ≡ with_part page.old (more_part prices.now)) }
{
    let count = grouped_text(alloc, prices.len().saturating_sub(MOST_SHOWN) as u64)?;
    let quantity = wide_text(alloc, total(prices))?;
    page.add(MORE_SHOWN, &[&count, &quantity])
}

fn add_more(alloc: Global, page: &mut Page, prices: &[ShownPrice]) -> Result<(), AllocError>
    ensures { OnOk result (page.new ≡ with_parts page.old (more_parts prices.now)) }
{
    if prices.len() <= MOST_SHOWN {
        Ok(())
    } else {
        add_more_of(alloc, page, prices)
    }
}

fn add_word(page: &mut Page, bid: bool) -> Result<(), AllocError>
    ensures { OnOk result (page.new ≡ with_part page.old (word_part bid)) }
{
    if bid {
        page.add(BIDS, &[])
    } else {
        page.add(OFFERS, &[])
    }
}

fn add_no_price(page: &mut Page, bid: bool) -> Result<(), AllocError>
    ensures { OnOk result (page.new ≡ with_part page.old (no_price_part bid)) }
{
    if bid {
        page.add(NO_BID, &[])
    } else {
        page.add(NO_OFFER, &[])
    }
}

/// Adds the best four of a side, and how many more there are.
fn add_some_prices(
    alloc: Global,
    page: &mut Page,
    tick: u64,
    prices: &[ShownPrice],
    bid: bool,
) -> Result<(), AllocError>
    ensures { OnOk result (page.new ≡ with_parts page.old (some_prices tick bid prices.now)) }
{
    add_word(page, bid)?;
    add_each_price(alloc, page, tick, up_to(prices, MOST_SHOWN))?;
    add_more(alloc, page, prices)
}

/// Adds the prices of a side, or that there is none.
fn add_side(
    alloc: Global,
    page: &mut Page,
    tick: u64,
    prices: &[ShownPrice],
    bid: bool,
) -> Result<(), AllocError>
    ensures { OnOk result (page.new ≡ with_parts page.old (side_parts tick bid prices.now)) }
{
    if prices.len() == 0 {
        add_no_price(page, bid)
    } else {
        add_some_prices(alloc, page, tick, prices, bid)
    }
}

fn add_both(
    alloc: Global,
    page: &mut Page,
    tick: u64,
    prices: &[ShownPrice],
) -> Result<(), AllocError>
    ensures { OnOk result (page.new ≡ with_parts page.old (both_parts tick prices.now)) }
{
    let bids = on_side(alloc, prices, true)?;
    let offers = on_side(alloc, prices, false)?;
    add_side(alloc, page, tick, &bids, true)?;
    add_side(alloc, page, tick, &offers, false)
}

/// Adds the prices of both sides, or that nothing rested.
fn add_prices(
    alloc: Global,
    page: &mut Page,
    tick: u64,
    prices: &[ShownPrice],
) -> Result<(), AllocError>
    ensures { OnOk result (page.new ≡ with_parts page.old (prices_parts tick prices.now)) }
{
    if prices.len() == 0 {
        page.add(NOTHING_RESTED, &[])
    } else {
        add_both(alloc, page, tick, prices)
    }
}

/// Adds with which quote they were shown.
fn add_with_quote(alloc: Global, page: &mut Page, quote: u64) -> Result<(), AllocError>
    ensures { OnOk result (page.new ≡ with_part page.old (with_part_of quote)) }
{
    let number = number_text(alloc, quote)?;
    page.add(SHOWN_WITH, &[&number])
}

#[tactic(auto, unfolding(crate::specs::Shown::with_parts_of))]
fn add_with(alloc: Global, page: &mut Page, what: &What) -> Result<(), AllocError>
    ensures { OnOk result (page.new ≡ with_parts page.old (with_parts_of what.now)) }
{
    match what {
        What::Quoted(quote) => add_with_quote(alloc, page, quote.quote),
        _ => Ok(()),
    }
}

/// Adds what was shown with a quote.
fn add_first(
    alloc: Global,
    page: &mut Page,
    tick: u64,
    day: &Day<'_>,
    first: &Event,
) -> Result<(), AllocError>
    requires kept { IsKept day.now }
    ensures { OnOk result (page.new ≡ with_parts page.old (first_parts tick day.now.shown.now first.now)) }
{
    let prices = at_row(alloc, day.shown, day.ordered, first.at.row)?;
    add_prices(alloc, page, tick, &prices)?;
    add_with(alloc, page, &first.what)
}

/// Adds what was shown with the first of some quotes, or that there is none.
fn add_with_first(
    alloc: Global,
    page: &mut Page,
    tick: u64,
    day: &Day<'_>,
    quotes: &[Event],
) -> Result<(), AllocError>
    requires kept { IsKept day.now }
    ensures { OnOk result (page.new ≡ with_parts page.old (shown_parts tick day.now.shown.now quotes.now)) }
{
    match quotes.split_first() {
        None => page.add(NOBODY_QUOTED, &[]),
        Some((first, _)) => add_first(alloc, page, tick, day, first),
    }
}

/// Adds what was shown with the first quote of a request.
pub(crate) fn add_shown(
    alloc: Global,
    page: &mut Page,
    tick: u64,
    day: &Day<'_>,
    quotes: &[Event],
) -> Result<(), AllocError>
    requires kept { IsKept day.now }
    ensures { OnOk result (page.new ≡ with_parts page.old (shown_section tick day.now.shown.now quotes.now)) }
{
    page.add(ROOM_SHOWN, &[])?;
    add_with_first(alloc, page, tick, day, quotes)
}
