//! The trades on a chart: each at its price, or of many the lowest to the highest.

ghost use Rattle.std.specs.Prelude.{◌≡◌, ◌≤◌, IfOk, OnOk, None};
ghost use Rattle.std.specs.List.{flat_map};
ghost use Rattle.page_text.specs.Parts.{with_part, with_parts};
ghost use Rattle.day_tables.specs.Parts.{each_from};
ghost use Rattle.instrument_charts.specs.Glyphs.{class_of, glyph_part, glyph_parts, glyph_template, most_parts, range_in, range_or_none, range_part, range_parts, ranges_parts, shape_of};
ghost use Rattle.instrument_charts.specs.Values.{HasEach};

use crate::deals::Deal;
use crate::template::{GLYPH, GLYPH_ALONE, RANGE, RANGES, RANGES_END};
use crate::values::time_of;
use chart_axes::{Range, Scale, across, covered, down, has_dates, part_of, wide_number};
use day_tables::{grouped_text, number_text, ticked_price};
use page_text::Page;
use std::alloc::{AllocError, Global};

/// The trades on the page are the first, in the order of their numbers.
const MOST_TRADES: u64 = 10_000;

/// The parts of the day, for many trades.
const PARTS: u64 = 200;

fn glyph_template(trade: u64) -> &'static [u8]
    ensures { result.now ≡ glyph_template trade }
{
    if trade <= MOST_TRADES {
        GLYPH
    } else {
        GLYPH_ALONE
    }
}

fn shape_of(is_request: bool) -> &'static [u8]
    ensures { result.now ≡ shape_of is_request }
{
    if is_request { b"r" } else { b"b" }
}

fn class_of(is_request: bool) -> &'static [u8]
    ensures { result.now ≡ class_of is_request }
{
    if is_request { b"dia" } else { b"dot" }
}

/// Adds a trade.
fn add_glyph(alloc: Global, page: &mut Page, scale: &Scale, deal: &Deal) -> Result<(), AllocError>
    ensures { OnOk result (page.new ≡ with_part page.old (glyph_part scale.now deal.now)) }
{
    let number = number_text(alloc, deal.number)?;
    let x = across(scale, deal.moment);
    let whole = wide_number(alloc, x / 100)?;
    let tenth = wide_number(alloc, x / 10 % 10)?;
    let hundredth = wide_number(alloc, x % 10)?;
    let y = wide_number(alloc, down(scale, deal.price))?;
    let time = time_of(alloc, has_dates(scale), deal.moment)?;
    let quantity = grouped_text(alloc, deal.quantity.get())?;
    let price = ticked_price(alloc, scale.tick, deal.price)?;
    page.add(
        glyph_template(deal.number),
        &[
            &number,
            shape_of(deal.is_request),
            class_of(deal.is_request),
            &whole,
            &tenth,
            &hundredth,
            &y,
            &number,
            &time,
            &quantity,
            &price,
        ],
    )
}

/// Adds some trades, in order.
pub(crate) fn add_glyphs(
    alloc: Global,
    page: &mut Page,
    scale: &Scale,
    deals: &[Deal],
) -> Result<(), AllocError>
    ensures { OnOk result (page.new ≡ with_parts page.old (flat_map (glyph_parts scale.now) deals.now)) }
{
    for deal in deals {
        add_glyph(alloc, page, scale, deal)?;
    }
    Ok(())
}

/// The range of the trades in each part of the day.
fn ranges_of(alloc: Global, scale: &Scale, deals: &[Deal]) -> Result<Vec<Option<Range>>, AllocError>
    ensures { IfOk result (λ ranges. HasEach None (λ k. range_in scale.now k deals.now) most_parts ranges.items) }
{
    let mut ranges: Vec<Option<Range>> = vec![in alloc; None; 200]?;
    for at in (0..deals.len()).rev() {
        let deal = &deals[at];
        let part = part_of(scale, PARTS, deal.moment) as usize;
        ranges[part] = Some(covered(deal.price, ranges[part]));
    }
    Ok(ranges)
}

fn add_range(
    alloc: Global,
    page: &mut Page,
    scale: &Scale,
    part: u64,
    range: &Range,
) -> Result<(), AllocError>
    requires { part ≤ 200 }
    ensures { OnOk result (page.new ≡ with_part page.old (range_part scale.now part range.now)) }
{
    let x = number_text(alloc, 124 + 49 * part)?;
    let high = wide_number(alloc, down(scale, range.high))?;
    let low = wide_number(alloc, down(scale, range.low))?;
    page.add(RANGE, &[&x, &high, &low])
}

/// Adds the range of the trades in a part of the day, if it has one.
fn add_part(
    alloc: Global,
    page: &mut Page,
    scale: &Scale,
    part: u64,
    range: Option<Range>,
) -> Result<(), AllocError>
    requires { part ≤ 200 }
    ensures { OnOk result (page.new ≡ with_parts page.old (range_or_none scale.now part range)) }
{
    match range {
        None => Ok(()),
        Some(range) => add_range(alloc, page, scale, part, &range),
    }
}

fn add_each_part(
    alloc: Global,
    page: &mut Page,
    scale: &Scale,
    deals: &[Deal],
) -> Result<(), AllocError>
    ensures { OnOk result (page.new ≡ with_parts page.old (each_from (range_parts scale.now deals.now) 0 most_parts)) }
{
    let ranges = ranges_of(alloc, scale, deals)?;
    for part in 0..PARTS {
        add_part(alloc, page, scale, part, ranges[part as usize])?;
    }
    Ok(())
}

/// Adds the ranges of many trades.
pub(crate) fn add_ranges(
    alloc: Global,
    page: &mut Page,
    scale: &Scale,
    deals: &[Deal],
) -> Result<(), AllocError>
    ensures { OnOk result (page.new ≡ with_parts page.old (ranges_parts scale.now deals.now)) }
{
    page.add(RANGES, &[])?;
    add_each_part(alloc, page, scale, deals)?;
    page.add(RANGES_END, &[])
}
