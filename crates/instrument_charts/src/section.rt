//! The section of the instruments.

ghost use Rattle.std.specs.Prelude.{◌≡◌, OnOk, length};
ghost use Rattle.page_text.specs.Parts.{with_part, with_parts};
ghost use Rattle.day_tables.specs.Parts.{each_from};
ghost use Rattle.instrument_charts.specs.Instruments.{are_folded, are_many, chart_part, chart_parts, content_parts, curve_parts, few_parts, instrument_parts, instruments_parts, labels_parts, opening_part, opening_template, sheet_of};

use crate::deals::{Deal, deals_in};
use crate::glyphs::{add_glyphs, add_ranges};
use crate::ladder::{Rest, add_ladder};
use crate::lines::{Point, add_lines, points_in};
use crate::prices::range_of;
use crate::template::{
    CHART, CHART_END, FOLDED, INSTRUMENT_END, INSTRUMENTS, INSTRUMENTS_END, OPEN,
};
use crate::volume::add_volume;
use chart_axes::{Scale, add_prices, add_times};
use day_events::Best;
use day_tables::{grouped_text, symbol_at, tick_at};
use fix_dictionary::Side;
use instruments::Instruments;
use page_text::Page;
use sef_moment::Moment;
use std::alloc::{AllocError, Global};

/// What the section shows of a day: the moments of its first and last row, its trades, the changes of best prices, and
/// what rests after the last row, in price-time priority.
#[derive(Clone, Copy)]
pub struct Charted<'a> {
    pub first: Moment,
    pub last: Moment,
    pub deals: &'a [Deal],
    pub bests: &'a [Best],
    pub rests: &'a [Rest],
}

/// What a chart shows of an instrument.
#[derive(Clone, Copy)]
pub struct Shown<'a> {
    pub symbol: &'a [u8],
    pub deals: &'a [Deal],
    pub bids: &'a [Point],
    pub offers: &'a [Point],
}

/// The most trades with a glyph each.
const MOST_GLYPHS: usize = 400;

/// The most instruments whose charts are open.
const MOST_OPEN: usize = 12;

fn are_many(deals: &[Deal]) -> bool
    ensures { result ≡ are_many deals.now }
{
    deals.len() > MOST_GLYPHS
}

fn are_folded(instruments: &Instruments) -> bool
    ensures { result ≡ are_folded instruments.now }
{
    instruments.len() > MOST_OPEN
}

fn opening_template(folded: bool) -> &'static [u8]
    ensures { result.now ≡ opening_template folded }
{
    if folded { FOLDED } else { OPEN }
}

fn add_opening(
    alloc: Global,
    page: &mut Page,
    folded: bool,
    shown: &Shown<'_>,
) -> Result<(), AllocError>
    ensures { OnOk result (page.new ≡ with_part page.old (opening_part folded shown.now.symbol.now shown.now.deals.now)) }
{
    let count = grouped_text(alloc, shown.deals.len() as u64)?;
    page.add(opening_template(folded), &[shown.symbol, &count])
}

/// Adds the frame of a chart.
fn add_frame(alloc: Global, page: &mut Page, shown: &Shown<'_>) -> Result<(), AllocError>
    ensures { OnOk result (page.new ≡ with_part page.old (chart_part shown.now.symbol.now shown.now.deals.now)) }
{
    let count = grouped_text(alloc, shown.deals.len() as u64)?;
    page.add(CHART, &[shown.symbol, &count])
}

/// Adds the labels of a chart.
fn add_labels(alloc: Global, page: &mut Page, scale: &Scale) -> Result<(), AllocError>
    ensures { OnOk result (page.new ≡ with_parts page.old (labels_parts scale.now)) }
{
    add_prices(alloc, page, scale)?;
    add_times(alloc, page, scale)
}

/// Adds best prices and a glyph for each trade.
fn add_few(
    alloc: Global,
    page: &mut Page,
    scale: &Scale,
    shown: &Shown<'_>,
) -> Result<(), AllocError>
    ensures { OnOk result (page.new ≡ with_parts page.old (few_parts scale.now shown.now.deals.now shown.now.bids.now shown.now.offers.now)) }
{
    add_lines(alloc, page, scale, shown.bids, shown.offers)?;
    add_glyphs(alloc, page, scale, shown.deals)
}

/// Adds what a chart shows.
fn add_curve(
    alloc: Global,
    page: &mut Page,
    scale: &Scale,
    shown: &Shown<'_>,
) -> Result<(), AllocError>
    ensures { OnOk result (page.new ≡ with_parts page.old (curve_parts scale.now shown.now.deals.now shown.now.bids.now shown.now.offers.now)) }
{
    if are_many(shown.deals) {
        add_ranges(alloc, page, scale, shown.deals)
    } else {
        add_few(alloc, page, scale, shown)
    }
}

/// Adds what stands in the frame of a chart.
fn add_content(
    alloc: Global,
    page: &mut Page,
    scale: &Scale,
    shown: &Shown<'_>,
) -> Result<(), AllocError>
    ensures { OnOk result (page.new ≡ with_parts page.old (content_parts scale.now shown.now.deals.now shown.now.bids.now shown.now.offers.now)) }
{
    add_labels(alloc, page, scale)?;
    add_curve(alloc, page, scale, shown)?;
    add_volume(alloc, page, scale, shown.deals)
}

/// Adds a chart.
fn add_chart(
    alloc: Global,
    page: &mut Page,
    scale: &Scale,
    shown: &Shown<'_>,
) -> Result<(), AllocError>
    ensures { OnOk result (page.new ≡ with_parts page.old (chart_parts scale.now shown.now.symbol.now shown.now.deals.now shown.now.bids.now shown.now.offers.now)) }
{
    add_frame(alloc, page, shown)?;
    add_content(alloc, page, scale, shown)?;
    page.add(CHART_END, &[])
}

/// Adds an instrument, if it has a range of prices.
fn add_instrument(
    alloc: Global,
    page: &mut Page,
    instruments: &Instruments,
    day: &Charted<'_>,
    instrument: u32,
) -> Result<(), AllocError>
    ensures { OnOk result (page.new ≡ with_parts page.old (instrument_parts instruments.now (sheet_of day.now) instrument)) }
{
    let deals = deals_in(alloc, day.deals, instrument)?;
    let bids = points_in(alloc, day.bests, instrument, Side::Buy)?;
    let offers = points_in(alloc, day.bests, instrument, Side::Sell)?;
    let tick = tick_at(instruments, instrument);
    match range_of(tick, &deals, &bids, &offers) {
        None => Ok(()),
        Some(range) => {
            let scale = Scale {
                first: day.first,
                last: day.last,
                tick,
                range,
            };
            let shown = Shown {
                symbol: symbol_at(instruments, instrument),
                deals: &deals,
                bids: &bids,
                offers: &offers,
            };
            add_opening(alloc, page, are_folded(instruments), &shown)?;
            add_chart(alloc, page, &scale, &shown)?;
            add_ladder(alloc, page, tick, day.rests, instrument)?;
            page.add(INSTRUMENT_END, &[])
        }
    }
}

/// Adds the instruments, in their file's order.
fn add_each(
    alloc: Global,
    page: &mut Page,
    instruments: &Instruments,
    day: &Charted<'_>,
) -> Result<(), AllocError>
    ensures { OnOk result (page.new ≡ with_parts page.old (each_from (instrument_parts instruments.now (sheet_of day.now)) 0 (length instruments.now))) }
{
    for instrument in 0..instruments.len() {
        add_instrument(alloc, page, instruments, day, instrument as u32)?;
    }
    Ok(())
}

/// Adds the section of the instruments.
pub fn add_instruments(
    alloc: Global,
    page: &mut Page,
    instruments: &Instruments,
    day: &Charted<'_>,
) -> Result<(), AllocError>
    ensures { OnOk result (page.new ≡ with_parts page.old (instruments_parts instruments.now (sheet_of day.now))) }
{
    let count = grouped_text(alloc, instruments.len() as u64)?;
    page.add(INSTRUMENTS, &[&count])?;
    add_each(alloc, page, instruments, day)?;
    page.add(INSTRUMENTS_END, &[])
}
