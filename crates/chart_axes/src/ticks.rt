//! The labels of a chart: round prices and round times.

ghost use Rattle.std.specs.Prelude.{◌≡◌, ◌≤◌, ◌+◌, ◌*◌, IfOk, OnOk, length, max};
ghost use Rattle.std.specs.Int.{div_ceil};
ghost use Rattle.std.specs.List.{find};
ghost use Rattle.page_text.specs.Parts.{with_part, with_parts};
ghost use Rattle.sef_moment.specs.Utc.{utc_text};
ghost use Rattle.day_tables.specs.Parts.{each_from};
ghost use Rattle.chart_axes.specs.Ticks.{clock_in, end_label_of, end_parts, few_step, fits, has_two, has_two_prices, highest_parts, is_few, is_span, is_step, label_of, last_parts, lowered, minute_in, most_prices, most_times, multiple, price_ends, price_part, price_parts, prices_parts, raised, second_in, span_of, spans_parts, step_of, steps_parts, time_part, time_parts, times_parts};

use crate::range::{Range, distance};
use crate::scale::{Scale, across, down, has_dates, wide_number};
use crate::template::{PRICE_TICK, TIME_TICK};
use day_tables::{date_in, ticked_price, time_in};
use fix_dictionary::Price;
use page_text::Page;
use sef_moment::{Moment, print_utc};
use std::alloc::{AllocError, Global};

/// The steps of price labels, in millionths: 1, 2 and 5 times each power of ten.
pub(crate) const STEPS: &[u64] = &[
    1,
    2,
    5,
    10,
    20,
    50,
    100,
    200,
    500,
    1_000,
    2_000,
    5_000,
    10_000,
    20_000,
    50_000,
    100_000,
    200_000,
    500_000,
    1_000_000,
    2_000_000,
    5_000_000,
    10_000_000,
    20_000_000,
    50_000_000,
    100_000_000,
    200_000_000,
    500_000_000,
    1_000_000_000,
    2_000_000_000,
    5_000_000_000,
    10_000_000_000,
    20_000_000_000,
    50_000_000_000,
    100_000_000_000,
    200_000_000_000,
    500_000_000_000,
    1_000_000_000_000,
    2_000_000_000_000,
    5_000_000_000_000,
    10_000_000_000_000,
    20_000_000_000_000,
    50_000_000_000_000,
    100_000_000_000_000,
    200_000_000_000_000,
    500_000_000_000_000,
    1_000_000_000_000_000,
    2_000_000_000_000_000,
    5_000_000_000_000_000,
    10_000_000_000_000_000,
    20_000_000_000_000_000,
    50_000_000_000_000_000,
    100_000_000_000_000_000,
    200_000_000_000_000_000,
    500_000_000_000_000_000,
];

/// Those of time labels, in milliseconds: 1, 2, 5, 10, 15, 30 s and min, 1, 2, 3, 6, 12 h, 1, 2, 7 days.
pub(crate) const SPANS: &[u64] = &[
    1_000,
    2_000,
    5_000,
    10_000,
    15_000,
    30_000,
    60_000,
    120_000,
    300_000,
    600_000,
    900_000,
    1_800_000,
    3_600_000,
    7_200_000,
    10_800_000,
    21_600_000,
    43_200_000,
    86_400_000,
    172_800_000,
    604_800_000,
];

/// The most labels of prices.
const MOST_PRICES: u32 = 6;

/// The most labels of times.
const MOST_TIMES: u32 = 5;

/// A day, in milliseconds.
const DAY: u64 = 86_400_000;

/// A label of the time axis: its text, and how that is anchored at its moment.
#[derive(Clone, Copy)]
struct Label<'a> {
    anchor: &'a [u8],
    text: &'a [u8],
}

/// The first multiple of a step that is not below a number.
fn rounded_up(step: u64, low: u64) -> u128
    ensures value { result ≡ div_ceil low (max 1 step) * max 1 step }
    ensures bound { result ≤ low + max 1 step }
{
    u128::from(low.div_ceil(step.max(1))) * u128::from(step.max(1))
}

/// Of the multiples of a step that are not below a number, the first, second and so on, from 0.
fn multiple(step: u64, low: u64, place: u32) -> u128
    ensures { result ≡ multiple step low place }
{
    rounded_up(step, low) + u128::from(place) * u128::from(step.max(1))
}

/// Whether at most that many multiples of a step are from one number to another.
fn fits(most: u32, low: u64, high: u64, step: u64) -> bool
    ensures { result ≡ fits most low high step }
{
    multiple(step, low, most) > u128::from(high)
}

/// A price above the least.
fn raised(price: Price) -> u64
    ensures value { result ≡ raised price }
    ensures bound { result ≤ 2_000_000_000_000_000_000 }
{
    distance(price, Price::new(-1_000_000_000_000_000_000))
}

/// The price that is so much above the least.
fn lowered(above: u64) -> Price
    requires { above ≤ 2_000_000_000_000_000_000 }
    ensures { result ≡ lowered above }
{
    Price::new(above as i64 - 1_000_000_000_000_000_000)
}

fn is_few(range: &Range, step: u64) -> bool
    ensures { result ≡ is_few range.now step }
{
    fits(MOST_PRICES, raised(range.low), raised(range.high), step)
}

/// Whether a step is of whole ticks, and makes few labels.
fn is_step(tick: u64, range: &Range, step: u64) -> bool
    ensures { result ≡ is_step tick range.now step }
{
    step % tick.max(1) == 0 && is_few(range, step)
}

/// The first step that makes few labels.
fn first_few(steps: &[u64], range: &Range) -> Option<u64>
    ensures { result ≡ find (is_few range.now) steps.now }
{
    for step in steps {
        if is_few(range, *step) {
            return Some(*step);
        }
    }
    None
}

/// The first step of whole ticks that makes few labels.
fn first_step(steps: &[u64], tick: u64, range: &Range) -> Option<u64>
    ensures { result ≡ find (is_step tick range.now) steps.now }
{
    for step in steps {
        if is_step(tick, range, *step) {
            return Some(*step);
        }
    }
    None
}

/// The least step that makes few labels; of all steps one does, in any range of prices.
fn few_step(steps: &[u64], range: &Range) -> u64
    ensures { result ≡ few_step steps.now range.now }
{
    match first_few(steps, range) {
        None => 1_000_000_000_000_000_000,
        Some(step) => step,
    }
}

/// The least step of whole ticks that makes few labels, or the least of any.
fn step_of(steps: &[u64], tick: u64, range: &Range) -> u64
    ensures { result ≡ step_of steps.now tick range.now }
{
    match first_step(steps, tick, range) {
        None => few_step(steps, range),
        Some(step) => step,
    }
}

fn add_price(alloc: Global, page: &mut Page, scale: &Scale, price: Price) -> Result<(), AllocError>
    ensures { OnOk result (page.new ≡ with_part page.old (price_part scale.now price)) }
{
    let y = wide_number(alloc, down(scale, price))?;
    let price = ticked_price(alloc, scale.tick, price)?;
    page.add(PRICE_TICK, &[&y, &price])
}

/// Adds a label, if its price is in the range.
fn add_price_at(
    alloc: Global,
    page: &mut Page,
    scale: &Scale,
    step: u64,
    place: u32,
) -> Result<(), AllocError>
    ensures { OnOk result (page.new ≡ with_parts page.old (price_parts scale.now step place)) }
{
    let above = multiple(step, raised(scale.range.low), place);
    if above <= u128::from(raised(scale.range.high)) {
        add_price(alloc, page, scale, lowered(above as u64))
    } else {
        Ok(())
    }
}

/// Adds the labels of a step.
fn add_each_price(
    alloc: Global,
    page: &mut Page,
    scale: &Scale,
    step: u64,
) -> Result<(), AllocError>
    ensures { OnOk result (page.new ≡ with_parts page.old (each_from (price_parts scale.now step) 0 most_prices)) }
{
    for place in 0..MOST_PRICES {
        add_price_at(alloc, page, scale, step, place)?;
    }
    Ok(())
}

/// Adds the label of the highest price, if it is not the lowest.
fn add_highest(alloc: Global, page: &mut Page, scale: &Scale) -> Result<(), AllocError>
    ensures { OnOk result (page.new ≡ with_parts page.old (highest_parts scale.now)) }
{
    if scale.range.low.get() == scale.range.high.get() {
        Ok(())
    } else {
        add_price(alloc, page, scale, scale.range.high)
    }
}

/// Adds the labels of the lowest and the highest price.
fn add_price_ends(alloc: Global, page: &mut Page, scale: &Scale) -> Result<(), AllocError>
    ensures { OnOk result (page.new ≡ with_parts page.old (price_ends scale.now)) }
{
    add_price(alloc, page, scale, scale.range.low)?;
    add_highest(alloc, page, scale)
}

/// Whether a range has two prices of a step.
fn has_two_prices(scale: &Scale, step: u64) -> bool
    ensures { result ≡ has_two_prices scale.now step }
{
    multiple(step, raised(scale.range.low), 1) <= u128::from(raised(scale.range.high))
}

/// Adds the labels of a step, or of the lowest and the highest price.
#[tactic(auto, unfolding(crate::specs::Ticks::steps_parts))]
fn add_steps(alloc: Global, page: &mut Page, scale: &Scale, step: u64) -> Result<(), AllocError>
    ensures { OnOk result (page.new ≡ with_parts page.old (steps_parts scale.now step)) }
{
    if has_two_prices(scale, step) {
        add_each_price(alloc, page, scale, step)
    } else {
        add_price_ends(alloc, page, scale)
    }
}

/// Adds the labels of prices.
pub fn add_prices(alloc: Global, page: &mut Page, scale: &Scale) -> Result<(), AllocError>
    ensures { OnOk result (page.new ≡ with_parts page.old (prices_parts scale.now)) }
{
    let step = step_of(STEPS, scale.tick, &scale.range);
    add_steps(alloc, page, scale, step)
}

fn is_span(scale: &Scale, span: u64) -> bool
    ensures { result ≡ is_span scale.now span }
{
    fits(MOST_TIMES, scale.first.ms(), scale.last.ms(), span)
}

/// The span between labels of times, if one makes few.
fn span_of(spans: &[u64], scale: &Scale) -> Option<u64>
    ensures { result ≡ span_of spans.now scale.now }
{
    for span in spans {
        if is_span(scale, *span) {
            return Some(*span);
        }
    }
    None
}

/// The moment of some milliseconds, not after the last row.
fn moment_at(scale: &Scale, ms: u64) -> Moment
    requires { ms ≤ scale.now.last }
    ensures { result ≡ ms }
{
    let _greatest = scale.last.ms();
    Moment::EPOCH.plus(ms)
}

fn minute_in(utc: &[u8]) -> &[u8]
    requires { length utc.now ≡ 21 }
    ensures { result.now ≡ minute_in utc.now }
{
    &time_in(utc)[..5]
}

fn second_in(utc: &[u8]) -> &[u8]
    requires { length utc.now ≡ 21 }
    ensures { result.now ≡ second_in utc.now }
{
    &time_in(utc)[..8]
}

/// The time in a moment that was printed, to the minute or the second.
fn clock_in(span: u64, utc: &[u8]) -> &[u8]
    requires { length utc.now ≡ 21 }
    ensures { result.now ≡ clock_in span utc.now }
{
    if span.is_multiple_of(60_000) {
        minute_in(utc)
    } else {
        second_in(utc)
    }
}

/// The label of a moment.
fn label_of(alloc: Global, scale: &Scale, span: u64, moment: Moment) -> Result<Vec<u8>, AllocError>
    ensures { IfOk result (λ text. text.items ≡ label_of scale.now span moment) }
{
    let printed = print_utc(moment);
    if has_dates(scale) && moment.ms() % DAY == 0 {
        Vec::from_slice(alloc, date_in(&printed))
    } else {
        Vec::from_slice(alloc, clock_in(span, &printed))
    }
}

/// The label of the first or the last moment.
fn end_label_of(alloc: Global, scale: &Scale, moment: Moment) -> Result<Vec<u8>, AllocError>
    ensures { IfOk result (λ text. text.items ≡ end_label_of scale.now moment) }
{
    let printed = print_utc(moment);
    if has_dates(scale) {
        Vec::from_slice(alloc, date_in(&printed))
    } else {
        Vec::from_slice(alloc, time_in(&printed))
    }
}

/// A label of the time axis: at a moment, by an anchor of SVG.
fn add_time(
    alloc: Global,
    page: &mut Page,
    scale: &Scale,
    moment: Moment,
    label: &Label<'_>,
) -> Result<(), AllocError>
    ensures { OnOk result (page.new ≡ with_part page.old (time_part scale.now label.now.anchor.now moment label.now.text.now)) }
{
    let x = across(scale, moment);
    let whole = wide_number(alloc, x / 100)?;
    let tenth = wide_number(alloc, x / 10 % 10)?;
    let hundredth = wide_number(alloc, x % 10)?;
    page.add(
        TIME_TICK,
        &[&whole, &tenth, &hundredth, label.anchor, label.text],
    )
}

/// Adds a label, if its moment is in the trail.
fn add_time_at(
    alloc: Global,
    page: &mut Page,
    scale: &Scale,
    span: u64,
    place: u32,
) -> Result<(), AllocError>
    ensures { OnOk result (page.new ≡ with_parts page.old (time_parts scale.now span place)) }
{
    let ms = multiple(span, scale.first.ms(), place);
    if ms > u128::from(scale.last.ms()) {
        return Ok(());
    }
    let moment = moment_at(scale, ms as u64);
    let text = label_of(alloc, scale, span, moment)?;
    let label = Label {
        anchor: b"middle",
        text: &text,
    };
    add_time(alloc, page, scale, moment, &label)
}

/// Adds the labels of a span.
fn add_each_time(alloc: Global, page: &mut Page, scale: &Scale, span: u64) -> Result<(), AllocError>
    ensures { OnOk result (page.new ≡ with_parts page.old (each_from (time_parts scale.now span) 0 most_times)) }
{
    for place in 0..MOST_TIMES {
        add_time_at(alloc, page, scale, span, place)?;
    }
    Ok(())
}

/// Adds the label of the first or the last moment.
fn add_end(
    alloc: Global,
    page: &mut Page,
    scale: &Scale,
    moment: Moment,
    anchor: &[u8],
) -> Result<(), AllocError>
    ensures { OnOk result (page.new ≡ with_part page.old (time_part scale.now anchor.now moment (end_label_of scale.now moment))) }
{
    let text = end_label_of(alloc, scale, moment)?;
    let label = Label {
        anchor,
        text: &text,
    };
    add_time(alloc, page, scale, moment, &label)
}

/// Adds the label of the last moment, if it is not the first.
fn add_last(alloc: Global, page: &mut Page, scale: &Scale) -> Result<(), AllocError>
    ensures { OnOk result (page.new ≡ with_parts page.old (last_parts scale.now)) }
{
    if scale.first.ms() == scale.last.ms() {
        Ok(())
    } else {
        add_end(alloc, page, scale, scale.last, b"end")
    }
}

/// Adds the labels of the first and the last moment.
fn add_ends(alloc: Global, page: &mut Page, scale: &Scale) -> Result<(), AllocError>
    ensures { OnOk result (page.new ≡ with_parts page.old (end_parts scale.now)) }
{
    add_end(alloc, page, scale, scale.first, b"start")?;
    add_last(alloc, page, scale)
}

/// Whether a trail has two moments of a span.
fn has_two(scale: &Scale, span: u64) -> bool
    ensures { result ≡ has_two scale.now span }
{
    multiple(span, scale.first.ms(), 1) <= u128::from(scale.last.ms())
}

/// Adds the labels of times.
#[tactic(auto, unfolding(crate::specs::Ticks::times_parts))]
pub fn add_times(alloc: Global, page: &mut Page, scale: &Scale) -> Result<(), AllocError>
    ensures { OnOk result (page.new ≡ with_parts page.old (times_parts scale.now)) }
{
    match span_of(SPANS, scale) {
        None => add_ends(alloc, page, scale),
        Some(span) => {
            if has_two(scale, span) {
                add_each_time(alloc, page, scale, span)
            } else {
                add_ends(alloc, page, scale)
            }
        }
    }
}
