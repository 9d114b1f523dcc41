//! Where a moment and a price are on a chart.

ghost use Rattle.std.specs.Prelude.{◌≡◌, IfOk, decimal};
ghost use Rattle.chart_axes.specs.Scales.{across, down, has_dates, height_text, length_of, part_of, passed};

use crate::range::{Range, distance};
use day_tables::are_dated;
use fix_dictionary::Price;
use itoa::Buffer;
use sef_moment::Moment;
use std::alloc::{AllocError, Global};

/// What a chart spans: the day, from its first row to its last, and a range of prices, with their tick.
#[derive(Clone, Copy)]
pub struct Scale {
    pub first: Moment,
    pub last: Moment,
    pub tick: u64,
    pub range: Range,
}

/// Whether the first and the last row are of two dates.
pub fn has_dates(scale: &Scale) -> bool
    ensures { result ≡ has_dates scale.now }
{
    are_dated(Some(scale.first), Some(scale.last))
}

/// The milliseconds from the first row to the last.
fn length_of(scale: &Scale) -> u64
    ensures { result ≡ length_of scale.now }
{
    scale.last.ms().saturating_sub(scale.first.ms())
}

/// And from the first row to a moment.
fn passed(scale: &Scale, moment: Moment) -> u64
    ensures { result ≡ passed scale.now moment }
{
    moment
        .ms()
        .saturating_sub(scale.first.ms())
        .min(length_of(scale))
}

/// The place of a moment, in ten thousandths of the width: from 100 to 9900.
pub fn across(scale: &Scale, moment: Moment) -> u128
    ensures { result ≡ across scale.now moment }
{
    100 + 9_800 * u128::from(passed(scale, moment)) / u128::from(length_of(scale).max(1))
}

/// The part of some equal parts of the day in which a moment is, from 0.
pub fn part_of(scale: &Scale, parts: u64, moment: Moment) -> u128
    ensures { result ≡ part_of scale.now parts moment }
{
    u128::from(parts) * u128::from(passed(scale, moment)) / (u128::from(length_of(scale)) + 1)
}

/// The place of a price, in pixels from the top: from 12 at the highest to 192 at the lowest.
pub fn down(scale: &Scale, price: Price) -> u128
    ensures { result ≡ down scale.now price }
{
    let below = u128::from(distance(scale.range.high, price));
    let height = distance(scale.range.high, scale.range.low).max(1);
    12 + 180 * below / u128::from(height)
}

/// A wide number as it is.
pub fn wide_number(alloc: Global, number: u128) -> Result<Vec<u8>, AllocError>
    ensures { IfOk result (λ text. text.items ≡ decimal number) }
{
    let mut digits = Buffer::new();
    Vec::from_slice(alloc, digits.format(number).as_bytes())
}

/// The place of a price as a line has it: outside the frame, which cuts the line, if it is beyond the range.
pub fn height_text(alloc: Global, scale: &Scale, price: Price) -> Result<Vec<u8>, AllocError>
    ensures { IfOk result (λ text. text.items ≡ height_text scale.now price) }
{
    if scale.range.high.get() < price.get() {
        Vec::from_slice(alloc, b"-9")
    } else if price.get() < scale.range.low.get() {
        Vec::from_slice(alloc, b"213")
    } else {
        wide_number(alloc, down(scale, price))
    }
}
