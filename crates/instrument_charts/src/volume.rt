//! The volume on a chart: a bar for each of 60 equal parts of the day.

ghost use Rattle.std.specs.Prelude.{◌≡◌, ◌≤◌, ℕ, false, true, length, IfOk, OnOk};
ghost use Rattle.page_text.specs.Parts.{with_part, with_parts};
ghost use Rattle.day_tables.specs.Parts.{each_from};
ghost use Rattle.instrument_charts.specs.Values.{HasEach};
ghost use Rattle.instrument_charts.specs.Volumes.{bar_or_none, bar_parts, counted, greatest_of, most_bars, pixels, stack_parts, volume_in, volume_parts};

use crate::deals::Deal;
use crate::template::{BAR, VOLUME, VOLUME_END};
use chart_axes::{Scale, part_of, wide_number};
use day_tables::{number_text, wide_text};
use page_text::Page;
use std::alloc::{AllocError, Global};

/// The parts of the day.
const BARS: u64 = 60;

/// The pixels of the highest stack.
const HEIGHT: u128 = 38;

/// The volume in each part of the day, in all and in requests.
#[derive(Drop)]
struct Volumes {
    all: Vec<u128>,
    requests: Vec<u128>,
}

/// A bar: of the book or of requests, its part of the day, where it begins from the top, and its height.
#[derive(Clone, Copy)]
struct Bar<'a> {
    kind: &'a [u8],
    part: u64,
    top: u128,
    height: u128,
}

/// What is counted of a trade: all, or those in requests.
fn counted(requests: bool, deal: &Deal) -> u64
    ensures { result ≡ counted requests deal.now }
{
    if requests && !deal.is_request {
        0
    } else {
        deal.quantity.get()
    }
}

/// The volume in each part of the day.
fn volume_of(
    alloc: Global,
    scale: &Scale,
    deals: &[Deal],
    requests: bool,
) -> Result<Vec<u128>, AllocError>
    ensures { IfOk result (λ made. HasEach 0 (volume_in scale.now requests deals.now) most_bars made.items) }
{
    let mut made: Vec<u128> = vec![in alloc; 0; 60]?;
    for at in (0..deals.len()).rev() {
        let deal = &deals[at];
        let part = part_of(scale, BARS, deal.moment) as usize;
        made[part] += u128::from(counted(requests, deal));
    }
    Ok(made)
}

/// The greatest volume of a part.
fn greatest_of(all: &[u128]) -> u128
    requires { length all.now ≡ most_bars }
    ensures { (f : ℕ → ℕ) → HasEach 0 f most_bars all.now → result ≡ greatest_of f }
{
    let mut greatest = 0;
    for part in (0..60).rev() {
        greatest = all[part].max(greatest);
    }
    greatest
}

/// The pixels of a volume, of 37 for the greatest.
fn pixels(greatest: u128, volume: u128) -> u128
    ensures { result ≡ pixels greatest volume }
{
    volume.saturating_mul(37).div_ceil(greatest.max(1))
}

/// Adds a bar, if it has a height.
fn add_bar(alloc: Global, page: &mut Page, bar: &Bar<'_>) -> Result<(), AllocError>
    requires { bar.now.part ≤ 60 }
    ensures { OnOk result (page.new ≡ with_parts page.old (bar_or_none bar.now.kind.now bar.now.part bar.now.top bar.now.height)) }
{
    if bar.height == 0 {
        return Ok(());
    }
    let x = number_text(alloc, 100 + 9_800 * bar.part / BARS)?;
    let y = wide_number(alloc, bar.top)?;
    let height = wide_number(alloc, bar.height)?;
    page.add(BAR, &[bar.kind, &x, &y, &height])
}

/// Adds the bars of a part: the book, and requests on it.
fn add_stack(
    alloc: Global,
    page: &mut Page,
    part: u64,
    book: u128,
    requests: u128,
) -> Result<(), AllocError>
    requires { part ≤ 60 }
    ensures { OnOk result (page.new ≡ with_parts page.old (stack_parts part book requests)) }
{
    let top = HEIGHT.saturating_sub(book);
    let lower = Bar {
        kind: b"vb",
        part,
        top,
        height: book,
    };
    let upper = Bar {
        kind: b"va",
        part,
        top: top.saturating_sub(requests),
        height: requests,
    };
    add_bar(alloc, page, &lower)?;
    add_bar(alloc, page, &upper)
}

/// Adds the bars of all parts.
fn add_bars(
    alloc: Global,
    page: &mut Page,
    volumes: &Volumes,
    greatest: u128,
) -> Result<(), AllocError>
    requires { (length volumes.now.all.items ≡ most_bars) × (length volumes.now.requests.items ≡ most_bars) }
    ensures { (f g : ℕ → ℕ) → HasEach 0 f most_bars volumes.now.all.items → HasEach 0 g most_bars volumes.now.requests.items → OnOk result (page.new ≡ with_parts page.old (each_from (bar_parts greatest f g) 0 most_bars)) }
{
    for part in 0..BARS {
        let all = volumes.all[part as usize];
        let requests = volumes.requests[part as usize];
        let book = pixels(greatest, all.saturating_sub(requests));
        add_stack(alloc, page, part, book, pixels(greatest, requests))?;
    }
    Ok(())
}

/// The volume in each part of the day.
fn volumes_of(alloc: Global, scale: &Scale, deals: &[Deal]) -> Result<Volumes, AllocError>
    ensures { IfOk result (λ made. HasEach 0 (volume_in scale.now false deals.now) most_bars made.all.items × HasEach 0 (volume_in scale.now true deals.now) most_bars made.requests.items) }
{
    let all = volume_of(alloc, scale, deals, false)?;
    let requests = volume_of(alloc, scale, deals, true)?;
    Ok(Volumes { all, requests })
}

/// Adds the volume.
pub(crate) fn add_volume(
    alloc: Global,
    page: &mut Page,
    scale: &Scale,
    deals: &[Deal],
) -> Result<(), AllocError>
    ensures { OnOk result (page.new ≡ with_parts page.old (volume_parts scale.now deals.now)) }
{
    let volumes = volumes_of(alloc, scale, deals)?;
    let greatest = greatest_of(&volumes.all);
    let top = wide_text(alloc, greatest)?;
    page.add(VOLUME, &[&top])?;
    add_bars(alloc, page, &volumes, greatest)?;
    page.add(VOLUME_END, &[])
}
