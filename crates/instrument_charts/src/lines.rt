//! The best prices of a side, as a line.

ghost use Rattle.std.specs.Prelude.{◌≡◌, ◌++◌, [], IfOk, OnOk, false, None};
ghost use Rattle.std.specs.List.{cons_option};
ghost use Rattle.page_text.specs.Parts.{with_part, with_parts};
ghost use Rattle.instrument_charts.specs.Lines.{line_parts, lines_parts, move_part, point_at, points_in, price_at, spaced, stands_before, step_part, stop_part, turn_parts};

use crate::template::{LINES, LINES_END, MOVE, OFFERS, STEP, STOP};
use chart_axes::{Scale, across, height_text, wide_number};
use day_events::Best;
use fix_dictionary::{Price, Side};
use page_text::Page;
use sef_moment::Moment;
use std::alloc::{AllocError, Global};

/// The best price of a side from a moment on; none where no order rests.
#[derive(Clone, Copy)]
pub struct Point {
    pub moment: Moment,
    pub price: Option<Price>,
}

fn price_at(side: Side, best: &Best) -> Option<Price>
    ensures { result ≡ price_at side best.now }
{
    match side {
        Side::Buy => best.bid,
        Side::Sell => best.offer,
    }
}

fn point_at(instrument: u32, side: Side, best: &Best) -> Option<Point>
    ensures { result ≡ point_at instrument side best.now }
{
    if best.instrument == instrument {
        Some(Point {
            moment: best.moment,
            price: price_at(side, best),
        })
    } else {
        None
    }
}

fn push_point(points: &mut Vec<Point>, point: Option<Point>) -> Result<(), AllocError>
    ensures { OnOk result (points.new.items ≡ points.old.items ++ cons_option point []) }
{
    // Types of a point's content, named here because the proof of the push needs each.
    let _price: Option<Price> = None;
    let _moment: Option<Moment> = None;
    match point {
        Some(point) => match points.push(point) {
            Ok(()) => Ok(()),
            Err(_) => Err(AllocError),
        },
        None => Ok(()),
    }
}

/// The best prices of a side of an instrument.
pub(crate) fn points_in(
    alloc: Global,
    bests: &[Best],
    instrument: u32,
    side: Side,
) -> Result<Vec<Point>, AllocError>
    ensures { IfOk result (λ made. made.items ≡ points_in instrument side bests.now) }
{
    let mut points = Vec::new(alloc);
    for best in bests {
        push_point(&mut points, point_at(instrument, side, best))?;
    }
    Ok(points)
}

/// The point before another, if they are not in the same of 2,000 equal parts of the width.
fn stands_before(scale: &Scale, before: Option<Point>, point: &Point) -> Option<Point>
    ensures { result ≡ stands_before scale.now before point.now }
{
    match before {
        None => None,
        Some(before) => {
            if across(scale, before.moment) / 5 == across(scale, point.moment) / 5 {
                None
            } else {
                Some(before)
            }
        }
    }
}

/// The last of the points of each part.
fn spaced(alloc: Global, scale: &Scale, points: &[Point]) -> Result<Vec<Point>, AllocError>
    ensures { IfOk result (λ kept. kept.items ≡ spaced scale.now None points.now) }
{
    let mut kept = Vec::new(alloc);
    let mut before = None;
    for point in points {
        push_point(&mut kept, stands_before(scale, before, point))?;
        before = Some(*point);
    }
    push_point(&mut kept, before)?;
    Ok(kept)
}

/// Begins a line.
fn add_move(
    alloc: Global,
    page: &mut Page,
    scale: &Scale,
    moment: Moment,
    price: Price,
) -> Result<(), AllocError>
    ensures { OnOk result (page.new ≡ with_part page.old (move_part scale.now moment price)) }
{
    let x = wide_number(alloc, across(scale, moment))?;
    let y = height_text(alloc, scale, price)?;
    page.add(MOVE, &[&x, &y])
}

/// Has a line go on to another price.
fn add_step(
    alloc: Global,
    page: &mut Page,
    scale: &Scale,
    moment: Moment,
    price: Price,
) -> Result<(), AllocError>
    ensures { OnOk result (page.new ≡ with_part page.old (step_part scale.now moment price)) }
{
    let x = wide_number(alloc, across(scale, moment))?;
    let y = height_text(alloc, scale, price)?;
    page.add(STEP, &[&x, &y])
}

/// Ends a line.
fn add_stop(alloc: Global, page: &mut Page, scale: &Scale, moment: Moment) -> Result<(), AllocError>
    ensures { OnOk result (page.new ≡ with_part page.old (stop_part scale.now moment)) }
{
    let x = wide_number(alloc, across(scale, moment))?;
    page.add(STOP, &[&x])
}

/// Adds a change of the best price, after a line or where there is none.
fn add_turn(
    alloc: Global,
    page: &mut Page,
    scale: &Scale,
    drawn: bool,
    point: &Point,
) -> Result<(), AllocError>
    ensures { OnOk result (page.new ≡ with_parts page.old (turn_parts scale.now drawn point.now.moment point.now.price)) }
{
    match point.price {
        Some(price) => {
            if drawn {
                add_step(alloc, page, scale, point.moment, price)
            } else {
                add_move(alloc, page, scale, point.moment, price)
            }
        }
        None => {
            if drawn {
                add_stop(alloc, page, scale, point.moment)
            } else {
                Ok(())
            }
        }
    }
}

/// Adds the line of a side, to the last row.
fn add_line(
    alloc: Global,
    page: &mut Page,
    scale: &Scale,
    points: &[Point],
) -> Result<(), AllocError>
    ensures { OnOk result (page.new ≡ with_parts page.old (line_parts scale.now false points.now)) }
{
    let mut drawn = false;
    for point in points {
        add_turn(alloc, page, scale, drawn, point)?;
        drawn = point.price.is_some();
    }
    let end = Point {
        moment: scale.last,
        price: None,
    };
    add_turn(alloc, page, scale, drawn, &end)
}

/// Adds the lines of both sides.
pub(crate) fn add_lines(
    alloc: Global,
    page: &mut Page,
    scale: &Scale,
    bids: &[Point],
    offers: &[Point],
) -> Result<(), AllocError>
    ensures { OnOk result (page.new ≡ with_parts page.old (lines_parts scale.now bids.now offers.now)) }
{
    let bids = spaced(alloc, scale, bids)?;
    let offers = spaced(alloc, scale, offers)?;
    page.add(LINES, &[])?;
    add_line(alloc, page, scale, &bids)?;
    page.add(OFFERS, &[])?;
    add_line(alloc, page, scale, &offers)?;
    page.add(LINES_END, &[])
}
