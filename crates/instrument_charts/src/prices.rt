//! The range of the prices on a chart.

ghost use Rattle.std.specs.Prelude.{◌≡◌};
ghost use Rattle.instrument_charts.specs.Prices.{beyond, is_near, range_by, range_of, reach, with_deals, with_point, with_points};

use crate::deals::Deal;
use crate::lines::Point;
use chart_axes::{Range, covered, distance};
use fix_dictionary::Price;

/// A range with the prices of trades.
fn with_deals(others: Option<Range>, deals: &[Deal]) -> Option<Range>
    ensures { result ≡ with_deals others deals.now }
{
    let mut range = others;
    for at in (0..deals.len()).rev() {
        range = Some(covered(deals[at].price, range));
    }
    range
}

/// How far beyond the trades a best price may be to widen the chart: once their range, at least eight ticks.
fn reach(tick: u64, traded: &Range) -> u128
    ensures { result ≡ reach tick traded.now }
{
    (8 * u128::from(tick)).max(u128::from(distance(traded.high, traded.low)))
}

/// How far a price is beyond a range.
fn beyond(range: &Range, price: Price) -> u64
    ensures { result ≡ beyond range.now price }
{
    if range.high.get() < price.get() {
        distance(price, range.high)
    } else if price.get() < range.low.get() {
        distance(range.low, price)
    } else {
        0
    }
}

/// Whether a best price widens the chart of these trades.
fn is_near(tick: u64, traded: &Option<Range>, price: Price) -> bool
    ensures { result ≡ is_near tick traded.now price }
{
    match traded {
        None => true,
        Some(traded) => u128::from(beyond(traded, price)) <= reach(tick, traded),
    }
}

fn with_point(
    tick: u64,
    traded: &Option<Range>,
    range: Option<Range>,
    price: Option<Price>,
) -> Option<Range>
    ensures { result ≡ with_point tick traded.now range price }
{
    match price {
        None => range,
        Some(price) => {
            if is_near(tick, traded, price) {
                Some(covered(price, range))
            } else {
                range
            }
        }
    }
}

/// A range with the best prices of a side that are near to the trades.
fn with_points(
    tick: u64,
    traded: &Option<Range>,
    others: Option<Range>,
    points: &[Point],
) -> Option<Range>
    ensures { result ≡ with_points tick traded.now others points.now }
{
    let mut range = others;
    for at in (0..points.len()).rev() {
        range = with_point(tick, traded, range, points[at].price);
    }
    range
}

/// The range of the trades and the best prices near to them.
fn range_by(tick: u64, traded: &Option<Range>, bids: &[Point], offers: &[Point]) -> Option<Range>
    ensures { result ≡ range_by tick traded.now bids.now offers.now }
{
    with_points(
        tick,
        traded,
        with_points(tick, traded, *traded, offers),
        bids,
    )
}

/// The range of an instrument's chart; none where there is neither a trade nor a best price.
pub(crate) fn range_of(tick: u64, deals: &[Deal], bids: &[Point], offers: &[Point]) -> Option<Range>
    ensures { result ≡ range_of tick deals.now bids.now offers.now }
{
    range_by(tick, &with_deals(None, deals), bids, offers)
}
