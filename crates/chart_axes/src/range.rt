//! A range of prices.

ghost use Rattle.std.specs.Prelude.{◌≡◌};
ghost use Rattle.day_tables.specs.Bulletin.{greater, lesser};
ghost use Rattle.chart_axes.specs.Ranges.{covered, distance};

use fix_dictionary::Price;

/// The lowest and the highest of some prices.
#[derive(Clone, Copy)]
pub struct Range {
    pub low: Price,
    pub high: Price,
}

fn greater(a: Price, b: Price) -> Price
    ensures { result ≡ greater a b }
{
    if a.get() < b.get() { b } else { a }
}

fn lesser(a: Price, b: Price) -> Price
    ensures { result ≡ lesser a b }
{
    if b.get() < a.get() { b } else { a }
}

/// Between two prices, in millionths.
pub fn distance(one: Price, other: Price) -> u64
    ensures { result ≡ distance one other }
{
    one.get().abs_diff(other.get())
}

/// A range with one price more.
pub fn covered(price: Price, range: Option<Range>) -> Range
    ensures { result ≡ covered price range }
{
    match range {
        None => Range {
            low: price,
            high: price,
        },
        Some(range) => Range {
            low: lesser(price, range.low),
            high: greater(price, range.high),
        },
    }
}
