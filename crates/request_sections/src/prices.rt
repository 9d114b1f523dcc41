//! The prices shown at a row.

ghost use Rattle.std.specs.Prelude.{◌≡◌, ◌++◌, ◌==◌, IfOk, OnOk, filter, true};
ghost use Rattle.request_sections.specs.Prices.{kept_if};
ghost use Rattle.request_sections.specs.Shown.{at_row, is_on, on_side, rises, total};

use day_events::ShownPrice;
use fix_dictionary::{Amount, Price, Side};
use participants::Who;
use std::alloc::{AllocError, Global};

/// Whether prices come in the order of their rows.
pub(crate) fn rises(shown: &[ShownPrice]) -> bool
    ensures { result ≡ rises 0 shown.now }
{
    let mut low = 0;
    for price in shown {
        if price.row < low {
            return false;
        }
        low = price.row;
    }
    true
}

/// Appends a price, if it is kept.
fn keep(prices: &mut Vec<ShownPrice>, price: &ShownPrice, kept: bool) -> Result<(), AllocError>
    ensures { OnOk result (prices.new.items ≡ prices.old.items ++ kept_if kept price.now) }
{
    // Types of a price's content, named here because the proof of the push needs each.
    let _who: Option<Who> = None;
    let _side: Option<Side> = None;
    let _price: Option<Price> = None;
    let _amount: Option<Amount> = None;
    if !kept {
        return Ok(());
    }
    match prices.push(*price) {
        Ok(()) => Ok(()),
        Err(_) => Err(AllocError),
    }
}

/// Those at a row, of prices in the order of their rows, among others at most.
fn near(shown: &[ShownPrice], row: u64) -> &[ShownPrice]
    requires ordered { rises 0 shown.now ≡ true }
    ensures { at_row row result.now ≡ at_row row shown.now }
{
    let from = shown.partition_point(|price| price.row < row);
    let (_, others) = shown.split_at(from);
    let to = others.partition_point(|price| price.row <= row);
    let (first, _) = others.split_at(to);
    first
}

/// Those at a row.
fn of_row(alloc: Global, shown: &[ShownPrice], row: u64) -> Result<Vec<ShownPrice>, AllocError>
    ensures { IfOk result (λ kept. kept.items ≡ at_row row shown.now) }
{
    let mut kept = Vec::new(alloc);
    for price in shown {
        keep(&mut kept, price, price.row == row)?;
    }
    Ok(kept)
}

/// The prices shown at a row: all are looked at where they do not come in the order of their rows, as a day's do.
pub(crate) fn at_row(
    alloc: Global,
    shown: &[ShownPrice],
    ordered: bool,
    row: u64,
) -> Result<Vec<ShownPrice>, AllocError>
    requires ordered { ordered ≡ rises 0 shown.now }
    ensures { IfOk result (λ kept. kept.items ≡ at_row row shown.now) }
{
    if ordered {
        of_row(alloc, near(shown, row), row)
    } else {
        of_row(alloc, shown, row)
    }
}

fn is_on(bid: bool, side: Side) -> bool
    ensures { result ≡ is_on bid side }
{
    match side {
        Side::Buy => bid,
        Side::Sell => !bid,
    }
}

/// The bids among prices, or the offers.
pub(crate) fn on_side(
    alloc: Global,
    prices: &[ShownPrice],
    bid: bool,
) -> Result<Vec<ShownPrice>, AllocError>
    ensures { IfOk result (λ kept. kept.items ≡ on_side bid prices.now) }
{
    let mut kept = Vec::new(alloc);
    for price in prices {
        keep(&mut kept, price, is_on(bid, price.side))?;
    }
    Ok(kept)
}

/// The quantity of prices.
pub(crate) fn total(prices: &[ShownPrice]) -> u128
    ensures { result ≡ total prices.now }
{
    let mut total: u128 = 0;
    for price in prices {
        total += u128::from(price.left.get());
    }
    total
}
