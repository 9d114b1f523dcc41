//! The values of the places of a chart.

ghost use Rattle.std.specs.Prelude.{◌≡◌, IfOk};
ghost use Rattle.sef_moment.specs.Utc.{utc_text};
ghost use Rattle.day_tables.specs.Values.{clock_text};
ghost use Rattle.instrument_charts.specs.Values.{quoted_side, sides_of};

use day_tables::clock_text;
use fix_dictionary::Side;
use sef_moment::{Moment, print_utc};
use std::alloc::{AllocError, Global};

/// The time of a moment, with its date in a trail of several dates.
pub(crate) fn time_of(alloc: Global, dated: bool, moment: Moment) -> Result<Vec<u8>, AllocError>
    ensures { IfOk result (λ text. text.items ≡ clock_text dated (utc_text moment)) }
{
    let printed = print_utc(moment);
    Vec::from_slice(alloc, clock_text(dated, &printed))
}

/// The word for an order of a side.
pub(crate) fn quoted_side(side: Side) -> &'static [u8]
    ensures { result.now ≡ quoted_side side }
{
    match side {
        Side::Buy => b"bid",
        Side::Sell => b"offer",
    }
}

/// And for several.
pub(crate) fn sides_of(side: Side) -> &'static [u8]
    ensures { result.now ≡ sides_of side }
{
    match side {
        Side::Buy => b"bids",
        Side::Sell => b"offers",
    }
}
