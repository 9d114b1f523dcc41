//! What holds of every day.

ghost use Rattle.instrument_charts.specs.EachTrade.{TradesAreCharted};

use day_sections::every_trade_is_found;

/// Each trade of a day is among those on the charts, in their order; none is left out for want of a report.
pub fn every_trade_is_charted()
    ensures { TradesAreCharted }
{
    every_trade_is_found();
}
