//! What the events of every day agree with.

ghost use Rattle.day_events.specs.TradeEvents.{EventsReportTrades};

use market_laws::every_trade_is_reported_twice;

/// The events of a day that report trades are of its trades from number 1 on, in their order: of each two that follow
/// each other, one to each party.
pub fn every_trade_has_its_events()
    ensures { EventsReportTrades }
{
    every_trade_is_reported_twice();
}
