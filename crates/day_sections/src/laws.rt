//! What holds of every day.

ghost use Rattle.day_events.specs.declared.event.Event.{Event};
ghost use Rattle.day_sections.specs.Found.{TradesAreFound};
ghost use Rattle.day_sections.specs.Whole.{FoldsAreOfOneHour, FoldsAreWhole, HoursAreWhole};
ghost use Rattle.surveillance.specs.declared.alarm.Alarm.{Alarm};
ghost use Rattle.surveillance.specs.declared.pairs.LinkedTrade.{LinkedTrade};
ghost use Rattle.venue_rules.specs.declared.trail.TradeFact.{TradeFact};

use day_events::every_trade_has_its_events;

/// Each trade of a day has a report where one is looked for. So none is shown without its row and time.
pub fn every_trade_is_found()
    ensures { TradesAreFound }
{
    every_trade_has_its_events();
}

/// The folds of a list, one after another, are the whole list in its order: of trades and requests by the hour, of
/// trades of linked orders and of alarms 200 to a fold. By the hour, all in a fold are of the same hour.
pub fn folds_leave_nothing_out()
    ensures trades { HoursAreWhole TradeFact }
    ensures requests { HoursAreWhole Event }
    ensures hours { FoldsAreOfOneHour }
    ensures linked { FoldsAreWhole LinkedTrade }
    ensures alarms { FoldsAreWhole Alarm }
{}
