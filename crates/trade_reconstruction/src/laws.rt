//! Laws of every day, whatever its inputs.

ghost use Rattle.trade_reconstruction.specs.Laws.{BookTradesHaveOrders, FatesAreRight, LiveQuotesAreLive, MessagesAreOfRows, QuotesAreReported, RestingOrdersAreShown, RoomTradesHaveRequests, TradesHaveRows};

use venue_rules::{
    every_book_trade_is_lawful, every_report_is_numbered, every_room_trade_is_lawful,
};

/// The events of a day have the request of each room trade, as the room was opened and with its recipients, so that the
/// evidence for the trade begins with it.
pub fn each_room_trade_has_its_request()
    ensures { RoomTradesHaveRequests }
{
    every_room_trade_is_lawful();
    every_report_is_numbered();
}

/// The events of a day have each quote, as it was sent to the requester of its room: the evidence for a trade in that
/// room has its line, and says what had become of it.
pub fn each_quote_is_reported()
    ensures { QuotesAreReported }
{}

/// The events of a day show the requester of each room, with its first quote, every order that rested in the book of
/// the instrument then, and their count (17 CFR 37.9(a)(3)).
pub fn each_resting_order_is_shown()
    ensures { RestingOrdersAreShown }
{}

/// What the evidence says of a quote in a room that has not traded is what had become of it by the facts of the day;
/// and it says that it was live if and only if it could be hit.
pub fn each_quote_has_its_fate()
    ensures right { FatesAreRight }
    ensures live { LiveQuotesAreLive }
{}

/// The events of a day have each trade at the row of the message or the tick that made it, so that its own line ends in
/// that row.
pub fn each_trade_has_its_row()
    ensures { TradesHaveRows }
{}

/// The events of a day have both orders of each trade in the book, as they entered, each with its row and its moment,
/// so that the evidence for the trade has the lines of both; and the trade is reported at the row of the second.
pub fn each_book_trade_has_its_orders()
    ensures { BookTradesHaveOrders }
{
    every_book_trade_is_lawful();
    every_report_is_numbered();
}

/// The message that a line names with an identifier is that of the row with which the line ends, in every trail whose
/// rows have different numbers.
pub fn each_message_is_that_of_its_row()
    ensures { MessagesAreOfRows }
{}
