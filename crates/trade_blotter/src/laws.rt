//! Laws of every day, whatever its inputs.

ghost use Rattle.trade_blotter.specs.Laws.{RoomTradesEmitRooms};

use venue_rules::{every_report_is_numbered, every_room_trade_is_lawful};

/// The line and the row of each room trade have its recipients, its first quote, and the orders resting just before
/// that quote (17 CFR 37.9(a)(3)).
pub fn each_room_trade_is_emitted_with_its_room()
    ensures { RoomTradesEmitRooms }
{
    every_room_trade_is_lawful();
    every_report_is_numbered();
}
