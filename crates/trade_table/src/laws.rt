//! The law of every day, whatever its inputs.

ghost use Rattle.trade_table.specs.Laws.{TradesHaveExecutions};

/// Each trade of a day has its execution: its row and moment are those of the message or the tick that made it; its
/// orders are the buyer's and the seller's, as they entered; and its quote is the one that was hit.
pub fn each_trade_has_its_execution()
    ensures { TradesHaveExecutions }
{}
