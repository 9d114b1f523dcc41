//! What every day keeps, whatever its inputs are.

ghost use Rattle.trail_answers.specs.Laws.{MessagesAreOwed, MessagesAreEmitted, OrdersAreWhole};

/// What is printed of one participant is what it is owed: each message once, in order, with the row that it answers.
pub fn messages_are_owed()
    ensures owed { MessagesAreOwed }
    ensures emitted { MessagesAreEmitted }
{}

/// No row of an order is left out, on any day: where a fact of a row's answer is about the order that is sought, or
/// about one that replaced it, the row is one of the order's.
pub fn orders_are_whole()
    ensures { OrdersAreWhole }
{}
