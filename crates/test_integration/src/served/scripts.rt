//! A client's script, and the orders in it.

use fix_dictionary::{App, FixChar, Identifier, NewOrderSingle, Price, Quantity, Side};
use sef_client::{Script, ScriptStep};

/// An order for IRS5Y at 2.5.
pub fn order(order_id: Identifier, side: Side, quantity: Quantity) -> App {
    App::NewOrderSingle(NewOrderSingle {
        order_id,
        link_id: None,
        symbol: Identifier::from_slice(b"IRS5Y"),
        side,
        quantity,
        order_type: FixChar::new(b'2'),
        price: Some(Price::new(2_500_000)),
        time_in_force: None,
        transact_time: None,
    })
}

/// What the client of this name does at the venue SEF.
pub fn script(name: Identifier, steps: Vec<ScriptStep>) -> Script {
    Script::new(name, Identifier::from_slice(b"SEF"), steps)
}
