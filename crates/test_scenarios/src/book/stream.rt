//! Orders, and a fixed stream of requests.

use fix_dictionary::{Identifier, Price, Quantity, Side};
use participants::Who;
use venue_rules::{OrderFact, TimeInForce, printed_identifier};

/// The next state of the generator.
pub(crate) fn next(state: u64) -> u64 {
    state
        .wrapping_mul(6_364_136_223_846_793_005)
        .wrapping_add(1_442_695_040_888_963_407)
}

/// The identifier of the n-th request. All have one length, so that they are in order as the requests are.
pub(crate) fn id_of(n: u64) -> Identifier {
    printed_identifier(b'n', 100_000_000 + n % 900_000_000)
}

/// A price of this many ticks.
pub(crate) fn price(ticks: u64) -> Price {
    Price::new((ticks % 1_000_000) as i64 * 2_500)
}

pub(crate) fn quantity(units: u64) -> Quantity {
    Quantity::new(1 + units % 1_000_000)
}

/// An order for 50 under the n-th identifier.
pub(crate) fn order_of(n: u64, who: u32, instrument: u32, side: Side, ticks: u64) -> OrderFact {
    OrderFact {
        who: Who::of(who),
        id: id_of(n),
        link: None,
        instrument,
        side,
        quantity: quantity(49),
        price: price(ticks),
        life: TimeInForce::Day,
    }
}

/// The n-th of the orders that rest on a side all day: bids of at most 499 ticks, offers of at least 501, over 50
/// prices each.
pub(crate) fn standing(n: u64, instrument: u32, side: Side) -> OrderFact {
    let away = n % 50;
    let ticks = match side {
        Side::Buy => 499 - away,
        Side::Sell => 501 + away,
    };
    order_of(n, 0, instrument, side, ticks)
}

/// The n-th order of the stream, as the state of the generator has it.
pub(crate) fn drawn(n: u64, state: u64) -> OrderFact {
    let r = state >> 33;
    let side = if r % 2 == 0 { Side::Buy } else { Side::Sell };
    let mut order = order_of(n, (n % 5) as u32, (r / 4 % 3) as u32, side, r / 8 % 10);
    order.quantity = quantity(r / 80 % 100);
    order.life = match r / 8000 % 6 {
        0 => TimeInForce::ImmediateOrCancel,
        1 => TimeInForce::FillOrKill,
        _ => TimeInForce::Day,
    };
    order
}
