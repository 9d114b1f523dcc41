//! The two sides of a cross: the one that enters first, and the one that is held.
ghost use Rattle.std.specs.Prelude.{◌≡◌, ◌+◌, ◌<◌, length};
ghost use Rattle.instruments.specs.Listing.{delay_of};
ghost use Rattle.venue_rules.specs.Crosses.{first_side, is_first, second_side};
ghost use Rattle.cross_handler.specs.Crossing.{cross_order};

use crate::terms::Terms;
use fix_dictionary::{CrossSide, NewOrderCross, Side};
use instruments::Instruments;
use sef_moment::Moment;
use venue_rules::{HeldSide, OrderFact, TimeInForce, Who, is_side};

// Whether CrossPrioritization (550) puts this side first: 1 the buy, 2 the sell.
fn is_first(cross: &NewOrderCross, side: &CrossSide) -> bool
    ensures { result ≡ is_first cross.now side.now }
{
    if cross.prioritization.get() == 1 {
        is_side(side.side, Side::Buy)
    } else {
        is_side(side.side, Side::Sell)
    }
}

pub(crate) fn first_side(cross: &NewOrderCross) -> &CrossSide
    ensures { result.now ≡ first_side cross.now }
{
    if is_first(cross, &cross.first) {
        &cross.first
    } else {
        &cross.second
    }
}

fn second_side(cross: &NewOrderCross) -> &CrossSide
    ensures { result.now ≡ second_side cross.now }
{
    if is_first(cross, &cross.first) {
        &cross.second
    } else {
        &cross.first
    }
}

/// A side of a cross as a day order.
pub(crate) fn side_order(who: Who, side: &CrossSide, terms: &Terms) -> OrderFact
    ensures { result ≡ cross_order terms.now who side.now }
{
    OrderFact {
        who,
        id: side.order_id,
        link: None,
        instrument: terms.instrument,
        side: side.side,
        quantity: side.quantity,
        price: terms.price,
        life: TimeInForce::Day,
    }
}

// Due moment of a cross's second side, in milliseconds since 1970; possibly past the last moment.
fn due_after(instruments: &Instruments, instrument: u32, moment: Moment) -> u64
    requires { instrument < length instruments.now }
    ensures { result ≡ moment + delay_of instruments.now instrument }
{
    moment.ms() + instruments.get(instrument).delay
}

/// The side of a cross that is held for the delay.
pub(crate) fn held_side(
    instruments: &Instruments,
    who: Who,
    cross: &NewOrderCross,
    terms: &Terms,
    moment: Moment,
) -> HeldSide
    requires { terms.now.instrument < length instruments.now }
    ensures { result ≡ record { order = cross_order terms.now who (second_side cross.now); cross = cross.now.cross_id; due = moment + delay_of instruments.now terms.now.instrument } }
{
    let due = due_after(instruments, terms.instrument, moment);
    let order = side_order(who, second_side(cross), terms);
    let cross = cross.cross_id;
    HeldSide { order, cross, due }
}
