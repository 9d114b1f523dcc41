//! Trades in requests at a worse price than the book that was shown with the first quote.

ghost use Rattle.std.specs.Prelude.{◌≡◌, ◌++◌, OnOk};
ghost use Rattle.surveillance.specs.Alarms.{above, below, better, worse_alarms, worse_by};
ghost use Rattle.surveillance.specs.Kept.{kept_in};

use crate::alarm::{Alarm, Figure, Kind, Others, push_alarm};
use crate::index::place;
use crate::shown::{Best, Prices, best_in};
use day_events::{Event, RoomTrade};
use fix_dictionary::{Identifier, Price, Side};
use std::alloc::AllocError;

fn below(offer: Option<Price>, price: Price) -> Option<Price>
    ensures { result ≡ below offer price }
{
    match offer {
        None => None,
        Some(offer) => if offer.get() < price.get() {
            Some(offer)
        } else {
            None
        },
    }
}

fn above(bid: Option<Price>, price: Price) -> Option<Price>
    ensures { result ≡ above bid price }
{
    match bid {
        None => None,
        Some(bid) => if price.get() < bid.get() {
            Some(bid)
        } else {
            None
        },
    }
}

/// The better price that was shown.
fn better(side: Side, price: Price, best: Best) -> Option<Price>
    ensures { result ≡ better side price best }
{
    match side {
        Side::Buy => below(best.offer, price),
        Side::Sell => above(best.bid, price),
    }
}

fn push_worse_by(
    alarms: &mut Vec<Alarm>,
    event: &Event,
    trade: &RoomTrade,
    shown: Option<Price>,
) -> Result<(), AllocError>
    ensures { OnOk result (alarms.new.items ≡ alarms.old.items ++ worse_by event.now trade.now shown) }
{
    match shown {
        None => Ok(()),
        Some(shown) => {
            let alarm = Alarm {
                kind: Kind::WorseThanShown,
                at: Some(place(event)),
                who: event.to,
                others: Others::None,
                trade: Some(trade.trade),
                order: None,
                found: Some(Figure::Price(trade.price)),
                base: None,
                bound: Some(Figure::Price(shown)),
            };
            push_alarm(alarms, alarm)
        }
    }
}

/// Appends the alarm of a trade in a request at a worse price than was shown.
pub(crate) fn push_worse(
    alarms: &mut Vec<Alarm>,
    prices: &Prices,
    event: &Event,
    trade: &RoomTrade,
    response: &Option<Identifier>,
) -> Result<(), AllocError>
    ensures { OnOk result (alarms.new.items ≡ alarms.old.items ++ worse_alarms (kept_in prices.now.rows.entries prices.now.bests.entries) event.now trade.now response.now) }
{
    match response {
        None => Ok(()),
        Some(_) => {
            let shown = better(trade.side, trade.price, best_in(prices, trade.room));
            push_worse_by(alarms, event, trade, shown)
        }
    }
}
