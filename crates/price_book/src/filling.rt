//! The entering order of a plan's facts, with its leaves quantity after its trades.
ghost use Rattle.std.specs.Prelude.{◌≡◌, ◌≤◌, true, option_map};
ghost use Rattle.price_book.specs.Kept.{are_whole};
ghost use Rattle.price_book.specs.Live.{less_of, less_by, left_after, left_behind, entering};
ghost use Rattle.price_book.specs.Views.{seen};

use crate::reading::entry_in;
use crate::resting::Resting;
use venue_rules::{Fact, Trade, TradeSource};

// The order's leaves quantity, where the order with this number loses a quantity.
fn less_of(order: u64, number: u64, quantity: u64, left: u64) -> u64
    ensures value { result ≡ less_of order number quantity left }
    ensures bound { result ≤ left }
{
    if number == order {
        left.saturating_sub(quantity)
    } else {
        left
    }
}

// The order's leaves quantity after a trade.
fn less_by(order: u64, trade: &Trade, left: u64) -> u64
    ensures value { result ≡ less_by order trade.now.place trade.now.quantity left }
    ensures bound { result ≤ left }
{
    match trade.place {
        TradeSource::Book(resting, entering) => {
            let quantity = trade.quantity.get();
            let left = less_of(order, resting, quantity, left);
            less_of(order, entering, quantity, left)
        }
        TradeSource::Room(_, _) => left,
    }
}

// The order's leaves quantity after a fact.
fn left_after(order: u64, fact: &Fact, left: u64) -> u64
    ensures value { result ≡ left_after order left fact.now }
    ensures bound { result ≤ left }
{
    match fact {
        Fact::Traded(trade) => less_by(order, trade, left),
        Fact::Removed(removal) => { if removal.order == order { 0 } else { left } }
        _ => left,
    }
}

// The order's leaves quantity after these facts, from `quantity`.
fn left_behind(order: u64, quantity: u64, facts: &[Fact]) -> u64
    ensures value { result ≡ left_behind order quantity facts.now }
    ensures bound { result ≤ quantity }
{
    let mut left = quantity;
    for fact in facts {
        left = left_after(order, fact, left);
    }
    left
}

/// The entering order of the facts, with its leaves quantity after the facts behind its entry.
pub(crate) fn entering(facts: &[Fact]) -> Option<Resting<'_>>
    requires { are_whole facts.now ≡ true }
    ensures { option_map seen result ≡ entering facts.now }
{
    for at in 0..facts.len() {
        if let Some(entry) = entry_in(&facts[at]) {
            let left = left_behind(entry.number, entry.order.quantity.get(), &facts[at + 1..]);
            return Some(Resting { entry, left });
        }
    }
    None
}
