//! Readings of a day's trades.
ghost use Rattle.std.specs.Prelude.{◌≡◌, ◌≤◌, ◌+◌, [], ◌∷◌, ◌++◌, length, OnOk};
ghost use Rattle.std.specs.Vec.{vec_capacity, vec_len};
ghost use Rattle.venue_rules.specs.Facts.{trades};
ghost use Rattle.venue_rules.specs.Readings.{room_of, trade_fact};
ghost use Rattle.trade_history.specs.Traded.{read_from};

use std::alloc::{AllocError, Global};
use std::marker::Model;
use venue_rules::{Fact, Trade, TradeFact, TradeSource};

/// The trades so far, in order, numbered by their places from 1.
pub struct Trades {
    read: Vec<TradeFact>,
}

// Written-out drop (docs/ARCHITECTURE.md).
impl Drop for Trades {
    fn drop(self) {
        let Trades { read: _read } = self;
    }
}

impl Model for Trades {
    ghost use Rattle.std.specs.Prelude.{◌-◌};
    ghost use Rattle.std.specs.Vec.{vec_capacity, vec_len};
    ghost use Rattle.trade_history.specs.Traded.{Traded};

    ghost Value = { Traded };

    ghost view = { λ t. record { trades = t.read.items; room = vec_capacity t.read - vec_len t.read } };
}

// The room of a trade, if any.
fn room_of(place: &TradeSource) -> Option<u64>
    ensures { result ≡ room_of place.now }
{
    match place {
        TradeSource::Book(_, _) => None,
        TradeSource::Room(room, _) => Some(*room),
    }
}

fn trade_fact(number: u64, trade: &Trade) -> TradeFact
    ensures { result ≡ trade_fact number trade.now }
{
    TradeFact {
        number,
        instrument: trade.instrument,
        quantity: trade.quantity,
        price: trade.price,
        buyer: trade.buyer,
        seller: trade.seller,
        room: room_of(&trade.place),
    }
}

// Appends the trade that a fact is, if any, within reserved capacity.
fn append_trade(read: &mut Vec<TradeFact>, fact: &Fact)
    requires { vec_len read.old + length (trades (fact.now ∷ [])) ≤ vec_capacity read.old }
    ensures items { read.new.items ≡ read.old.items ++ read_from (length read.old.items + 1) (trades (fact.now ∷ [])) }
    ensures len { vec_len read.new ≡ vec_len read.old + length (trades (fact.now ∷ [])) }
    ensures capacity { vec_capacity read.old ≤ vec_capacity read.new }
{
    if let Fact::Traded(trade) = fact {
        let number = read.len() as u64 + 1;
        let _pushed = read.push(trade_fact(number, trade));
    }
}

// Appends the trades among facts, within reserved capacity.
fn append_trades(read: &mut Vec<TradeFact>, facts: &[Fact])
    requires { vec_len read.old + length (trades facts.now) ≤ vec_capacity read.old }
    ensures { read.new.items ≡ read.old.items ++ read_from (length read.old.items + 1) (trades facts.now) }
{
    for fact in facts {
        append_trade(read, fact);
    }
}

impl Trades {
    pub fn new(alloc: Global) -> Trades
        ensures { result.trades ≡ [] }
    {
        Trades {
            read: Vec::new(alloc),
        }
    }

    pub fn as_slice(&self) -> &[TradeFact]
        ensures { result.now ≡ self.now.trades }
    {
        &self.read
    }

    pub fn count(&self) -> u64
        ensures { result ≡ length self.now.trades }
    {
        self.read.len() as u64
    }

    /// Reserves capacity for this many further trades. The trades stay, also after an allocation failure.
    pub fn reserve(&mut self, more: usize) -> Result<(), AllocError>
        ensures kept { self.new.trades ≡ self.old.trades }
        ensures room { OnOk result (more ≤ self.new.room) }
    {
        self.read.reserve(more)
    }

    /// Adds the trades among these facts, within reserved capacity.
    pub fn add(&mut self, facts: &[Fact])
        requires { length (trades facts.now) ≤ self.old.room }
        ensures { self.new.trades ≡ self.old.trades ++ read_from (length self.old.trades + 1) (trades facts.now) }
    {
        append_trades(&mut self.read, facts);
    }
}
