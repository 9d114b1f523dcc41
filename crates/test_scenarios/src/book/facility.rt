//! The requests for quotes, quotes and hits that are timed, each as a venue makes it: looked up, planned and applied.

use crate::book::market::Market;
use anyhow::{Result, anyhow};
use fix_dictionary::{Quote, QuoteRequest, QuoteResponse};
use participants::Who;
use rfq_room::{RoomPlan, Rooms};
use std::alloc::Global;
use std::marker::Model;
use venue_rules::{Fact, Market as Files, TradeSource};

// The number of the room in which a plan makes a quote.
fn room_quoted(plan: &RoomPlan) -> Option<u64> {
    match plan.facts().first() {
        Some(Fact::Quoted(quote)) => Some(quote.room),
        _ => None,
    }
}

// The number of the quote that a plan hits.
fn quote_hit(plan: &RoomPlan) -> Option<u64> {
    match plan.facts().first() {
        Some(Fact::Traded(trade)) => match &trade.place {
            TradeSource::Room(_, quote) => Some(*quote),
            TradeSource::Book(_, _) => None,
        },
        _ => None,
    }
}

/// The rooms of a market, which are for its instruments alone.
#[derive(Drop)]
pub(crate) struct Facility {
    market: Market,
    rooms: Rooms,
}

impl Model for Facility {
    ghost use Rattle.std.specs.Prelude.{◌≡◌, true, length};
    ghost use Rattle.rfq_room.specs.Contents.{Contents};
    ghost use Rattle.rfq_room.specs.RoomStore.{are_listed};

    ghost Value = { Contents };

    ghost view = { λ f. f.rooms };

    ghost invariant = { λ f. are_listed (length f.market.instruments) f.rooms.facts ≡ true };
}

impl Facility {
    pub(crate) fn new(alloc: Global, market: Market) -> Facility {
        Facility {
            market,
            rooms: Rooms::new(alloc),
        }
    }

    /// A request for quotes.
    pub(crate) fn ask(&mut self, who: Who, request: &QuoteRequest) -> Result<()> {
        let market = &self.market;
        let files = Files {
            participants: &market.participants,
            instruments: &market.instruments,
        };
        let Ok(plan) = self.rooms.plan_ask(files, who, request, market.moment) else {
            return Err(anyhow!("refused"));
        };
        self.rooms.apply(plan);
        Ok(())
    }

    /// A quote; whether it is the first in its room.
    pub(crate) fn quote(&mut self, who: Who, quote: &Quote) -> Result<bool> {
        let market = &self.market;
        let files = Files {
            participants: &market.participants,
            instruments: &market.instruments,
        };
        let Ok(plan) = self.rooms.plan_quote(files, who, quote, market.moment) else {
            return Err(anyhow!("refused"));
        };
        let Some(number) = room_quoted(&plan) else {
            return Err(anyhow!("no quote"));
        };
        let Some(room) = self.rooms.room(number) else {
            return Err(anyhow!("no room"));
        };
        let first = !self.rooms.has_quote(room.number);
        self.rooms.apply(plan);
        Ok(first)
    }

    /// A hit of a quote; its maker.
    pub(crate) fn hit(&mut self, who: Who, response: &QuoteResponse) -> Result<Who> {
        let Ok(plan) = self.rooms.plan_answer(who, response, self.market.moment) else {
            return Err(anyhow!("refused"));
        };
        let Some(number) = quote_hit(&plan) else {
            return Err(anyhow!("no hit"));
        };
        let Some(quote) = self.rooms.quote(number) else {
            return Err(anyhow!("no quote"));
        };
        let Some(_room) = self.rooms.room(quote.room) else {
            return Err(anyhow!("no room"));
        };
        let maker = quote.maker;
        self.rooms.apply(plan);
        Ok(maker)
    }
}
