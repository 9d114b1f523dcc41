//! The best prices of an instrument, and their changes.

ghost use Rattle.std.specs.Prelude.{◌≡◌, ℕ, ◌<◌, true, List, ◌++◌, length, IfOk, IfSome, OnOk};
ghost use Rattle.instruments.specs.Rows.{is_instrument_file};
ghost use Rattle.venue_rules.specs.declared.facts.Fact.{Fact};
ghost use Rattle.venue_rules.specs.Facts.{History};
ghost use Rattle.venue_core.specs.VenueFacts.{IsHistory};
ghost use Rattle.market_laws.specs.OneBook.{order_symbol, reported_symbol};
ghost use Rattle.day_events.specs.Bests.{AddsChanges, OthersStay, changed, is_same_price, is_same_top, reported_in, top_of, tops};

use fix_dictionary::{Identifier, Price, Side};
use instruments::Instruments;
use sef_moment::Moment;
use std::alloc::{AllocError, Global};
use venue_core::Venue;
use venue_rules::{Reply, ReplyBody, TrailRow};

/// The best prices of an instrument: the highest of its resting buys, and the lowest of its resting sells; none on a
/// side where no order rests.
#[derive(Clone, Copy)]
pub struct Top {
    pub bid: Option<Price>,
    pub offer: Option<Price>,
}

/// The best prices of an instrument after a row, of which one is another than before it.
#[derive(Clone, Copy)]
pub struct Best {
    pub row: u64,
    pub moment: Moment,
    /// its place in the instrument file, from 0
    pub instrument: u32,
    pub bid: Option<Price>,
    pub offer: Option<Price>,
}

#[tactic(auto, unfolding(crate::specs::Bests::is_same_price))]
fn is_same_price(one: &Option<Price>, other: &Option<Price>) -> bool
    ensures { result ≡ is_same_price one.now other.now }
{
    match one {
        None => other.is_none(),
        Some(one) => match other {
            None => false,
            Some(other) => one.get() == other.get(),
        },
    }
}

fn is_same_top(one: &Top, other: &Top) -> bool
    ensures { result ≡ is_same_top one.now other.now }
{
    is_same_price(&one.bid, &other.bid) && is_same_price(&one.offer, &other.offer)
}

fn top_of(venue: &Venue, instrument: u32) -> Top
    ensures { (h : History) → IsHistory venue.now h → result ≡ top_of h.facts instrument }
{
    Top {
        bid: venue.best(instrument, Side::Buy),
        offer: venue.best(instrument, Side::Sell),
    }
}

/// The best prices of each instrument of a venue.
pub(crate) fn tops_of(alloc: Global, venue: &Venue) -> Result<Vec<Top>, AllocError>
    ensures tops { (h : History) → IsHistory venue.now h → IfOk result (λ v. v.items ≡ tops h.facts (length venue.now.market.instruments)) }
    ensures rule { is_instrument_file venue.now.market.instruments ≡ true }
{
    // A type of the content, named here because the proof of the loop needs it.
    let _price: Option<Price> = None;
    let mut tops = Vec::new(alloc);
    for place in 0..venue.instruments().len() {
        tops.push(top_of(venue, place as u32))?;
    }
    Ok(tops)
}

/// Appends the best prices of an instrument after a row, if they are others than before it.
fn push_changed(
    bests: &mut Vec<Best>,
    row: &TrailRow,
    instrument: u32,
    before: &Top,
    now: &Top,
) -> Result<(), AllocError>
    ensures { OnOk result (bests.new.items ≡ bests.old.items ++ changed row.now instrument before.now now.now) }
{
    if is_same_top(before, now) {
        return Ok(());
    }
    let best = Best {
        row: row.n,
        moment: row.moment,
        instrument,
        bid: now.bid,
        offer: now.offer,
    };
    match bests.push(best) {
        Ok(()) => Ok(()),
        Err(_) => Err(AllocError),
    }
}

/// The symbol of the report of an order that entered, replaced another, or was cancelled.
#[tactic(auto, unfolding(market_laws::specs::OneBook::order_symbol))]
fn order_symbol(what: &ReplyBody) -> Option<Identifier>
    ensures { result ≡ order_symbol what.now }
{
    match what {
        ReplyBody::OrderEntered(report) => Some(report.symbol),
        ReplyBody::OrderReplaced(report) => Some(report.order.symbol),
        ReplyBody::OrderCancelled(report) => Some(report.order.symbol),
        _ => None,
    }
}

/// The symbol of the order report with which an answer begins.
fn reported_symbol(replies: &[Reply]) -> Option<Identifier>
    ensures { result ≡ reported_symbol replies.now }
{
    match replies.first() {
        None => None,
        Some(reply) => order_symbol(&reply.what),
    }
}

/// The instrument of the order report with which an answer begins: no other's book changed.
pub(crate) fn reported_in(instruments: &Instruments, replies: &[Reply]) -> Option<u32>
    ensures { result ≡ reported_in instruments.now replies.now }
{
    match reported_symbol(replies) {
        None => None,
        Some(symbol) => instruments.find(symbol.as_slice()),
    }
}

/// Appends the change at a row of the reported instrument's best prices, and keeps those after it.
pub(crate) fn push_changes(
    venue: &Venue,
    reported: Option<u32>,
    tops: &mut Vec<Top>,
    bests: &mut Vec<Best>,
    row: &TrailRow,
) -> Result<(), AllocError>
    requires each { length tops.old.items ≡ length venue.now.market.instruments }
    requires within { IfSome reported (λ x. x < length venue.now.market.instruments) }
    ensures { (h : History) → IsHistory venue.now h → (before : List Fact) → OthersStay reported (length venue.now.market.instruments) before h.facts → OnOk result (AddsChanges row.now before h.facts (length venue.now.market.instruments) tops.old.items tops.new.items bests.old.items bests.new.items) }
{
    match reported {
        None => Ok(()),
        Some(place) => {
            let now = top_of(venue, place);
            push_changed(bests, row, place, &tops[place as usize], &now)?;
            tops[place as usize] = now;
            Ok(())
        }
    }
}
