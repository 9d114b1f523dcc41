//! Trades, as a chart shows them.

ghost use Rattle.std.specs.Prelude.{◌≡◌, ◌++◌, [], IfOk, OnOk, option_copied};
ghost use Rattle.std.specs.List.{cons_option};
ghost use Rattle.instrument_charts.specs.Deals.{deal_by, deal_of, deals, deals_in, first_moment, is_in, last_moment, moment_or_start};
ghost use Rattle.day_tables.specs.Lists.{kept_if};

use day_events::Event;
use day_sections::report_of;
use fix_dictionary::{Price, Quantity};
use sef_moment::Moment;
use std::alloc::{AllocError, Global};
use venue_rules::{TradeFact, TrailRow};

/// A trade, at the moment of the row that reports it.
#[derive(Clone, Copy)]
pub struct Deal {
    pub number: u64,
    /// its instrument's place in the file, from 0
    pub instrument: u32,
    pub moment: Moment,
    pub quantity: Quantity,
    pub price: Price,
    pub is_request: bool,
}

fn deal_of(trade: &TradeFact, report: Option<Event>) -> Option<Deal>
    ensures { result ≡ deal_of trade.now report }
{
    match report {
        None => None,
        Some(report) => Some(Deal {
            number: trade.number,
            instrument: trade.instrument,
            moment: report.at.moment,
            quantity: trade.quantity,
            price: trade.price,
            is_request: trade.room.is_some(),
        }),
    }
}

fn deal_by(reports: &[Event], trade: &TradeFact) -> Option<Deal>
    ensures { result ≡ deal_by reports.now trade.now }
{
    deal_of(trade, report_of(reports, trade.number))
}

fn push_deal(deals: &mut Vec<Deal>, deal: Option<Deal>) -> Result<(), AllocError>
    ensures { OnOk result (deals.new.items ≡ deals.old.items ++ cons_option deal []) }
{
    // Types of its content, named here because the proof of the push needs each.
    let _price: Option<Price> = None;
    let _quantity: Option<Quantity> = None;
    let _moment: Option<Moment> = None;
    match deal {
        Some(deal) => match deals.push(deal) {
            Ok(()) => Ok(()),
            Err(_) => Err(AllocError),
        },
        None => Ok(()),
    }
}

/// The trades of a day, by their reports; one without a report, of which there is none, is left out.
pub fn deals_of(
    alloc: Global,
    trades: &[TradeFact],
    reports: &[Event],
) -> Result<Vec<Deal>, AllocError>
    ensures { IfOk result (λ made. made.items ≡ deals trades.now reports.now) }
{
    let mut deals = Vec::new(alloc);
    for trade in trades {
        push_deal(&mut deals, deal_by(reports, trade))?;
    }
    Ok(deals)
}

fn is_in(instrument: u32, deal: &Deal) -> bool
    ensures { result ≡ is_in instrument deal.now }
{
    deal.instrument == instrument
}

/// Appends a trade, if it is kept.
fn keep(deals: &mut Vec<Deal>, deal: &Deal, kept: bool) -> Result<(), AllocError>
    ensures { OnOk result (deals.new.items ≡ deals.old.items ++ kept_if kept deal.now) }
{
    // Types of its content, named here because the proof of the push needs each.
    let _price: Option<Price> = None;
    let _quantity: Option<Quantity> = None;
    let _moment: Option<Moment> = None;
    if !kept {
        return Ok(());
    }
    match deals.push(*deal) {
        Ok(()) => Ok(()),
        Err(_) => Err(AllocError),
    }
}

/// The trades of an instrument.
pub(crate) fn deals_in(
    alloc: Global,
    deals: &[Deal],
    instrument: u32,
) -> Result<Vec<Deal>, AllocError>
    ensures { IfOk result (λ kept. kept.items ≡ deals_in instrument deals.now) }
{
    let mut kept = Vec::new(alloc);
    for deal in deals {
        keep(&mut kept, deal, is_in(instrument, deal))?;
    }
    Ok(kept)
}

fn moment_or_start(row: Option<&TrailRow>) -> Moment
    ensures { result ≡ moment_or_start (option_copied row.entry) }
{
    match row {
        None => Moment::EPOCH,
        Some(row) => row.moment,
    }
}

/// The moment of the first row.
pub fn first_moment(rows: &[TrailRow]) -> Moment
    ensures { result ≡ first_moment rows.now }
{
    moment_or_start(rows.first())
}

/// The moment of the last row.
pub fn last_moment(rows: &[TrailRow]) -> Moment
    ensures { result ≡ last_moment rows.now }
{
    moment_or_start(rows.last())
}
