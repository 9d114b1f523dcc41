//! The section of the trades.

ghost use Rattle.std.specs.Prelude.{◌≡◌, OnOk, IfOk, option_copied};
ghost use Rattle.std.specs.List.{flat_map};
ghost use Rattle.page_text.specs.Parts.{with_part, with_parts};
ghost use Rattle.day_sections.specs.Folds.{folds};
ghost use Rattle.day_sections.specs.Trades.{by_hour, deal_part, end_by, end_part, first_report, head_part, hour_at, hour_part, hour_parts, hour_text, hours, fold_parts, linked_part, listed_parts, flag_part, more_part, number_of, place_part, room_part, row_of_part, sheet_of, some_of_hour, some_trades, table_parts, time_text, trade_parts, trades_parts};

use crate::flags::{Flag, flag_at};
use crate::folds::{Fold, folds_of, hour_of, up_to, within};
use crate::reports::report_of;
use crate::template::{
    CELL_END, DEAL, FOLD_END, HELD_SIDE, HOUR, HOUR_END_MORE, HOUR_LINE, IN_BOOK, IN_ROOM,
    LINKED_ORDERS, LIST_END, NO_ROW, NO_TRADE, TABLE_OF_TRADES, TRADE, TRADES, TRADES_END,
    UNLINKED,
};
use crate::values::{MOST_TRADES, add_row_number};
use day_events::Event;
use day_tables::{
    Place, clock_text, grouped_text, name_at, number_text, quantity, symbol_at, tick_at,
    ticked_price, wide_text,
};
use instruments::Instruments;
use page_text::Page;
use participants::Participants;
use sef_moment::print_utc;
use std::alloc::{AllocError, Global};
use venue_rules::TradeFact;

/// What the trades of a day are printed from.
#[derive(Clone, Copy)]
pub struct Reported<'a> {
    pub participants: &'a Participants,
    pub instruments: &'a Instruments,
    pub reports: &'a [Event],
    pub flags: &'a [Flag],
    /// the rows are on the page
    pub shown: bool,
    /// the trail is of several dates
    pub dated: bool,
}

/// The time of what is reported; empty where there is no report.
fn time_text(alloc: Global, dated: bool, report: &Option<Event>) -> Result<Vec<u8>, AllocError>
    ensures { IfOk result (λ text. text.items ≡ time_text dated report.now) }
{
    match report {
        None => Ok(Vec::new(alloc)),
        Some(report) => {
            let moment = print_utc(report.at.moment);
            Vec::from_slice(alloc, clock_text(dated, &moment))
        }
    }
}

/// Adds the number of a trade, its time and its instrument.
fn add_head(
    alloc: Global,
    page: &mut Page,
    reported: &Reported<'_>,
    trade: &TradeFact,
    report: &Option<Event>,
) -> Result<(), AllocError>
    ensures { OnOk result (page.new ≡ with_part page.old (head_part (sheet_of reported.now) trade.now report.now)) }
{
    let number = number_text(alloc, trade.number)?;
    let time = time_text(alloc, reported.dated, report)?;
    let instrument = number_text(alloc, u64::from(trade.instrument))?;
    let symbol = symbol_at(reported.instruments, trade.instrument);
    page.add(TRADE, &[&number, &number, &time, &instrument, symbol])
}

fn add_room(alloc: Global, page: &mut Page, room: u64) -> Result<(), AllocError>
    ensures { OnOk result (page.new ≡ with_part page.old (room_part room)) }
{
    let number = number_text(alloc, room)?;
    page.add(IN_ROOM, &[&number, &number])
}

/// Adds where it was made.
fn add_place(alloc: Global, page: &mut Page, room: Option<u64>) -> Result<(), AllocError>
    ensures { OnOk result (page.new ≡ with_part page.old (place_part room)) }
{
    match room {
        None => page.add(IN_BOOK, &[]),
        Some(room) => add_room(alloc, page, room),
    }
}

/// Adds that its orders are linked, with the template of this flag.
fn add_linked(
    alloc: Global,
    page: &mut Page,
    template: &'static [u8],
    trade: u64,
) -> Result<(), AllocError>
    ensures { OnOk result (page.new ≡ with_part page.old (linked_part template.now trade)) }
{
    let number = number_text(alloc, trade)?;
    page.add(template, &[&number])
}

/// Adds its flag: a link to its line among the trades of linked orders, if it has one.
fn add_flag(alloc: Global, page: &mut Page, flag: Flag, trade: u64) -> Result<(), AllocError>
    ensures { OnOk result (page.new ≡ with_part page.old (flag_part flag trade)) }
{
    match flag {
        Flag::Unlinked => page.add(UNLINKED, &[]),
        Flag::Linked => add_linked(alloc, page, LINKED_ORDERS, trade),
        Flag::Held => add_linked(alloc, page, HELD_SIDE, trade),
    }
}

/// Adds its quantity, price and parties.
fn add_deal(
    alloc: Global,
    page: &mut Page,
    reported: &Reported<'_>,
    trade: &TradeFact,
) -> Result<(), AllocError>
    ensures { OnOk result (page.new ≡ with_part page.old (deal_part (sheet_of reported.now) trade.now)) }
{
    let quantity = grouped_text(alloc, trade.quantity.get())?;
    let tick = tick_at(reported.instruments, trade.instrument);
    let price = ticked_price(alloc, tick, trade.price)?;
    let buyer = name_at(reported.participants, trade.buyer);
    let seller = name_at(reported.participants, trade.seller);
    page.add(DEAL, &[&quantity, &price, buyer, seller])
}

/// Adds the row at which it was reported.
fn add_row_of(
    alloc: Global,
    page: &mut Page,
    shown: bool,
    report: &Option<Event>,
) -> Result<(), AllocError>
    ensures { OnOk result (page.new ≡ with_part page.old (row_of_part shown report.now)) }
{
    match report {
        None => page.add(NO_ROW, &[]),
        Some(report) => add_row_number(alloc, page, shown, report.at.row),
    }
}

/// Adds a trade.
fn add_trade(
    alloc: Global,
    page: &mut Page,
    reported: &Reported<'_>,
    trade: &TradeFact,
) -> Result<(), AllocError>
    ensures { OnOk result (page.new ≡ with_parts page.old (trade_parts (sheet_of reported.now) trade.now)) }
{
    let report = report_of(reported.reports, trade.number);
    let flag = flag_at(reported.flags, trade.number);
    add_head(alloc, page, reported, trade, &report)?;
    add_place(alloc, page, trade.room)?;
    add_flag(alloc, page, flag, trade.number)?;
    add_deal(alloc, page, reported, trade)?;
    add_row_of(alloc, page, reported.shown, &report)?;
    page.add(CELL_END, &[])
}

/// Adds some trades, in order.
fn add_each(
    alloc: Global,
    page: &mut Page,
    reported: &Reported<'_>,
    trades: &[TradeFact],
) -> Result<(), AllocError>
    ensures { OnOk result (page.new ≡ with_parts page.old (flat_map (trade_parts (sheet_of reported.now)) trades.now)) }
{
    for trade in trades {
        add_trade(alloc, page, reported, trade)?;
    }
    Ok(())
}

/// Adds a table of some trades.
fn add_table(
    alloc: Global,
    page: &mut Page,
    reported: &Reported<'_>,
    trades: &[TradeFact],
) -> Result<(), AllocError>
    ensures { OnOk result (page.new ≡ with_parts page.old (table_parts (sheet_of reported.now) trades.now)) }
{
    page.add(TABLE_OF_TRADES, &[])?;
    add_each(alloc, page, reported, trades)?;
    page.add(LIST_END, &[])
}

/// The hour of what is reported.
fn hour_at(report: &Option<Event>) -> u64
    ensures { result ≡ hour_at report.now }
{
    match report {
        None => 0,
        Some(report) => hour_of(report.at.moment),
    }
}

/// The hours of trades.
fn hours_of(alloc: Global, reports: &[Event], trades: &[TradeFact]) -> Result<Vec<u64>, AllocError>
    ensures { IfOk result (λ made. made.items ≡ hours reports.now trades.now) }
{
    let mut hours = Vec::new(alloc);
    for trade in trades {
        hours.push(hour_at(&report_of(reports, trade.number)))?;
    }
    Ok(hours)
}

/// The date and hour of what is reported, as 20250303-14.
fn hour_text(alloc: Global, report: &Option<Event>) -> Result<Vec<u8>, AllocError>
    ensures { IfOk result (λ text. text.items ≡ hour_text report.now) }
{
    match report {
        None => Ok(Vec::new(alloc)),
        Some(report) => {
            let moment = print_utc(report.at.moment);
            Vec::from_slice(alloc, up_to(&moment, 11))
        }
    }
}

fn text_of(alloc: Global, trade: Option<&TradeFact>) -> Result<Vec<u8>, AllocError>
    ensures { IfOk result (λ text. text.items ≡ number_of (option_copied trade.entry)) }
{
    match trade {
        None => Ok(Vec::new(alloc)),
        Some(trade) => number_text(alloc, trade.number),
    }
}

fn first_report(reports: &[Event], trade: Option<&TradeFact>) -> Option<Event>
    ensures { result ≡ first_report reports.now (option_copied trade.entry) }
{
    match trade {
        None => None,
        Some(trade) => report_of(reports, trade.number),
    }
}

/// Adds the hour of some trades; how many they are, the first and the last of them, and their quantity.
fn add_hour_head(
    alloc: Global,
    page: &mut Page,
    template: &'static [u8],
    reports: &[Event],
    trades: &[TradeFact],
) -> Result<(), AllocError>
    ensures { OnOk result (page.new ≡ with_part page.old (hour_part template.now reports.now trades.now)) }
{
    let hour = hour_text(alloc, &first_report(reports, trades.first()))?;
    let count = grouped_text(alloc, trades.len() as u64)?;
    let first = text_of(alloc, trades.first())?;
    let last = text_of(alloc, trades.last())?;
    let quantity = wide_text(alloc, quantity(trades, None, Place::Anywhere))?;
    page.add(template, &[&hour, &count, &first, &last, &quantity])
}

/// Adds the end of an hour of which some trades are left out: how many are there.
fn add_more(alloc: Global, page: &mut Page, listed: usize) -> Result<(), AllocError>
    ensures { OnOk result (page.new ≡ with_part page.old (more_part listed)) }
{
    let count = grouped_text(alloc, listed as u64)?;
    page.add(HOUR_END_MORE, &[&count])
}

/// Adds the end of an hour: whether it has all trades, or how many.
fn add_end_by(
    alloc: Global,
    page: &mut Page,
    is_whole: bool,
    listed: usize,
) -> Result<(), AllocError>
    ensures { OnOk result (page.new ≡ with_part page.old (end_by is_whole listed)) }
{
    if is_whole {
        page.add(FOLD_END, &[])
    } else {
        add_more(alloc, page, listed)
    }
}

/// Adds the end of an hour.
fn add_end(alloc: Global, page: &mut Page, all: usize, listed: usize) -> Result<(), AllocError>
    ensures { OnOk result (page.new ≡ with_part page.old (end_part all listed)) }
{
    add_end_by(alloc, page, all == listed, listed)
}

/// All trades of an hour, and those of them that have their part.
#[derive(Clone, Copy)]
struct Hour<'a> {
    all: &'a [TradeFact],
    listed: &'a [TradeFact],
}

/// Adds an hour with trades that have their part.
fn add_some_of_hour(
    alloc: Global,
    page: &mut Page,
    reported: &Reported<'_>,
    hour: &Hour<'_>,
) -> Result<(), AllocError>
    ensures { OnOk result (page.new ≡ with_parts page.old (some_of_hour (sheet_of reported.now) hour.now.all.now hour.now.listed.now)) }
{
    add_hour_head(alloc, page, HOUR, reported.reports, hour.all)?;
    add_table(alloc, page, reported, hour.listed)?;
    add_end(alloc, page, hour.all.len(), hour.listed.len())
}

/// Adds an hour: its line, if none of its trades has its part.
fn add_hour(
    alloc: Global,
    page: &mut Page,
    reported: &Reported<'_>,
    hour: &Hour<'_>,
) -> Result<(), AllocError>
    ensures { OnOk result (page.new ≡ with_parts page.old (hour_parts (sheet_of reported.now) hour.now.all.now hour.now.listed.now)) }
{
    if hour.listed.len() == 0 {
        add_hour_head(alloc, page, HOUR_LINE, reported.reports, hour.all)
    } else {
        add_some_of_hour(alloc, page, reported, hour)
    }
}

/// The folds of trades by the hour.
fn folds_by_hour(
    alloc: Global,
    reports: &[Event],
    trades: &[TradeFact],
) -> Result<Vec<Fold>, AllocError>
    ensures { IfOk result (λ made. made.items ≡ folds (hours reports.now trades.now)) }
{
    let hours = hours_of(alloc, reports, trades)?;
    folds_of(alloc, &hours)
}

/// The trades of a day, those of them that have their part, and the folds of both.
#[derive(Clone, Copy)]
struct Day<'a> {
    all: &'a [TradeFact],
    listed: &'a [TradeFact],
    folds: &'a [Fold],
}

/// Adds each of these hours.
fn add_each_hour(
    alloc: Global,
    page: &mut Page,
    reported: &Reported<'_>,
    day: &Day<'_>,
) -> Result<(), AllocError>
    ensures { OnOk result (page.new ≡ with_parts page.old (flat_map (fold_parts (sheet_of reported.now) day.now.all.now day.now.listed.now) day.now.folds.now)) }
{
    for fold in day.folds {
        let all = within(day.all, *fold);
        let listed = within(day.listed, *fold);
        let hour = Hour { all, listed };
        add_hour(alloc, page, reported, &hour)?;
    }
    Ok(())
}

/// Adds trades by the hour, a fold each.
fn add_by_hour(
    alloc: Global,
    page: &mut Page,
    reported: &Reported<'_>,
    trades: &[TradeFact],
) -> Result<(), AllocError>
    ensures { OnOk result (page.new ≡ with_parts page.old (by_hour (sheet_of reported.now) trades.now)) }
{
    let folds = folds_by_hour(alloc, reported.reports, trades)?;
    let day = Day {
        all: trades,
        listed: up_to(trades, MOST_TRADES),
        folds: &folds,
    };
    add_each_hour(alloc, page, reported, &day)
}

/// Adds the trades: a table, or the hours.
fn add_listed(
    alloc: Global,
    page: &mut Page,
    reported: &Reported<'_>,
    trades: &[TradeFact],
) -> Result<(), AllocError>
    ensures { OnOk result (page.new ≡ with_parts page.old (listed_parts (sheet_of reported.now) trades.now)) }
{
    if trades.len() <= 500 {
        add_table(alloc, page, reported, trades)
    } else {
        add_by_hour(alloc, page, reported, trades)
    }
}

/// Adds the section of a day with trades.
fn add_some(
    alloc: Global,
    page: &mut Page,
    reported: &Reported<'_>,
    trades: &[TradeFact],
) -> Result<(), AllocError>
    ensures { OnOk result (page.new ≡ with_parts page.old (some_trades (sheet_of reported.now) trades.now)) }
{
    let count = grouped_text(alloc, trades.len() as u64)?;
    page.add(TRADES, &[&count])?;
    add_listed(alloc, page, reported, trades)?;
    page.add(TRADES_END, &[])
}

/// Adds the section of the trades, each with the row at which it was reported.
pub fn add_trades(
    alloc: Global,
    page: &mut Page,
    reported: &Reported<'_>,
    trades: &[TradeFact],
) -> Result<(), AllocError>
    ensures { OnOk result (page.new ≡ with_parts page.old (trades_parts (sheet_of reported.now) trades.now)) }
{
    if trades.len() == 0 {
        page.add(NO_TRADE, &[])
    } else {
        add_some(alloc, page, reported, trades)
    }
}
