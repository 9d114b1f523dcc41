//! The section of the trades of linked orders.

ghost use Rattle.std.specs.Prelude.{◌≡◌, IfOk, OnOk, length};
ghost use Rattle.std.specs.List.{flat_map};
ghost use Rattle.sef_moment.specs.Utc.{utc_text};
ghost use Rattle.page_text.specs.Parts.{with_part, with_parts};
ghost use Rattle.day_tables.specs.Parts.{each_from};
ghost use Rattle.day_tables.specs.Values.{clock_text};
ghost use Rattle.day_sections.specs.Folds.{folded, folds_200, whole_or_folded};
ghost use Rattle.alarm_sections.specs.Linked.{end_part, held_part, linked_parts, linked_trades_parts, more_part, pair_part, some_linked, table_parts, times_part, trade_alone, trade_link, trade_part};

use crate::template::{
    BY_CLOCK, BY_MESSAGE, CELL_END, LINKED, LINKED_TIMES, LINKED_TRADE, LIST_END, MORE_LINKED,
    NO_LINKED, SECTION_END, TABLE_OF_LINKED, TRADE_ALONE, TRADE_LINK,
};
use day_sections::{
    MOST_FOLDED, add_fold_end, add_fold_head, add_row_number, folds_200, is_listed, of_200, up_to,
};
use day_tables::{clock_text, grouped_text, name_at, number_text};
use page_text::Page;
use participants::Participants;
use sef_moment::{Moment, print_utc};
use std::alloc::{AllocError, Global};
use surveillance::LinkedTrade;

/// What the lines are printed from.
#[derive(Clone, Copy)]
pub struct Lines<'a> {
    pub participants: &'a Participants,
    /// the rows are on the page
    pub shown: bool,
    /// the trail is of several dates
    pub dated: bool,
}

fn time_of(alloc: Global, dated: bool, moment: Moment) -> Result<Vec<u8>, AllocError>
    ensures { IfOk result (λ text. text.items ≡ clock_text dated (utc_text moment)) }
{
    let printed = print_utc(moment);
    Vec::from_slice(alloc, clock_text(dated, &printed))
}

/// Adds the number of a trade that is on the page.
fn add_trade_link(alloc: Global, page: &mut Page, trade: u64) -> Result<(), AllocError>
    ensures { OnOk result (page.new ≡ with_part page.old (trade_link trade)) }
{
    let number = number_text(alloc, trade)?;
    page.add(TRADE_LINK, &[&number, &number, &number])
}

/// Adds the number of one that is not.
fn add_trade_alone(alloc: Global, page: &mut Page, trade: u64) -> Result<(), AllocError>
    ensures { OnOk result (page.new ≡ with_part page.old (trade_alone trade)) }
{
    let number = number_text(alloc, trade)?;
    page.add(TRADE_ALONE, &[&number, &number])
}

/// Adds the number of a trade: a link, if it is on the page.
fn add_trade_number(alloc: Global, page: &mut Page, trade: u64) -> Result<(), AllocError>
    ensures { OnOk result (page.new ≡ with_part page.old (trade_part trade)) }
{
    if is_listed(trade) {
        add_trade_link(alloc, page, trade)
    } else {
        add_trade_alone(alloc, page, trade)
    }
}

/// Adds the parties of a trade, and when both orders entered.
fn add_pair(
    alloc: Global,
    page: &mut Page,
    lines: &Lines<'_>,
    trade: &LinkedTrade,
) -> Result<(), AllocError>
    ensures { OnOk result (page.new ≡ with_part page.old (pair_part lines.now.participants.now lines.now.dated trade.now)) }
{
    let buyer = name_at(lines.participants, trade.buyer);
    let seller = name_at(lines.participants, trade.seller);
    let first = time_of(alloc, lines.dated, trade.first.moment)?;
    let second = time_of(alloc, lines.dated, trade.second.moment)?;
    page.add(LINKED_TRADE, &[buyer, seller, &first, &second])
}

/// Adds whether the second order entered at a row of the clock.
fn add_held(page: &mut Page, is_held: bool) -> Result<(), AllocError>
    ensures { OnOk result (page.new ≡ with_part page.old (held_part is_held)) }
{
    if is_held {
        page.add(BY_CLOCK, &[])
    } else {
        page.add(BY_MESSAGE, &[])
    }
}

fn add_times(alloc: Global, page: &mut Page, trade: &LinkedTrade) -> Result<(), AllocError>
    ensures { OnOk result (page.new ≡ with_part page.old (times_part trade.now)) }
{
    let between = grouped_text(alloc, trade.between)?;
    let delay = grouped_text(alloc, trade.delay)?;
    page.add(LINKED_TIMES, &[&between, &delay])
}

/// Adds a trade.
fn add_one(
    alloc: Global,
    page: &mut Page,
    lines: &Lines<'_>,
    trade: &LinkedTrade,
) -> Result<(), AllocError>
    ensures { OnOk result (page.new ≡ with_parts page.old (linked_parts lines.now.participants.now lines.now.shown lines.now.dated trade.now)) }
{
    add_trade_number(alloc, page, trade.trade)?;
    add_pair(alloc, page, lines, trade)?;
    add_held(page, trade.is_held)?;
    add_times(alloc, page, trade)?;
    add_row_number(alloc, page, lines.shown, trade.first.row)?;
    add_row_number(alloc, page, lines.shown, trade.second.row)?;
    page.add(CELL_END, &[])
}

/// Adds some trades, in order.
fn add_each(
    alloc: Global,
    page: &mut Page,
    lines: &Lines<'_>,
    trades: &[LinkedTrade],
) -> Result<(), AllocError>
    ensures { OnOk result (page.new ≡ with_parts page.old (flat_map (linked_parts lines.now.participants.now lines.now.shown lines.now.dated) trades.now)) }
{
    for trade in trades {
        add_one(alloc, page, lines, trade)?;
    }
    Ok(())
}

/// Adds a table of some trades.
fn add_table(
    alloc: Global,
    page: &mut Page,
    lines: &Lines<'_>,
    trades: &[LinkedTrade],
) -> Result<(), AllocError>
    ensures { OnOk result (page.new ≡ with_parts page.old (table_parts lines.now.participants.now lines.now.shown lines.now.dated trades.now)) }
{
    page.add(TABLE_OF_LINKED, &[])?;
    add_each(alloc, page, lines, trades)?;
    page.add(LIST_END, &[])
}

/// Adds a fold of 200 trades.
fn add_fold(
    alloc: Global,
    page: &mut Page,
    lines: &Lines<'_>,
    trades: &[LinkedTrade],
    number: usize,
) -> Result<(), AllocError>
    ensures { OnOk result (page.new ≡ with_parts page.old (folded (table_parts lines.now.participants.now lines.now.shown lines.now.dated) trades.now number)) }
{
    let some = of_200(trades, number);
    add_fold_head(alloc, page, number, some.len())?;
    add_table(alloc, page, lines, some)?;
    add_fold_end(page)
}

/// Adds all folds.
fn add_folds(
    alloc: Global,
    page: &mut Page,
    lines: &Lines<'_>,
    trades: &[LinkedTrade],
) -> Result<(), AllocError>
    ensures { OnOk result (page.new ≡ with_parts page.old (each_from (folded (table_parts lines.now.participants.now lines.now.shown lines.now.dated) trades.now) 0 (folds_200 (length trades.now)))) }
{
    for number in 0..folds_200(trades.len()) {
        add_fold(alloc, page, lines, trades, number)?;
    }
    Ok(())
}

/// Adds trades whole, or in folds.
fn add_listed(
    alloc: Global,
    page: &mut Page,
    lines: &Lines<'_>,
    trades: &[LinkedTrade],
) -> Result<(), AllocError>
    ensures { OnOk result (page.new ≡ with_parts page.old (whole_or_folded (table_parts lines.now.participants.now lines.now.shown lines.now.dated) trades.now)) }
{
    if trades.len() <= 200 {
        add_table(alloc, page, lines, trades)
    } else {
        add_folds(alloc, page, lines, trades)
    }
}

/// Adds the end of the section, and how many more there are.
fn add_more(alloc: Global, page: &mut Page, more: usize) -> Result<(), AllocError>
    ensures { OnOk result (page.new ≡ with_part page.old (more_part more)) }
{
    let count = grouped_text(alloc, more as u64)?;
    page.add(MORE_LINKED, &[&count])
}

/// Adds the end of the section: whether all are there, or how many more there are.
fn add_end(alloc: Global, page: &mut Page, count: usize) -> Result<(), AllocError>
    ensures { OnOk result (page.new ≡ with_part page.old (end_part count)) }
{
    if count <= MOST_FOLDED {
        page.add(SECTION_END, &[])
    } else {
        add_more(alloc, page, count - MOST_FOLDED)
    }
}

/// Adds the section of a day with trades of linked orders.
fn add_some(
    alloc: Global,
    page: &mut Page,
    lines: &Lines<'_>,
    trades: &[LinkedTrade],
) -> Result<(), AllocError>
    ensures { OnOk result (page.new ≡ with_parts page.old (some_linked lines.now.participants.now lines.now.shown lines.now.dated trades.now)) }
{
    let count = grouped_text(alloc, trades.len() as u64)?;
    page.add(LINKED, &[&count])?;
    add_listed(alloc, page, lines, up_to(trades, MOST_FOLDED))?;
    add_end(alloc, page, trades.len())
}

/// Adds the section of the trades of linked orders; each with links to the rows of its orders, if the rows are on the
/// page.
pub fn add_linked(
    alloc: Global,
    page: &mut Page,
    lines: &Lines<'_>,
    trades: &[LinkedTrade],
) -> Result<(), AllocError>
    ensures { OnOk result (page.new ≡ with_parts page.old (linked_trades_parts lines.now.participants.now lines.now.shown lines.now.dated trades.now)) }
{
    if trades.len() == 0 {
        page.add(NO_LINKED, &[])
    } else {
        add_some(alloc, page, lines, trades)
    }
}
