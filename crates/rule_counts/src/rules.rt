//! The section of the rules: what Part 37 asks, and the day's count.

ghost use Rattle.std.specs.Prelude.{◌≡◌, ◌<◌, IfOk, OnOk, length};
ghost use Rattle.page_text.specs.Parts.{with_part, with_parts};
ghost use Rattle.day_tables.specs.Parts.{each_from};
ghost use Rattle.rule_counts.specs.Rules.{adjusted_part, adjusted_parts, book_part, rules_part, rules_parts, ruled_day, time_text};

use crate::counts::{adjusted, is_adjusted, least_over, near, refused_for};
use crate::template::{ADJUSTED, RULES, RULES_END};
use day_events::{Event, ShownPrice};
use day_tables::{Place, grouped_text, number, symbol_at};
use instruments::Instruments;
use page_text::Page;
use std::alloc::{AllocError, Global};
use surveillance::LinkedTrade;
use venue_rules::TradeFact;

/// What the section counts of a day: the number of its requests, its trades, what its answers say, the prices shown
/// with first quotes, and the trades of linked orders.
#[derive(Clone, Copy)]
pub struct Ruled<'a> {
    pub requests: u64,
    pub trades: &'a [TradeFact],
    pub events: &'a [Event],
    pub shown: &'a [ShownPrice],
    pub linked: &'a [LinkedTrade],
}

fn time_text(alloc: Global, time: Option<u64>) -> Result<Vec<u8>, AllocError>
    ensures { IfOk result (λ text. text.items ≡ time_text time) }
{
    match time {
        None => Vec::from_slice(alloc, b"no such trade"),
        Some(ms) => {
            let mut text = grouped_text(alloc, ms)?;
            text.extend_from_slice(b" ms")?;
            Ok(text)
        }
    }
}

/// Adds the rules up to the delays that were adjusted.
fn add_counts(
    alloc: Global,
    page: &mut Page,
    instruments: &Instruments,
    day: &Ruled<'_>,
) -> Result<(), AllocError>
    ensures { OnOk result (page.new ≡ with_part page.old (rules_part instruments.now (ruled_day day.now))) }
{
    let requests = grouped_text(alloc, day.requests)?;
    let traded = grouped_text(alloc, number(day.trades, None, Place::Request))?;
    let few = grouped_text(alloc, refused_for(day.events, b"Too few recipients"))?;
    let related = grouped_text(alloc, refused_for(day.events, b"Recipients not unrelated"))?;
    let shown = grouped_text(alloc, day.shown.len() as u64)?;
    let linked = grouped_text(alloc, day.linked.len() as u64)?;
    let nearer = grouped_text(alloc, near(day.linked))?;
    let least = time_text(alloc, least_over(day.linked))?;
    let recent = grouped_text(alloc, refused_for(day.events, b"Linked order too recent"))?;
    let others = grouped_text(alloc, adjusted(instruments))?;
    page.add(
        RULES,
        &[
            &requests, &traded, &few, &related, &shown, &requests, &linked, &nearer, &least,
            &recent, &others,
        ],
    )
}

fn add_adjusted(
    alloc: Global,
    page: &mut Page,
    instruments: &Instruments,
    instrument: u32,
) -> Result<(), AllocError>
    requires within { instrument < length instruments.now }
    ensures { OnOk result (page.new ≡ with_part page.old (adjusted_part instruments.now instrument)) }
{
    let delay = grouped_text(alloc, instruments.delay(instrument))?;
    page.add(ADJUSTED, &[symbol_at(instruments, instrument), &delay])
}

/// Adds an instrument, if its delay was adjusted.
fn add_if_adjusted(
    alloc: Global,
    page: &mut Page,
    instruments: &Instruments,
    instrument: u32,
) -> Result<(), AllocError>
    requires within { instrument < length instruments.now }
    ensures { OnOk result (page.new ≡ with_parts page.old (adjusted_parts instruments.now instrument)) }
{
    if is_adjusted(instruments.delay(instrument)) {
        add_adjusted(alloc, page, instruments, instrument)
    } else {
        Ok(())
    }
}

/// Adds the instruments whose delay was adjusted.
fn add_each(alloc: Global, page: &mut Page, instruments: &Instruments) -> Result<(), AllocError>
    ensures { OnOk result (page.new ≡ with_parts page.old (each_from (adjusted_parts instruments.now) 0 (length instruments.now))) }
{
    for instrument in 0..instruments.len() {
        add_if_adjusted(alloc, page, instruments, instrument as u32)?;
    }
    Ok(())
}

fn add_book(alloc: Global, page: &mut Page, day: &Ruled<'_>) -> Result<(), AllocError>
    ensures { OnOk result (page.new ≡ with_part page.old (book_part (ruled_day day.now))) }
{
    let book = grouped_text(alloc, number(day.trades, None, Place::Book))?;
    page.add(RULES_END, &[&book])
}

/// Adds what Part 37 asks, rule by rule, and what is counted of the day.
pub fn add_rules(
    alloc: Global,
    page: &mut Page,
    instruments: &Instruments,
    day: &Ruled<'_>,
) -> Result<(), AllocError>
    ensures { OnOk result (page.new ≡ with_parts page.old (rules_parts instruments.now (ruled_day day.now))) }
{
    add_counts(alloc, page, instruments, day)?;
    add_each(alloc, page, instruments)?;
    add_book(alloc, page, day)
}
