//! The day in six figures.

ghost use Rattle.std.specs.Prelude.{◌≡◌, OnOk, length};
ghost use Rattle.page_text.specs.Parts.{with_part};
ghost use Rattle.day_sections.specs.Figures.{figures_part};

use crate::counts::{Kind, count, count_sent};
use crate::rooms::{many, rooms_of};
use crate::template::FIGURES;
use day_events::Event;
use day_tables::{Place, grouped_text, number, quantity, wide_text};
use page_text::Page;
use participants::Participants;
use std::alloc::{AllocError, Global};
use venue_rules::{TradeFact, TrailRow};

/// Adds the day in six figures.
pub fn add_figures(
    alloc: Global,
    page: &mut Page,
    participants: &Participants,
    rows: &[TrailRow],
    trades: &[TradeFact],
    events: &[Event],
) -> Result<(), AllocError>
    ensures { OnOk result (page.new ≡ with_part page.old (figures_part participants.now rows.now trades.now events.now)) }
{
    let messages = grouped_text(alloc, count_sent(rows, None) as u64)?;
    let people = grouped_text(alloc, participants.len() as u64)?;
    let all = grouped_text(alloc, rows.len() as u64)?;
    let orders = grouped_text(alloc, count(events, Kind::Entered, None) as u64)?;
    let traded = grouped_text(alloc, trades.len() as u64)?;
    let of_book = grouped_text(alloc, number(trades, None, Place::Book))?;
    let of_requests = grouped_text(alloc, number(trades, None, Place::Request))?;
    let volume = wide_text(alloc, quantity(trades, None, Place::Anywhere))?;
    let in_book = wide_text(alloc, quantity(trades, None, Place::Book))?;
    let in_requests = wide_text(alloc, quantity(trades, None, Place::Request))?;
    let asked = rooms_of(alloc, events)?;
    let requests = grouped_text(alloc, many(&asked))?;
    let quotes = grouped_text(alloc, count(events, Kind::Quotes, None) as u64)?;
    let hits = grouped_text(alloc, count(events, Kind::Hits, None) as u64)?;
    let refusals = grouped_text(alloc, count(events, Kind::Refused, None) as u64)?;
    page.add(
        FIGURES,
        &[
            &messages,
            &people,
            &all,
            &orders,
            &traded,
            &of_book,
            &of_requests,
            &volume,
            &in_book,
            &in_requests,
            &requests,
            &quotes,
            &hits,
            &refusals,
        ],
    )
}
