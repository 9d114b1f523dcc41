//! The page of a day, written.

ghost use Rattle.std.specs.Prelude.{◌≡◌, ◌≤◌, All, IfErr, IfOk, List, OnOk, length};
ghost use Rattle.std.specs.Io.KnownBytes.{Appends, Keeps};
ghost use Rattle.page_text.specs.Parts.{with_parts};
ghost use Rattle.trade_blotter.specs.declared.printing.PrintFault.TheVariants.{Memory, Output};
ghost use Rattle.trail_digest.specs.Trail.{trail_of};
ghost use Rattle.venue_core.specs.Plan.{most_items};
ghost use Rattle.venue_core.specs.Replay.{AreEmitted, IsItem};
ghost use Rattle.venue_core.specs.VenueFacts.{IsHistory};
ghost use Rattle.venue_rules.specs.Facts.{History};
ghost use Rattle.venue_rules.specs.Readings.{trade_facts};
ghost use Rattle.venue_rules.specs.Run.{Input};
ghost use Rattle.day_page.specs.Printed.{EmitsPage, IsDay, IsPage};
ghost use Rattle.day_page.specs.Sections.{answered_parts, charts_parts, counts_parts, crossed_parts, found_in, found_of, law_parts, reported_parts, said_of, tables_parts, watched_parts};

use crate::head::add_head;
use crate::rows::add_rows;
use crate::template::END;
use alarm_sections::{Lines, add_alarms, add_linked};
use cross_sections::{Form, add_crosses, crosses_of};
use day_events::{Event, PricedDay, priced_day_of};
use day_sections::{
    Counted, Reported, add_figures, add_people, add_refusals, add_trades, are_shown, flags_of,
    is_dated, many, reports_of, rooms_of,
};
use day_tables::add_bulletin;
use instrument_charts::{Charted, add_instruments, deals_of, first_moment, last_moment, rests_of};
use instruments::Instruments;
use page_text::Page;
use participants::Participants;
use request_sections::add_requests;
use row_replay::rows_have_their_inputs;
use rule_counts::{Ruled, add_rules};
use std::alloc::{AllocError, Global};
use std::io::Write;
use surveillance::{Deed, Findings, LinkedTrade, Watched, findings_of, usual_bounds};
use trade_blotter::PrintFault;
use trail_digest::Contents;
use venue_rules::TrailRow;

fn write_text<W: Write>(text: &[u8], writer: &mut W) -> Result<(), PrintFault>
    ensures written { OnOk result (Appends (W.contents writer.old) (W.contents writer.new) text.now) }
    ensures output { IfErr result (λ fault. fault ≡ Output) }
{
    match writer.write_all(text) {
        Ok(()) => Ok(()),
        Err(_) => Err(PrintFault::Output),
    }
}

/// What surveillance finds in a day, by the usual bounds.
fn found_in(alloc: Global, day: &PricedDay) -> Result<Findings, AllocError>
    ensures { (h : History) → IsHistory day.now.venue h → IfOk result (λ found. found_of found ≡ found_in day.now.venue.market (trade_facts h.facts) (said_of day.now)) }
{
    let bounds = usual_bounds();
    let venue = &day.venue;
    let participants = venue.participants();
    let instruments = venue.instruments();
    let watched = Watched {
        trades: venue.trades(),
        events: &day.events,
        shown: &day.shown,
    };
    findings_of(alloc, &bounds, participants, instruments, &watched)
}

/// Adds what Part 37 asks, and the day's count.
fn add_law(
    alloc: Global,
    page: &mut Page,
    day: &PricedDay,
    linked: &[LinkedTrade],
) -> Result<(), AllocError>
    ensures { (h : History) → IsHistory day.now.venue h → OnOk result (page.new ≡ with_parts page.old (law_parts day.now.venue.market h (said_of day.now) linked.now)) }
{
    let requests = rooms_of(alloc, &day.events)?;
    let ruled = Ruled {
        requests: many(&requests),
        trades: day.venue.trades(),
        events: &day.events,
        shown: &day.shown,
        linked,
    };
    add_rules(alloc, page, day.venue.instruments(), &ruled)
}

/// Adds the day in six figures, the rules and the bulletin.
fn add_counts(
    alloc: Global,
    page: &mut Page,
    day: &PricedDay,
    rows: &[TrailRow],
    linked: &[LinkedTrade],
) -> Result<(), AllocError>
    ensures { (h : History) → IsHistory day.now.venue h → OnOk result (page.new ≡ with_parts page.old (counts_parts day.now.venue.market rows.now h (said_of day.now) linked.now)) }
{
    let participants = day.venue.participants();
    let instruments = day.venue.instruments();
    let trades = day.venue.trades();
    add_figures(alloc, page, participants, rows, trades, &day.events)?;
    add_law(alloc, page, day, linked)?;
    add_bulletin(alloc, page, instruments, trades)
}

/// Adds the instruments: of each the trades and the best prices over time, and the book at the end.
fn add_charts(
    alloc: Global,
    page: &mut Page,
    day: &PricedDay,
    rows: &[TrailRow],
    reports: &[Event],
) -> Result<(), AllocError>
    ensures { (h : History) → IsHistory day.now.venue h → OnOk result (page.new ≡ with_parts page.old (charts_parts day.now.venue.market rows.now h reports.now day.now.bests.items)) }
{
    let venue = &day.venue;
    let deals = deals_of(alloc, venue.trades(), reports)?;
    let rests = rests_of(alloc, venue)?;
    let charted = Charted {
        first: first_moment(rows),
        last: last_moment(rows),
        deals: &deals,
        bests: &day.bests,
        rests: &rests,
    };
    add_instruments(alloc, page, venue.instruments(), &charted)
}

/// The reports of a day's trades, and those of linked orders.
#[derive(Clone, Copy)]
struct Traded<'a> {
    reports: &'a [Event],
    linked: &'a [LinkedTrade],
}

/// Adds the trades, each with the row at which it was reported.
fn add_reported(
    alloc: Global,
    page: &mut Page,
    day: &PricedDay,
    rows: &[TrailRow],
    traded: &Traded<'_>,
) -> Result<(), AllocError>
    ensures { (h : History) → IsHistory day.now.venue h → OnOk result (page.new ≡ with_parts page.old (reported_parts day.now.venue.market rows.now h traded.now.reports.now traded.now.linked.now)) }
{
    let trades = day.venue.trades();
    let flags = flags_of(alloc, traded.linked, trades.len())?;
    let reported = Reported {
        participants: day.venue.participants(),
        instruments: day.venue.instruments(),
        reports: traded.reports,
        flags: &flags,
        shown: are_shown(rows),
        dated: is_dated(rows),
    };
    add_trades(alloc, page, &reported, trades)
}

/// Adds the day in six figures, the rules, the bulletin, the instruments and the trades.
fn add_tables(
    alloc: Global,
    page: &mut Page,
    day: &PricedDay,
    rows: &[TrailRow],
    linked: &[LinkedTrade],
) -> Result<(), AllocError>
    ensures { (h : History) → IsHistory day.now.venue h → OnOk result (page.new ≡ with_parts page.old (tables_parts day.now.venue.market rows.now h (said_of day.now) linked.now)) }
{
    let reports = reports_of(alloc, &day.events)?;
    add_counts(alloc, page, day, rows, linked)?;
    add_charts(alloc, page, day, rows, &reports)?;
    let traded = Traded {
        reports: &reports,
        linked,
    };
    add_reported(alloc, page, day, rows, &traded)
}

/// Adds the requests for quotes, the refusals and the participants.
fn add_answered(
    alloc: Global,
    page: &mut Page,
    day: &PricedDay,
    rows: &[TrailRow],
    deeds: &[Deed],
) -> Result<(), AllocError>
    ensures { (h : History) → IsHistory day.now.venue h → OnOk result (page.new ≡ with_parts page.old (answered_parts day.now.venue.market rows.now h (said_of day.now) deeds.now)) }
{
    let participants = day.venue.participants();
    let instruments = day.venue.instruments();
    let linked = are_shown(rows);
    let counted = Counted {
        rows,
        trades: day.venue.trades(),
        events: &day.events,
        deeds,
    };
    add_requests(
        alloc,
        page,
        participants,
        instruments,
        rows,
        &day.events,
        &day.shown,
    )?;
    add_refusals(alloc, page, participants, linked, &day.events)?;
    add_people(alloc, page, participants, &counted)
}

/// Adds the crosses.
fn add_crossed(
    alloc: Global,
    page: &mut Page,
    day: &PricedDay,
    rows: &[TrailRow],
) -> Result<(), AllocError>
    requires kept { All IsItem rows.now }
    ensures { (items : List Input) → AreEmitted rows.now items → OnOk result (page.new ≡ with_parts page.old (crossed_parts day.now.venue.market rows.now items day.now.events.items)) }
{
    let instruments = day.venue.instruments();
    let crosses = crosses_of(alloc, instruments, rows, &day.events)?;
    let form = Form {
        participants: day.venue.participants(),
        instruments,
        shown: are_shown(rows),
        dated: is_dated(rows),
    };
    add_crosses(alloc, page, &form, &crosses)
}

/// Adds the trades of linked orders, the crosses, and the alarms.
fn add_watched(
    alloc: Global,
    page: &mut Page,
    day: &PricedDay,
    rows: &[TrailRow],
    found: &Findings,
) -> Result<(), AllocError>
    requires kept { All IsItem rows.now }
    ensures { (items : List Input) → AreEmitted rows.now items → OnOk result (page.new ≡ with_parts page.old (watched_parts day.now.venue.market rows.now items (said_of day.now) (found_of found.now))) }
{
    let participants = day.venue.participants();
    let lines = Lines {
        participants,
        shown: are_shown(rows),
        dated: is_dated(rows),
    };
    add_linked(alloc, page, &lines, &found.linked)?;
    add_crossed(alloc, page, day, rows)?;
    add_alarms(alloc, page, participants, are_shown(rows), &found.alarms)
}

/// The page of a trail, whose rows led to this day.
fn page_made(alloc: Global, day: &PricedDay, trail: &Contents) -> Result<Page, AllocError>
    requires kept { All IsItem (trail_of trail.now).rows }
    ensures { (h : History) → IsHistory day.now.venue h → (items : List Input) → AreEmitted (trail_of trail.now).rows items → IfOk result (λ page. IsPage day.now.venue.market (trail_of trail.now) h items (said_of day.now) page) }
{
    let participants = day.venue.participants();
    let instruments = day.venue.instruments();
    let found = found_in(alloc, day)?;
    let mut page = Page::new(alloc);
    add_head(alloc, &mut page, participants, instruments, trail)?;
    add_tables(alloc, &mut page, day, trail.rows, &found.linked)?;
    add_answered(alloc, &mut page, day, trail.rows, &found.deeds)?;
    add_watched(alloc, &mut page, day, trail.rows, &found)?;
    add_rows(alloc, &mut page, participants, trail.rows)?;
    page.add(END, &[])?;
    Ok(page)
}

/// The page of the day in a trail, on a venue of these participants and instruments.
fn page_of_day(
    alloc: Global,
    participants: Participants,
    instruments: Instruments,
    trail: &Contents,
) -> Result<Page, AllocError>
    requires kept { All IsItem (trail_of trail.now).rows }
    requires few { length (trail_of trail.now).rows ≤ most_items }
    ensures { IfOk result (λ page. IsDay (record { participants = participants; instruments = instruments }) (trail_of trail.now) page) }
{
    rows_have_their_inputs();
    let day = priced_day_of(alloc, participants, instruments, trail.rows)?;
    page_made(alloc, &day, trail)
}

/// Writes the page of the day in a trail, on a venue of these participants and instruments: one file of HTML, which
/// needs no other. Where an allocation fails, nothing was written.
pub fn print_page<W: Write>(
    alloc: Global,
    participants: Participants,
    instruments: Instruments,
    trail: &Contents,
    writer: &mut W,
) -> Result<(), PrintFault>
    requires kept { All IsItem (trail_of trail.now).rows }
    requires few { length (trail_of trail.now).rows ≤ most_items }
    ensures emitted { OnOk result (EmitsPage (record { participants = participants; instruments = instruments }) (trail_of trail.now) (W.contents writer.old) (W.contents writer.new)) }
    ensures unwritten { IfErr result (λ fault. fault ≡ Memory → Keeps (W.contents writer.old) (W.contents writer.new)) }
{
    let page = page_of_day(alloc, participants, instruments, trail)?;
    write_text(page.text(), writer)
}
