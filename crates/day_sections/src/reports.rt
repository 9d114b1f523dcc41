//! The reports of trades: of each trade two, one to each party.

ghost use Rattle.std.specs.Prelude.{◌≡◌, IfOk, filter, option_copied, slice_get};
ghost use Rattle.day_sections.specs.Reports.{if_reports, is_reporting, of_trade, report_of, reports};

use crate::rooms::keep;
use day_events::{Event, What};
use std::alloc::{AllocError, Global};

/// Whether an event reports a trade.
#[tactic(auto, unfolding(crate::specs::Reports::is_reporting))]
fn is_reporting(what: &What) -> bool
    ensures { result ≡ is_reporting what.now }
{
    match what {
        What::Filled(_) => true,
        What::Traded(_) => true,
        _ => false,
    }
}

/// The reports of trades among events.
pub fn reports_of(alloc: Global, events: &[Event]) -> Result<Vec<Event>, AllocError>
    ensures { IfOk result (λ kept. kept.items ≡ reports events.now) }
{
    let mut kept = Vec::new(alloc);
    for event in events {
        keep(&mut kept, event, is_reporting(&event.what))?;
    }
    Ok(kept)
}

/// Whether an event reports the trade with this number.
#[tactic(auto, unfolding(crate::specs::Reports::if_reports))]
fn if_reports(number: u64, what: &What) -> bool
    ensures { result ≡ if_reports number what.now }
{
    match what {
        What::Filled(order) => order.trade == number,
        What::Traded(trade) => trade.trade == number,
        _ => false,
    }
}

fn of_trade(number: u64, report: Option<&Event>) -> Option<Event>
    ensures { result ≡ of_trade number (option_copied report.entry) }
{
    match report {
        None => None,
        Some(report) => if if_reports(number, &report.what) {
            Some(*report)
        } else {
            None
        },
    }
}

/// The report of a trade at this place.
fn report_at(reports: &[Event], number: u64, at: usize) -> Option<Event>
    ensures { result ≡ of_trade number (slice_get reports.now at) }
{
    of_trade(number, reports.get(at))
}

/// The first report of a trade.
pub fn report_of(reports: &[Event], number: u64) -> Option<Event>
    ensures { result ≡ report_of reports.now number }
{
    if number == 0 || number > reports.len() as u64 {
        None
    } else {
        report_at(reports, number, (number as usize - 1) * 2)
    }
}
