//! The alarms of a day, printed.

ghost use Rattle.std.specs.Prelude.{◌≡◌, ◌≤◌, All, length, IfErr, IfOk, OnOk};
ghost use Rattle.std.specs.Io.KnownBytes.{Appends, Keeps};
ghost use Rattle.venue_core.specs.Plan.{most_items};
ghost use Rattle.venue_core.specs.Replay.{IsItem};
ghost use Rattle.venue_core.specs.VenueFacts.{IsHistory};
ghost use Rattle.venue_rules.specs.Facts.{History};
ghost use Rattle.trade_blotter.specs.declared.printing.PrintFault.TheVariants.{Memory, Output};
ghost use Rattle.surveillance.specs.Alarms.{alarms};
ghost use Rattle.surveillance.specs.Printed.{EmitsWatch, IsWatch};
ghost use Rattle.surveillance.specs.Texts.{watch_text};

use crate::alarms::Watched;
use crate::findings::findings_of;
use crate::form::Form;
use crate::texts::watch_text;
use crate::thresholds::Thresholds;
use day_events::{Day, day_of};
use instruments::Instruments;
use participants::Participants;
use row_replay::rows_have_their_inputs;
use std::alloc::{AllocError, Global};
use std::io::Write;
use trade_blotter::PrintFault;
use venue_rules::TrailRow;

fn write_text<W: Write>(text: &[u8], writer: &mut W) -> Result<(), PrintFault>
    ensures written { OnOk result (Appends (W.contents writer.old) (W.contents writer.new) text.now) }
    ensures output { IfErr result (λ fault. fault ≡ Output) }
{
    match writer.write_all(text) {
        Ok(()) => Ok(()),
        Err(_) => Err(PrintFault::Output),
    }
}

/// The text of the alarms of a day.
fn text_of(alloc: Global, form: Form, bounds: &Thresholds, day: &Day) -> Result<Vec<u8>, AllocError>
    ensures { (h : History) → IsHistory day.now.venue h → IfOk result (λ text. text.items ≡ watch_text form bounds.now day.now.venue.market.participants (alarms bounds.now day.now.venue.market h day.now.events.items day.now.shown.items)) }
{
    let participants = day.venue.participants();
    let instruments = day.venue.instruments();
    let watched = Watched {
        trades: day.venue.trades(),
        events: &day.events,
        shown: &day.shown,
    };
    let found = findings_of(alloc, bounds, participants, instruments, &watched)?;
    watch_text(alloc, form, bounds, participants, &found.alarms)
}

/// The text of the alarms of a day, on a venue of these participants and instruments.
fn watch_of(
    alloc: Global,
    participants: Participants,
    instruments: Instruments,
    rows: &[TrailRow],
    form: Form,
    bounds: &Thresholds,
) -> Result<Vec<u8>, AllocError>
    requires kept { All IsItem rows.now }
    requires few { length rows.now ≤ most_items }
    ensures { IfOk result (λ text. IsWatch form bounds.now (record { participants = participants; instruments = instruments }) rows.now text.items) }
{
    rows_have_their_inputs();
    let day = day_of(alloc, participants, instruments, rows)?;
    text_of(alloc, form, bounds, &day)
}

/// Prints the alarms of the day in these rows, on a venue of these participants and instruments. Where an allocation
/// fails, nothing was written.
pub fn print_watch<W: Write>(
    alloc: Global,
    participants: Participants,
    instruments: Instruments,
    rows: &[TrailRow],
    form: Form,
    bounds: &Thresholds,
    writer: &mut W,
) -> Result<(), PrintFault>
    requires kept { All IsItem rows.now }
    requires few { length rows.now ≤ most_items }
    ensures emitted { OnOk result (EmitsWatch form bounds.now (record { participants = participants; instruments = instruments }) rows.now (W.contents writer.old) (W.contents writer.new)) }
    ensures unwritten { IfErr result (λ fault. fault ≡ Memory → Keeps (W.contents writer.old) (W.contents writer.new)) }
{
    let text = watch_of(alloc, participants, instruments, rows, form, bounds)?;
    write_text(&text, writer)
}
