//! The alarms of the day.

ghost use Rattle.std.specs.Prelude.{◌≡◌, ◌≤◌, All, length, IfErr, OnOk};
ghost use Rattle.surveillance.specs.Printed.{EmitsWatch};
ghost use Rattle.venue_core.specs.Plan.{most_items};
ghost use Rattle.venue_core.specs.Replay.{IsItem};
ghost use Rattle.trail_questions.specs.Ending.{Fails, IsNever, market_of};
ghost use Rattle.trail_questions.specs.Watch.{watch_head};

use crate::fault::AskedFault;
use instruments::Instruments;
use participants::Participants;
use std::alloc::Global;
use std::io::Write;
use surveillance::{Form, Thresholds, print_watch};
use trade_blotter::PrintFault;
use trail_digest::HeadForm;
use venue_rules::TrailRow;

/// The head above the alarms in this form; a table has none.
pub(crate) fn watch_head(form: Form) -> Option<HeadForm>
    ensures { result ≡ watch_head form }
{
    match form {
        Form::Lines => Some(HeadForm::Line),
        Form::Table => None,
    }
}

/// Prints the alarms of the day.
pub(crate) fn print_watch_of<W: Write>(
    alloc: Global,
    participants: Participants,
    instruments: Instruments,
    rows: &[TrailRow],
    bounds: &Thresholds,
    form: Form,
    writer: &mut W,
) -> Result<(), AskedFault>
    requires kept { All IsItem rows.now }
    requires few { length rows.now ≤ most_items }
    ensures emitted { OnOk result (EmitsWatch form bounds.now (market_of participants instruments) rows.now (W.contents writer.old) (W.contents writer.new)) }
    ensures failed { IfErr result (Fails ⊥ ⊥ IsNever (W.contents writer.old) (W.contents writer.new)) }
{
    match print_watch(alloc, participants, instruments, rows, form, bounds, writer) {
        Ok(()) => Ok(()),
        Err(PrintFault::Memory) => Err(AskedFault::Memory),
        Err(PrintFault::Output) => Err(AskedFault::Output),
    }
}
