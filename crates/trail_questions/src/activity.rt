//! The figures of a participant's own day.

ghost use Rattle.std.specs.Prelude.{◌≡◌, ◌≤◌, All, length, IfErr, OnOk};
ghost use Rattle.venue_core.specs.Plan.{most_items};
ghost use Rattle.venue_core.specs.Replay.{IsItem};
ghost use Rattle.trail_questions.specs.Activity.{EmitsActivityOf, IsNobody, activity_head};
ghost use Rattle.trail_questions.specs.Ending.{Fails, market_of};

use crate::fault::{AskedFault, Unknown};
use fix_dictionary::Identifier;
use instruments::Instruments;
use participant_activity::{ActivityFault, Form, print_activity};
use participants::Participants;
use std::alloc::Global;
use std::io::Write;
use trail_digest::HeadForm;
use venue_rules::TrailRow;

/// The head above the figures in this form; a table has none.
pub(crate) fn activity_head(form: Form) -> Option<HeadForm>
    ensures { result ≡ activity_head form }
{
    match form {
        Form::Lines => Some(HeadForm::Line),
        Form::Table => None,
    }
}

/// Prints the figures of a participant's own day.
pub(crate) fn print_activity_of<W: Write>(
    alloc: Global,
    participants: Participants,
    instruments: Instruments,
    rows: &[TrailRow],
    desk: Identifier,
    form: Form,
    writer: &mut W,
) -> Result<(), AskedFault>
    requires kept { All IsItem rows.now }
    requires few { length rows.now ≤ most_items }
    ensures emitted { OnOk result (EmitsActivityOf desk form (market_of participants instruments) rows.now (W.contents writer.old) (W.contents writer.new)) }
    ensures failed { IfErr result (Fails ⊥ ⊥ (IsNobody desk (market_of participants instruments)) (W.contents writer.old) (W.contents writer.new)) }
{
    let Some(who) = participants.find(desk.as_slice()) else {
        return Err(AskedFault::Unknown(Unknown::Recipient));
    };
    match print_activity(alloc, participants, instruments, rows, form, who, writer) {
        Ok(()) => Ok(()),
        Err(ActivityFault::Memory) => Err(AskedFault::Memory),
        Err(ActivityFault::Output) => Err(AskedFault::Output),
    }
}
