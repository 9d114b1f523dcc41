//! The figures of a participant's day, printed.

ghost use Rattle.std.specs.Prelude.{◌≡◌, ◌≤◌, All, length, IfErr, IfOk, OnOk};
ghost use Rattle.std.specs.Io.KnownBytes.{Appends, Keeps};
ghost use Rattle.venue_core.specs.Plan.{most_items};
ghost use Rattle.venue_core.specs.Replay.{IsItem};
ghost use Rattle.participant_activity.specs.Emitted.{EmitsActivity, IsActivity};
ghost use Rattle.participant_activity.specs.declared.fault.ActivityFault.TheVariants.{Memory, Output};

use crate::fault::ActivityFault;
use crate::form::Form;
use crate::laws::turns_are_whole;
use crate::page::append_activity;
use crate::replaying::replay_rows;
use instruments::Instruments;
use participants::{Participants, Who};
use row_replay::rows_have_their_inputs;
use std::alloc::{AllocError, Global};
use std::io::Write;
use trade_blotter::name_at;
use venue_rules::TrailRow;

fn write_text<W: Write>(text: &[u8], writer: &mut W) -> Result<(), ActivityFault>
    ensures written { OnOk result (Appends (W.contents writer.old) (W.contents writer.new) text.now) }
    ensures output { IfErr result (λ fault. fault ≡ Output) }
{
    match writer.write_all(text) {
        Ok(()) => Ok(()),
        Err(_) => Err(ActivityFault::Output),
    }
}

/// The text of a participant's day after the rows of a trail.
fn activity_after(
    alloc: Global,
    participants: Participants,
    instruments: Instruments,
    rows: &[TrailRow],
    form: Form,
    who: Who,
) -> Result<Vec<u8>, AllocError>
    requires kept { All IsItem rows.now }
    requires few { length rows.now ≤ most_items }
    ensures { IfOk result (λ text. IsActivity form (record { participants = participants; instruments = instruments }) rows.now who text.items) }
{
    rows_have_their_inputs();
    turns_are_whole();
    let day = replay_rows(alloc, participants, instruments, rows, who)?;
    let mut text = Vec::new(alloc);
    append_activity(
        alloc,
        &mut text,
        form,
        name_at(day.venue.participants(), who),
        &day.activity,
    )?;
    Ok(text)
}

/// Prints the figures of a participant's day after the rows of a trail, with these participants and instruments: of
/// what it sent, and of what it was owed at each answer, and of nothing else. As lines below its name, or as a table.
/// Nothing is written where an allocation fails.
pub fn print_activity<W: Write>(
    alloc: Global,
    participants: Participants,
    instruments: Instruments,
    rows: &[TrailRow],
    form: Form,
    who: Who,
    writer: &mut W,
) -> Result<(), ActivityFault>
    requires kept { All IsItem rows.now }
    requires few { length rows.now ≤ most_items }
    ensures emitted { OnOk result (EmitsActivity form (record { participants = participants; instruments = instruments }) rows.now who (W.contents writer.old) (W.contents writer.new)) }
    ensures begun { IfErr result (λ fault. fault ≡ Memory → Keeps (W.contents writer.old) (W.contents writer.new)) }
{
    let text = activity_after(alloc, participants, instruments, rows, form, who)?;
    write_text(&text, writer)
}
