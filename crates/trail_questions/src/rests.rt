//! What rests or is held, after a row or at the end of the day.

ghost use Rattle.std.specs.Prelude.{◌≡◌, ◌≤◌, All, length, IfErr, OnOk};
ghost use Rattle.venue_core.specs.Plan.{most_items};
ghost use Rattle.venue_core.specs.Replay.{IsItem};
ghost use Rattle.trail_questions.specs.Ending.{Fails, market_of};
ghost use Rattle.trail_questions.specs.Rests.{EmitsRestsAfter, IsUnknownRests};

use crate::answers::named;
use crate::book::{is_row, rows_until};
use crate::fault::{AskedFault, Unknown};
use fix_dictionary::Identifier;
use instruments::Instruments;
use participants::Participants;
use resting_orders::{BookFault, Form, print_rests};
use std::alloc::Global;
use std::io::Write;
use venue_rules::TrailRow;

/// What rests or is held of a participant, or of all, after a row or at the end of the day.
#[derive(Clone, Copy)]
pub struct RestsAfter {
    pub to: Option<Identifier>,
    pub row: Option<u64>,
}

/// Prints what rests or is held, for each participant or one.
#[tactic(auto, using(crate::proofs::Asked::kept_until))]
pub(crate) fn print_rests_after<W: Write>(
    alloc: Global,
    participants: Participants,
    instruments: Instruments,
    rows: &[TrailRow],
    rests: &RestsAfter,
    form: Form,
    writer: &mut W,
) -> Result<(), AskedFault>
    requires kept { All IsItem rows.now }
    requires few { length rows.now ≤ most_items }
    ensures emitted { OnOk result (EmitsRestsAfter rests.now form (market_of participants instruments) rows.now (W.contents writer.old) (W.contents writer.new)) }
    ensures failed { IfErr result (Fails ⊥ ⊥ (IsUnknownRests rests.now (market_of participants instruments) rows.now) (W.contents writer.old) (W.contents writer.new)) }
{
    let Some(who) = named(&participants, &rests.to) else {
        return Err(AskedFault::Unknown(Unknown::Recipient));
    };
    if !is_row(rests.row, rows.len() as u64) {
        return Err(AskedFault::Unknown(Unknown::Row));
    }
    let until = rows_until(rows, rests.row);
    match print_rests(alloc, participants, instruments, until, form, who, writer) {
        Ok(()) => Ok(()),
        Err(BookFault::Memory) => Err(AskedFault::Memory),
        Err(BookFault::Output) => Err(AskedFault::Output),
        Err(BookFault::NoInstrument) => unreachable!(),
    }
}
