//! Why the message of a row was refused, printed.

ghost use Rattle.std.specs.Prelude.{◌≡◌, ◌≤◌, ◌++◌, All, length, IfErr, IfOk, OnOk};
ghost use Rattle.std.specs.Io.KnownBytes.{Appends, Keeps};
ghost use Rattle.venue_rules.specs.Facts.{History};
ghost use Rattle.venue_core.specs.Plan.{most_items};
ghost use Rattle.venue_core.specs.Replay.{IsItem};
ghost use Rattle.venue_core.specs.State.{standing};
ghost use Rattle.venue_core.specs.VenueFacts.{IsHistory};
ghost use Rattle.row_replay.specs.Inputs.{input_of};
ghost use Rattle.refusal_causes.specs.Printed.{EmitsWhy, IsNoRow, IsWhy, IsWhyOf, UnlessWriting, answered_text, why_text};
ghost use Rattle.refusal_causes.specs.declared.fault.WhyFault.TheVariants.{NoRow, Output};

use crate::fault::WhyFault;
use crate::passing::append_passing;
use crate::verdict::{Place, append_row, append_verdict};
use crate::why::{Why, why_at};
use instruments::Instruments;
use participants::Participants;
use row_replay::{item_of, plan_item, rows_have_their_inputs};
use std::alloc::{AllocError, Global};
use std::io::Write;
use venue_core::Venue;
use venue_rules::{Taken, TrailRow};

/// Appends a row with the replies to it, and the cause.
fn append_answered(
    alloc: Global,
    text: &mut Vec<u8>,
    venue: &mut Venue,
    row: &TrailRow,
    taken: &Option<Taken>,
    place: Place,
) -> Result<(), AllocError>
    requires few { venue.old.items ≤ most_items }
    ensures market { venue.new.market ≡ venue.old.market }
    ensures day { standing venue.new.day ≡ standing venue.old.day }
    ensures items { venue.new.items ≡ venue.old.items }
    ensures text { (h : History) → IsHistory venue.old h → OnOk result (text.new.items ≡ text.old.items ++ answered_text venue.old.market h row.now (input_of taken.now row.now.moment) place.cause place.count) }
{
    let plan = plan_item(venue, taken, row.moment)?;
    let replies = plan.replies();
    append_row(alloc, text, venue.participants(), row, taken, replies)?;
    append_verdict(
        alloc,
        text,
        venue.participants(),
        venue.instruments(),
        taken,
        place,
        replies,
    )?;
    drop(plan);
    Ok(())
}

/// The whole text of a row.
fn text_of(
    alloc: Global,
    venue: &mut Venue,
    row: &TrailRow,
    taken: &Option<Taken>,
    why: &Why,
) -> Result<Vec<u8>, AllocError>
    requires few { venue.old.items ≤ most_items }
    ensures { (h : History) → IsHistory venue.old h → IfOk result (λ text. text.items ≡ why_text venue.old.market h row.now (input_of taken.now row.now.moment) why.now.cause why.now.count why.now.passes) }
{
    let mut text = Vec::new(alloc);
    let place = Place {
        cause: why.cause,
        count: why.count,
    };
    append_answered(alloc, &mut text, venue, row, taken, place)?;
    append_passing(alloc, &mut text, venue, taken, row.moment, why.passes)?;
    text.extend_from_slice(b"\n")?;
    Ok(text)
}

fn write_text<W: Write>(text: &[u8], writer: &mut W) -> Result<(), WhyFault>
    ensures written { OnOk result (Appends (W.contents writer.old) (W.contents writer.new) text.now) }
    ensures output { IfErr result (λ fault. fault ≡ Output) }
{
    match writer.write_all(text) {
        Ok(()) => Ok(()),
        Err(_) => Err(WhyFault::Output),
    }
}

/// Why the message of a row was refused, as a text, on the venue as it stood before the row.
fn text_at(
    alloc: Global,
    venue: &mut Venue,
    row: &TrailRow,
    taken: &Option<Taken>,
) -> Result<Vec<u8>, AllocError>
    requires few { venue.old.items ≤ most_items }
    ensures { (h : History) → IsHistory venue.old h → IfOk result (λ text. IsWhy venue.old.market h row.now (input_of taken.now row.now.moment) text.items) }
{
    let why = why_at(venue, taken, row.moment)?;
    let text = text_of(alloc, venue, row, taken, &why)?;
    Ok(text)
}

/// The same of a day whose earlier rows are these.
fn why_of(
    alloc: Global,
    participants: Participants,
    instruments: Instruments,
    earlier: &[TrailRow],
    row: &TrailRow,
) -> Result<Vec<u8>, AllocError>
    requires kept { All IsItem earlier.now }
    requires this { IsItem row.now }
    requires few { length earlier.now ≤ most_items }
    ensures { IfOk result (λ text. IsWhyOf (record { participants = participants; instruments = instruments }) earlier.now row.now text.items) }
{
    rows_have_their_inputs();
    let mut venue = Venue::replay(alloc, participants, instruments, earlier)?;
    let taken = item_of(alloc, row)?;
    let text = text_at(alloc, &mut venue, row, &taken)?;
    drop(venue);
    Ok(text)
}

/// Prints why the message of a row was refused: the message and the replies to it, the cause with its number in
/// docs/PROTOCOL.md and the figures that decide, and where the cause ends by time alone, the first moment at which it
/// no longer holds and the answer then. A row whose message was not refused says so. `NoRow` where no row has this
/// number; nothing is written then, nor where an allocation fails.
#[tactic(auto, using(crate::proofs::Texts::row_kept, crate::proofs::Texts::kept_before, crate::proofs::Texts::keeps_own))]
pub fn print_why<W: Write>(
    alloc: Global,
    participants: Participants,
    instruments: Instruments,
    rows: &[TrailRow],
    number: u64,
    writer: &mut W,
) -> Result<(), WhyFault>
    requires kept { All IsItem rows.now }
    requires few { length rows.now ≤ most_items }
    ensures emitted { OnOk result (EmitsWhy (record { participants = participants; instruments = instruments }) rows.now number (W.contents writer.old) (W.contents writer.new)) }
    ensures from_one { OnOk result (1 ≤ number) }
    ensures refused { IfErr result (λ fault. fault ≡ NoRow → IsNoRow rows.now number) }
    ensures unwritten { IfErr result (λ fault. UnlessWriting fault (Keeps (W.contents writer.old) (W.contents writer.new))) }
{
    if number == 0 {
        return Err(WhyFault::NoRow);
    }
    let place = (number - 1) as usize;
    let Some(row) = rows.get(place) else {
        return Err(WhyFault::NoRow);
    };
    let Ok(text) = why_of(alloc, participants, instruments, &rows[..place], row) else {
        return Err(WhyFault::Memory);
    };
    write_text(&text, writer)
}
