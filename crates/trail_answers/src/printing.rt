//! The answers of a day, printed row by row.

ghost use Rattle.std.specs.Prelude.{◌≡◌, ℕ, ◌≤◌, ◌⊎◌, ◌&&◌, true, false, All, length, IfErr, IfOk, OnOk};
ghost use Rattle.std.specs.Io.KnownBytes.{Appends, Keeps};
ghost use Rattle.venue_rules.specs.Facts.{no_history};
ghost use Rattle.venue_core.specs.Plan.{most_items};
ghost use Rattle.venue_core.specs.Replay.{IsItem};
ghost use Rattle.venue_core.specs.VenueFacts.{IsHistory};
ghost use Rattle.trail_answers.specs.Owed.{EmitsOwed, owed_to};
ghost use Rattle.trail_answers.specs.Emitted.{BeginsRows, HasNoOrder, HasNoRoom, IsEmittedOf, IsFailed, EmitsAnswers, above, is_nothing, none_text};
ghost use Rattle.trail_answers.specs.Sought.{is_order_there, is_room_there, is_there, seen_of};
ghost use Rattle.trail_answers.specs.declared.fault.AnswersFault.TheVariants.{Memory, NoOrder, NoRoom, Output};

use crate::emitting::{emit_row, is_nothing, write_text};
use crate::fault::AnswersFault;
use crate::laws::messages_are_owed;
use crate::scope::Scope;
use crate::sought::{Seen, is_order_there, is_room_there, is_there, unseen};
use crate::table::append_heading;
use instruments::Instruments;
use message_words::Form;
use participants::Participants;
use row_replay::rows_have_their_inputs;
use std::alloc::Global;
use std::io::Write;
use venue_core::{Venue, day_goes_on};
use venue_rules::TrailRow;

/// What is known after the rows, and whether nothing was written of them.
#[derive(Drop)]
struct Emitted {
    seen: Seen,
    none: bool,
}

/// Writes the names of the fields, unless an order or a room is sought that is not there yet: then they come with the
/// row after which it is. Returns whether nothing was written.
fn begin<W: Write>(
    alloc: Global,
    form: Form,
    is_there: bool,
    writer: &mut W,
) -> Result<bool, AnswersFault>
    ensures written { OnOk result (Appends (W.contents writer.old) (W.contents writer.new) (above form is_there)) }
    ensures nothing { IfOk result (λ none. none ≡ is_nothing (above form is_there)) }
    ensures unwritten { IfErr result (λ fault. fault ≡ Memory → Keeps (W.contents writer.old) (W.contents writer.new)) }
    ensures failed { IfErr result IsFailed }
{
    let mut text = Vec::new(alloc);
    if is_there {
        append_heading(alloc, &mut text, form)?;
    }
    let none = is_nothing(&text);
    write_text(&text, writer)?;
    Ok(none)
}

/// Whether nothing was written before a row, nor of it.
fn both(none: bool, silent: bool) -> bool
    ensures { result ≡ (none && silent) }
{
    none && silent
}

/// Has a venue on which nothing has happened take the inputs of the rows, one after another, and writes the text of
/// each as it comes. Returns what is known then of the order and the room that are sought, and whether nothing was
/// written.
#[tactic(auto, using(crate::proofs::RowByRow::emitted_more, crate::proofs::RowByRow::emitted_nothing, crate::proofs::RowByRow::begins))]
fn emit_rows<W: Write>(
    alloc: Global,
    venue: &mut Venue,
    form: Form,
    scope: &Scope,
    rows: &[TrailRow],
    writer: &mut W,
) -> Result<Emitted, AnswersFault>
    requires kept { All IsItem rows.now }
    requires few { length rows.now ≤ most_items }
    requires fresh { IsHistory venue.old no_history }
    requires first { venue.old.items ≡ 0 }
    ensures emitted { IfOk result (λ emitted. IsEmittedOf form venue.old.market scope.now rows.now emitted.none (seen_of emitted.seen) venue.new (W.contents writer.old) (W.contents writer.new)) }
    ensures begun { IfErr result (λ fault. fault ≡ Memory → Keeps (W.contents writer.old) (W.contents writer.new) ⊎ BeginsRows form venue.old.market scope.now rows.now (W.contents writer.old) (W.contents writer.new)) }
    ensures failed { IfErr result IsFailed }
{
    day_goes_on();
    let mut seen = unseen(alloc, scope)?;
    let mut none = begin(alloc, form, is_there(scope, &seen), writer)?;
    for row in rows {
        let silent = emit_row(alloc, venue, form, scope, &mut seen, row, writer)?;
        none = both(none, silent);
    }
    Ok(Emitted { seen, none })
}

/// Whether what is sought is there, or else what is not.
fn find_sought(scope: &Scope, seen: &Seen) -> Result<(), AnswersFault>
    ensures there { OnOk result (is_there scope.now (seen_of seen.now) ≡ true) }
    ensures order { IfErr result (λ fault. fault ≡ NoOrder → is_order_there scope.now (seen_of seen.now) ≡ false) }
    ensures room { IfErr result (λ fault. fault ≡ NoRoom → is_room_there scope.now (seen_of seen.now) ≡ false) }
    ensures none { IfErr result (λ fault. is_there scope.now (seen_of seen.now) ≡ false) }
    ensures failed { IfErr result (λ fault. IsFailed fault → ⊥) }
{
    if !is_order_there(scope, seen) {
        return Err(AnswersFault::NoOrder);
    }
    if !is_room_there(scope, seen) {
        return Err(AnswersFault::NoRoom);
    }
    Ok(())
}

/// The line of an output without a row, if it is lines.
fn none_text(form: Form, none: bool) -> &'static [u8]
    ensures { result.now ≡ none_text form none }
{
    if !none {
        return b"";
    }
    match form {
        Form::Lines => b"no row has what is sought\n",
        Form::Table => b"",
        Form::Json => b"",
    }
}

/// Writes the line of an output without a row, if nothing was written of lines.
fn write_none<W: Write>(form: Form, none: bool, writer: &mut W) -> Result<(), AnswersFault>
    ensures written { OnOk result (Appends (W.contents writer.old) (W.contents writer.new) (none_text form none)) }
    ensures output { IfErr result (λ fault. fault ≡ Output) }
{
    write_text(none_text(form, none), writer)
}

/// Writes the answers of the rows, on a venue on which nothing has happened.
#[tactic(auto, using(crate::proofs::RowByRow::not_for_memory, crate::proofs::RowByRow::not_for_order, crate::proofs::RowByRow::not_for_room, crate::proofs::RowByRow::emits_all, crate::proofs::RowByRow::no_order, crate::proofs::RowByRow::no_room, crate::proofs::RowByRow::nothing_there, crate::proofs::RowByRow::never_none, crate::proofs::RowByRow::never_roomless, crate::proofs::RowByRow::not_memory))]
fn print_rows<W: Write>(
    alloc: Global,
    venue: &mut Venue,
    form: Form,
    scope: &Scope,
    rows: &[TrailRow],
    writer: &mut W,
) -> Result<(), AnswersFault>
    requires kept { All IsItem rows.now }
    requires few { length rows.now ≤ most_items }
    requires fresh { IsHistory venue.old no_history }
    requires first { venue.old.items ≡ 0 }
    ensures emitted { OnOk result (EmitsAnswers form venue.old.market scope.now rows.now (W.contents writer.old) (W.contents writer.new)) }
    ensures begun { IfErr result (λ fault. fault ≡ Memory → Keeps (W.contents writer.old) (W.contents writer.new) ⊎ BeginsRows form venue.old.market scope.now rows.now (W.contents writer.old) (W.contents writer.new)) }
    ensures refused { IfErr result (λ fault. fault ≡ NoOrder → HasNoOrder venue.old.market scope.now rows.now) }
    ensures roomless { IfErr result (λ fault. fault ≡ NoRoom → HasNoRoom venue.old.market scope.now rows.now) }
    ensures unwritten { IfErr result (λ fault. fault ≡ NoOrder → Keeps (W.contents writer.old) (W.contents writer.new)) }
    ensures roomless_unwritten { IfErr result (λ fault. fault ≡ NoRoom → Keeps (W.contents writer.old) (W.contents writer.new)) }
{
    rows_have_their_inputs();
    let emitted = emit_rows(alloc, venue, form, scope, rows, writer)?;
    find_sought(scope, &emitted.seen)?;
    write_none(form, emitted.none, writer)
}

/// Prints the answers of the day of a trail's rows, with these participants and instruments: for each row that is
/// sought the message and each reply to it in order, as FIX has it and in words; as lines, of none a line. The rows are
/// replayed and printed one by one: besides the venue, no more than one row's answer is kept. Where one participant's
/// replies alone are sought, the output is what it is owed. `NoOrder` where no row of the day is about the order that
/// is sought, and `NoRoom` where no request was sent in the room that is; nothing is written then. Where an allocation
/// fails the output is nothing, or that of the first rows, each whole.
pub fn print_answers<W: Write>(
    alloc: Global,
    participants: Participants,
    instruments: Instruments,
    rows: &[TrailRow],
    form: Form,
    scope: &Scope,
    writer: &mut W,
) -> Result<(), AnswersFault>
    requires kept { All IsItem rows.now }
    requires few { length rows.now ≤ most_items }
    ensures emitted { OnOk result (EmitsAnswers form (record { participants = participants; instruments = instruments }) scope.now rows.now (W.contents writer.old) (W.contents writer.new)) }
    ensures owed { (who : ℕ) → scope.now ≡ owed_to who → OnOk result (EmitsOwed form (record { participants = participants; instruments = instruments }) rows.now who (W.contents writer.old) (W.contents writer.new)) }
    ensures begun { IfErr result (λ fault. fault ≡ Memory → Keeps (W.contents writer.old) (W.contents writer.new) ⊎ BeginsRows form (record { participants = participants; instruments = instruments }) scope.now rows.now (W.contents writer.old) (W.contents writer.new)) }
    ensures refused { IfErr result (λ fault. fault ≡ NoOrder → HasNoOrder (record { participants = participants; instruments = instruments }) scope.now rows.now) }
    ensures roomless { IfErr result (λ fault. fault ≡ NoRoom → HasNoRoom (record { participants = participants; instruments = instruments }) scope.now rows.now) }
    ensures unwritten { IfErr result (λ fault. fault ≡ NoOrder → Keeps (W.contents writer.old) (W.contents writer.new)) }
    ensures roomless_unwritten { IfErr result (λ fault. fault ≡ NoRoom → Keeps (W.contents writer.old) (W.contents writer.new)) }
{
    messages_are_owed();
    let mut venue = Venue::open(alloc, participants, instruments)?;
    let emitted = print_rows(alloc, &mut venue, form, scope, rows, writer);
    drop(venue);
    emitted
}
