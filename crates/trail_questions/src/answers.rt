//! The venue's answers of a day, as they are narrowed.

ghost use Rattle.std.specs.Prelude.{◌≡◌, ◌≤◌, All, None, length, IfOk, IfErr, IfSome, OnOk};
ghost use Rattle.venue_core.specs.Plan.{most_items};
ghost use Rattle.venue_core.specs.Replay.{IsItem};
ghost use Rattle.trail_digest.specs.Trail.{trail_of};
ghost use Rattle.trail_questions.specs.Answers.{BeginsNarrowed, EmitsNarrowed, IsUnknownAnswer, IsUnknownNarrowing, Names, NamesNobody, Narrows, are_there, is_sought, own_head};
ghost use Rattle.trail_questions.specs.Ending.{Fails, market_of};

use crate::fault::{AskedFault, Unknown};
use crate::headed::{head_form, write_head};
use fix_dictionary::Identifier;
use instruments::Instruments;
use message_words::Form;
use participants::{Participants, Who};
use std::alloc::Global;
use std::io::Write;
use trail_answers::{AnswersFault, RowSpan, Scope, print_answers};
use trail_digest::{Contents, HeadForm};

/// What narrows the answers that are printed, by name and number.
#[derive(Clone, Copy)]
pub struct Narrowing {
    pub to: Option<Identifier>,
    pub from: Option<Identifier>,
    pub rows: Option<RowSpan>,
    pub order: Option<u64>,
    pub room: Option<u64>,
}

/// The participant with this name, or none where no name is given. Nothing where nobody has the name.
pub(crate) fn named(participants: &Participants, name: &Option<Identifier>) -> Option<Option<Who>>
    ensures found { IfSome result (Names participants.now name.now) }
    ensures nobody { result ≡ None → NamesNobody participants.now name.now }
{
    match name {
        None => Some(None),
        Some(name) => match participants.find(name.as_slice()) {
            Some(who) => Some(Some(who)),
            None => None,
        },
    }
}

/// Whether the trail has these rows, of so long a list.
fn are_there(rows: Option<RowSpan>, count: u64) -> bool
    ensures { result ≡ are_there rows count }
{
    match rows {
        Some(span) => 1 <= span.first && span.first <= span.last && span.last <= count,
        None => true,
    }
}

/// The scope of the answers in a trail of this many rows.
fn scope_of(
    narrowing: &Narrowing,
    participants: &Participants,
    count: u64,
) -> Result<Scope, Unknown>
    ensures found { IfOk result (Narrows participants.now count narrowing.now) }
    ensures refused { IfErr result (IsUnknownNarrowing participants.now count narrowing.now) }
{
    let Some(to) = named(participants, &narrowing.to) else {
        return Err(Unknown::Recipient);
    };
    let Some(from) = named(participants, &narrowing.from) else {
        return Err(Unknown::Sender);
    };
    if !are_there(narrowing.rows, count) {
        return Err(Unknown::Row);
    }
    Ok(Scope {
        to,
        from,
        rows: narrowing.rows,
        order: narrowing.order,
        room: narrowing.room,
    })
}

/// Whether an order or a room is sought, which a day may not have.
pub(crate) fn is_sought(narrowing: &Narrowing) -> bool
    ensures { result ≡ is_sought narrowing.now }
{
    narrowing.order.is_some() || narrowing.room.is_some()
}

/// The head that is written before the first answer; where something is sought, none until all is made.
fn own_head(narrowing: &Narrowing, form: Form) -> Option<HeadForm>
    ensures { result ≡ own_head narrowing.now form }
{
    if is_sought(narrowing) {
        None
    } else {
        head_form(form)
    }
}

/// Prints the answers of a day, as they are narrowed.
#[tactic(auto, using(crate::proofs::Asked::unknown_answer, crate::proofs::UnderHead::head_failed, crate::proofs::UnderHead::order_unwritten, crate::proofs::UnderHead::room_unwritten))]
pub(crate) fn print_narrowed<W: Write>(
    alloc: Global,
    participants: Participants,
    instruments: Instruments,
    trail: &Contents<'_>,
    narrowing: &Narrowing,
    form: Form,
    writer: &mut W,
) -> Result<(), AskedFault>
    requires kept { All IsItem (trail_of trail.now).rows }
    requires few { length (trail_of trail.now).rows ≤ most_items }
    ensures emitted { OnOk result (EmitsNarrowed narrowing.now form (market_of participants instruments) (trail_of trail.now) (W.contents writer.old) (W.contents writer.new)) }
    ensures failed { IfErr result (Fails (BeginsNarrowed narrowing.now form (market_of participants instruments) (trail_of trail.now) (W.contents writer.old) (W.contents writer.new)) ⊥
        (IsUnknownAnswer narrowing.now (market_of participants instruments) (trail_of trail.now).rows) (W.contents writer.old) (W.contents writer.new)) }
{
    let scope = match scope_of(narrowing, &participants, trail.rows.len() as u64) {
        Ok(scope) => scope,
        Err(unknown) => return Err(AskedFault::Unknown(unknown)),
    };
    if let Err(fault) = write_head(alloc, own_head(narrowing, form), trail, writer) {
        return Err(fault);
    }
    let printed = print_answers(
        alloc,
        participants,
        instruments,
        trail.rows,
        form,
        &scope,
        writer,
    );
    match printed {
        Ok(()) => Ok(()),
        Err(AnswersFault::Memory) => Err(AskedFault::Memory),
        Err(AnswersFault::Output) => Err(AskedFault::Output),
        Err(AnswersFault::NoOrder) => Err(AskedFault::Unknown(Unknown::Order)),
        Err(AnswersFault::NoRoom) => Err(AskedFault::Unknown(Unknown::Room)),
    }
}
