//! Questions about a day. Each kind has a file of its own, and a line here and in the tables of `specs/Question.antt`.

ghost use Rattle.std.specs.Prelude.{◌≡◌, ◌≤◌, All, length, IfErr, OnOk};
ghost use Rattle.std.specs.Io.KnownBytes.{Appends};
ghost use Rattle.trail_digest.specs.Trail.{trail_of};
ghost use Rattle.venue_core.specs.Plan.{most_items};
ghost use Rattle.venue_core.specs.Replay.{IsItem};
ghost use Rattle.trail_questions.specs.declared.fault.AskedFault.TheVariants.{Output};
ghost use Rattle.trail_questions.specs.Ending.{Fails, market_of};
ghost use Rattle.trail_questions.specs.Headed.{IsBehindHead};
ghost use Rattle.trail_questions.specs.Question.{BeginsAnswer, BeginsAsked, DiffersAnswer, DiffersAsked, EmitsAnswer, EmitsAsked, IsUnknownAsked, head_of};

use crate::activity::{activity_head, print_activity_of};
use crate::against::print_against;
use crate::answers::{Narrowing, is_sought, print_narrowed};
use crate::book::{BookAfter, book_head, print_book_after};
use crate::digest::print_digest_at;
use crate::evidence::{print_evidence_for, print_evidence_for_all};
use crate::fault::AskedFault;
use crate::headed::head_form;
use crate::page::print_page_of;
use crate::rests::{RestsAfter, print_rests_after};
use crate::trades::print_table_of;
use crate::watch::{print_watch_of, watch_head};
use crate::why::print_why_at;
use fix_dictionary::Identifier;
use instruments::Instruments;
use message_words::Form;
use participant_activity::Form as ActivityForm;
use participants::Participants;
use resting_orders::Form as BookForm;
use std::alloc::Global;
use std::io::Write;
use surveillance::{Form as WatchForm, Thresholds};
use trail_digest::{Contents, HeadForm, append_head};

/// A question about a day.
#[derive(Clone, Copy)]
pub enum Question<'a> {
    /// The table of the trades.
    Table,
    /// The evidence for the trade with this number.
    Evidence(u64),
    /// The evidence for each trade.
    Evidences,
    /// Why the message of the row with this number was refused.
    Why(u64),
    /// The venue's answers.
    Answers(Narrowing, Form),
    /// The book of an instrument.
    Book(BookAfter, BookForm),
    /// What rests or is held, of each participant or of one.
    Rests(RestsAfter, BookForm),
    /// How a desk's log of messages agrees with what it was owed.
    Against(Identifier, &'a [u8]),
    /// The figures of a participant's own day.
    Activity(Identifier, ActivityForm),
    /// The digest of the trail's content, up to a row or the last.
    Digest(Option<u64>),
    /// The day as one page.
    Page,
    /// The alarms of the day, by these bounds.
    Watch(Thresholds, WatchForm),
}

/// The head above an answer that is made whole before it is written: of a table, a digest or a page none, and none of
/// answers that write their own.
fn head_of(question: &Question<'_>) -> Option<HeadForm>
    ensures { result ≡ head_of question.now }
{
    match question {
        Question::Evidence(_) | Question::Why(_) | Question::Against(_, _) => Some(HeadForm::Line),
        Question::Book(_, form) | Question::Rests(_, form) => book_head(*form),
        Question::Activity(_, form) => activity_head(*form),
        Question::Watch(_, form) => watch_head(*form),
        Question::Answers(narrowing, form) => {
            if is_sought(narrowing) {
                head_form(*form)
            } else {
                None
            }
        }
        Question::Table | Question::Evidences | Question::Digest(_) | Question::Page => None,
    }
}

/// Prints an answer without the head above it, unless it is one that writes its own.
fn print_answer<W: Write>(
    alloc: Global,
    participants: Participants,
    instruments: Instruments,
    trail: &Contents<'_>,
    question: &Question<'_>,
    writer: &mut W,
) -> Result<(), AskedFault>
    requires kept { All IsItem (trail_of trail.now).rows }
    requires few { length (trail_of trail.now).rows ≤ most_items }
    ensures emitted { OnOk result (EmitsAnswer question.now (market_of participants instruments) (trail_of trail.now) (W.contents writer.old) (W.contents writer.new)) }
    ensures failed { IfErr result (Fails (BeginsAnswer question.now (market_of participants instruments) (trail_of trail.now) (W.contents writer.old) (W.contents writer.new))
        (DiffersAnswer question.now (market_of participants instruments) (trail_of trail.now) (W.contents writer.old) (W.contents writer.new))
        (IsUnknownAsked question.now (market_of participants instruments) (trail_of trail.now)) (W.contents writer.old) (W.contents writer.new)) }
{
    let rows = trail.rows;
    match question {
        Question::Table => print_table_of(alloc, participants, instruments, rows, writer),
        Question::Evidence(number) => {
            print_evidence_for(alloc, participants, instruments, rows, *number, writer)
        }
        Question::Evidences => {
            print_evidence_for_all(alloc, participants, instruments, trail, writer)
        }
        Question::Why(number) => {
            print_why_at(alloc, participants, instruments, rows, *number, writer)
        }
        Question::Book(book, form) => {
            print_book_after(alloc, participants, instruments, rows, book, *form, writer)
        }
        Question::Rests(rests, form) => {
            print_rests_after(alloc, participants, instruments, rows, rests, *form, writer)
        }
        Question::Answers(narrowing, form) => {
            print_narrowed(
                alloc,
                participants,
                instruments,
                trail,
                narrowing,
                *form,
                writer,
            )
        }
        Question::Against(desk, log) => {
            print_against(alloc, participants, instruments, rows, *desk, log, writer)
        }
        Question::Activity(desk, form) => {
            print_activity_of(alloc, participants, instruments, rows, *desk, *form, writer)
        }
        Question::Digest(row) => {
            drop(participants);
            drop(instruments);
            print_digest_at(alloc, trail, *row, writer)
        }
        Question::Page => print_page_of(alloc, participants, instruments, trail, writer),
        Question::Watch(bounds, form) => {
            print_watch_of(
                alloc,
                participants,
                instruments,
                rows,
                bounds,
                *form,
                writer,
            )
        }
    }
}

/// Writes the text of an answer that was made.
fn write_text<W: Write>(text: &[u8], writer: &mut W) -> Result<(), AskedFault>
    ensures written { OnOk result (Appends (W.contents writer.old) (W.contents writer.new) text.now) }
    ensures failed { IfErr result (λ fault. fault ≡ Output) }
{
    match writer.write_all(text) {
        Ok(()) => Ok(()),
        Err(_) => Err(AskedFault::Output),
    }
}

/// Makes an answer behind its head, and then writes it.
fn print_behind_head<W: Write>(
    alloc: Global,
    market: (Participants, Instruments),
    trail: &Contents<'_>,
    question: &Question<'_>,
    form: HeadForm,
    writer: &mut W,
) -> Result<(), AskedFault>
    requires kept { All IsItem (trail_of trail.now).rows }
    requires few { length (trail_of trail.now).rows ≤ most_items }
    ensures emitted { OnOk result (IsBehindHead form (trail_of trail.now) (EmitsAnswer question.now (market_of market.0 market.1) (trail_of trail.now)) (W.contents writer.old) (W.contents writer.new)) }
    ensures failed { IfErr result (Fails ⊥ (IsBehindHead form (trail_of trail.now) (DiffersAnswer question.now (market_of market.0 market.1) (trail_of trail.now)) (W.contents writer.old) (W.contents writer.new))
        (IsUnknownAsked question.now (market_of market.0 market.1) (trail_of trail.now)) (W.contents writer.old) (W.contents writer.new)) }
{
    let (participants, instruments) = market;
    let mut text = Vec::new(alloc);
    if append_head(alloc, &mut text, form, trail).is_err() {
        return Err(AskedFault::Memory);
    }
    match print_answer(alloc, participants, instruments, trail, question, &mut text) {
        Ok(()) => write_text(&text, writer),
        Err(AskedFault::Differs) => match write_text(&text, writer) {
            Ok(()) => Err(AskedFault::Differs),
            Err(fault) => Err(fault),
        },
        Err(AskedFault::Unknown(what)) => Err(AskedFault::Unknown(what)),
        // A list of bytes refuses them only where memory fails.
        Err(AskedFault::Memory | AskedFault::Output) => Err(AskedFault::Memory),
    }
}

/// Prints the answer to a question about the day of this trail, with these participants and instruments; above lines
/// and objects the head, which says of which trail they are.
pub fn print_question<W: Write>(
    alloc: Global,
    participants: Participants,
    instruments: Instruments,
    trail: &Contents<'_>,
    question: &Question<'_>,
    writer: &mut W,
) -> Result<(), AskedFault>
    requires kept { All IsItem (trail_of trail.now).rows }
    requires few { length (trail_of trail.now).rows ≤ most_items }
    ensures emitted { OnOk result (EmitsAsked question.now (market_of participants instruments) (trail_of trail.now) (W.contents writer.old) (W.contents writer.new)) }
    ensures failed { IfErr result (Fails (BeginsAsked question.now (market_of participants instruments) (trail_of trail.now) (W.contents writer.old) (W.contents writer.new))
        (DiffersAsked question.now (market_of participants instruments) (trail_of trail.now) (W.contents writer.old) (W.contents writer.new))
        (IsUnknownAsked question.now (market_of participants instruments) (trail_of trail.now)) (W.contents writer.old) (W.contents writer.new)) }
{
    match head_of(question) {
        Some(form) => print_behind_head(
            alloc,
            (participants, instruments),
            trail,
            question,
            form,
            writer,
        ),
        None => print_answer(alloc, participants, instruments, trail, question, writer),
    }
}
