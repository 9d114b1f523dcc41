//! The book of an instrument, after a row or at the end of the day.

ghost use Rattle.std.specs.Prelude.{◌≡◌, ◌≤◌, All, true, length, IfErr, OnOk};
ghost use Rattle.venue_core.specs.Plan.{most_items};
ghost use Rattle.venue_core.specs.Replay.{IsItem};
ghost use Rattle.trail_questions.specs.Book.{EmitsBookAfter, IsUnknownBook, book_head};
ghost use Rattle.trail_questions.specs.Ending.{Fails, market_of};
ghost use Rattle.trail_questions.specs.Rows.{is_row, rows_until};

use crate::fault::{AskedFault, Unknown};
use fix_dictionary::Identifier;
use instruments::Instruments;
use participants::Participants;
use resting_orders::{BookFault, Form, print_book};
use std::alloc::Global;
use std::io::Write;
use trail_digest::HeadForm;
use venue_rules::TrailRow;

/// The book of an instrument, after a row or at the end of the day.
#[derive(Clone, Copy)]
pub struct BookAfter {
    pub symbol: Identifier,
    pub row: Option<u64>,
}

/// The head above a book in this form; a table has none.
pub(crate) fn book_head(form: Form) -> Option<HeadForm>
    ensures { result ≡ book_head form }
{
    match form {
        Form::Lines => Some(HeadForm::Line),
        Form::Table => None,
    }
}

/// Whether the trail has this row, of so long a list.
pub(crate) fn is_row(row: Option<u64>, count: u64) -> bool
    ensures { result ≡ is_row row count }
{
    match row {
        Some(row) => 1 <= row && row <= count,
        None => true,
    }
}

/// The rows up to this one, or all.
pub(crate) fn rows_until(rows: &[TrailRow], row: Option<u64>) -> &[TrailRow]
    requires { is_row row (length rows.now) ≡ true }
    ensures { result.now ≡ rows_until row rows.now }
{
    match row {
        Some(row) => &rows[..row as usize],
        None => rows,
    }
}

/// Prints a book of a day.
#[tactic(auto, using(crate::proofs::Asked::kept_until))]
pub(crate) fn print_book_after<W: Write>(
    alloc: Global,
    participants: Participants,
    instruments: Instruments,
    rows: &[TrailRow],
    book: &BookAfter,
    form: Form,
    writer: &mut W,
) -> Result<(), AskedFault>
    requires kept { All IsItem rows.now }
    requires few { length rows.now ≤ most_items }
    ensures emitted { OnOk result (EmitsBookAfter book.now form (market_of participants instruments) rows.now (W.contents writer.old) (W.contents writer.new)) }
    ensures failed { IfErr result (Fails ⊥ ⊥ (IsUnknownBook book.now (market_of participants instruments) rows.now) (W.contents writer.old) (W.contents writer.new)) }
{
    if !is_row(book.row, rows.len() as u64) {
        return Err(AskedFault::Unknown(Unknown::Row));
    }
    let until = rows_until(rows, book.row);
    let printed = print_book(
        alloc,
        participants,
        instruments,
        until,
        form,
        book.symbol,
        writer,
    );
    match printed {
        Ok(()) => Ok(()),
        Err(BookFault::Memory) => Err(AskedFault::Memory),
        Err(BookFault::Output) => Err(AskedFault::Output),
        Err(BookFault::NoInstrument) => Err(AskedFault::Unknown(Unknown::Instrument)),
    }
}
