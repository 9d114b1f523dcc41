//! Printing the answer to a question about the day of a trail.

ghost use Rattle.std.specs.Prelude.{◌≡◌, ◌≤◌, ◌⊎◌, All, length, IfOk, IfErr, OnOk};
ghost use Rattle.std.specs.Io.KnownBytes.{Keeps};
ghost use Rattle.sqlite.specs.State.{HasCleanDisk, Survives};
ghost use Rattle.sqlite.specs.Held.{state};
ghost use Rattle.audit_trail.specs.Reading.{IsTrailLike, RefusesToOpen};
ghost use Rattle.audit_trail.specs.Trail.{kept_rows, store};
ghost use Rattle.trail_questions.specs.Ending.{Fails, market_of};
ghost use Rattle.trail_questions.specs.Question.{BeginsAsked, DiffersAsked, EmitsAsked, IsUnknownAsked};
ghost use Rattle.venue_core.specs.Plan.{most_items};
ghost use Rattle.venue_core.specs.Replay.{IsItem};
ghost use Rattle.sef_replay.specs.declared.failure.Failure.TheVariants.{Stopped, Trail as TrailRefused};
ghost use Rattle.sef_replay.specs.declared.failure.Stop.TheVariants.{Memory};
ghost use Rattle.sef_replay.specs.Asked.{BeginsAskedOf, EmitsAskedOf, IsAskedFailureOf, IsRefusalKept, OfRows, content};
ghost use Rattle.sef_replay.specs.Day.{UnlessPrinting};
ghost use Rattle.sef_replay.specs.Stops.{RefusesDay, StopsAfter, StopsEmitting};

use crate::failure::Failure;
use crate::replaying::{KeptDay, day_kept};
use audit_trail::{Files, Trail};
use instruments::Instruments;
use participants::Participants;
use sqlite::{Alter, Connection};
use std::alloc::Global;
use std::io::Write;
use trail_digest::Contents;
use trail_questions::{AskedFault, Question, print_question};
use venue_rules::TrailRow;

/// The day of a trail, lent: its files, its delays and its rows.
#[derive(Clone, Copy)]
struct Lent<'a> {
    files: &'a Files,
    delays: &'a [u64],
    rows: &'a [TrailRow],
}

/// Writes the answer to a question about a day.
fn print_lent<W: Write>(
    alloc: Global,
    market: (Participants, Instruments),
    day: &Lent<'_>,
    question: &Question<'_>,
    writer: &mut W,
) -> Result<(), AskedFault>
    requires kept { All IsItem day.now.rows.now }
    requires few { length day.now.rows.now ≤ most_items }
    ensures emitted { OnOk result (EmitsAsked question.now (market_of market.0 market.1) (content day.now.files.now day.now.delays.now day.now.rows.now) (W.contents writer.old) (W.contents writer.new)) }
    ensures failed { IfErr result (Fails (BeginsAsked question.now (market_of market.0 market.1) (content day.now.files.now day.now.delays.now day.now.rows.now) (W.contents writer.old) (W.contents writer.new))
        (DiffersAsked question.now (market_of market.0 market.1) (content day.now.files.now day.now.delays.now day.now.rows.now) (W.contents writer.old) (W.contents writer.new))
        (IsUnknownAsked question.now (market_of market.0 market.1) (content day.now.files.now day.now.delays.now day.now.rows.now)) (W.contents writer.old) (W.contents writer.new)) }
{
    let (participants, instruments) = market;
    let contents = Contents {
        participants: day.files.participants.as_slice(),
        instruments: day.files.instruments.as_slice(),
        delays: day.delays,
        rows: day.rows,
    };
    print_question(
        alloc,
        participants,
        instruments,
        &contents,
        question,
        writer,
    )
}

/// Writes the answer to a question about the day in a trail.
#[tactic(auto, using(crate::proofs::Asked::asking_stops, crate::proofs::Asked::unwritten_kept, crate::proofs::Asked::stop_unprinted, crate::proofs::Stops::stops_printing))]
fn print_kept<S: Alter, W: Write>(
    alloc: Global,
    trail: &mut Trail<S>,
    question: &Question<'_>,
    writer: &mut W,
) -> Result<(), Failure>
    ensures emitted { HasCleanDisk (store S.Store trail.new) → OnOk result
        (OfRows (λ m t. EmitsAsked question.now m t (W.contents writer.old) (W.contents writer.new)) trail.old.files trail.old.delays (kept_rows S.Store trail.old)) }
    ensures refused { HasCleanDisk (store S.Store trail.new) → IfErr result (IsRefusalKept question.now (W.contents writer.old) (W.contents writer.new) trail.old.files trail.old.delays (kept_rows S.Store trail.old)) }
    ensures stopped { IfErr result (StopsEmitting (HasCleanDisk (store S.Store trail.new) → RefusesDay trail.old.files trail.old.delays (store S.Store trail.old) (store S.Store trail.new))) }
    ensures unwritten { IfErr result (λ failure. UnlessPrinting failure (Keeps (W.contents writer.old) (W.contents writer.new))) }
    ensures begun { HasCleanDisk (store S.Store trail.new) → IfErr result (λ failure. failure ≡ Stopped Memory → Keeps (W.contents writer.old) (W.contents writer.new)
        ⊎ OfRows (λ m t. BeginsAsked question.now m t (W.contents writer.old) (W.contents writer.new)) trail.old.files trail.old.delays (kept_rows S.Store trail.old)) }
    ensures crash { Survives (store S.Store trail.old) (store S.Store trail.new) (λ _. ⊥) }
{
    let KeptDay {
        participants,
        instruments,
        rows,
    } = day_kept(alloc, trail)?;
    let day = Lent {
        files: trail.files(),
        delays: trail.delays(),
        rows: rows.as_slice(),
    };
    let printed = print_lent(alloc, (participants, instruments), &day, question, writer);
    drop(rows);
    match printed {
        Ok(()) => Ok(()),
        Err(fault) => Err(Failure::from(fault)),
    }
}

/// Writes the answer to a question about the day in a database's trail, read back from its rows alone: these are
/// replayed over the stored files and with the stored delays. Nothing is written into the database, nor to the writer
/// where the trail or the question is refused; where an allocation fails, nothing or a first part of the output. The
/// connection comes back.
#[tactic(auto, using(crate::proofs::Asked::asked_of, crate::proofs::Asked::failure_of, crate::proofs::Asked::fault_of, crate::proofs::Ends::refused_unwritten, crate::proofs::Kept::not_begun, crate::proofs::Kept::survives_both, crate::proofs::Stops::fault_stops, crate::proofs::Stops::emitting_stopped))]
pub fn print_asked<S: Alter, W: Write>(
    alloc: Global,
    conn: Connection<S>,
    question: &Question<'_>,
    writer: &mut W,
) -> Result<Connection<S>, (Failure, Connection<S>)>
    ensures emitted { IfOk result (λ back. HasCleanDisk (state S.Store back) → EmitsAskedOf question.now (state S.Store conn).now (W.contents writer.old) (W.contents writer.new)) }
    ensures fault { IfErr result (λ e. HasCleanDisk (state S.Store e.1) → IsAskedFailureOf question.now (W.contents writer.old) (W.contents writer.new) (state S.Store conn).now e.0) }
    ensures cause { IfErr result (λ e. HasCleanDisk (state S.Store e.1) → e.0 ≡ TrailRefused 1 → RefusesToOpen (state S.Store conn) (state S.Store e.1)) }
    ensures understood { IfErr result (λ e. HasCleanDisk (state S.Store e.1) → e.0 ≡ TrailRefused 4 → IsTrailLike (state S.Store conn)) }
    ensures stopped { IfErr result (λ e. HasCleanDisk (state S.Store e.1) → StopsAfter e.0 (state S.Store conn) (state S.Store e.1)) }
    ensures unwritten { IfErr result (λ e. UnlessPrinting e.0 (Keeps (W.contents writer.old) (W.contents writer.new))) }
    ensures begun { IfErr result (λ e. HasCleanDisk (state S.Store e.1) → e.0 ≡ Stopped Memory → Keeps (W.contents writer.old) (W.contents writer.new) ⊎ BeginsAskedOf question.now (state S.Store conn).now (W.contents writer.old) (W.contents writer.new)) }

    // Nothing is committed: a crash leaves what it could leave before.
    ensures crash { IfOk result (λ back. Survives (state S.Store conn) (state S.Store back) (λ _. ⊥)) }
    ensures crash_err { IfErr result (λ e. Survives (state S.Store conn) (state S.Store e.1) (λ _. ⊥)) }
{
    let mut trail = match Trail::open(alloc, conn, None) {
        Ok(trail) => trail,
        Err((fault, conn)) => return Err((Failure::from(fault), conn)),
    };
    match print_kept(alloc, &mut trail, question, writer) {
        Ok(()) => Ok(trail.into_connection()),
        Err(failure) => Err((failure, trail.into_connection())),
    }
}
