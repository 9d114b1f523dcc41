//! Reports on a trail.

ghost use Rattle.std.specs.Prelude.{◌≡◌, ◌⊎◌, IfOk, IfErr};
ghost use Rattle.std.specs.Io.KnownBytes.{Keeps};
ghost use Rattle.sqlite.specs.State.{HasCleanDisk};
ghost use Rattle.sqlite.specs.Held.{state};
ghost use Rattle.audit_trail.specs.Reading.{IsTrailLike, RefusesToOpen};
ghost use Rattle.sef_replay.specs.Day.{UnlessPrinting};
ghost use Rattle.sef_replay.specs.Reports.{BeginsWanted, EmitsWanted, IsWantedFailure};
ghost use Rattle.sef_replay.specs.Stops.{StopsAfter};
ghost use Rattle.sef_replay.specs.declared.failure.Failure.TheVariants.{Stopped, Trail as TrailRefused};
ghost use Rattle.sef_replay.specs.declared.failure.Stop.TheVariants.{Memory};

use crate::asking::print_asked;
use crate::failure::Failure;
use crate::form::Form;
use crate::printing::print_day;
use sqlite::{Alter, Connection};
use std::alloc::Global;
use std::io::Write;
use trail_questions::Question;

/// Prints the report on a database's trail: the answer to the question, and its trades where there is none. The
/// connection comes back.
pub fn print_wanted<S: Alter, W: Write>(
    alloc: Global,
    conn: Connection<S>,
    wanted: &Option<Question<'_>>,
    writer: &mut W,
) -> Result<Connection<S>, (Failure, Connection<S>)>
    ensures emitted { IfOk result (λ back. HasCleanDisk (state S.Store back) → EmitsWanted wanted.now (state S.Store conn).now (W.contents writer.old) (W.contents writer.new)) }
    ensures fault { IfErr result (λ e. HasCleanDisk (state S.Store e.1) → IsWantedFailure wanted.now (W.contents writer.old) (W.contents writer.new) (state S.Store conn).now e.0) }
    ensures cause { IfErr result (λ e. HasCleanDisk (state S.Store e.1) → e.0 ≡ TrailRefused 1 → RefusesToOpen (state S.Store conn) (state S.Store e.1)) }
    ensures understood { IfErr result (λ e. HasCleanDisk (state S.Store e.1) → e.0 ≡ TrailRefused 4 → IsTrailLike (state S.Store conn)) }
    ensures stopped { IfErr result (λ e. HasCleanDisk (state S.Store e.1) → StopsAfter e.0 (state S.Store conn) (state S.Store e.1)) }
    ensures unwritten { IfErr result (λ e. UnlessPrinting e.0 (Keeps (W.contents writer.old) (W.contents writer.new))) }
    ensures begun { IfErr result (λ e. HasCleanDisk (state S.Store e.1) → e.0 ≡ Stopped Memory → Keeps (W.contents writer.old) (W.contents writer.new) ⊎ BeginsWanted wanted.now (state S.Store conn).now (W.contents writer.old) (W.contents writer.new)) }
{
    match wanted {
        None => print_day(alloc, conn, Form::Lines, writer),
        Some(question) => print_asked(alloc, conn, question, writer),
    }
}
