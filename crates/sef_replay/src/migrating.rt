//! Printing the trades of a trail of version 3 or older.

ghost use Rattle.std.specs.Prelude.{◌≡◌, ◌⊎◌, IfOk, IfErr};
ghost use Rattle.std.specs.Io.KnownBytes.{Keeps};
ghost use Rattle.sqlite.specs.State.{HasCleanDisk, Survives};
ghost use Rattle.sqlite.specs.Held.{state};
ghost use Rattle.audit_trail.specs.Older.{MayBecomeThird};
ghost use Rattle.audit_trail.specs.Reading.{IsTrailLike};
ghost use Rattle.sef_replay.specs.Day.{UnlessPrinting};
ghost use Rattle.sef_replay.specs.Older.{BeginsEither, EitherFault, IsEitherFailure, IsThirdNow, LeavesThird, RefusesEither, RefusesToBringUp, StopsEither, EmitsEither};
ghost use Rattle.sef_replay.specs.declared.failure.Failure.TheVariants.{Stopped, Trail as TrailRefused};
ghost use Rattle.sef_replay.specs.declared.failure.Stop.TheVariants.{Memory};
ghost use Rattle.venue_rules.specs.declared.trail.TrailFault.TheVariants.{OtherVersion, Refused};

use crate::failure::Failure;
use crate::form::Form;
use crate::printing::print_day;
use audit_trail::Trail;
use sqlite::{Alter, Connection};
use std::alloc::Global;
use std::io::Write;
use venue_rules::TrailFault;

/// Makes a trail of version 1 or 2 into one of version 3. One of version 3 stays as it is.
fn brought_up<S: Alter>(
    alloc: Global,
    conn: Connection<S>,
) -> Result<Connection<S>, (TrailFault, Connection<S>)>
    ensures third { IfOk result (λ up. HasCleanDisk (state S.Store up) → IsThirdNow (state S.Store conn) (state S.Store up)) }
    ensures durable { IfOk result (λ up. HasCleanDisk (state S.Store up) → LeavesThird (state S.Store conn) (state S.Store up)) }
    ensures fault { IfErr result (λ e. HasCleanDisk (state S.Store e.1) → EitherFault (state S.Store conn).now e.0) }
    ensures cause { IfErr result (λ e. HasCleanDisk (state S.Store e.1) → e.0 ≡ Refused → RefusesToBringUp (state S.Store conn) (state S.Store e.1)) }
    ensures understood { IfErr result (λ e. HasCleanDisk (state S.Store e.1) → e.0 ≡ OtherVersion → IsTrailLike (state S.Store conn)) }
    ensures crash { IfOk result (λ up. Survives (state S.Store conn) (state S.Store up) (MayBecomeThird (state S.Store conn))) }
    ensures crash_err { IfErr result (λ e. Survives (state S.Store conn) (state S.Store e.1) (MayBecomeThird (state S.Store conn))) }
{
    match Trail::open(alloc, conn, None) {
        Ok(trail) => Ok(trail.into_connection()),
        Err((TrailFault::OtherVersion, conn)) => Trail::migrate(alloc, conn),
        Err((fault, conn)) => Err((fault, conn)),
    }
}

/// Writes each trade of the day in a database's trail, as `print_day` does. A trail of version 1 or 2 is first made
/// into one of version 3, in one transaction, and stays so, also where its trades are then not written. The connection
/// comes back.
#[tactic(auto, using(crate::proofs::Ends::refused_unwritten, crate::proofs::Older::failure_emitted))]
pub fn print_migrated<S: Alter, W: Write>(
    alloc: Global,
    conn: Connection<S>,
    form: Form,
    writer: &mut W,
) -> Result<Connection<S>, (Failure, Connection<S>)>
    ensures emitted { IfOk result (λ back. HasCleanDisk (state S.Store back) → EmitsEither form (state S.Store conn).now (W.contents writer.old) (W.contents writer.new)) }
    ensures fault { IfErr result (λ e. HasCleanDisk (state S.Store e.1) → IsEitherFailure (state S.Store conn).now e.0) }
    ensures cause { IfErr result (λ e. HasCleanDisk (state S.Store e.1) → e.0 ≡ TrailRefused 1 → RefusesEither (state S.Store conn) (state S.Store e.1)) }
    ensures understood { IfErr result (λ e. HasCleanDisk (state S.Store e.1) → e.0 ≡ TrailRefused 4 → IsTrailLike (state S.Store conn)) }
    ensures stopped { IfErr result (λ e. HasCleanDisk (state S.Store e.1) → StopsEither e.0 (state S.Store conn) (state S.Store e.1)) }
    ensures unwritten { IfErr result (λ e. UnlessPrinting e.0 (Keeps (W.contents writer.old) (W.contents writer.new))) }
    ensures begun { IfErr result (λ e. HasCleanDisk (state S.Store e.1) → e.0 ≡ Stopped Memory → Keeps (W.contents writer.old) (W.contents writer.new) ⊎ BeginsEither form (state S.Store conn).now (W.contents writer.old) (W.contents writer.new)) }

    // A crash leaves what it could leave before, or of an older trail the whole one of version 3; after Ok, that one
    // alone.
    ensures crash { IfOk result (λ back. Survives (state S.Store conn) (state S.Store back) (MayBecomeThird (state S.Store conn))) }
    ensures durable { IfOk result (λ back. HasCleanDisk (state S.Store back) → LeavesThird (state S.Store conn) (state S.Store back)) }
    ensures crash_err { IfErr result (λ e. Survives (state S.Store conn) (state S.Store e.1) (MayBecomeThird (state S.Store conn))) }
{
    match brought_up(alloc, conn) {
        Ok(conn) => print_day(alloc, conn, form, writer),
        Err((fault, conn)) => Err((Failure::from(fault), conn)),
    }
}
