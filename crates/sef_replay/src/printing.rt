//! Printing the trades of a trail.

ghost use Rattle.std.specs.Prelude.{◌≡◌, ◌⊎◌, IfOk, IfErr, OnOk};
ghost use Rattle.std.specs.Io.KnownBytes.{Appends, Keeps};
ghost use Rattle.venue_rules.specs.Facts.{History};
ghost use Rattle.venue_core.specs.VenueFacts.{IsHistory};
ghost use Rattle.sqlite.specs.State.{HasCleanDisk, Survives};
ghost use Rattle.sqlite.specs.Held.{state};
ghost use Rattle.audit_trail.specs.Reading.{IsTrailLike, RefusesToOpen};
ghost use Rattle.audit_trail.specs.Trail.{kept_rows, store};
ghost use Rattle.trade_blotter.specs.declared.printing.PrintFault.TheVariants as print_fault;
ghost use Rattle.sef_replay.specs.declared.failure.Failure.TheVariants.{Stopped, Trail as TrailRefused};
ghost use Rattle.sef_replay.specs.declared.failure.Stop.TheVariants.{Memory};
ghost use Rattle.sef_replay.specs.Day.{Begins, BeginsDay, BeginsKept, IsFailureOf, EmitsDay, EmitsKept, UnlessPrinting, UnlessStopped, printed};
ghost use Rattle.sef_replay.specs.Stops.{RefusesDay, StopsAfter, StopsPrinting};

use crate::failure::{Failure, Stop};
use crate::form::Form;
use crate::replaying::venue_kept;
use audit_trail::Trail;
use sqlite::{Alter, Connection};
use std::alloc::Global;
use std::io::Write;
use trade_blotter::{PrintFault, print_table, print_trades};
use venue_core::Venue;

/// Writes the trades of a venue's day in a form.
fn print_in<W: Write>(
    alloc: Global,
    venue: &Venue,
    form: Form,
    writer: &mut W,
) -> Result<(), PrintFault>
    ensures emitted { (h : History) → IsHistory venue.now h → OnOk result (Appends (W.contents writer.old) (W.contents writer.new) (printed form venue.now.market h)) }
    ensures begun { (h : History) → IsHistory venue.now h → IfErr result (λ fault. fault ≡ print_fault.Memory → Begins form (W.contents writer.old) (W.contents writer.new) venue.now.market h) }
{
    match form {
        Form::Lines => print_trades(alloc, venue, writer),
        Form::Table => print_table(alloc, venue, writer),
    }
}

/// Writes the trades of the day in a trail.
#[tactic(auto, using(crate::proofs::Kept::not_begun, crate::proofs::Stops::stops_printing))]
fn print_kept<S: Alter, W: Write>(
    alloc: Global,
    trail: &mut Trail<S>,
    form: Form,
    writer: &mut W,
) -> Result<(), Stop>
    ensures emitted { HasCleanDisk (store S.Store trail.new) → OnOk result
        (EmitsKept form trail.old.files trail.old.delays (kept_rows S.Store trail.old) (W.contents writer.old) (W.contents writer.new)) }
    ensures stopped { IfErr result (StopsPrinting (HasCleanDisk (store S.Store trail.new) → RefusesDay trail.old.files trail.old.delays (store S.Store trail.old) (store S.Store trail.new))) }
    ensures unwritten { IfErr result (λ stop. UnlessStopped stop (Keeps (W.contents writer.old) (W.contents writer.new))) }
    ensures begun { HasCleanDisk (store S.Store trail.new) → IfErr result (λ stop. stop ≡ Memory → Keeps (W.contents writer.old) (W.contents writer.new)
        ⊎ BeginsKept form trail.old.files trail.old.delays (kept_rows S.Store trail.old) (W.contents writer.old) (W.contents writer.new)) }
    ensures crash { Survives (store S.Store trail.old) (store S.Store trail.new) (λ _. ⊥) }
{
    let venue = venue_kept(alloc, trail)?;
    let printed = print_in(alloc, &venue, form, writer);
    drop(venue);
    match printed {
        Ok(()) => Ok(()),
        Err(PrintFault::Memory) => Err(Stop::Memory),
        Err(PrintFault::Output) => Err(Stop::Output),
    }
}

/// Writes each trade of the day in a database's trail, in order and in a form, read back from its rows alone: these are
/// replayed over the stored files and with the stored delays. Nothing is written into the database, nor, where it is
/// refused, to the writer; where an allocation fails, nothing or a first part of the output. The connection comes back.
#[tactic(auto, using(crate::proofs::Kept::survives_both, crate::proofs::Ends::fault_emitted, crate::proofs::Ends::refused_unwritten, crate::proofs::Kept::not_begun, crate::proofs::Stops::fault_stops, crate::proofs::Stops::day_stopped))]
pub fn print_day<S: Alter, W: Write>(
    alloc: Global,
    conn: Connection<S>,
    form: Form,
    writer: &mut W,
) -> Result<Connection<S>, (Failure, Connection<S>)>
    ensures emitted { IfOk result (λ back. HasCleanDisk (state S.Store back) → EmitsDay form (state S.Store conn).now (W.contents writer.old) (W.contents writer.new)) }
    ensures fault { IfErr result (λ e. HasCleanDisk (state S.Store e.1) → IsFailureOf (state S.Store conn).now e.0) }
    ensures cause { IfErr result (λ e. HasCleanDisk (state S.Store e.1) → e.0 ≡ TrailRefused 1 → RefusesToOpen (state S.Store conn) (state S.Store e.1)) }
    ensures understood { IfErr result (λ e. HasCleanDisk (state S.Store e.1) → e.0 ≡ TrailRefused 4 → IsTrailLike (state S.Store conn)) }
    ensures stopped { IfErr result (λ e. HasCleanDisk (state S.Store e.1) → StopsAfter e.0 (state S.Store conn) (state S.Store e.1)) }
    ensures unwritten { IfErr result (λ e. UnlessPrinting e.0 (Keeps (W.contents writer.old) (W.contents writer.new))) }
    ensures begun { IfErr result (λ e. HasCleanDisk (state S.Store e.1) → e.0 ≡ Stopped Memory → Keeps (W.contents writer.old) (W.contents writer.new) ⊎ BeginsDay form (state S.Store conn).now (W.contents writer.old) (W.contents writer.new)) }

    // Nothing is committed: a crash leaves what it could leave before.
    ensures crash { IfOk result (λ back. Survives (state S.Store conn) (state S.Store back) (λ _. ⊥)) }
    ensures crash_err { IfErr result (λ e. Survives (state S.Store conn) (state S.Store e.1) (λ _. ⊥)) }
{
    let mut trail = match Trail::open(alloc, conn, None) {
        Ok(trail) => trail,
        Err((fault, conn)) => return Err((Failure::from(fault), conn)),
    };
    match print_kept(alloc, &mut trail, form, writer) {
        Ok(()) => Ok(trail.into_connection()),
        Err(stop) => Err((Failure::Stopped(stop), trail.into_connection())),
    }
}
