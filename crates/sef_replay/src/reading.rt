//! The day of a trail, read from a database, which is then no more needed.

ghost use Rattle.std.specs.Prelude.{◌≡◌, ◌≤◌, All, length, IfErr, IfOk};
ghost use Rattle.sqlite.specs.State.{HasCleanDisk, Survives};
ghost use Rattle.sqlite.specs.Held.{state};
ghost use Rattle.audit_trail.specs.Reading.{IsTrailLike, RefusesToOpen};
ghost use Rattle.audit_trail.specs.Trail.{kept_rows, store};
ghost use Rattle.venue_core.specs.Plan.{most_items};
ghost use Rattle.venue_core.specs.Replay.{IsItem};
ghost use Rattle.sef_replay.specs.Asked.{OfRows, OfTrail};
ghost use Rattle.sef_replay.specs.Compared.{IsSide, read_side};
ghost use Rattle.sef_replay.specs.Day.{IsFailureOf};
ghost use Rattle.sef_replay.specs.Stops.{RefusesDay, StopsAfter, StopsReading};
ghost use Rattle.sef_replay.specs.declared.failure.Failure.TheVariants.{Trail as TrailRefused};

use crate::failure::{Failure, Stop};
use crate::replaying::{KeptDay, day_kept};
use audit_trail::{Files, Trail};
use sqlite::{Alter, Connection};
use std::alloc::{AllocError, Global};

/// The day of a trail, with the bytes of its files and its delays.
#[derive(Drop)]
pub struct ReadDay {
    pub files: Files,
    pub delays: Vec<u64>,
    pub day: KeptDay,
}

/// Copies of files and delays.
fn copies_of(alloc: Global, files: &Files, delays: &[u64]) -> Result<(Files, Vec<u64>), AllocError>
    ensures { IfOk result (λ copies. (copies.0 ≡ files.now) × (copies.1.items ≡ delays.now)) }
{
    let files = files.copy(alloc)?;
    let delays = Vec::from_slice(alloc, delays)?;
    Ok((files, delays))
}

/// Reads the day of an opened trail.
fn read_kept<S: Alter>(alloc: Global, trail: &mut Trail<S>) -> Result<ReadDay, Stop>
    ensures read { HasCleanDisk (store S.Store trail.new) → IfOk result (λ day. OfRows (IsSide (read_side day)) trail.old.files trail.old.delays (kept_rows S.Store trail.old)) }
    ensures items { IfOk result (λ day. All IsItem day.day.rows.items) }
    ensures few { IfOk result (λ day. length day.day.rows.items ≤ most_items) }
    ensures stopped { IfErr result (StopsReading (HasCleanDisk (store S.Store trail.new) → RefusesDay trail.old.files trail.old.delays (store S.Store trail.old) (store S.Store trail.new))) }
    ensures crash { Survives (store S.Store trail.old) (store S.Store trail.new) (λ _. ⊥) }
{
    let day = day_kept(alloc, trail)?;
    match copies_of(alloc, trail.files(), trail.delays()) {
        Ok((files, delays)) => Ok(ReadDay { files, delays, day }),
        Err(_) => {
            drop(day);
            Err(Stop::Memory)
        }
    }
}

/// Reads the day of a database's trail. Nothing is written into the database; the connection comes back.
#[tactic(auto, using(crate::proofs::Asked::asked_of, crate::proofs::Ends::fault_emitted, crate::proofs::Stops::fault_stops))]
pub fn read_day<S: Alter>(
    alloc: Global,
    conn: Connection<S>,
) -> Result<(ReadDay, Connection<S>), (Failure, Connection<S>)>
    ensures read { IfOk result (λ it. HasCleanDisk (state S.Store it.1) → OfTrail (IsSide (read_side it.0)) (state S.Store conn).now) }
    ensures items { IfOk result (λ it. All IsItem it.0.day.rows.items) }
    ensures few { IfOk result (λ it. length it.0.day.rows.items ≤ most_items) }
    ensures fault { IfErr result (λ e. HasCleanDisk (state S.Store e.1) → IsFailureOf (state S.Store conn).now e.0) }
    ensures cause { IfErr result (λ e. HasCleanDisk (state S.Store e.1) → e.0 ≡ TrailRefused 1 → RefusesToOpen (state S.Store conn) (state S.Store e.1)) }
    ensures understood { IfErr result (λ e. HasCleanDisk (state S.Store e.1) → e.0 ≡ TrailRefused 4 → IsTrailLike (state S.Store conn)) }
    ensures stopped { IfErr result (λ e. HasCleanDisk (state S.Store e.1) → StopsAfter e.0 (state S.Store conn) (state S.Store e.1)) }
{
    let mut trail = match Trail::open(alloc, conn, None) {
        Ok(trail) => trail,
        Err((fault, conn)) => return Err((Failure::from(fault), conn)),
    };
    match read_kept(alloc, &mut trail) {
        Ok(day) => Ok((day, trail.into_connection())),
        Err(stop) => Err((Failure::Stopped(stop), trail.into_connection())),
    }
}
