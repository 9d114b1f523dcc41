//! A venue that begins where a trail leads.
ghost use Rattle.std.specs.Prelude.{◌≡◌, IfOk};
ghost use Rattle.trail_journal.specs.Written.{LeadsTo};

use crate::keeping::{emit_rows, keep};
use crate::market::{both_read, empty, files};
use crate::scenario::{Scenario, if_emitted};
use anyhow::{Result, anyhow};
use audit_trail::Files;
use sqlite::{Alter, Connection};
use std::mem::drop;
use trail_journal::{Journal, start_trail};
use venue_core::Venue;
use venue_rules::{Keep, TrailFault, TrailRow};

// Begins over the database that a failed call handed back. Where it listed nothing, it may have the whole empty trail.
fn start_again<S: Alter + Drop>(
    scenario: &mut Scenario,
    fault: TrailFault,
    conn: Connection<S>,
    files: &Files,
    tables: usize,
) -> Result<(Journal<S>, Venue)>
    ensures leads { IfOk result (λ r. LeadsTo r.0.rows r.1) }
{
    let listed = conn.schema().tables.len();
    let is_as_before = conn.is_autocommit() && (listed == tables || listed == 4);
    if let Err(error) = scenario.met(&fault, is_as_before) {
        drop(conn);
        return Err(error);
    }
    let market = match both_read(scenario) {
        Ok(market) => market,
        Err(error) => {
            drop(conn);
            return Err(error);
        }
    };
    match start_trail(
        scenario.alloc,
        conn,
        files,
        market.participants,
        market.instruments,
    ) {
        Ok(begun) => Ok(begun),
        Err(refused) => {
            drop(refused);
            Err(anyhow!("a venue does not begin at the second time"))
        }
    }
}

/// Begins where the trail leads that a database keeps, or with an empty one; again where an allocation failed.
pub fn start<S: Alter + Drop>(
    scenario: &mut Scenario,
    conn: Connection<S>,
    files: &Files,
) -> Result<(Journal<S>, Venue)>
    ensures leads { IfOk result (λ r. LeadsTo r.0.rows r.1) }
{
    let tables = conn.schema().tables.len();
    let market = match both_read(scenario) {
        Ok(market) => market,
        Err(error) => {
            drop(conn);
            return Err(error);
        }
    };
    match start_trail(
        scenario.alloc,
        conn,
        files,
        market.participants,
        market.instruments,
    ) {
        Ok(begun) => Ok(begun),
        Err((fault, conn)) => start_again(scenario, fault, conn, files, tables),
    }
}

// The rows, read again where an allocation failed.
fn rows<S: Alter>(scenario: &mut Scenario, journal: &mut Journal<S>) -> Result<Vec<TrailRow>>
    ensures same { journal.new.rows ≡ journal.old.rows }
{
    let before = journal.last();
    let fault = match journal.rows() {
        Ok(rows) => return Ok(rows),
        Err(fault) => fault,
    };
    let is_as_before = journal.last() == before && journal.refusals() == 0;
    scenario.met(&fault, is_as_before)?;
    match journal.rows() {
        Ok(rows) => Ok(rows),
        Err(_) => Err(anyhow!("the rows are not read at the second time")),
    }
}

// Prints a journal.
fn emit_journal<S: Alter>(scenario: &mut Scenario, journal: &mut Journal<S>) -> Result<()> {
    let (last, moment) = journal.last();
    scenario.emit("last", last)?;
    scenario.emit("moment", moment.ms())?;
    scenario.emit("refusals", journal.refusals())?;
    let rows = rows(scenario, journal)?;
    let emitted = emit_rows(scenario, rows.as_slice());
    drop(rows);
    emitted
}

/// Prints a journal and the trades of its venue, and gives the connection back.
pub fn emit_begun<S: Alter + Drop>(
    scenario: &mut Scenario,
    journal: Journal<S>,
    venue: Venue,
) -> Result<Connection<S>> {
    let mut journal = journal;
    let trades = venue.trades().len() as u64;
    drop(venue);
    let emitted = emit_journal(scenario, &mut journal);
    let conn = if_emitted(emitted, journal.into_connection())?;
    let emitted = scenario.emit("trades", trades);
    if_emitted(emitted, conn)
}

// A venue begins over a database, and is printed.
fn start_and_emit<S: Alter + Drop>(
    scenario: &mut Scenario,
    conn: Connection<S>,
    files: &Files,
) -> Result<()> {
    let (journal, venue) = start(scenario, conn, files)?;
    let conn = emit_begun(scenario, journal, venue)?;
    drop(conn);
    Ok(())
}

/// A venue begins with nothing, and then where a trail of the worked items leads.
pub fn run_starting(scenario: &mut Scenario) -> Result<()> {
    let files = files(scenario)?;
    scenario.echo("  with nothing")?;
    let conn = empty(scenario)?;
    start_and_emit(scenario, conn, &files)?;
    scenario.echo("  with a trail")?;
    let conn = empty(scenario)?;
    let conn = keep(scenario, conn, &files)?;
    start_and_emit(scenario, conn, &files)
}
