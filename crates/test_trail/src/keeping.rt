//! A trail that is made, and its rows.
ghost use Rattle.std.specs.Prelude.{◌≡◌, ◌+◌, length, IsTrue};
ghost use Rattle.audit_trail.specs.Trail.{is_readable, kept_rows};

use crate::items::{ITEMS, Sent, new_row};
use crate::market::{empty, files};
use crate::opening::run_opening;
use crate::scenario::{Scenario, if_emitted};
use anyhow::{Result, anyhow, ensure};
use audit_trail::{Files, Trail};
use sqlite::{Alter, Connection};
use std::mem::drop;
use venue_rules::{Keep, TrailFault, TrailRow};

/// What a caller sees of a trail.
#[derive(Clone, Copy, PartialEq)]
pub struct Seen {
    pub rows: u64,
    pub last: u64,
    pub moment: u64,
    pub refusals: u64,
}

/// What is seen of a trail.
pub fn seen_of<S: Alter>(trail: &Trail<S>) -> Seen {
    let (last, moment) = trail.last();
    Seen {
        rows: trail.len(),
        last,
        moment: moment.ms(),
        refusals: trail.refusals(),
    }
}

// How many rows a trail shows, if they can be read.
fn shown_by<S: Alter>(trail: &mut Trail<S>) -> Option<u64>
    ensures { IsTrue (is_readable S.Store trail.new) → IsTrue (is_readable S.Store trail.old) × (kept_rows S.Store trail.new ≡ kept_rows S.Store trail.old) }
{
    match trail.rows() {
        Ok(rows) => Some(rows.len() as u64),
        Err(_) => None,
    }
}

// Whether a database lists nothing, and no transaction is open.
fn is_empty<S: Alter>(conn: &Connection<S>) -> bool {
    conn.is_autocommit() && conn.schema().tables.is_empty()
}

// Makes a trail in the database that a refused call handed back.
fn create_again<S: Alter + Drop>(
    scenario: &mut Scenario,
    fault: TrailFault,
    conn: Connection<S>,
    files: &Files,
) -> Result<Trail<S>> {
    let is_as_before = is_empty(&conn);
    if let Err(error) = scenario.met(&fault, is_as_before) {
        drop(conn);
        return Err(error);
    }
    match Trail::create(scenario.alloc, conn, files) {
        Ok(trail) => Ok(trail),
        Err(refused) => {
            drop(refused);
            Err(anyhow!("a trail is not made at the second time"))
        }
    }
}

/// Makes a trail, again where an allocation failed: the database then lists nothing, as before.
pub fn create<S: Alter + Drop>(
    scenario: &mut Scenario,
    conn: Connection<S>,
    files: &Files,
) -> Result<Trail<S>> {
    match Trail::create(scenario.alloc, conn, files) {
        Ok(trail) => Ok(trail),
        Err((fault, conn)) => create_again(scenario, fault, conn, files),
    }
}

// Records the next row, again where an allocation failed: what is seen of the trail is then as before.
fn record<S: Alter>(scenario: &mut Scenario, trail: &mut Trail<S>, row: &TrailRow) -> Result<()>
    requires { IsTrue (is_readable S.Store trail.old) → row.now.n ≡ length (kept_rows S.Store trail.old) + 1 }
{
    let before = seen_of(trail);
    let Err(fault) = trail.record(row) else {
        return Ok(());
    };
    let is_as_before = seen_of(trail) == before && shown_by(trail) == Some(before.rows);
    scenario.met(&fault, is_as_before)?;
    ensure!(
        trail.record(row).is_ok(),
        "a row is not recorded at the second time"
    );
    Ok(())
}

/// Records the next item.
pub fn record_item<S: Alter>(
    scenario: &mut Scenario,
    trail: &mut Trail<S>,
    sent: &Sent,
) -> Result<()> {
    let Some(n) = trail.len().checked_add(1) else {
        return Err(anyhow!("too many rows"));
    };
    let row = new_row(scenario, n, sent)?;
    let recorded = record(scenario, trail, &row);
    drop(row);
    recorded
}

// The rows, read again where an allocation failed: what is seen of the trail is then as before.
fn rows<S: Alter>(scenario: &mut Scenario, trail: &mut Trail<S>) -> Result<Vec<TrailRow>> {
    let before = seen_of(trail);
    let fault = match trail.rows() {
        Ok(rows) => return Ok(rows),
        Err(fault) => fault,
    };
    let is_as_before = seen_of(trail) == before;
    scenario.met(&fault, is_as_before)?;
    match trail.rows() {
        Ok(rows) => Ok(rows),
        Err(_) => Err(anyhow!("the rows are not read at the second time")),
    }
}

pub fn emit_rows(scenario: &mut Scenario, rows: &[TrailRow]) -> Result<()> {
    for row in rows {
        scenario.emit_row(row)?;
    }
    Ok(())
}

/// Prints a trail without its rows: its last row, how often it refused, its files and its delays.
pub fn emit_seen<S: Alter>(scenario: &mut Scenario, trail: &Trail<S>, files: &Files) -> Result<()> {
    let seen = seen_of(trail);
    scenario.emit("rows", seen.rows)?;
    scenario.emit("last", seen.last)?;
    scenario.emit("moment", seen.moment)?;
    scenario.emit("refusals", seen.refusals)?;
    scenario.emit("same files", u64::from(trail.files().is_same(files)))?;
    for ms in trail.delays() {
        scenario.emit("delay", *ms)?;
    }
    Ok(())
}

/// The same, and its rows.
pub fn emit_trail<S: Alter>(
    scenario: &mut Scenario,
    trail: &mut Trail<S>,
    files: &Files,
) -> Result<()> {
    emit_seen(scenario, trail, files)?;
    let rows = rows(scenario, trail)?;
    let emitted = emit_rows(scenario, rows.as_slice());
    drop(rows);
    emitted
}

// Records the worked items, the last of a later era, and prints the trail after each.
fn record_items<S: Alter>(scenario: &mut Scenario, trail: &mut Trail<S>) -> Result<()> {
    for (place, sent) in ITEMS.iter().enumerate() {
        let era = if place == 6 { 2 } else { 1 };
        record_item(scenario, trail, &Sent { era, ..*sent })?;
        scenario.emit("recorded", trail.len())?;
    }
    Ok(())
}

// Prints a new trail, fills it, and prints it again.
fn fill<S: Alter>(scenario: &mut Scenario, trail: &mut Trail<S>, files: &Files) -> Result<()> {
    emit_trail(scenario, trail, files)?;
    record_items(scenario, trail)?;
    emit_trail(scenario, trail, files)
}

/// Makes a trail, and fills it with the worked items.
pub fn keep<S: Alter + Drop>(
    scenario: &mut Scenario,
    conn: Connection<S>,
    files: &Files,
) -> Result<Connection<S>> {
    let mut trail = create(scenario, conn, files)?;
    let filled = fill(scenario, &mut trail, files);
    if_emitted(filled, trail.into_connection())
}

/// A trail is made, kept, and opened again.
pub fn run_keeping(scenario: &mut Scenario) -> Result<()> {
    let files = files(scenario)?;
    let conn = empty(scenario)?;
    let conn = keep(scenario, conn, &files)?;
    run_opening(scenario, conn, &files)
}
