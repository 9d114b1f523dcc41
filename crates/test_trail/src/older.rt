//! Trails of versions 1 and 2, and what is made of them.

use crate::items::{ITEMS, Sent};
use crate::keeping::emit_trail;
use crate::market::files;
use crate::opening::{looked_at, open};
use crate::scenario::Scenario;
use anyhow::{Result, anyhow};
use audit_trail::{Files, Trail};
use sqlite::types::ValueRef;
use sqlite::{Alter, Connection, MemStore};
use std::alloc::Global;
use std::mem::drop;
use venue_rules::TrailFault;

/// The tables of versions 1 and 2, as older venues made them.
const FIRST: &str =
    "CREATE TABLE head (id INTEGER PRIMARY KEY, version INTEGER NOT NULL, participants BLOB NOT NULL, instruments BLOB NOT NULL); CREATE TABLE item (n INTEGER PRIMARY KEY, who INTEGER NOT NULL, number INTEGER NOT NULL, moment INTEGER NOT NULL, text BLOB NOT NULL)";

const SECOND: &str =
    "CREATE TABLE delay (x INTEGER PRIMARY KEY, ms INTEGER NOT NULL); INSERT INTO delay (x, ms) VALUES (1, 20000), (2, 1000)";

const HEAD: &str =
    "INSERT INTO head (id, version, participants, instruments) VALUES (7, ?1, ?2, ?3)";

const ITEM: &str = "INSERT INTO item (n, who, number, moment, text) VALUES (?1, ?2, ?3, ?4, ?5)";

// Writes an item as older venues did; `false` where it is refused.
fn write_item<S: Alter>(conn: &mut Connection<S>, n: i64, sent: &Sent) -> bool {
    let Ok(moment) = i64::try_from(sent.moment().ms()) else {
        return false;
    };
    let values = [
        ValueRef::Int(n),
        ValueRef::Int(i64::from(sent.who)),
        ValueRef::Int(i64::from(sent.number)),
        ValueRef::Int(moment),
        ValueRef::Blob(sent.text.as_bytes()),
    ];
    conn.execute(ITEM, &values).is_ok()
}

fn write_items<S: Alter>(conn: &mut Connection<S>) -> bool {
    let mut n = 0i64;
    for sent in ITEMS.iter() {
        n = n.saturating_add(1);
        if !write_item(conn, n, sent) {
            return false;
        }
    }
    true
}

// Writes the row of the head.
fn write_head<S: Alter>(conn: &mut Connection<S>, files: &Files, version: i64) -> bool {
    let values = [
        ValueRef::Int(version),
        ValueRef::Blob(files.participants.as_slice()),
        ValueRef::Blob(files.instruments.as_slice()),
    ];
    conn.execute(HEAD, &values).is_ok()
}

/// Writes a trail of version 1 or 2; `false` where a statement is refused.
pub fn write_older<S: Alter>(conn: &mut Connection<S>, files: &Files, version: i64) -> bool {
    if conn.execute_batch(FIRST).is_err() {
        return false;
    }
    if version == 2 && conn.execute_batch(SECOND).is_err() {
        return false;
    }
    write_head(conn, files, version) && write_items(conn)
}

// A database with such a trail, or none where an allocation failed.
fn older_once(alloc: Global, files: &Files, version: i64) -> Option<Connection<MemStore>> {
    let Ok(mut conn) = Connection::open_in_memory(alloc) else {
        return None;
    };
    if write_older(&mut conn, files, version) {
        return Some(conn);
    }
    drop(conn);
    None
}

// A database with such a trail, written again where an allocation failed.
fn older(scenario: &mut Scenario, files: &Files, version: i64) -> Result<Connection<MemStore>> {
    if let Some(conn) = older_once(scenario.alloc, files, version) {
        return Ok(conn);
    }
    scenario.refused()?;
    match older_once(scenario.alloc, files, version) {
        Some(conn) => Ok(conn),
        None => Err(anyhow!("no trail of an older version")),
    }
}

// Migrates the trail in the database that a refused call handed back.
fn migrate_again<S: Alter + Drop>(
    scenario: &mut Scenario,
    fault: TrailFault,
    mut conn: Connection<S>,
    tables: usize,
) -> Result<Connection<S>> {
    let is_as_before = looked_at(&mut conn) == (Some(7), tables) && conn.is_autocommit();
    if let Err(error) = scenario.met(&fault, is_as_before) {
        drop(conn);
        return Err(error);
    }
    match Trail::migrate(scenario.alloc, conn) {
        Ok(conn) => Ok(conn),
        Err(refused) => {
            drop(refused);
            Err(anyhow!("a trail is not migrated at the second time"))
        }
    }
}

// Migrates a trail, again where an allocation failed: the database then has the tables and the items that it had.
fn migrate<S: Alter + Drop>(scenario: &mut Scenario, conn: Connection<S>) -> Result<Connection<S>> {
    let tables = conn.schema().tables.len();
    match Trail::migrate(scenario.alloc, conn) {
        Ok(conn) => Ok(conn),
        Err((fault, conn)) => migrate_again(scenario, fault, conn, tables),
    }
}

// Prints a migrated trail.
fn emit_migrated<S: Alter + Drop>(
    scenario: &mut Scenario,
    conn: Connection<S>,
    files: &Files,
) -> Result<()> {
    let mut trail = open(scenario, conn, None)?;
    let emitted = emit_trail(scenario, &mut trail, files);
    drop(trail);
    emitted
}

/// A trail of version 1 or 2 is migrated, and opened.
pub fn run_older(scenario: &mut Scenario, version: i64) -> Result<()> {
    let files = files(scenario)?;
    let conn = older(scenario, &files, version)?;
    scenario.emit("tables before", conn.schema().tables.len() as u64)?;
    let conn = migrate(scenario, conn)?;
    scenario.emit("tables", conn.schema().tables.len() as u64)?;
    emit_migrated(scenario, conn, &files)
}
