//! A trail that is opened again.

use crate::keeping::emit_trail;
use crate::scenario::{Scenario, if_emitted};
use anyhow::{Result, anyhow};
use audit_trail::{Files, Trail};
use sqlite::{Alter, Connection, Error};
use std::mem::drop;
use venue_rules::TrailFault;

// How many items a database keeps.
fn items_in<S: Alter>(conn: &mut Connection<S>) -> Result<i64, Error> {
    conn.query_row("SELECT count(*) FROM item", &[])?
        .get::<i64>(0)
}

/// How many items a database keeps, if it can be asked, and how many tables it lists.
pub fn looked_at<S: Alter>(conn: &mut Connection<S>) -> (Option<i64>, usize) {
    let items = match items_in(conn) {
        Ok(items) => Some(items),
        Err(_) => None,
    };
    (items, conn.schema().tables.len())
}

// Opens a trail in the database that a refused call handed back.
fn open_again<S: Alter + Drop>(
    scenario: &mut Scenario,
    fault: TrailFault,
    mut conn: Connection<S>,
    given: Option<&Files>,
) -> Result<Trail<S>> {
    let is_as_before = looked_at(&mut conn) == (Some(7), 4) && conn.is_autocommit();
    if let Err(error) = scenario.met(&fault, is_as_before) {
        drop(conn);
        return Err(error);
    }
    match Trail::open(scenario.alloc, conn, given) {
        Ok(trail) => Ok(trail),
        Err(refused) => {
            drop(refused);
            Err(anyhow!("a trail is not opened at the second time"))
        }
    }
}

/// Opens a trail of seven items, again where an allocation failed: the database then keeps what it did.
pub fn open<S: Alter + Drop>(
    scenario: &mut Scenario,
    conn: Connection<S>,
    given: Option<&Files>,
) -> Result<Trail<S>> {
    match Trail::open(scenario.alloc, conn, given) {
        Ok(trail) => Ok(trail),
        Err((fault, conn)) => open_again(scenario, fault, conn, given),
    }
}

// Opens a trail, and prints it.
fn open_and_emit<S: Alter + Drop>(
    scenario: &mut Scenario,
    conn: Connection<S>,
    given: Option<&Files>,
    files: &Files,
) -> Result<Connection<S>> {
    let mut trail = open(scenario, conn, given)?;
    let emitted = emit_trail(scenario, &mut trail, files);
    if_emitted(emitted, trail.into_connection())
}

/// A trail is opened with no files, and then with its own.
pub fn run_opening<S: Alter + Drop>(
    scenario: &mut Scenario,
    conn: Connection<S>,
    files: &Files,
) -> Result<()> {
    scenario.echo("  opened with no files")?;
    let conn = open_and_emit(scenario, conn, None, files)?;
    scenario.echo("  opened with its files")?;
    let conn = open_and_emit(scenario, conn, Some(files), files)?;
    drop(conn);
    Ok(())
}
