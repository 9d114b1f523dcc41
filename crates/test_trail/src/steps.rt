//! What is done to a database, step by step, and what is found in it then.

use crate::items::{Sent, item, items_in, row_of};
use crate::keeping::emit_seen;
use crate::market::{empty, files_named};
use crate::older::write_older;
use crate::scenario::{Scenario, if_emitted};
use anyhow::{Result, anyhow, ensure};
use audit_trail::{Files, Trail};
use sqlite::{Alter, Connection};
use std::alloc::Global;
use std::mem::drop;
use venue_rules::TrailFault;

/// What is done to a database.
#[derive(Clone, Copy)]
pub enum Step<'a> {
    /// A trail is made, and this many items are recorded.
    Keep(u64),
    /// A trail of the seven worked items is written in one transaction, as older venues did: its version is 1 or 2.
    Write(i64),
    /// A trail is migrated.
    Migrate,
    /// Statements are run.
    Run(&'a str),
}

/// How many rows a trail shows, if they can be read and are the items and then ticks.
pub fn items_of<S: Alter>(trail: &mut Trail<S>) -> Option<u64> {
    match trail.rows() {
        Ok(rows) => items_in(rows.as_slice()),
        Err(_) => None,
    }
}

/// Records the next row; `false` where it is refused.
pub fn record_next<S: Alter>(alloc: Global, trail: &mut Trail<S>, sent: &Sent) -> bool {
    let Some(n) = trail.len().checked_add(1) else {
        return false;
    };
    let Ok(row) = row_of(alloc, n, sent) else {
        return false;
    };
    trail.record(&row).is_ok()
}

// Records items in a new trail up to the first that is refused; how many were kept.
fn fill<S: Alter>(alloc: Global, trail: &mut Trail<S>, items: u64) -> u64 {
    for done in 0..items {
        if !record_next(alloc, trail, &item(done.saturating_add(1))) {
            return done;
        }
    }
    items
}

// Makes a trail of these files, and records this many items. How many were kept, or the fault where no trail was made.
fn keep<S: Alter + Drop>(
    alloc: Global,
    conn: Connection<S>,
    files: &Files,
    items: u64,
) -> (Connection<S>, Result<u64, TrailFault>) {
    match Trail::create(alloc, conn, files) {
        Ok(mut trail) => {
            let kept = fill(alloc, &mut trail, items);
            (trail.into_connection(), Ok(kept))
        }
        Err((fault, conn)) => (conn, Err(fault)),
    }
}

/// Takes a step. The connection, and how many items the step recorded, or its fault.
pub fn take<S: Alter + Drop>(
    alloc: Global,
    mut conn: Connection<S>,
    files: &Files,
    step: Step<'_>,
) -> (Connection<S>, Result<u64, TrailFault>) {
    let is_done = match step {
        Step::Keep(items) => return keep(alloc, conn, files, items),
        Step::Migrate => {
            return match Trail::migrate(alloc, conn) {
                Ok(conn) => (conn, Ok(0)),
                Err((fault, conn)) => (conn, Err(fault)),
            };
        }
        Step::Write(version) => {
            conn.execute_batch("BEGIN").is_ok()
                && write_older(&mut conn, files, version)
                && conn.execute_batch("COMMIT").is_ok()
        }
        Step::Run(statements) => conn.execute_batch(statements).is_ok(),
    };
    (
        conn,
        if is_done {
            Ok(0)
        } else {
            Err(TrailFault::Refused)
        },
    )
}

// Takes a step, and prints its fault, if it has one.
fn take_and_emit<S: Alter + Drop>(
    scenario: &mut Scenario,
    conn: Connection<S>,
    files: &Files,
    step: Step<'_>,
) -> Result<Connection<S>> {
    let (conn, done) = take(scenario.alloc, conn, files, step);
    let emitted = match done {
        Ok(_) => Ok(()),
        Err(fault) => scenario.emit_fault(&fault),
    };
    if_emitted(emitted, conn)
}

// Prints what is seen of a trail, and how many rows it shows.
fn emit_count<S: Alter>(
    scenario: &mut Scenario,
    trail: &mut Trail<S>,
    files: &Files,
) -> Result<()> {
    emit_seen(scenario, trail, files)?;
    let Some(items) = items_of(trail) else {
        return Err(anyhow!("the rows are not the items and ticks"));
    };
    scenario.emit("items", items)
}

// Prints a fault. The database that came back has to answer.
fn emit_refused<S: Alter>(
    scenario: &mut Scenario,
    fault: &TrailFault,
    conn: &mut Connection<S>,
) -> Result<()> {
    ensure!(
        conn.query_row("SELECT 1", &[]).is_ok(),
        "a database does not answer"
    );
    scenario.emit_fault(fault)
}

/// Opens a trail with these files or with none, and prints what is found.
pub fn open_and_count<S: Alter + Drop>(
    scenario: &mut Scenario,
    conn: Connection<S>,
    given: Option<&Files>,
    files: &Files,
) -> Result<Connection<S>> {
    match Trail::open(scenario.alloc, conn, given) {
        Ok(mut trail) => {
            let emitted = emit_count(scenario, &mut trail, files);
            if_emitted(emitted, trail.into_connection())
        }
        Err((fault, mut conn)) => {
            let emitted = emit_refused(scenario, &fault, &mut conn);
            if_emitted(emitted, conn)
        }
    }
}

// Opens a trail with other files.
fn open_with_others<S: Alter + Drop>(
    scenario: &mut Scenario,
    conn: Connection<S>,
    files: &Files,
) -> Result<Connection<S>> {
    let others = match files_named(scenario.alloc, "none") {
        Ok(others) => others,
        Err(error) => {
            drop(conn);
            return Err(error);
        }
    };
    open_and_count(scenario, conn, Some(&others), files)
}

// The step that a word names; `run` runs these statements.
fn step_named<'a>(word: &str, statements: &'a str) -> Option<Step<'a>> {
    match word {
        "run" => Some(Step::Run(statements)),
        "migrate" => Some(Step::Migrate),
        "write=1" => Some(Step::Write(1)),
        "write=2" => Some(Step::Write(2)),
        _ => match word.strip_prefix("keep=")?.parse::<u64>() {
            Ok(items) => Some(Step::Keep(items)),
            Err(_) => None,
        },
    }
}

// Does what a word names.
fn act<S: Alter + Drop>(
    scenario: &mut Scenario,
    conn: Connection<S>,
    files: &Files,
    word: &str,
    statements: &str,
) -> Result<Connection<S>> {
    match word {
        "open" => open_and_count(scenario, conn, None, files),
        "open_same" => open_and_count(scenario, conn, Some(files), files),
        "open_other" => open_with_others(scenario, conn, files),
        _ => match step_named(word, statements) {
            Some(step) => take_and_emit(scenario, conn, files, step),
            None => {
                drop(conn);
                Err(anyhow!("no step: {word}"))
            }
        },
    }
}

// Does what these words name, one by one.
fn act_each<S: Alter + Drop>(
    scenario: &mut Scenario,
    mut conn: Connection<S>,
    files: &Files,
    words: &str,
    statements: &str,
) -> Result<Connection<S>> {
    for word in words.split(' ') {
        conn = act(scenario, conn, files, word, statements)?;
    }
    Ok(conn)
}

/// Takes steps over a database in memory: the first word names the files, the others the steps, and statements follow a
/// colon.
pub fn run_steps(scenario: &mut Scenario, line: &str) -> Result<()> {
    let (words, statements) = line.split_once(": ").unwrap_or((line, ""));
    let (name, words) = words.split_once(' ').unwrap_or((words, "open"));
    let files = files_named(scenario.alloc, name)?;
    let conn = empty(scenario)?;
    let conn = act_each(scenario, conn, &files, words, statements)?;
    drop(conn);
    Ok(())
}
