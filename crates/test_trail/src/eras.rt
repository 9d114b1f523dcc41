//! The eras that a trail keeps and refuses.

use crate::items::{Sent, item, new_row};
use crate::keeping::{create, emit_trail};
use crate::market::{empty, files};
use crate::scenario::{Scenario, if_emitted};
use anyhow::{Result, anyhow};
use audit_trail::{Files, Trail};
use sqlite::{Alter, Connection};
use std::mem::drop;
use venue_rules::Keep;

// Who sends an item, and in which era, as `1.2`.
fn sender_named(word: &str) -> Result<(u32, u32)> {
    let Some((who, era)) = word.split_once('.') else {
        return Err(anyhow!("no sender: {word}"));
    };
    Ok((who.parse::<u32>()?, era.parse::<u32>()?))
}

// Records the next item as of this sender, by the trait that a worker uses, and prints the fault, if there is one.
fn record_as<S: Alter>(scenario: &mut Scenario, trail: &mut Trail<S>, word: &str) -> Result<()> {
    let (who, era) = sender_named(word)?;
    let Some(n) = trail.len().checked_add(1) else {
        return Err(anyhow!("too many rows"));
    };
    let row = new_row(
        scenario,
        n,
        &Sent {
            who,
            era,
            ..item(n)
        },
    )?;
    match Keep::record(trail, row) {
        Ok(()) => Ok(()),
        Err(fault) => scenario.emit_fault(&fault),
    }
}

fn record_each<S: Alter>(scenario: &mut Scenario, trail: &mut Trail<S>, words: &str) -> Result<()> {
    for word in words.split(' ') {
        record_as(scenario, trail, word)?;
    }
    Ok(())
}

// Opens a trail, and prints it, or the fault.
fn open_again<S: Alter + Drop>(
    scenario: &mut Scenario,
    conn: Connection<S>,
    files: &Files,
) -> Result<()> {
    match Trail::open(scenario.alloc, conn, None) {
        Ok(mut trail) => {
            let emitted = emit_trail(scenario, &mut trail, files);
            drop(trail);
            emitted
        }
        Err((fault, conn)) => {
            drop(conn);
            scenario.emit_fault(&fault)
        }
    }
}

/// The items are recorded as of these senders; the trail is printed, and again once it was reopened.
pub fn run_eras(scenario: &mut Scenario, words: &str) -> Result<()> {
    let files = files(scenario)?;
    let conn = empty(scenario)?;
    let mut trail = create(scenario, conn, &files)?;
    let recorded = record_each(scenario, &mut trail, words);
    let mut trail = if_emitted(recorded, trail)?;
    let emitted = emit_trail(scenario, &mut trail, &files);
    let conn = if_emitted(emitted, trail.into_connection())?;
    scenario.echo("  opened again")?;
    open_again(scenario, conn, &files)
}
