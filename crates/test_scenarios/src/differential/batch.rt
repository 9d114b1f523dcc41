//! Messages in batches.

use crate::differential::apart::{Apart, scenario as run_apart};
use crate::differential::sent::{Sent, sent_in};
use crate::differential::together::{Together, scenario as run_together};
use crate::differential::{SESSIONS, Turn, VENUE, WORLD};
use crate::times::since;
use anyhow::{Result, ensure};
use sef_moment::Moment;
use std::time::Instant;

/// How many messages are timed together.
const BATCH: usize = 100;

/// The world, and the sessions and the venue apart.
#[derive(Drop)]
pub(crate) struct Stage {
    pub(crate) together: Together,
    pub(crate) apart: Apart,
    pub(crate) moment: Moment,
    pub(crate) outcome: Outcome,
    /// What a message took, by batches.
    pub(crate) times: Vec<Turn>,
}

/// How much was run.
#[derive(Clone, Copy)]
pub(crate) struct Outcome {
    pub(crate) frames: u64,
    pub(crate) replies: u64,
    /// The bytes that the sessions wrote.
    pub(crate) written: u64,
}

// A batch goes through the sessions and the venue apart.
fn apart(
    rt: &HostRuntime,
    stage: &mut Stage,
    batch: &mut Vec<Sent>,
    written: &mut Vec<u8>,
    spent: &mut Turn,
) -> Result<()> {
    for place in 0..batch.len() {
        run_apart(
            rt,
            &mut stage.apart,
            &mut batch[place],
            stage.moment,
            written,
            spent,
        )?;
    }
    Ok(())
}

// A batch goes through the world.
fn together(
    rt: &HostRuntime,
    stage: &mut Stage,
    batch: &[Sent],
    written: &mut Vec<u8>,
    spent: &mut Turn,
) -> Result<()> {
    let start = Instant::now(rt)?;
    for sent in batch {
        run_together(&mut stage.together, sent, stage.moment, written)?;
    }
    spent[WORLD] = since(rt, start)?;
    Ok(())
}

fn count(outcome: &mut Outcome, batch: &[Sent], written: &[u8]) {
    outcome.frames = outcome.frames.saturating_add(batch.len() as u64);
    outcome.written = outcome.written.saturating_add(written.len() as u64);
    for sent in batch {
        outcome.replies = outcome.replies.saturating_add(sent.emitted.len() as u64);
    }
}

// The time of each message of a batch.
fn each(spent: Turn, messages: usize) -> Turn {
    let messages = messages.max(1) as u64;
    [
        spent[WORLD] / messages,
        spent[SESSIONS] / messages,
        spent[VENUE] / messages,
    ]
}

// A batch goes apart and then through the world, which must write the same.
fn scenario(rt: &HostRuntime, stage: &mut Stage, batch: &mut Vec<Sent>) -> Result<()> {
    let mut spent: Turn = [0; 3];
    let mut wanted = Vec::new(rt.alloc());
    apart(rt, stage, batch, &mut wanted, &mut spent)?;
    let mut written = Vec::new(rt.alloc());
    together(rt, stage, batch, &mut written, &mut spent)?;
    ensure!(written == wanted, "the world wrote otherwise");
    count(&mut stage.outcome, batch, &written);
    stage.times.push(each(spent, batch.len()))?;
    Ok(())
}

/// Runs the frames of these lines, in batches.
pub(crate) fn run_all(rt: &HostRuntime, stage: &mut Stage, lines: &str) -> Result<()> {
    let mut batch = Vec::new(rt.alloc());
    for line in lines.lines() {
        batch.push(sent_in(rt.alloc(), line)?)?;
        if batch.len() >= BATCH {
            scenario(rt, stage, &mut batch)?;
            batch.clear();
        }
    }
    scenario(rt, stage, &mut batch)
}
