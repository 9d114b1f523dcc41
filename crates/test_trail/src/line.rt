//! The lines of a transcript.

use crate::boards::run_board;
use crate::eras::run_eras;
use crate::keeping::run_keeping;
use crate::older::run_older;
use crate::scenario::Scenario;
use crate::starting::run_starting;
use crate::steps::run_steps;
use crate::stops::run_stops;
use crate::working::run_working;
use anyhow::{Result, bail};

// Runs the scenario of this name, with its other words.
fn run_by(scenario: &mut Scenario, word: &str, rest: &str) -> Result<()> {
    match word {
        "trail" => run_steps(scenario, rest),
        "eras" => run_eras(scenario, rest),
        "stop" => run_stops(scenario, rest),
        _ => bail!("no scenario: {word}"),
    }
}

// Runs the scenario of a line.
fn run_named(scenario: &mut Scenario, line: &str) -> Result<()> {
    match line {
        "keep" => run_keeping(scenario),
        "migrate 1" => run_older(scenario, 1),
        "migrate 2" => run_older(scenario, 2),
        "start" => run_starting(scenario),
        "board" => run_board(scenario),
        "work" => run_working(scenario),
        _ => {
            let (word, rest) = line.split_once(' ').unwrap_or((line, ""));
            run_by(scenario, word, rest)
        }
    }
}

// Runs a line, and appends it with its answers; a line that is an answer is skipped.
fn run_line(scenario: &mut Scenario, line: &str) -> Result<()> {
    if line.starts_with("  ") {
        return Ok(());
    }
    scenario.echo(line)?;
    if line.is_empty() || line.starts_with('#') {
        return Ok(());
    }
    run_named(scenario, line)
}

pub fn run_lines(scenario: &mut Scenario, transcript: &str) -> Result<()> {
    for line in transcript.lines() {
        run_line(scenario, line)?;
    }
    Ok(())
}
