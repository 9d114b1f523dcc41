//! Scenario tests of a trail, a venue that begins from it, boards of seats and a worker over it; of a trail also bad
//! files, other eras and a stop at each call.
//!
//! The transcript comes on standard input. An indented line is an answer, an empty line and one that begins with `#`
//! are skipped, and any other line names a scenario. Where an answer differs, the transcript is printed with the
//! answers that came, and the status is 1; else nothing is printed. A call that fails to allocate ends the program;
//! with the argument `one_refused` one call may fail so, and is made again. With the words `time ROWS` a trail is made
//! in memory instead, and the time of that many rows is printed, one transaction each.
#![tactic(auto)]

mod boards;
mod day;
mod eras;
mod items;
mod keeping;
mod line;
mod market;
mod older;
mod opening;
mod scenario;
mod seats;
mod starting;
mod steps;
mod stops;
mod timing;
mod working;

use anyhow::{Result, anyhow, ensure};
use line::run_lines;
use scenario::Scenario;
use std::io::Write;
use std::{env, io};
use timing::time;

/// Prints the answers where they are not those of the transcript.
fn emit(rt: &HostRuntime, scenario: &Scenario, transcript: &str) -> Result<()> {
    let is_same = scenario.emitted() == transcript.as_bytes();
    if !is_same {
        rt.stdout().write_all(scenario.emitted())?;
    }
    ensure!(is_same, "other things are seen");
    Ok(())
}

/// Times this many rows, where the words ask for it.
fn time_rows(rt: &HostRuntime, rows: Option<String>) -> Result<()> {
    let Some(rows) = rows else {
        return Err(anyhow!("usage: test_trail time ROWS"));
    };
    let rows = rows.as_str().parse::<u64>()?;
    let microseconds = time(rt, rows)?;
    println!(rt; "{rows} rows in {microseconds} us")?;
    Ok(())
}

/// How many allocations may fail in the scenarios; none where the words ask for something else, which is done.
fn refusals_asked(rt: &HostRuntime) -> Result<Option<u32>> {
    let mut words = env::args(rt)?.skip(1);
    let Some(word) = words.next() else {
        return Ok(Some(0));
    };
    match word.as_str() {
        "one_refused" => Ok(Some(1)),
        "time" => {
            time_rows(rt, words.next())?;
            Ok(None)
        }
        _ => Err(anyhow!("usage: test_trail [one_refused | time ROWS]")),
    }
}

fn main(rt: HostRuntime) -> Result<()> {
    let Some(refusals) = refusals_asked(&rt)? else {
        return Ok(());
    };
    let transcript = io::read_to_string(rt.alloc(), rt.stdin())?;
    let mut scenario = Scenario::new(rt.alloc(), refusals);
    run_lines(&mut scenario, transcript.as_str())?;
    emit(&rt, &scenario, transcript.as_str())
}
