//! A client's script as the lines of a day have it.

use super::fixture::ScenarioFault;
use super::scripts::script;
use crate::messages::{app_of, bytes_of};
use fix_dictionary::Identifier;
use sef_client::{Script, ScriptStep};
use std::alloc::Global;

// Sends the message of this text, in which `|` stands for SOH.
fn sent(alloc: Global, text: &str) -> Result<ScriptStep, ScenarioFault> {
    let body = bytes_of(alloc, text)?;
    match app_of(alloc, &body) {
        Some(app) => Ok(ScriptStep::Send(app)),
        None => Err(ScenarioFault::Line),
    }
}

// `logon`, `break`, `logout`, `hears N`, which waits until N application messages were heard in all, or a message that
// is sent.
fn step_of(alloc: Global, text: &str) -> Result<ScriptStep, ScenarioFault> {
    match text {
        "logon" => return Ok(ScriptStep::Logon),
        "break" => return Ok(ScriptStep::Break),
        "logout" => return Ok(ScriptStep::Logout),
        _ => {}
    }
    match text.strip_prefix("hears ") {
        None => sent(alloc, text),
        Some(count) => match count.parse::<usize>() {
            Ok(count) => Ok(ScriptStep::Await(count)),
            Err(_) => Err(ScenarioFault::Line),
        },
    }
}

// The steps of the lines that begin with this name.
fn steps_of(alloc: Global, name: &str, lines: &[&str]) -> Result<Vec<ScriptStep>, ScenarioFault> {
    let mut steps = Vec::new(alloc);
    for line in lines {
        let (who, text) = line.split_once(' ').unwrap_or((*line, ""));
        if who == name {
            let step = step_of(alloc, text)?;
            if steps.push(step).is_err() {
                return Err(ScenarioFault::NoMemory);
            }
        }
    }
    Ok(steps)
}

/// What the client of this name does of a day.
pub fn script_of(alloc: Global, name: &str, lines: &[&str]) -> Result<Script, ScenarioFault> {
    let Some(own) = Identifier::read(name.as_bytes()) else {
        return Err(ScenarioFault::Line);
    };
    let steps = steps_of(alloc, name, lines)?;
    Ok(script(own, steps))
}
