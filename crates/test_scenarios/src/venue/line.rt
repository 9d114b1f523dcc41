//! The lines of a transcript.

use crate::emitting::{emit_line, emit_whether};
use crate::lines::Part;
use crate::moments::moment_after;
use crate::refusals::Refusals;
use crate::texts::write_again;
use crate::venue::market::Market;
use crate::venue::message::Sent;
use crate::venue::reading::{emit_room, emit_trades};
use crate::venue::stage::Stage;
use crate::venue::standing::{emit_facts, emit_held, emit_quotes, emit_requests, emit_resting};
use anyhow::Result;
use sef_moment::Moment;
use std::alloc::{AllocError, Global};
use std::mem;

/// Why a line is not answered.
#[derive(Drop, Clone, Copy, PartialEq)]
pub enum Trouble {
    /// It is no call.
    NoCall,
    /// The files of the market are refused.
    NoFile,
    NoMemory,
}

impl From<AllocError> for Trouble {
    fn from(_error: AllocError) -> Trouble {
        Trouble::NoMemory
    }
}

/// The market of the lines so far, and the venue that was opened last.
#[derive(Drop)]
pub struct Scenario {
    market: Market,
    stage: Stage,
}

impl Scenario {
    // Begins a market without participants and instruments.
    fn new_market(&mut self, alloc: Global) -> Result<(), Trouble> {
        let market = Market::new(alloc)?;
        drop(mem::replace(&mut self.market, market));
        Ok(())
    }

    // Opens a new venue on the market of the lines so far.
    fn open(&mut self, alloc: Global) -> Result<(), Trouble> {
        let stage = Stage::open(alloc, &self.market)?;
        drop(mem::replace(&mut self.stage, stage));
        Ok(())
    }
}

// Who sends what, as `ALPHA 35=..`.
fn sent_in(text: &str) -> Result<Sent<'_>, Trouble> {
    match text.split_once(' ') {
        Some((from, text)) => Ok(Sent { from, text }),
        None => Err(Trouble::NoCall),
    }
}

// A tick or a message at a moment.
fn take(
    alloc: Global,
    scenario: &mut Scenario,
    after: &str,
    text: &str,
    emitted: &mut Vec<u8>,
) -> Result<(), Trouble> {
    let moment = moment_after(after).ok_or(Trouble::NoCall)?;
    if text == "tick" {
        return scenario.stage.tick(alloc, moment, emitted);
    }
    scenario
        .stage
        .send(alloc, moment, sent_in(text)?, 0, emitted)
}

// One message of a line of many, sent again where an allocation failed.
fn send_one(
    alloc: Global,
    scenario: &mut Scenario,
    moment: Moment,
    sent: Sent<'_>,
    place: u32,
    emitted: &mut Vec<u8>,
    refusals: &mut Refusals,
) -> Result<(), Trouble> {
    let before = emitted.len();
    let first = scenario.stage.send(alloc, moment, sent, place, emitted);
    if first != Err(Trouble::NoMemory) || !refusals.admit() {
        return first;
    }
    emitted.truncate(before);
    scenario.stage.send(alloc, moment, sent, place, emitted)
}

// Messages at one moment, as `200 0 ALPHA 35=D|11=a*|..`; the answers to the last of them stay.
fn take_many(
    alloc: Global,
    scenario: &mut Scenario,
    text: &str,
    emitted: &mut Vec<u8>,
    refusals: &mut Refusals,
) -> Result<(), Trouble> {
    let (count, text) = text.split_once(' ').ok_or(Trouble::NoCall)?;
    let (after, text) = text.split_once(' ').ok_or(Trouble::NoCall)?;
    let Ok(count) = count.parse::<u32>() else {
        return Err(Trouble::NoCall);
    };
    let moment = moment_after(after).ok_or(Trouble::NoCall)?;
    let sent = sent_in(text)?;
    let before = emitted.len();
    for place in 0..count {
        emitted.truncate(before);
        send_one(alloc, scenario, moment, sent, place, emitted, refusals)?;
    }
    Ok(())
}

// Whether a held side is due.
fn emit_due(scenario: &Scenario, after: &str, emitted: &mut Vec<u8>) -> Result<(), Trouble> {
    let due = scenario
        .stage
        .venue()
        .due(moment_after(after).ok_or(Trouble::NoCall)?);
    emit_whether(due, emitted)?;
    Ok(())
}

// The room of a number.
fn emit_numbered(
    alloc: Global,
    scenario: &Scenario,
    number: &str,
    emitted: &mut Vec<u8>,
) -> Result<(), Trouble> {
    let Ok(number) = number.parse::<u64>() else {
        return Err(Trouble::NoCall);
    };
    emit_room(alloc, scenario.stage.venue(), number, emitted)?;
    Ok(())
}

// The resting order of a number.
fn emit_order(
    alloc: Global,
    scenario: &Scenario,
    number: &str,
    emitted: &mut Vec<u8>,
) -> Result<(), Trouble> {
    let Ok(number) = number.parse::<u64>() else {
        return Err(Trouble::NoCall);
    };
    emit_resting(alloc, scenario.stage.venue(), number, emitted)?;
    Ok(())
}

// The requests, open or over at a moment.
fn emit_requests_at(
    alloc: Global,
    scenario: &Scenario,
    after: &str,
    emitted: &mut Vec<u8>,
) -> Result<(), Trouble> {
    let moment = moment_after(after).ok_or(Trouble::NoCall)?;
    emit_requests(alloc, scenario.stage.venue(), moment, emitted)?;
    Ok(())
}

// The quotes, live or over at a moment.
fn emit_quotes_at(
    alloc: Global,
    scenario: &Scenario,
    after: &str,
    emitted: &mut Vec<u8>,
) -> Result<(), Trouble> {
    let moment = moment_after(after).ok_or(Trouble::NoCall)?;
    emit_quotes(alloc, scenario.stage.venue(), moment, emitted)?;
    Ok(())
}

// Makes the call of a line, and appends what is answered.
fn call(
    alloc: Global,
    scenario: &mut Scenario,
    line: &str,
    emitted: &mut Vec<u8>,
    refusals: &mut Refusals,
) -> Result<(), Trouble> {
    let (word, rest) = line.split_once(' ').unwrap_or((line, ""));
    match word {
        "market" => scenario.new_market(alloc),
        "participants" => scenario.market.add_participants(alloc, rest),
        "related" => scenario.market.add_related(alloc, rest),
        "instrument" => scenario.market.add_instrument(alloc, rest),
        "open" => scenario.open(alloc),
        "number" => scenario.stage.number_from(rest),
        "due" => emit_due(scenario, rest, emitted),
        "trades" => Ok(emit_trades(alloc, scenario.stage.venue(), emitted)?),
        "room" => emit_numbered(alloc, scenario, rest, emitted),
        "resting" => emit_order(alloc, scenario, rest, emitted),
        "held" => Ok(emit_held(alloc, scenario.stage.venue(), emitted)?),
        "requests" => emit_requests_at(alloc, scenario, rest, emitted),
        "quotes" => emit_quotes_at(alloc, scenario, rest, emitted),
        "facts" => Ok(emit_facts(alloc, scenario.stage.facts(), emitted)?),
        "times" => take_many(alloc, scenario, rest, emitted, refusals),
        _ => take(alloc, scenario, word, rest, emitted),
    }
}

// Makes the call of a line again where an allocation failed.
fn call_again(
    alloc: Global,
    scenario: &mut Scenario,
    line: &str,
    emitted: &mut Vec<u8>,
    refusals: &mut Refusals,
) -> Result<(), Trouble> {
    let before = emitted.len();
    let first = call(alloc, scenario, line, emitted, refusals);
    if first != Err(Trouble::NoMemory) || !refusals.admit() {
        return first;
    }
    emitted.truncate(before);
    call(alloc, scenario, line, emitted, refusals)
}

fn emit_trouble(trouble: Trouble, emitted: &mut Vec<u8>) -> Result<(), AllocError> {
    let text = match trouble {
        Trouble::NoCall => "no call",
        Trouble::NoFile => "file refused",
        Trouble::NoMemory => "no memory",
    };
    emit_line(text, emitted)
}

impl Part for Scenario {
    // The fixture's venue.
    fn begin(alloc: Global) -> Result<Scenario> {
        Ok(Scenario {
            market: Market::new(alloc)?,
            stage: Stage::new(alloc)?,
        })
    }

    fn run_line(
        &mut self,
        alloc: Global,
        line: &str,
        emitted: &mut Vec<u8>,
        refusals: &mut Refusals,
    ) -> Result<()> {
        write_again("", line, emitted, refusals)?;
        if line.is_empty() || line.starts_with('#') {
            return Ok(());
        }
        match call_again(alloc, self, line, emitted, refusals) {
            Ok(()) => Ok(()),
            Err(trouble) => Ok(emit_trouble(trouble, emitted)?),
        }
    }
}
