//! A script over a line in memory: what it sends, what it hears, and how it ends.

use super::fixture::ScenarioFault;
use super::scripts::{order, script};
use crate::messages::{bytes_of, start};
use fix_dictionary::{Identifier, Message, Quantity, Side};
use fix_encoder::print_message;
use gateway::line::Accept;
use gateway::mem_line::{MemClock, MemLine, ScriptedRead};
use sef_client::{ClientFault, Heard, Script, ScriptStep};
use std::alloc::{AllocError, Global};
use std::mem::drop;
use std::sync::Wait;
use std::test::*;

/// What comes in each turn, nothing where the text is empty. After the break the venue has lost ALPHA's order, and
/// ALPHA a report.
const COMES: [&str; 7] = [
    "8=FIXT.1.1|9=70|35=A|49=SEF|56=ALPHA|34=1|52=20250303-14:30:00.000|98=0|108=30|1137=9|10=185|",
    "",
    "8=FIXT.1.1|9=107|35=8|49=SEF|56=ALPHA|34=2|52=20250303-14:30:00.000|37=O1|17=E1|150=0|39=0|55=IRS5Y|54=1|151=100|14=0|11=a1|10=015|",
    "8=FIXT.1.1|9=70|35=A|49=SEF|56=ALPHA|34=4|52=20250303-14:30:00.000|98=0|108=30|1137=9|10=188|\
     8=FIXT.1.1|9=60|35=2|49=SEF|56=ALPHA|34=5|52=20250303-14:30:00.000|7=2|16=0|10=205|",
    "8=FIXT.1.1|9=159|35=8|49=SEF|56=ALPHA|34=3|52=20250303-14:30:00.000|43=Y|122=20250303-14:30:00.000|37=O1|17=E2|150=F|39=2|55=IRS5Y|54=1|151=0|14=100|11=a1|31=2.5|32=100|880=T1|10=229|\
     8=FIXT.1.1|9=93|35=4|49=SEF|56=ALPHA|34=4|52=20250303-14:30:00.000|43=Y|122=20250303-14:30:00.000|123=Y|36=6|10=073|\
     8=FIXT.1.1|9=57|35=1|49=SEF|56=ALPHA|34=6|52=20250303-14:30:00.000|112=x|10=161|",
    "",
    "8=FIXT.1.1|9=51|35=5|49=SEF|56=ALPHA|34=7|52=20250303-14:30:00.000|10=086|",
];

/// What ALPHA receives: each session message as it came, and each report once, as its number was expected.
const HEARD: &str = "35=A|49=SEF|56=ALPHA|34=1|52=20250303-14:30:00.000|98=0|108=30|1137=9|\
     35=8|49=SEF|56=ALPHA|34=2|52=20250303-14:30:00.000|37=O1|17=E1|150=0|39=0|55=IRS5Y|54=1|151=100|14=0|11=a1|\
     35=A|49=SEF|56=ALPHA|34=4|52=20250303-14:30:00.000|98=0|108=30|1137=9|\
     35=2|49=SEF|56=ALPHA|34=5|52=20250303-14:30:00.000|7=2|16=0|\
     35=8|49=SEF|56=ALPHA|34=3|52=20250303-14:30:00.000|43=Y|122=20250303-14:30:00.000|37=O1|17=E2|150=F|39=2|55=IRS5Y|54=1|151=0|14=100|11=a1|31=2.5|32=100|880=T1|\
     35=4|49=SEF|56=ALPHA|34=4|52=20250303-14:30:00.000|43=Y|122=20250303-14:30:00.000|123=Y|36=6|\
     35=1|49=SEF|56=ALPHA|34=6|52=20250303-14:30:00.000|112=x|\
     35=5|49=SEF|56=ALPHA|34=7|52=20250303-14:30:00.000|";

/// What ALPHA writes: a Logon and an order; after the break a Logon, a ResendRequest for what it lost, the order again
/// and a gap fill; the answer to a TestRequest; a Logout.
const WRITTEN: &str =
    "8=FIXT.1.1|9=70|35=A|49=ALPHA|56=SEF|34=1|52=20250303-14:30:00.001|98=0|108=30|1137=9|10=186|\
     8=FIXT.1.1|9=90|35=D|49=ALPHA|56=SEF|34=2|52=20250303-14:30:00.003|11=a1|55=IRS5Y|54=1|38=100|40=2|44=2.5|10=221|\
     8=FIXT.1.1|9=70|35=A|49=ALPHA|56=SEF|34=3|52=20250303-14:30:00.006|98=0|108=30|1137=9|10=193|\
     8=FIXT.1.1|9=60|35=2|49=ALPHA|56=SEF|34=4|52=20250303-14:30:00.006|7=3|16=0|10=211|\
     8=FIXT.1.1|9=121|35=D|49=ALPHA|56=SEF|34=2|52=20250303-14:30:00.006|43=Y|122=20250303-14:30:00.003|11=a1|55=IRS5Y|54=1|38=100|40=2|44=2.5|10=245|\
     8=FIXT.1.1|9=93|35=4|49=ALPHA|56=SEF|34=3|52=20250303-14:30:00.006|43=Y|122=20250303-14:30:00.006|123=Y|36=5|10=083|\
     8=FIXT.1.1|9=57|35=0|49=ALPHA|56=SEF|34=5|52=20250303-14:30:00.007|112=x|10=166|\
     8=FIXT.1.1|9=51|35=5|49=ALPHA|56=SEF|34=6|52=20250303-14:30:00.009|10=094|";

const TURNS: u64 = 20;

// A break after the order.
fn script_with_a_break(alloc: Global) -> Result<Script, AllocError> {
    let buy = order(Identifier::from_slice(b"a1"), Side::Buy, Quantity::new(100));
    let steps = vec![in alloc;
        ScriptStep::Logon,
        ScriptStep::Send(buy),
        ScriptStep::Break,
        ScriptStep::Logon,
        ScriptStep::Await(2),
        ScriptStep::Logout,
    ]?;
    Ok(script(Identifier::from_slice(b"ALPHA"), steps))
}

// The reads, from the last one on.
fn reads_of(alloc: Global) -> Result<Vec<ScriptedRead>, AllocError> {
    let mut reads = Vec::new(alloc);
    for text in COMES.iter().rev() {
        let scripted_read = if text.is_empty() {
            ScriptedRead::Quiet
        } else {
            ScriptedRead::Piece(bytes_of(alloc, text)?)
        };
        reads.push(scripted_read)?;
    }
    Ok(reads)
}

// A line with two connections.
fn line_with_a_break(alloc: Global) -> Result<MemLine, AllocError> {
    let accepts = vec![in alloc; Accept::Up, Accept::Up]?;
    Ok(MemLine::new(alloc, accepts, reads_of(alloc)?, Vec::new(alloc)))
}

// Whether these are the messages of a text in which `|` stands for SOH.
fn are_of(alloc: Global, messages: &[Message], text: &str) -> Result<bool, AllocError> {
    let mut printed = Vec::new(alloc);
    for message in messages {
        print_message(message, &mut printed)?;
    }
    let expected = bytes_of(alloc, text)?;
    Ok(printed.as_slice() == expected.as_slice())
}

/// Whether the right bytes were written, and the right messages received.
#[derive(Clone, Copy, Debug, PartialEq, Eq)]
struct Outcome {
    is_written: bool,
    is_heard: bool,
}

// Runs a script over a line.
fn scenario<R: Wait>(
    rt: &R,
    alloc: Global,
    script: Script,
    line: &mut MemLine,
) -> Result<Heard, ClientFault> {
    let mut clock = MemClock::from(start());
    let heard = script.run(rt, alloc, line, &mut clock, TURNS);
    drop(script);
    heard
}

fn run_with_a_break<R: Wait>(
    rt: &R,
    alloc: Global,
    line: &mut MemLine,
) -> Result<Outcome, ScenarioFault> {
    let heard = scenario(rt, alloc, script_with_a_break(alloc)?, line)?;
    let is_heard = are_of(alloc, heard.as_slice(), HEARD);
    drop(heard);
    let expected = bytes_of(alloc, WRITTEN)?;
    Ok(Outcome {
        is_written: line.written() == expected.as_slice(),
        is_heard: is_heard?,
    })
}

fn run_over_a_break<R: Wait>(rt: &R, alloc: Global) -> Result<Outcome, ScenarioFault> {
    let mut line = line_with_a_break(alloc)?;
    let outcome = run_with_a_break(rt, alloc, &mut line);
    drop(line);
    outcome
}

#[test]
fn what_was_lost_at_a_break_is_sent_and_heard_once(rt: HostRuntime) {
    let right = Outcome {
        is_written: true,
        is_heard: true,
    };
    assert_eq!(rt; run_over_a_break(&rt, rt.alloc()), Ok(right));
}

// A line that answers so when it is asked for a connection, and on which nothing comes.
fn line_that_answers(alloc: Global, accept: Accept) -> Result<MemLine, AllocError> {
    let accepts = vec![in alloc; accept]?;
    Ok(MemLine::new(alloc, accepts, Vec::new(alloc), Vec::new(alloc)))
}

fn script_of_a_logon(alloc: Global) -> Result<Script, AllocError> {
    let steps = vec![in alloc; ScriptStep::Logon]?;
    Ok(script(Identifier::from_slice(b"ALPHA"), steps))
}

fn log_on<R: Wait>(rt: &R, alloc: Global, line: &mut MemLine) -> Result<(), ScenarioFault> {
    let heard = scenario(rt, alloc, script_of_a_logon(alloc)?, line)?;
    drop(heard);
    Ok(())
}

// Logs on over a line that answers so when it is asked for a connection.
fn log_on_over<R: Wait>(rt: &R, alloc: Global, accept: Accept) -> Result<(), ScenarioFault> {
    let mut line = line_that_answers(alloc, accept)?;
    let ended = log_on(rt, alloc, &mut line);
    drop(line);
    ended
}

#[test]
fn a_script_ends_by_its_turns_or_as_its_line_fails(rt: HostRuntime) {
    for (accept, fault) in [
        (Accept::Up, ClientFault::Turns),
        (Accept::Quiet, ClientFault::Turns),
        (Accept::Over, ClientFault::Turns),
        (Accept::Fault, ClientFault::LineFault),
    ] {
        let ended = log_on_over(&rt, rt.alloc(), accept);
        assert_eq!(rt; ended, Err(ScenarioFault::Client(fault)));
    }
}
