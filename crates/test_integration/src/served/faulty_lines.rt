//! A counterparty whose line fails once: each of its orders is taken once.

use super::fixture::{Outcome, ScenarioFault, both, run_for_two};
use super::pace::{PacedClock, PacedGate, SessionIo};
use super::signal::Signal;
use super::watched::WatchedLine;
use crate::messages::{bytes_of, start};
use gateway::line::Accept;
use gateway::mem_line::{MemLine, ScriptedRead};
use std::alloc::{AllocError, Global};
use std::sync::Wait;
use std::test::*;
use std::thread::Threads;
use std::time::Clock;

const TURNS: u64 = 20_000;

/// What ALPHA sends at first, in four pieces: a Logon, an order in two, and one more.
const PIECES: [&str; 4] = [
    "8=FIXT.1.1|9=66|35=A|49=ALPHA|56=SEF|34=1|52=20250303-14:30:00|98=0|108=30|1137=9|10=000|",
    "8=FIXT.1.1|9=107|35=D|49=ALPHA|56=SEF|34=2|52=20250303-14:30:00|11=a1|",
    "55=IRS5Y|54=1|38=100|40=2|44=2.5|60=20250303-14:30:00|10=071|",
    "8=FIXT.1.1|9=85|35=D|49=ALPHA|56=SEF|34=3|52=20250303-14:30:00|11=a2|55=IRS5Y|54=1|38=40|40=2|44=2.5|10=245|",
];

/// What it sends on the next connection, in one piece: a Logon, and all of the first pieces again.
const AGAIN: &str =
    "8=FIXT.1.1|9=66|35=A|49=ALPHA|56=SEF|34=4|52=20250303-14:30:00|98=0|108=30|1137=9|10=003|\
     8=FIXT.1.1|9=85|35=4|49=ALPHA|56=SEF|34=1|52=20250303-14:30:00|43=Y|122=20250303-14:30:00|123=Y|36=2|10=199|\
     8=FIXT.1.1|9=134|35=D|49=ALPHA|56=SEF|34=2|52=20250303-14:30:00|43=Y|122=20250303-14:30:00|11=a1|55=IRS5Y|54=1|38=100|40=2|44=2.5|60=20250303-14:30:00|10=112|\
     8=FIXT.1.1|9=112|35=D|49=ALPHA|56=SEF|34=3|52=20250303-14:30:00|43=Y|122=20250303-14:30:00|11=a2|55=IRS5Y|54=1|38=40|40=2|44=2.5|10=069|\
     8=FIXT.1.1|9=85|35=4|49=ALPHA|56=SEF|34=4|52=20250303-14:30:00|43=Y|122=20250303-14:30:00|123=Y|36=5|10=205|";

/// How many connections are given.
const CONNECTIONS: usize = 12;

/// How many writes may fail.
const WRITES: usize = 8;

/// The orders are taken, and a report of each is delivered.
const STIRS: u64 = 4;

// A read, and a few at which nothing comes.
fn add_read(
    alloc: Global,
    reads: &mut Vec<ScriptedRead>,
    scripted_read: ScriptedRead,
) -> Result<(), AllocError> {
    reads.push(scripted_read)?;
    for _ in 0..3 {
        reads.push(ScriptedRead::Quiet)?;
    }
    Ok(())
}

// The reads, of which this one fails, if it is one of the first pieces.
fn reads_of(alloc: Global, fails: usize) -> Result<Vec<ScriptedRead>, AllocError> {
    let mut reads = Vec::new(alloc);
    for (k, piece) in PIECES.iter().enumerate() {
        let scripted_read = if k == fails {
            ScriptedRead::Fault
        } else {
            ScriptedRead::Piece(bytes_of(alloc, piece)?)
        };
        add_read(alloc, &mut reads, scripted_read)?;
    }
    for _ in 0..2 {
        reads.push(ScriptedRead::Ended)?;
        add_read(
            alloc,
            &mut reads,
            ScriptedRead::Piece(bytes_of(alloc, AGAIN)?),
        )?;
    }
    reads.reverse();
    Ok(reads)
}

// The writes, of which this one fails.
fn writes_of(alloc: Global, fails: usize) -> Result<Vec<bool>, AllocError> {
    let mut writes = Vec::new(alloc);
    for k in (0..WRITES).rev() {
        writes.push(k != fails)?;
    }
    Ok(writes)
}

// The line of ALPHA, which fails at one read and at one write; past the first ones neither fails.
fn faulty_line(alloc: Global, read: usize, write: usize) -> Result<MemLine, AllocError> {
    let mut accepts = Vec::new(alloc);
    for _ in 0..CONNECTIONS {
        accepts.push(Accept::Up)?;
    }
    Ok(MemLine::new(
        alloc,
        accepts,
        reads_of(alloc, read)?,
        writes_of(alloc, write)?,
    ))
}

// The line of BETA, to whom nobody comes.
fn no_line(alloc: Global) -> MemLine {
    MemLine::new(alloc, Vec::new(alloc), Vec::new(alloc), Vec::new(alloc))
}

// What a session's thread has of the outside; its line is over once the signal is given. Nobody gives the other one.
fn outside<'a, T: Clock + Copy + Drop>(
    clock: T,
    line: MemLine,
    none: &'a Signal,
    over: &'a Signal,
) -> SessionIo<'a, T> {
    (
        WatchedLine::new(line, none, over),
        PacedClock::new(clock, start(), 0, none),
        PacedGate::new(clock, none, none, none),
    )
}

// ALPHA has this line, and BETA one to which nobody comes.
fn lines_of<'a, T: Clock + Copy + Drop>(
    alloc: Global,
    clock: T,
    line: MemLine,
    none: &'a Signal,
    over: &'a Signal,
) -> Result<Vec<SessionIo<'a, T>>, AllocError> {
    let alpha = outside(clock, line, none, over);
    let beta = outside(clock, no_line(alloc), none, over);
    both(alloc, alpha, beta)
}

// What a venue has of ALPHA, whose line fails so.
fn outcome_over<R: Threads + Wait + Send + Sync + Clock + Copy + Drop>(
    rt: &R,
    alloc: Global,
    read: usize,
    write: usize,
) -> Result<Outcome, ScenarioFault> {
    let none = Signal::new();
    let over = Signal::new();
    let line = faulty_line(alloc, read, write)?;
    let lines = lines_of(alloc, *rt, line, &none, &over)?;
    let clock = PacedClock::new(*rt, start(), STIRS, &over);
    run_for_two(rt, alloc, lines, clock, TURNS)
}

/// Both orders were taken, each once, under the numbers that ALPHA gave them.
const BOTH: Outcome = Outcome {
    sessions: 2,
    taken: 2,
    numbers: [2, 3],
};

#[test]
fn each_order_is_taken_once_whichever_read_fails(rt: HostRuntime) {
    for read in 0..PIECES.len() {
        let outcome = outcome_over(&rt, rt.alloc(), read, WRITES);
        assert_eq!(rt; outcome, Ok(BOTH), "where read {read} fails");
    }
}

#[test]
fn each_order_is_taken_once_whichever_write_fails(rt: HostRuntime) {
    for write in 0..WRITES {
        let outcome = outcome_over(&rt, rt.alloc(), PIECES.len(), write);
        assert_eq!(rt; outcome, Ok(BOTH), "where write {write} fails");
    }
}
