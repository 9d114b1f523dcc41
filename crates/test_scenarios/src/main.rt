//! Scenario tests: runs the calls of a transcript, and compares their answers with those that it states.
//!
//! The transcript comes on standard input, in parts. A line `part NAME` begins one: `bytes` (timestamps, frames,
//! fields), `dictionary`, `store` (what can be sent again), `session`, `files` (of participants and instruments),
//! `book` (against a reference book), `venue`, `world`, `differential` (frames through a world, and through its
//! sessions alone and a venue alone). A transcript without parts is one of a world. An indented line is an answer.
//! Where an answer differs, the transcript is printed with the answers that came, and the status is 1; else nothing is
//! printed.
//!
//! A call in which an allocation fails ends the program or is an answer of its own. With the argument `one_refused` one
//! call may fail so, and is made again.
//!
//! With the argument `feed` a counterparty's bytes come instead: a session receives them, and what it took is printed.
//! With the argument `timed` the lines of a part `differential` come, with their bytes as they are, and its times are
//! printed too. With the arguments of `bench/book` nothing is read, and the times of requests in the book and in RFQ
//! rooms are printed.
#![tactic(auto)]

mod book;
mod bytes;
mod dictionary;
mod differential;
mod emitting;
mod files;
mod fixture;
mod lines;
mod moments;
mod parts;
mod refusals;
mod session;
mod store;
mod texts;
mod times;
mod venue;
mod world;

use anyhow::{Result, bail, ensure};
use book::measuring::{Size, emit, emit_rooms};
use differential::running::emitted_of;
use parts::emitted_transcript;
use refusals::Refusals;
use session::feeding::feed;
use std::io::Write;
use std::{env, io};

fn scenario(rt: &HostRuntime, refusals: &mut Refusals) -> Result<()> {
    let transcript = io::read_to_string(rt.alloc(), rt.stdin())?;
    let emitted = emitted_transcript(rt, transcript.as_str(), refusals)?;
    if emitted.as_slice() != transcript.as_bytes() {
        rt.stdout().write_all(&emitted)?;
    }
    ensure!(
        emitted.as_slice() == transcript.as_bytes(),
        "something is read, written or answered otherwise"
    );
    Ok(())
}

fn emit_fed(rt: &HostRuntime) -> Result<()> {
    let taken = feed(rt.alloc(), &mut rt.stdin())?;
    println!(rt; "{}", taken.text(rt.alloc())?.as_str())?;
    Ok(())
}

fn emit_timed(rt: &HostRuntime) -> Result<()> {
    let input = io::read_to_string(rt.alloc(), rt.stdin())?;
    let emitted = emitted_of(rt, input.as_str(), true)?;
    println!(rt; "{}", emitted.as_str())?;
    Ok(())
}

// The numbers after the first word.
fn numbers_behind(rt: &HostRuntime) -> Result<Vec<u64>> {
    let mut numbers = Vec::new(rt.alloc());
    for word in env::args(rt)?.skip(2) {
        numbers.push(word.as_str().parse::<u64>()?)?;
    }
    Ok(numbers)
}

fn emit_measured(rt: &HostRuntime, word: &str) -> Result<()> {
    let numbers = numbers_behind(rt)?;
    match (word, numbers.as_slice()) {
        ("book", [resting, gone, instruments, timed]) => {
            let size = Size {
                resting: *resting,
                gone: *gone,
                instruments: (*instruments).min(1_000) as u32,
                timed: *timed,
            };
            emit(rt, size)
        }
        ("rooms", [gone, timed]) => emit_rooms(rt, *gone, *timed),
        _ => bail!(
            "usage: test_scenarios [one_refused | feed | timed | book RESTING GONE INSTRUMENTS TIMED | rooms GONE TIMED]"
        ),
    }
}

fn main(rt: HostRuntime) -> Result<()> {
    let mut words = env::args(&rt)?.skip(1);
    let Some(word) = words.next() else {
        return scenario(&rt, &mut Refusals::at_most(0));
    };
    match word.as_str() {
        "one_refused" => scenario(&rt, &mut Refusals::at_most(1)),
        "feed" => emit_fed(&rt),
        "timed" => emit_timed(&rt),
        word => emit_measured(&rt, word),
    }
}
