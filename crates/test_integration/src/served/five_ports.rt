//! A venue of five over TCP, and clients that connect to it.

use super::connect::ConnectLine;
use super::cues::Day;
use super::fixture::{Outcome, ScenarioFault, run_afresh};
use super::pace::PacedClock;
use super::signal::Signal;
use super::watched::WatchedLine;
use crate::messages::start;
use sef_client::{ClientFault, Heard, Script};
use std::alloc::{AllocError, Global};
use std::mem::drop;
use std::net::{Net, TcpListener, TcpStream};
use std::sync::Wait;
use std::thread;
use std::thread::Threads;
use std::time::Clock;
use tcp_line::{NoStop, ServedLine, SessionIo, SystemClock, TcpGate, VenueIo, open_lines};
use venue_rules::fixture_participants;

/// The first of ten ports that are tried, each with four more.
const FIRST_PORT: u16 = 7_300;

const PARTICIPANTS: u16 = 5;

const TURNS: u64 = 1_000_000;

const CLIENT_TURNS: u64 = 50_000;

/// The lines at the first five ports in a row that are free, and the first of these.
pub fn opened_somewhere<
    R: Net<Listener = TcpListener, Stream = TcpStream> + Threads + Clock + Copy + Drop,
>(rt: &R, alloc: Global) -> Result<(u16, VenueIo<R, NoStop>), ScenarioFault> {
    for k in 0..10 {
        let port = FIRST_PORT + 10 * k;
        if let Ok(opened) = open_lines(rt, alloc, *rt, port, PARTICIPANTS, NoStop) {
            return Ok((port, opened));
        }
    }
    Err(ScenarioFault::NoPort)
}

type Watched<'a, T> = (WatchedLine<'a, ServedLine<T>>, SystemClock<T>, TcpGate);

// The same lines, which signal to the day what is written on them, and end with it.
fn watched<'a, T: Clock + Drop>(
    alloc: Global,
    sessions: Vec<SessionIo<T>>,
    day: &'a Day,
) -> Result<Vec<Watched<'a, T>>, AllocError> {
    let mut lines = Vec::with_capacity(alloc, sessions.len())?;
    for (line, clock, gate) in sessions {
        let emitted = day.emitted(lines.len());
        lines.push((WatchedLine::new(line, emitted, &day.over), clock, gate))?;
    }
    Ok(lines)
}

// Runs a venue of five over these lines, until the day is over.
fn serve<R: Threads + Wait + Sync, T: Clock + Send + Drop>(
    rt: &R,
    alloc: Global,
    opened: VenueIo<T, NoStop>,
    day: &Day,
) -> Result<Outcome, ScenarioFault> {
    let VenueIo {
        sessions,
        worker,
        events,
    } = opened;
    drop(events);
    let Ok(lines) = watched(alloc, sessions, day) else {
        drop(worker);
        return Err(ScenarioFault::NoMemory);
    };
    let Ok(participants) = fixture_participants(alloc) else {
        drop(lines);
        drop(worker);
        return Err(ScenarioFault::NoMemory);
    };
    run_afresh(rt, alloc, participants, lines, worker, TURNS)
}

/// What a venue over these lines has, and the result of this scenario, run in parallel.
pub fn serve_in_parallel<
    R: Threads + Wait + Sync,
    T: Clock + Send + Drop,
    P: FnOnce() -> Result<bool, ScenarioFault> + Send,
>(
    rt: &R,
    alloc: Global,
    opened: VenueIo<T, NoStop>,
    day: &Day,
    scenario: P,
) -> Result<(Outcome, bool), ScenarioFault>
    requires { P.IsAlwaysCallable scenario }
{
    let (emitted, outcome) = thread::join(rt, scenario, move || serve(rt, alloc, opened, day));
    Ok((outcome?, emitted?))
}

/// Runs a script over a connection to this port, as the day lets it.
pub fn scenario<R: Net<Listener = TcpListener, Stream = TcpStream> + Wait + Clock + Copy + Drop>(
    rt: &R,
    alloc: Global,
    script: Script,
    port: u16,
    day: &Day,
) -> Result<Heard, ClientFault> {
    let progressed = Signal::new();
    let mut line = ConnectLine::new(*rt, alloc, port, day);
    let mut clock = PacedClock::new(*rt, start(), 0, &progressed);
    let heard = script.run(rt, alloc, &mut line, &mut clock, CLIENT_TURNS);
    drop(script);
    drop(line);
    heard
}
