//! A venue served over TCP, with any keeper of its rows.

ghost use Rattle.std.specs.Prelude.{◌≡◌, ◌≢◌, ◌≤◌, ◌+◌, ◌++◌, ◌^◌, List, IfOk, IfErr, OnOk, length, map, true};
ghost use Rattle.venue_runtime.specs.Closing.{closing};
ghost use Rattle.venue_core.specs.VenueFacts.{IsHistory};
ghost use Rattle.venue_core.specs.State.{standing};
ghost use Rattle.venue_rules.specs.Run.{Input, rows, run};
ghost use Rattle.venue_worker.specs.Inputs.{AreRising};
ghost use Rattle.venue_main.specs.Serve.{HasServed, place_line, place_lines, with_loss};
ghost use Rattle.venue_main.specs.declared.serve.ServeFault.TheVariants.{Output};

use crate::ports::NetworkFault;
use crate::reporting::{
    Operator, Outside, Reporter, Reporting, end_reporting, log_of, start_reporting,
};
use crate::serve::ServeFault;
use crate::service::Service;
use crate::written_files::VenueFiles;
use event_log::append;
use gateway::closing::Closed;
use gateway::threads::RunFault;
use head_log::{HeadClock, HeadReport, Trouble};
use itoa::Buffer;
use participants::{Participants, Who};
use std::alloc::{AllocError, Global};
use std::io::{Error, ErrorKind, Write};
use std::mem::drop;
use std::net::{Net, TcpListener, TcpStream};
use std::sync::{Arc, Wait};
use std::thread::Threads;
use std::time::Clock;
use tcp_line::{
    EventReceiver, ServedLine, SessionIo, StopSource, VenueIo, WorkerClock, open_lines,
};
use venue_core::Venue;
use venue_rules::Keep;
use venue_runtime::run_venue;

/// Opens a line for each participant, writes who listens where once all do, and runs the venue on these lines until it
/// closes, with its events reported, and heads where they are wanted. What a counterparty has not read yet waits in its
/// line.
pub(crate) fn serve_over<
    R: Net<Listener = TcpListener, Stream = TcpStream> + Threads + Wait + Sync,
    T: Clock + Copy + Send + Drop + 'static,
    K: Keep + Drop,
    E: StopSource + Drop,
    N: Write + Send + Drop + 'static,
    M: VenueFiles + Send + Drop + 'static,
    H: Write + Drop,
>(
    rt: &R,
    alloc: Global,
    clock: T,
    venue: Venue,
    keeper: K,
    service: Service,
    operator: Operator<E, N, M>,
    heads: Option<HeadReport<H>>,
) -> Result<(Closed<ServedLine<T>, K>, Option<HeadReport<H>>), ServeFault>
    requires clean { K.is_clean keeper ≡ true }
    requires history { (before : List Input) × (K.rows keeper ≡ rows before) × (length before ≤ 10 ^ 15) × IsHistory venue (run venue.market before).history × AreRising before }
    requires items { venue.items ≤ length (K.rows keeper) }
    ensures served { IfOk result (λ r. HasServed service.turns venue.market (K.rows keeper) (K.outlives keeper) (closing (map (λ s. s.state) r.0.sessions.items) (map (λ l. l.log) r.0.lines.items) r.0.left.items r.0.replies_left.items r.0.queues.items (standing r.0.venue.day) (K.rows r.0.keeper) (K.is_clean r.0.keeper))) }
    ensures fault { IfErr result (λ fault. fault ≢ Output) }
{
    let count = count_of(venue.participants());
    let port = service.port();
    let Operator {
        stop,
        notes,
        files,
        rows,
    } = operator;
    let outside = Outside { notes, files, rows };
    let opened = match open_lines(rt, alloc, clock, port, count, stop) {
        Ok(opened) => opened,
        Err(error) => {
            // (A call drops a venue here and below: otherwise a proof sees the drop of each part at each place.)
            drop(venue);
            drop(outside);
            drop(heads);
            return Err(network_fault(rt, port, count, &error));
        }
    };
    let VenueIo {
        sessions,
        worker,
        events,
    } = opened;
    let turns = service.turns();
    let is_kept = keeper.outlives();
    let begun = begin_report(
        rt, alloc, &venue, service, is_kept, events, clock, outside, &heads,
    );
    let Ok(reporting) = begun else {
        drop(sessions);
        drop(worker);
        drop(venue);
        drop(keeper);
        drop(heads);
        return Err(ServeFault::Memory);
    };
    let worker = HeadClock::new(worker, heads);
    let ran = run_lines(rt, alloc, venue, keeper, sessions, worker, turns);
    end_reporting(rt, &clock, reporting);
    match ran {
        Ok(ended) => Ok(ended),
        Err(fault) => Err(ServeFault::from(fault)),
    }
}

/// Announces a venue whose lines are open, and starts its report.
fn begin_report<
    R: Threads,
    T: Clock + Send + Drop + 'static,
    N: Write + Send + Drop + 'static,
    M: VenueFiles + Send + Drop + 'static,
    H: Write + Drop,
>(
    rt: &R,
    alloc: Global,
    venue: &Venue,
    service: Service,
    is_kept: bool,
    events: Vec<EventReceiver>,
    clock: T,
    mut outside: Outside<N, M>,
    heads: &Option<HeadReport<H>>,
) -> Result<Option<Reporting<T, N, M>>, AllocError> {
    let participants = venue.participants();
    let count = count_of(participants);
    announce(
        alloc,
        participants,
        count,
        service.port(),
        is_kept,
        &mut outside.notes,
    )?;
    let trouble = trouble_of(heads)?;
    match log_of(alloc, participants, events, service.turns())? {
        Some(log) => {
            let reporter = Reporter::new(alloc, log, clock, outside, trouble);
            start_reporting(rt, alloc, reporter)
        }
        None => Ok(None),
    }
}

/// Whether a head could not be written, where heads are wanted.
fn trouble_of<H: Write + Drop>(
    heads: &Option<HeadReport<H>>,
) -> Result<Option<Arc<Trouble>>, AllocError> {
    match heads {
        Some(report) => Ok(Some(report.trouble()?)),
        None => Ok(None),
    }
}

/// The count of participants.
fn count_of(participants: &Participants) -> u16
    ensures count { result ≡ length participants.now.names }
    ensures few { result ≤ 32 }
{
    participants.len() as u16
}

/// Writes who listens where, one line each, and a line where the rows are not kept. A venue is served also where these
/// lines cannot be written, but not where an allocation for them failed.
fn announce<N: Write>(
    alloc: Global,
    participants: &Participants,
    count: u16,
    port: u16,
    is_kept: bool,
    notes: &mut N,
) -> Result<(), AllocError>
    requires count { count ≡ length participants.now.names }
    requires ports { port + count ≤ 2 ^ 16 }
{
    let mut text = announcement(alloc, participants, count, port)?;
    append_loss(&mut text, is_kept)?;
    let _ = notes.write_all(&text);
    let _ = notes.flush();
    Ok(())
}

/// The lines of all participants: who listens where.
fn announcement(
    alloc: Global,
    participants: &Participants,
    count: u16,
    port: u16,
) -> Result<Vec<u8>, AllocError>
    requires count { count ≡ length participants.now.names }
    requires ports { port + count ≤ 2 ^ 16 }
    ensures { IfOk result (λ text. text.items ≡ place_lines port participants.now.names) }
{
    let mut text = Vec::new(alloc);
    for k in 0..count {
        append_place(&mut text, participants.name(Who::of(k as u32)), port + k)?;
    }
    Ok(text)
}

/// Appends the line of a participant.
fn append_place(text: &mut Vec<u8>, name: &[u8], port: u16) -> Result<(), AllocError>
    ensures { OnOk result (text.new.items ≡ text.old.items ++ place_line name.now port) }
{
    let mut digits = Buffer::new();
    append(
        text,
        &[
            b"venue_main: ",
            name,
            b" at 127.0.0.1:",
            digits.format(port).as_bytes(),
            b"\n",
        ],
    )
}

/// Appends the line of a venue whose rows are not kept.
fn append_loss(text: &mut Vec<u8>, is_kept: bool) -> Result<(), AllocError>
    ensures { OnOk result (text.new.items ≡ with_loss is_kept text.old.items) }
{
    if is_kept {
        return Ok(());
    }
    append(
        text,
        &[b"venue_main: no trail: orders and session numbers end with this process\n"],
    )
}

/// Runs a venue on lines over TCP, and gives the report of heads back.
fn run_lines<
    R: Threads + Wait + Sync,
    T: Clock + Send + Drop,
    K: Keep + Drop,
    E: StopSource + Drop,
    H: Write + Drop,
>(
    rt: &R,
    alloc: Global,
    venue: Venue,
    keeper: K,
    lines: Vec<SessionIo<T>>,
    clock: HeadClock<WorkerClock<T, E>, H>,
    turns: u64,
) -> Result<(Closed<ServedLine<T>, K>, Option<HeadReport<H>>), RunFault>
    requires lines { length lines.items ≡ length venue.market.participants.names }
    requires clean { K.is_clean keeper ≡ true }
    requires history { (before : List Input) × (K.rows keeper ≡ rows before) × (length before ≤ 10 ^ 15) × IsHistory venue (run venue.market before).history × AreRising before }
    requires items { venue.items ≤ length (K.rows keeper) }
    ensures { IfOk result (λ r. HasServed turns venue.market (K.rows keeper) (K.outlives keeper) (closing (map (λ s. s.state) r.0.sessions.items) (map (λ l. l.log) r.0.lines.items) r.0.left.items r.0.replies_left.items r.0.queues.items (standing r.0.venue.day) (K.rows r.0.keeper) (K.is_clean r.0.keeper))) }
{
    let (closed, clock) = run_venue(rt, alloc, venue, keeper, lines, clock, turns)?;
    Ok((closed, clock.into_report()))
}

/// Keeps of the closed venue its keeper of rows alone. Each line ended with its session.
pub(crate) fn keeper_of<T: Clock + Drop, K: Keep + Drop>(closed: Closed<ServedLine<T>, K>) -> K
    ensures { result ≡ closed.keeper }
{
    let Closed {
        sessions,
        lines,
        left,
        replies_left,
        queues,
        venue,
        keeper,
    } = closed;
    drop(sessions);
    drop(lines);
    drop(left);
    drop(replies_left);
    drop(queues);
    drop(venue);
    keeper
}

/// The fault of a venue whose lines were not opened.
fn network_fault<R: Net<Listener = TcpListener, Stream = TcpStream>>(
    rt: &R,
    port: u16,
    count: u16,
    error: &Error,
) -> ServeFault
    requires ports { port + count ≤ 2 ^ 16 }
    ensures { result ≢ Output }
{
    match error.kind() {
        ErrorKind::OutOfMemory => ServeFault::Memory,
        _ => ServeFault::Network(NetworkFault::at(rt, port, count, error)),
    }
}
