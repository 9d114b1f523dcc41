//! The `serve` command: each participant's session over TCP.

ghost use Rattle.std.specs.Prelude.{◌≡◌, ◌≢◌, ◌+◌, ℕ, List, [], IfErr, IfOk, OnOk, length, map, true, false};
ghost use Rattle.std.specs.Io.KnownBytes.{Appends, Keeps};
ghost use Rattle.std.specs.List.{count_by};
ghost use Rattle.venue_runtime.specs.Closing.{closing};
ghost use Rattle.venue_core.specs.State.{standing};
ghost use Rattle.venue_main.specs.Serve.{HasServed, EmitsClosed, UnlessWriting, closing_line, counted, is_message};
ghost use Rattle.venue_main.specs.Failures.{run_fault};
ghost use Rattle.venue_main.specs.declared.serve.ServeFault.TheVariants.{Memory, Output};

use crate::market::Market;
use crate::ports::NetworkFault;
use crate::reporting::Operator;
use crate::service::Service;
use crate::serving::{keeper_of, serve_over};
use crate::starting_clock::ClockFault;
use crate::written_files::VenueFiles;
use gateway::closing::Closed;
use gateway::threads::RunFault;
use head_log::HeadReport;
use std::alloc::{AllocError, Global};
use std::io::{self, Sink, Write};
use std::mem::drop;
use std::net::{Net, TcpListener, TcpStream};
use std::sync::Wait;
use std::thread::Threads;
use std::time::Clock;
use tcp_line::{ServedLine, StopSource};
use thiserror::Error;
use venue_core::Venue;
use venue_rules::TrailRow;
use venue_world::ListTrail;

/// Why a venue is not served, or does not end well.
#[derive(Clone, Copy, Debug, PartialEq, Eq, Error)]
pub enum ServeFault {
    /// 1: an allocation failed.
    #[error("memory")]
    Memory,
    /// 2: the closing line was not written.
    #[error("output")]
    Output,
    /// 3: the trail refused a row.
    #[error("trail")]
    Trail,
    /// 4: a port is taken, or the system made no socket.
    #[error("network\n  {0}")]
    Network(NetworkFault),
    /// 5: no thread could be made.
    #[error("thread")]
    Thread,
    /// 6: the file of heads cannot be opened, or a line was not written.
    #[error("heads")]
    Heads,
    /// 7: the clock is behind the last row of the trail.
    #[error("clock\n  {0}")]
    Clock(ClockFault),
}

impl From<AllocError> for ServeFault {
    ghost from_gives = { λ _ fault. fault ≡ Memory };

    fn from(_error: AllocError) -> ServeFault {
        ServeFault::Memory
    }
}

impl From<RunFault> for ServeFault {
    ghost from_gives = { λ run fault. fault ≡ run_fault run };

    fn from(fault: RunFault) -> ServeFault {
        match fault {
            RunFault::NoMemory => ServeFault::Memory,
            RunFault::NoThread => ServeFault::Thread,
            RunFault::TrailRefused => ServeFault::Trail,
        }
    }
}

/// Serves each participant of a market over TCP: the k-th of its file, from 0, at 127.0.0.1 and k ports past the first.
/// Writes who listens where to the operator's notes, once all do, and then its events; as the venue closes, writes the
/// counts of its sessions and of the messages taken to `output`. It closes once the operator's source asks for it, or
/// each session's thread and the worker made the given turns; an idle turn waits for 100 ms at most. The rows of the
/// trail are in memory.
pub fn serve<
    R: Net<Listener = TcpListener, Stream = TcpStream>
        + Threads
        + Wait
        + Send
        + Sync
        + Clock
        + Copy
        + Drop
        + 'static,
    E: StopSource + Drop,
    N: Write + Send + Drop + 'static,
    M: VenueFiles + Send + Drop + 'static,
    W: Write,
>(
    rt: &R,
    alloc: Global,
    market: Market,
    service: Service,
    operator: Operator<E, N, M>,
    output: &mut W,
) -> Result<(), ServeFault>
    ensures emitted { OnOk result (EmitsClosed service.turns (record { participants = market.participants; instruments = market.instruments }) [] (W.contents output.old) (W.contents output.new)) }
    ensures silent { IfErr result (λ fault. UnlessWriting fault (Keeps (W.contents output.old) (W.contents output.new))) }
{
    let closed = serve_in_memory(rt, alloc, *rt, market, service, operator)?;
    let emitted = emit_closed(&closed, output);
    drop(keeper_of(closed));
    match emitted {
        Ok(()) => Ok(()),
        Err(_) => Err(ServeFault::Output),
    }
}

/// Serves a new venue of this market, with its rows in memory.
fn serve_in_memory<
    R: Net<Listener = TcpListener, Stream = TcpStream> + Threads + Wait + Sync,
    T: Clock + Copy + Send + Drop + 'static,
    E: StopSource + Drop,
    N: Write + Send + Drop + 'static,
    M: VenueFiles + Send + Drop + 'static,
>(
    rt: &R,
    alloc: Global,
    clock: T,
    market: Market,
    service: Service,
    operator: Operator<E, N, M>,
) -> Result<Closed<ServedLine<T>, ListTrail>, ServeFault>
    ensures served { IfOk result (λ c. HasServed service.turns (record { participants = market.participants; instruments = market.instruments }) [] false (closing (map (λ s. s.state) c.sessions.items) (map (λ l. l.log) c.lines.items) c.left.items c.replies_left.items c.queues.items (standing c.venue.day) c.keeper.rows true)) }
    ensures fault { IfErr result (λ fault. fault ≢ Output) }
{
    let venue = Venue::open(alloc, market.participants, market.instruments)?;
    let trail = ListTrail::new(alloc);
    let unwanted: Option<HeadReport<Sink>> = None;
    let (closed, unwanted) = serve_over(
        rt, alloc, clock, venue, trail, service, operator, unwanted,
    )?;
    drop(unwanted);
    Ok(closed)
}

/// Writes how many sessions were served, and how many messages were taken: `closed sessions 5 taken 2`.
pub fn emit_closed<L: Drop, W: Write>(
    closed: &Closed<L, ListTrail>,
    output: &mut W,
) -> io::Result<()>
    ensures { OnOk result (Appends (W.contents output.old) (W.contents output.new) (closing_line (length closed.now.sessions.items) closed.now.keeper.rows)) }
{
    let taken = messages_in(closed.keeper.rows());
    write_counts(closed.sessions.len(), taken, output)
}

/// The count of messages among these rows; the others are ticks.
pub(crate) fn messages_in(rows: &[TrailRow]) -> usize
    ensures { result ≡ count_by is_message rows.now }
{
    rows.iter().filter(|row| row.who != 0).count()
}

/// Writes these counts as one line.
pub(crate) fn write_counts<W: Write>(
    sessions: usize,
    taken: usize,
    output: &mut W,
) -> io::Result<()>
    ensures { OnOk result (Appends (W.contents output.old) (W.contents output.new) (counted sessions taken)) }
{
    writeln!(output, "closed sessions {sessions} taken {taken}")?;
    output.flush()
}
