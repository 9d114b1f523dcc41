//! The lines, gates and clocks of a venue, joined by their wakers.
ghost use Rattle.std.specs.Prelude.{◌≡◌, ◌≤◌, ◌<◌, ◌+◌, ◌^◌, IfOk, length};

use crate::clocks::{SystemClock, VenueShare, WorkerClock};
use crate::dirty_flag::DirtyFlag;
use crate::events::{EventReceiver, EventSender, event_ring};
use crate::gate::{GateShare, TcpGate};
use crate::line::TcpLine;
use crate::line_watch::LineWatch;
use crate::served_line::{ServedLine, Shared};
use crate::session_wakers::SessionWakers;
use crate::stop::{Stop, StopSource};
use crate::waiting_replies::WaitingReplies;
use crate::waker::{AwakeThreads, IdleWait, Peers, ThreadWaker};
use sef_moment::Moment;
use std::alloc::{AllocError, Global};
use std::io;
use std::net::{Net, TcpListener, TcpStream};
use std::sync::Arc;
use std::thread::Threads;
use std::time::Clock;

/// The outside of a session's thread.
pub type SessionIo<T> = (ServedLine<T>, SystemClock<T>, TcpGate);

/// The outside of a venue's threads.
#[derive(Drop)]
pub struct VenueIo<T, S> {
    /// One for each participant, in order.
    pub sessions: Vec<SessionIo<T>>,
    pub worker: WorkerClock<T, S>,
    /// The events of each participant, in order, and then of the venue.
    pub events: Vec<EventReceiver>,
}

// What the lines of a venue share.
#[derive(Drop)]
struct Common {
    awake: Arc<AwakeThreads>,
    stop: Arc<Stop>,
    worker: IdleWait,
}

fn make_common<R: Net + Threads>(rt: &R, alloc: Global, count: u16) -> io::Result<Common> {
    let awake = Arc::new(alloc, AwakeThreads::new(rt, u64::from(count) + 1))?;
    let worker = IdleWait::new(rt, alloc, Arc::try_clone(&awake)?)?;
    Ok(Common {
        awake,
        stop: Arc::new(alloc, Stop::new())?,
        worker,
    })
}

/// Opens a line for each participant, the first one at this port of 127.0.0.1 and each other at the next, and joins
/// them with the worker's clock by wakers. The venue stops where the source asks.
pub fn open_lines<
    R: Net<Listener = TcpListener, Stream = TcpStream> + Threads,
    T: Clock + Copy + Drop,
    S: StopSource + Drop,
>(rt: &R, alloc: Global, clock: T, port: u16, count: u16, source: S) -> io::Result<VenueIo<T, S>>
    requires ports { port + count ≤ 2 ^ 16 }
    ensures count { IfOk result (λ opened. length opened.sessions.items ≡ count) }
{
    let common = make_common(rt, alloc, count)?;
    let mut sessions = Vec::with_capacity(alloc, count as usize)?;
    let mut receivers = Vec::with_capacity(alloc, count as usize + 1)?;
    let mut wakers = SessionWakers::new(alloc);
    let mut waiting = WaitingReplies::new(alloc);
    let mut sleepers = make_sleepers(rt, alloc, &common, count)?;
    let all = Arc::new(alloc, wakers_of(alloc, &sleepers)?)?;
    for k in 0..count {
        let Some(sleeper) = sleepers.pop() else {
            unreachable!()
        };
        let (sender, receiver) = event_ring(alloc)?;
        receivers.push(receiver)?;
        waiting.add(sender.counts()?)?;
        wakers.add(sleeper.thread_waker()?)?;
        let peers = Peers::new(Arc::try_clone(&all)?, sleepers.len());
        let outside = open_line(
            rt,
            alloc,
            clock,
            port + k,
            &common,
            (sleeper, peers),
            sender,
        )?;
        sessions.push(outside)?;
    }
    let (events, receiver) = event_ring(alloc)?;
    receivers.push(receiver)?;
    let Common {
        awake: _,
        stop,
        worker,
    } = common;
    let share = VenueShare {
        source,
        stop,
        events,
        waiting,
    };
    Ok(VenueIo {
        sessions,
        worker: worker_clock(clock, worker, wakers, share),
        events: receivers,
    })
}

// The clock of the worker.
fn worker_clock<T: Clock + Copy + Drop, S: StopSource + Drop>(
    clock: T,
    sleeper: IdleWait,
    wakers: SessionWakers,
    share: VenueShare<S>,
) -> WorkerClock<T, S> {
    let own = SystemClock::from(clock, Moment::EPOCH);
    WorkerClock::new(own, clock, sleeper, wakers, share)
}

// The waits of this many sessions.
fn make_sleepers<R: Net>(
    rt: &R,
    alloc: Global,
    common: &Common,
    count: u16,
) -> io::Result<Vec<IdleWait>>
    ensures { IfOk result (λ made. length made.items ≡ count) }
{
    let mut sleepers = Vec::with_capacity(alloc, count as usize)?;
    for _ in 0..count {
        let sleeper = IdleWait::new(rt, alloc, Arc::try_clone(&common.awake)?)?;
        sleepers.push(sleeper)?;
    }
    Ok(sleepers)
}

// Their wakers, in order.
fn wakers_of(alloc: Global, sleepers: &[IdleWait]) -> Result<Vec<Arc<ThreadWaker>>, AllocError> {
    let mut wakers = Vec::with_capacity(alloc, sleepers.len())?;
    for sleeper in sleepers {
        wakers.push(sleeper.thread_waker()?)?;
    }
    Ok(wakers)
}

// The line at a port, with the gate and the clock of its session.
fn open_line<R: Net<Listener = TcpListener, Stream = TcpStream>, T: Clock + Copy + Drop>(
    rt: &R,
    alloc: Global,
    clock: T,
    port: u16,
    common: &Common,
    (sleeper, peers): (IdleWait, Peers),
    events: EventSender,
) -> io::Result<SessionIo<T>> {
    let activity = Arc::new(alloc, DirtyFlag::new())?;
    let watch = Arc::new(alloc, LineWatch::new())?;
    let listener = TcpListener::bind(rt, ("127.0.0.1", port))?;
    let line = TcpLine::new(
        alloc,
        clock,
        listener,
        sleeper.registry()?,
        Arc::try_clone(&activity)?,
    )?;
    let shared = Shared {
        stop: Arc::try_clone(&common.stop)?,
        watch: Arc::try_clone(&watch)?,
        activity: Arc::try_clone(&activity)?,
        counts: events.counts()?,
    };
    let share = GateShare {
        worker: common.worker.thread_waker()?,
        peers,
        line: activity,
        watch,
        stop: Arc::try_clone(&common.stop)?,
    };
    let served = ServedLine::new(line, clock, shared);
    let gate = TcpGate::new(sleeper, share, events);
    let own = SystemClock::from(clock, Moment::EPOCH);
    Ok((served, own, gate))
}
