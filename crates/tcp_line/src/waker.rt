//! Idle threads: how one waits, and how another wakes it. A wait is no turn.
ghost use Rattle.std.specs.Prelude.{◌≡◌, ◌≤◌, ◌*◌, ◌<◌, ◌+◌, ◌/◌, ◌^◌, true, false};

use mio::{Events, Poll, Registry, Token, Waker};
use std::alloc::{AllocError, Global};
use std::cmp::min;
use std::net::Net;
use std::sync::atomic::{AtomicU64, Ordering};
use std::sync::{Arc, Wait};
use std::thread::Threads;
use std::time::Duration;
use std::{hint, io, thread};

/// The token of a waker in the poll of its thread.
const WAKER_TOKEN: Token = Token(0);

/// The greatest time that a thread waits, in milliseconds. A lost wake-up would cost this, and nothing else.
const MAX_WAIT_MS: u64 = 100;

/// The count of looks at its waker that the worker makes before it sleeps, some 250 microseconds. It has nothing to do
/// between two orders of a participant that waits for each answer.
const WORKER_LOOKS: u64 = 8_000;

/// The same of a session, some 70 microseconds, within which a counterparty answers.
const SESSION_LOOKS: u64 = 2_000;

/// The count of looks of a session that handed a message, before its next read, some 6 microseconds: the worker
/// answers most messages within it, so that one turn takes the answer and hands the next message.
const ANSWER_LOOKS: u64 = 200;

/// After this many looks at its waker a thread looks at its sockets, by a system call, and counts who is awake.
const LOOKS_PER_POLL: u64 = 64;

/// With this many awake threads to a processor, a thread that finds nothing sleeps at once: those that spin would keep
/// the others from their work.
const CROWD: u64 = 3;

/// The count of looks at its waker of a session in a crowd that handed a message, some 6 microseconds. Each session
/// that is awake is then answered in its turn.
const CROWD_LOOKS: u64 = 200;

/// The count of messages that a session in a crowd hands before it rests, and another one goes on in its place.
const SHARE: u64 = 32;

/// The greatest time that a session in a crowd is parked at once, in milliseconds; it parks twice at most.
const MAX_REST_MS: u64 = MAX_WAIT_MS / 2;

/// The count of threads of a venue that are awake, or asleep and to be woken, and of processors.
pub struct AwakeThreads {
    count: AtomicU64,
    processors: u64,
}

// Written-out drop (docs/ARCHITECTURE.md).
impl Drop for AwakeThreads {
    fn drop(self) {
        let AwakeThreads {
            count: _count,
            processors: _processors,
        } = self;
    }
}

impl AwakeThreads {
    /// This many threads, all awake.
    pub fn new<R: Threads>(rt: &R, count: u64) -> AwakeThreads {
        let processors = match thread::available_parallelism(rt) {
            Ok(count) => count.get() as u64,
            Err(_) => 1,
        };
        AwakeThreads {
            count: AtomicU64::new(count),
            processors,
        }
    }

    /// One more sleeps, or has ended.
    pub(crate) fn add_asleep(&self) {
        self.count.fetch_sub(1, Ordering::SeqCst);
    }

    /// One more is awake, or is to be woken.
    pub(crate) fn add_awake(&self) {
        self.count.fetch_add(1, Ordering::SeqCst);
    }

    /// Whether another thread may be woken, where this many of those that are counted sleep.
    pub(crate) fn has_place(&self, waiting: u64) -> bool {
        let count = self.count.load(Ordering::SeqCst);
        has_place(count, waiting, most_awake(self.processors))
    }

    // The looks of a session in a crowd that handed a message.
    fn crowd_looks(&self) -> u64 {
        crowd_looks(self.processors)
    }

    // Whether more threads have something to do than are to be awake.
    fn is_crowded(&self) -> bool {
        self.count.load(Ordering::SeqCst) > most_awake(self.processors)
    }

    // The looks that a thread makes now, of at most these.
    fn share(&self, looks: u64) -> u64 {
        share(looks, self.count.load(Ordering::SeqCst), self.processors)
    }
}

// All looks where each awake thread has a processor, none from `CROWD` awake threads to a processor on, and a part of
// them in between.
fn share(looks: u64, awake: u64, processors: u64) -> u64
    ensures all { awake ≤ processors → result ≡ looks }
    ensures none { processors < awake → 3 * processors ≤ awake → result ≡ 0 }
    ensures part { result ≤ looks }
{
    let crowd = processors.saturating_mul(CROWD);
    if awake <= processors {
        return looks;
    }
    if awake >= crowd {
        return 0;
    }
    // (the product may saturate)
    min(
        looks.saturating_mul(crowd - awake) / (crowd - processors),
        looks,
    )
}

// The threads that are to be awake together: the worker, and sessions enough to keep the other processors at work while
// some wait.
fn most_awake(processors: u64) -> u64
    ensures { processors < 2 ^ 62 → result ≡ processors + (processors + 1) / 2 }
{
    processors.saturating_add(processors.saturating_add(1) / 2)
}

// The looks of a session in a crowd that handed a message: none where the worker cannot run at the same time.
fn crowd_looks(processors: u64) -> u64
    ensures alone { processors ≤ 1 → result ≡ 0 }
    ensures more { 1 < processors → result ≡ 200 }
{
    if processors <= 1 { 0 } else { CROWD_LOOKS }
}

// Whether another thread may be woken, where this many are awake or to be woken, these of them sleep, and that many are
// to be awake.
fn has_place(count: u64, waiting: u64, most: u64) -> bool
    ensures place { most < 2 ^ 63 → waiting < 2 ^ 63 → count < waiting + most → result ≡ true }
    ensures none { waiting + most ≤ count → result ≡ false }
{
    count < waiting.saturating_add(most)
}

/// The states of a waker: its thread is awake, and was not woken since it last asked; it was woken; it sleeps at its
/// sockets; it is parked until the worker answers, or rests so after its share; or it is parked or rests, is answered,
/// and waits for a place among the threads that are awake.
const AWAKE: u64 = 0;

const WOKEN: u64 = 1;

const ASLEEP: u64 = 2;

const PARKED: u64 = 3;

const RESTING: u64 = 4;

const ANSWERED: u64 = 5;

const RESTED: u64 = 6;

/// Wakes the thread that waits for it, or has it look again before it sleeps. It carries no data, and no contract
/// depends on it.
pub struct ThreadWaker {
    state: AtomicU64,
    waker: Waker,
}

// Written-out drop (docs/ARCHITECTURE.md).
impl Drop for ThreadWaker {
    fn drop(self) {
        let ThreadWaker {
            state: _state,
            waker: _waker,
        } = self;
    }
}

impl ThreadWaker {
    /// Wakes the thread: by a system call, where it sleeps, and whether it did. It is then to be counted as awake. The
    /// caller has finished what the thread is to find.
    pub(crate) fn wake(&self) -> bool {
        if self.state.load(Ordering::SeqCst) == WOKEN {
            return false;
        }
        let state = self.state.swap(WOKEN, Ordering::SeqCst);
        if state == ASLEEP {
            let _ = self.waker.wake();
        }
        if state > ASLEEP {
            self.state.wake_one();
        }
        state >= ASLEEP
    }

    /// Whether it sleeps. One that is parked has its answer, and waits for a place from now on.
    pub(crate) fn sleeps_with_answer(&self) -> bool {
        let state = self.state.load(Ordering::SeqCst);
        match state {
            PARKED => {
                let _ = self.change(PARKED, ANSWERED);
            }
            RESTING => {
                let _ = self.change(RESTING, RESTED);
            }
            _ => {}
        }
        state >= ASLEEP
    }

    /// Whether it had its share, and waits for a place.
    pub(crate) fn is_resting(&self) -> bool {
        self.state.load(Ordering::SeqCst) == RESTED
    }

    /// Wakes the thread where it has something to do, and whether it did. It is then to be counted as awake.
    pub(crate) fn admit(&self) -> bool {
        match self.state.load(Ordering::SeqCst) {
            ASLEEP | ANSWERED | RESTED => self.wake(),
            _ => false,
        }
    }

    // Whether it was woken. It is awake from now on.
    fn rise(&self) -> bool {
        self.state.swap(AWAKE, Ordering::SeqCst) == WOKEN
    }

    // Wakes the thread where it is in this state, parked. Whether it was.
    fn wake_from(&self, state: u64) -> bool {
        if self.state.load(Ordering::SeqCst) != state || !self.change(state, WOKEN) {
            return false;
        }
        self.state.wake_one();
        true
    }

    // Sleeps until it is woken, for 100 ms at most.
    fn park<R: Wait>(&self, rt: &R) {
        for _ in 0..2 {
            let state = self.state.load(Ordering::SeqCst);
            if state < PARKED || state > RESTED {
                return;
            }
            let longest = Duration::from_millis(MAX_REST_MS);
            self.state.park_timeout(rt, state as u32, longest);
        }
    }

    // Whether it was woken since the last call. What was done before that is found after this call.
    fn take(&self) -> bool {
        if self.state.load(Ordering::SeqCst) != WOKEN {
            return false;
        }
        self.state.store(AWAKE, Ordering::SeqCst);
        true
    }

    // Whether its state was the first of these, and is now the second.
    fn change(&self, from: u64, to: u64) -> bool {
        self.state
            .compare_exchange(from, to, Ordering::SeqCst, Ordering::SeqCst)
            .is_ok()
    }

    fn set_awake(&self) {
        self.state.store(AWAKE, Ordering::SeqCst);
    }
}

/// The wakers of a venue's sessions, for one of them, which leaves its place to another one.
pub struct Peers {
    wakers: Arc<Vec<Arc<ThreadWaker>>>,
    own: usize,
}

// Written-out drop (docs/ARCHITECTURE.md).
impl Drop for Peers {
    fn drop(self) {
        let Peers {
            wakers: _wakers,
            own: _own,
        } = self;
    }
}

impl Peers {
    /// The wakers of all sessions, for the one of this index.
    pub fn new(wakers: Arc<Vec<Arc<ThreadWaker>>>, own: usize) -> Peers {
        Peers { wakers, own }
    }

    // Wakes the next that waits for a place: one that had its share only where none did not.
    fn admit(&self, awake: &AwakeThreads) {
        if self.admit_from(ANSWERED) || self.admit_from(RESTED) {
            awake.add_awake();
        }
    }

    // Wakes the next in this state. Whether there was one.
    fn admit_from(&self, state: u64) -> bool {
        self.admit_of(state, self.own.saturating_add(1), self.wakers.len())
            || self.admit_of(state, 0, self.own)
    }

    // Wakes the first in this state of those from one index up to another.
    fn admit_of(&self, state: u64, from: usize, to: usize) -> bool {
        for at in from..to {
            if let Some(waker) = self.wakers.get(at) {
                if waker.wake_from(state) {
                    return true;
                }
            }
        }
        false
    }
}

/// The wait of an idle thread: for its waker, and for the sockets that are registered.
pub struct IdleWait {
    poll: Poll,
    events: Events,
    thread_waker: Arc<ThreadWaker>,
    awake: Arc<AwakeThreads>,
    /// The count of messages that it handed in a crowd since it last had nothing to do, or rested.
    handed: u64,
    /// The last sleep ended by its time alone: one look is enough before the next.
    is_calm: bool,
}

// Written-out drop (docs/ARCHITECTURE.md).
impl Drop for IdleWait {
    fn drop(self) {
        let IdleWait {
            poll: _poll,
            events: _events,
            thread_waker: _thread_waker,
            awake: _awake,
            handed: _handed,
            is_calm: _is_calm,
        } = self;
    }
}

impl IdleWait {
    /// The wait of a thread.
    pub fn new<R: Net>(rt: &R, alloc: Global, awake: Arc<AwakeThreads>) -> io::Result<IdleWait> {
        let poll = Poll::new(rt)?;
        let waker = Waker::new(poll.registry(), WAKER_TOKEN)?;
        let thread_waker = ThreadWaker {
            state: AtomicU64::new(AWAKE),
            waker,
        };
        Ok(IdleWait {
            poll,
            events: Events::with_capacity(alloc, 8)?,
            thread_waker: Arc::new(alloc, thread_waker)?,
            awake,
            handed: 0,
            is_calm: false,
        })
    }

    /// Its waker, for another thread.
    pub fn thread_waker(&self) -> Result<Arc<ThreadWaker>, AllocError> {
        Arc::try_clone(&self.thread_waker)
    }

    /// The registry for the sockets that it is to wait for.
    pub fn registry(&self) -> io::Result<Registry> {
        self.poll.registry().try_clone()
    }

    /// Whether the thread was woken since the last call.
    pub fn was_woken(&self) -> bool {
        self.thread_waker.take()
    }

    /// The threads that are awake.
    pub(crate) fn awake(&self) -> &AwakeThreads {
        &self.awake
    }

    /// Wakes another thread.
    pub(crate) fn wake(&self, other: &ThreadWaker) {
        if other.wake() {
            self.awake.add_awake();
        }
    }

    /// Whether the worker answers at once.
    pub fn is_answered(&self) -> bool {
        self.sees_answer(self.awake.share(ANSWER_LOOKS))
    }

    /// Whether more threads have something to do than are to be awake.
    pub(crate) fn is_crowded(&self) -> bool {
        self.awake.is_crowded()
    }

    /// Waits in a crowd until the worker answers, or for 100 ms. It looks briefly, and then parks. A session that had
    /// its share parks at once, and rests until it has its turn.
    pub(crate) fn await_answer<R: Wait>(&mut self, rt: &R, peers: &Peers) {
        self.handed = self.handed.saturating_add(1);
        if self.handed > SHARE {
            self.rest(rt, peers);
        } else if !self.sees_answer(self.awake.crowd_looks()) {
            self.park(rt, peers, PARKED);
        }
    }

    // Rests, unless the worker has answered.
    fn rest<R: Wait>(&mut self, rt: &R, peers: &Peers) {
        if !self.thread_waker.take() {
            self.handed = 0;
            self.park(rt, peers, RESTING);
        }
    }

    // Parks in this state until the worker answers, for 100 ms at most, and leaves its place to another one. What a
    // socket has is left for later.
    fn park<R: Wait>(&self, rt: &R, peers: &Peers, state: u64) {
        if self.thread_waker.change(AWAKE, state) {
            self.awake.add_asleep();
            peers.admit(&self.awake);
            self.thread_waker.park(rt);
        }
        if !self.thread_waker.rise() {
            self.awake.add_awake();
        }
    }

    // Whether the thread is woken within this many looks.
    fn sees_answer(&self, looks: u64) -> bool {
        for _ in 0..looks {
            if self.thread_waker.take() {
                return true;
            }
            hint::spin_loop();
        }
        self.thread_waker.take()
    }

    /// Waits, as the worker does, until the thread is woken, or for 100 ms.
    pub fn wait(&mut self) {
        if !self.spin(WORKER_LOOKS, false) {
            self.sleep();
        }
    }

    /// Waits, as a session does, until the thread is woken or a socket is ready, or for 100 ms.
    pub fn wait_at_sockets(&mut self) {
        if !self.spin(SESSION_LOOKS, true) {
            self.sleep();
        }
    }

    /// The thread has ended.
    pub fn end(&self) {
        self.awake.add_asleep();
    }

    // Looks at most this often until the thread is woken, or a socket is ready where that is asked; false where it is
    // to sleep.
    fn spin(&mut self, looks: u64, at_sockets: bool) -> bool {
        let most = if self.is_calm {
            1
        } else {
            self.awake.share(looks)
        };
        for look in 0..most {
            if self.thread_waker.take() {
                return true;
            }
            if look % LOOKS_PER_POLL == LOOKS_PER_POLL - 1 {
                if at_sockets && self.is_ready() {
                    return true;
                }
                if look >= self.awake.share(looks) {
                    return false;
                }
            }
            hint::spin_loop();
        }
        self.thread_waker.take()
    }

    // Whether a socket became ready since the last call.
    fn is_ready(&mut self) -> bool {
        let _ = self
            .poll
            .poll(&mut self.events, Some(Duration::from_millis(0)));
        !self.events.is_empty()
    }

    // Sleeps until the thread is woken or a socket is ready, for 100 ms at most.
    fn sleep(&mut self) {
        self.handed = 0;
        self.is_calm = false;
        if self.sleep_as(ASLEEP, MAX_WAIT_MS) {
            self.is_calm = self.events.is_empty();
        }
        self.thread_waker.set_awake();
    }

    // Sleeps in this state until the thread is woken or a socket is ready, for this time at most; not where it was
    // woken already. Whether it slept. Who wakes it counts it as awake; else it does so itself.
    fn sleep_as(&mut self, state: u64, longest_ms: u64) -> bool {
        if !self.thread_waker.change(AWAKE, state) {
            return false;
        }
        self.awake.add_asleep();
        let longest = Duration::from_millis(longest_ms);
        let _ = self.poll.poll(&mut self.events, Some(longest));
        if self.thread_waker.change(state, AWAKE) {
            self.awake.add_awake();
        }
        true
    }
}
