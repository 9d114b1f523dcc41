//! The wakers of a venue's sessions, for its worker.
ghost use Rattle.std.specs.Prelude.{◌≡◌, ◌≤◌, ◌<◌, true, false};

use crate::waker::{AwakeThreads, IdleWait, ThreadWaker};
use std::alloc::{AllocError, Global};
use std::hint;
use std::sync::Arc;

/// The count of looks of the worker, with nothing to do, for places for the sessions that wait for one, some 250
/// microseconds; then all are woken.
const ADMISSION_LOOKS: u64 = 8_000;

/// After this many of them the next session is woken without a place, some 65 microseconds: those that are awake have
/// nothing for the worker, or cannot run.
const LOOKS_PER_ADMISSION: u64 = 2_048;

/// One session's waker.
struct SessionWaker {
    waker: Arc<ThreadWaker>,
    /// The worker moved a message at its seats in this turn.
    has_progressed: bool,
    /// It sleeps, waits for a place among the threads that are awake, and is counted as one.
    is_waiting: bool,
    /// It had its share: others that wait go first.
    had_share: bool,
}

// Written-out drop (docs/ARCHITECTURE.md).
impl Drop for SessionWaker {
    fn drop(self) {
        let SessionWaker {
            waker: _waker,
            has_progressed: _has_progressed,
            is_waiting: _is_waiting,
            had_share: _had_share,
        } = self;
    }
}

impl SessionWaker {
    // Wakes the session, or has it wait for a place where it sleeps. Whether it waits from now on.
    fn notify(&mut self, awake: &AwakeThreads) -> bool {
        if self.waker.sleeps_with_answer() {
            if self.is_waiting {
                return false;
            }
            self.is_waiting = true;
            self.had_share = self.waker.is_resting();
            awake.add_awake();
            return true;
        }
        if self.waker.wake() {
            awake.add_awake();
        }
        false
    }

    // Wakes the session, which waited for a place. Where it woke in the meantime, it was counted twice.
    fn admit(&mut self, awake: &AwakeThreads) {
        self.is_waiting = false;
        if !self.waker.admit() {
            awake.add_asleep();
        }
    }

    // Whether it waits, as one that had its share or as one that did not.
    fn waits(&self, had_share: bool) -> bool {
        self.is_waiting && self.had_share == had_share
    }
}

/// The wakers of the sessions, in order. A session is woken where the worker moved a message at its seats: at once
/// where other sessions have messages too, else as the turn ends. One that sleeps is woken once fewer threads are
/// awake than are to be, in turn, and one that had its share after those that did not; or by a session that parks
/// (`Peers`), so that the worker goes on.
pub struct SessionWakers {
    sessions: Vec<SessionWaker>,
    /// Sessions are woken as the turn ends.
    is_late: bool,
    /// The count of sessions that wait for a place.
    waiting: u64,
    /// The session from which the next to be woken is looked for.
    next: usize,
}

// Written-out drop (docs/ARCHITECTURE.md).
impl Drop for SessionWakers {
    fn drop(self) {
        let SessionWakers {
            sessions: _sessions,
            is_late: _is_late,
            waiting: _waiting,
            next: _next,
        } = self;
    }
}

impl SessionWakers {
    /// Without sessions.
    pub fn new(alloc: Global) -> SessionWakers {
        SessionWakers {
            sessions: Vec::new(alloc),
            is_late: true,
            waiting: 0,
            next: 0,
        }
    }

    /// Adds the waker of the next session.
    pub fn add(&mut self, waker: Arc<ThreadWaker>) -> Result<(), AllocError> {
        self.sessions.push(SessionWaker {
            waker,
            has_progressed: false,
            is_waiting: false,
            had_share: false,
        })?;
        Ok(())
    }

    /// The worker moved a message at the seats of this session.
    pub(crate) fn progressed(&mut self, participant: usize, awake: &AwakeThreads) {
        let is_late = self.is_late;
        if let Some(session) = self.sessions.get_mut(participant) {
            session.has_progressed = true;
            if !is_late && session.notify(awake) {
                self.waiting = self.waiting.saturating_add(1);
            }
        }
    }

    /// The turn has ended. Whether it moved a message.
    pub(crate) fn end_turn(&mut self, awake: &AwakeThreads) -> bool {
        let is_late = self.is_late;
        let mut moved: u64 = 0;
        for session in self.sessions.iter_mut() {
            if session.has_progressed {
                session.has_progressed = false;
                moved = moved.saturating_add(1);
                if is_late && session.notify(awake) {
                    self.waiting = self.waiting.saturating_add(1);
                }
            }
        }
        self.is_late = is_late_after(moved, self.waiting);
        self.admit(awake);
        moved > 0
    }

    // Wakes those that wait, in turn, as long as there are places.
    fn admit(&mut self, awake: &AwakeThreads) {
        for _ in 0..self.sessions.len() {
            if self.waiting == 0 || !awake.has_place(self.waiting) {
                return;
            }
            self.admit_next(awake);
        }
    }

    /// Wakes those that wait, as there are places, until the worker is woken, and whether it was; all of them before it
    /// is to sleep.
    pub(crate) fn admit_until_woken(&mut self, worker: &IdleWait) -> bool {
        for look in 0..ADMISSION_LOOKS {
            if self.waiting == 0 {
                return false;
            }
            if worker.was_woken() {
                return true;
            }
            self.admit(worker.awake());
            if look % LOOKS_PER_ADMISSION == LOOKS_PER_ADMISSION - 1 {
                self.admit_next(worker.awake());
            }
            hint::spin_loop();
        }
        self.admit_all(worker.awake());
        false
    }

    // Wakes all that wait.
    fn admit_all(&mut self, awake: &AwakeThreads) {
        for _ in 0..self.sessions.len() {
            if self.waiting == 0 {
                return;
            }
            self.admit_next(awake);
        }
    }

    // Wakes the next that waits.
    fn admit_next(&mut self, awake: &AwakeThreads) {
        self.waiting = self.waiting.saturating_sub(1);
        let Some(at) = self.next_waiting() else {
            self.waiting = 0;
            return;
        };
        if let Some(session) = self.sessions.get_mut(at) {
            session.admit(awake);
        }
        self.next = at.saturating_add(1);
    }

    // The next that waits: one that had its share only where none did not.
    fn next_waiting(&self) -> Option<usize> {
        match self.next_of(false) {
            Some(at) => Some(at),
            None => self.next_of(true),
        }
    }

    // The next that waits of those that had their share, or of the others.
    fn next_of(&self, had_share: bool) -> Option<usize> {
        match self.first_of(had_share, self.next) {
            Some(at) => Some(at),
            None => self.first_of(had_share, 0),
        }
    }

    // The first of them from this session on.
    fn first_of(&self, had_share: bool, from: usize) -> Option<usize> {
        for at in from..self.sessions.len() {
            if let Some(session) = self.sessions.get(at) {
                if session.waits(had_share) {
                    return Some(at);
                }
            }
        }
        None
    }

    /// Wakes every session.
    pub(crate) fn wake_all(&self, awake: &AwakeThreads) {
        for session in &self.sessions {
            if session.waker.wake() {
                awake.add_awake();
            }
        }
    }
}

// Whether sessions are woken as the turn ends, after a turn that moved messages for this many, where these wait for a
// place: one alone then finds its seat empty and its reply there, in one turn.
fn is_late_after(moved: u64, waiting: u64) -> bool
    ensures alone { moved ≤ 1 → waiting ≡ 0 → result ≡ true }
    ensures more { 1 < moved → result ≡ false }
    ensures crowd { 0 < waiting → result ≡ false }
{
    moved < 2 && waiting == 0
}
