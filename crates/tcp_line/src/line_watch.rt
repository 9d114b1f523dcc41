//! What a gate and its line share of a connection.

use std::sync::atomic::{AtomicU64, Ordering};

/// Why a connection ended.
#[derive(Clone, Copy)]
pub enum LineEnd {
    /// The counterparty closed it.
    Peer,
    /// No Logon came in time.
    NoLogon,
    /// Its ResendRequest was not satisfied in time.
    GapOverdue,
    /// Nothing came for some time, and another connection waits.
    Replaced,
    /// The venue stops.
    Stopped,
}

/// Facts of a connection, written and read by one thread. No contract depends on them.
pub struct LineWatch {
    logged_on: AtomicU64,
    heartbeat: AtomicU64,
    outstanding: AtomicU64,
    expected: AtomicU64,
    progress: AtomicU64,
    end: AtomicU64,
    seconds: AtomicU64,
    second_at: AtomicU64,
    passed_over: AtomicU64,
}

// Written-out drop (docs/ARCHITECTURE.md).
impl Drop for LineWatch {
    fn drop(self) {
        let LineWatch {
            logged_on: _logged_on,
            heartbeat: _heartbeat,
            outstanding: _outstanding,
            expected: _expected,
            progress: _progress,
            end: _end,
            seconds: _seconds,
            second_at: _second_at,
            passed_over: _passed_over,
        } = self;
    }
}

// The end of a line as a word.
fn word(end: LineEnd) -> u64 {
    match end {
        LineEnd::Peer => 0,
        LineEnd::NoLogon => 1,
        LineEnd::GapOverdue => 2,
        LineEnd::Replaced => 3,
        LineEnd::Stopped => 4,
    }
}

// The end of a line that is this word.
fn end_of(word: u64) -> LineEnd {
    match word {
        1 => LineEnd::NoLogon,
        2 => LineEnd::GapOverdue,
        3 => LineEnd::Replaced,
        4 => LineEnd::Stopped,
        _ => LineEnd::Peer,
    }
}

impl LineWatch {
    pub fn new() -> LineWatch {
        LineWatch {
            logged_on: AtomicU64::new(0),
            heartbeat: AtomicU64::new(0),
            outstanding: AtomicU64::new(0),
            expected: AtomicU64::new(0),
            progress: AtomicU64::new(0),
            end: AtomicU64::new(0),
            seconds: AtomicU64::new(0),
            second_at: AtomicU64::new(0),
            passed_over: AtomicU64::new(0),
        }
    }

    /// A new connection.
    pub fn begin(&self) {
        self.logged_on.store(0, Ordering::SeqCst);
        self.outstanding.store(0, Ordering::SeqCst);
    }

    /// Its Logon was accepted, with this heartbeat interval in seconds.
    pub fn log_on(&self, heartbeat: u64) {
        self.heartbeat.store(heartbeat, Ordering::SeqCst);
        self.logged_on.store(1, Ordering::SeqCst);
    }

    pub fn is_logged_on(&self) -> bool {
        self.logged_on.load(Ordering::SeqCst) != 0
    }

    pub fn heartbeat(&self) -> u64 {
        self.heartbeat.load(Ordering::SeqCst)
    }

    /// The number expected moved, or a ResendRequest was sent or satisfied.
    pub fn note_progress(&self, expected: u64, is_outstanding: bool) {
        let outstanding = if is_outstanding { 1 } else { 0 };
        self.expected.store(expected, Ordering::SeqCst);
        self.outstanding.store(outstanding, Ordering::SeqCst);
        self.progress.fetch_add(1, Ordering::SeqCst);
    }

    pub fn is_outstanding(&self) -> bool {
        self.outstanding.load(Ordering::SeqCst) != 0
    }

    /// The number expected at the last progress.
    pub fn expected(&self) -> u64 {
        self.expected.load(Ordering::SeqCst)
    }

    /// The count of progress so far.
    pub fn progress(&self) -> u64 {
        self.progress.load(Ordering::SeqCst)
    }

    /// The line ends the connection itself.
    pub fn set_end(&self, end: LineEnd) {
        self.end.store(word(end), Ordering::SeqCst);
    }

    /// Why the connection ended.
    pub fn take_end(&self) -> LineEnd {
        end_of(self.end.swap(0, Ordering::SeqCst))
    }

    /// Another connection came at this moment, in milliseconds since 1970, and was closed.
    pub fn note_second(&self, at_ms: u64) {
        self.second_at.store(at_ms, Ordering::SeqCst);
        self.seconds.store(1, Ordering::SeqCst);
    }

    /// The moment of the last other connection that was closed since the last call, where there was one.
    pub fn take_second(&self) -> Option<u64> {
        if self.seconds.load(Ordering::SeqCst) == 0 {
            return None;
        }
        self.seconds.store(0, Ordering::SeqCst);
        Some(self.second_at.load(Ordering::SeqCst))
    }

    /// This many bytes came after the line's end had begun.
    pub fn note_passed_over(&self, bytes: u64) {
        self.passed_over.fetch_add(bytes, Ordering::SeqCst);
    }

    /// The count of those since the last call.
    pub fn take_passed_over(&self) -> u64 {
        self.passed_over.swap(0, Ordering::SeqCst)
    }
}
