//! When a line ends a connection itself. Times are milliseconds of a clock that never goes back.
ghost use Rattle.std.specs.Prelude.{◌≡◌, ◌≢◌, is_some, true, false, Some};
ghost use Rattle.tcp_line.specs.Endings as endings;

use crate::connection::Arrival;
use crate::line_watch::{LineEnd, LineWatch};
use gateway::line::Read;

/// The time without a Logon after which a connection ends.
const MAX_LOGON_MS: u64 = 10_000;

/// The time without a byte after which another connection takes the place of one.
const MAX_SILENT_MS: u64 = 10_000;

/// The time without a first byte after which a newcomer is closed.
const MAX_UNHEARD_MS: u64 = 10_000;

/// The time without progress after which a ResendRequest is overdue where there are no heartbeats.
const MAX_GAP_MS: u64 = 60_000;

/// The same in heartbeat intervals: 2.2, of which a thousandth is milliseconds to a second.
const GAP_MS_PER_SECOND: u64 = 2_200;

/// The time between two looks for another connection.
const LOOK_MS: u64 = 250;

/// The facts that end a connection, and for how long they have held.
#[derive(Clone, Copy)]
pub(crate) struct Standing {
    pub(crate) is_logged_on: bool,
    /// Since it was accepted.
    pub(crate) connected_ms: u64,
    /// In seconds.
    pub(crate) heartbeat: u64,
    /// A ResendRequest is outstanding.
    pub(crate) is_outstanding: bool,
    /// Since the last progress.
    pub(crate) stuck_ms: u64,
}

// The time without progress after which a ResendRequest is overdue, by the heartbeat interval in seconds.
fn gap_limit(heartbeat: u64) -> u64
    ensures { result ≡ endings.gap_limit heartbeat }
{
    if heartbeat == 0 {
        MAX_GAP_MS
    } else {
        heartbeat.saturating_mul(GAP_MS_PER_SECOND)
    }
}

// Whether a connection waits for its Logon for too long.
fn is_late(standing: &Standing) -> bool
    ensures { result ≡ endings.is_late standing.now }
{
    !standing.is_logged_on && standing.connected_ms >= MAX_LOGON_MS
}

// Whether a connection waits for the answer to its ResendRequest for too long.
fn is_overdue(standing: &Standing) -> bool
    ensures { result ≡ endings.is_overdue standing.now }
{
    standing.is_outstanding && standing.stuck_ms >= gap_limit(standing.heartbeat)
}

// Why a connection of which nothing waits to be read ends now, where it does.
fn end_of(standing: &Standing) -> Option<LineEnd>
    ensures { result ≡ endings.end_of standing.now }
{
    if is_late(standing) {
        Some(LineEnd::NoLogon)
    } else if is_overdue(standing) {
        Some(LineEnd::GapOverdue)
    } else {
        None
    }
}

/// Why a connection ends after a read that gave this, where it does.
pub(crate) fn end_after(answer: Read, standing: &Standing) -> Option<LineEnd>
    ensures cause { result ≡ endings.end_after answer standing.now }
    ensures quiet { is_some result ≡ true → answer ≡ Read.Quiet }
    ensures by_time { result ≢ Some LineEnd.Replaced }
{
    match answer {
        Read::Quiet => end_of(standing),
        Read::Got { count: _ } | Read::Ended | Read::Fault => None,
    }
}

/// What becomes of a newcomer: another connection that came while one is up.
#[derive(Clone, Copy)]
pub(crate) enum Fate {
    /// It takes the place of the other one.
    Served,
    /// It may send its first bytes yet.
    Waits,
    Closed,
}

// Whether a newcomer may take the place of a connection from which nothing came for this time.
fn is_silent(silent_ms: u64) -> bool
    ensures { result ≡ endings.is_silent silent_ms }
{
    silent_ms >= MAX_SILENT_MS
}

// What becomes of a newcomer on which this came, this time after it was accepted.
fn fate_after(arrival: Arrival, waited_ms: u64) -> Fate
    ensures { result ≡ endings.fate_after arrival waited_ms }
{
    match arrival {
        Arrival::Bytes => Fate::Served,
        Arrival::Nothing => {
            if waited_ms >= MAX_UNHEARD_MS {
                Fate::Closed
            } else {
                Fate::Waits
            }
        }
        Arrival::Ended => Fate::Closed,
    }
}

// The same, where nothing came on the connection that is up for this time. The newcomer waits until a read of that one
// gave nothing: its peer may have ended it, and be the newcomer.
fn fate_of(was_quiet: bool, silent_ms: u64, arrival: Arrival, waited_ms: u64) -> Fate
    ensures fate { result ≡ endings.fate_of was_quiet silent_ms arrival waited_ms }
    ensures heard { result ≡ Fate.Served → arrival ≡ Arrival.Bytes }
    ensures waits { was_quiet ≡ false → result ≡ Fate.Waits }
{
    if !was_quiet {
        Fate::Waits
    } else if is_silent(silent_ms) {
        fate_after(arrival, waited_ms)
    } else {
        Fate::Closed
    }
}

/// The times of a connection.
#[derive(Clone, Copy)]
pub(crate) struct LineTimer {
    /// Before the last read.
    at: u64,
    connected: u64,
    /// The first look at the clock after bytes came; `has_heard`: before that look.
    heard: u64,
    has_heard: bool,
    looked: u64,
    /// When the newcomer was accepted, where there is one; `was_quiet`: a read since then gave nothing.
    newcomer: u64,
    was_quiet: bool,
    /// The count of progress, and when it last rose.
    progress: u64,
    progressed: u64,
}

impl LineTimer {
    pub(crate) fn new() -> LineTimer {
        LineTimer {
            at: 0,
            connected: 0,
            heard: 0,
            has_heard: false,
            looked: 0,
            newcomer: 0,
            was_quiet: false,
            progress: 0,
            progressed: 0,
        }
    }

    /// A connection was accepted.
    pub(crate) fn begin(&mut self, now: u64) {
        self.has_heard = true;
        self.set_now(now);
        self.connected = now;
        self.looked = now;
        self.progressed = now;
    }

    /// The time before a read.
    pub(crate) fn set_now(&mut self, now: u64) {
        self.at = now;
        if self.has_heard {
            self.heard = now;
            self.has_heard = false;
        }
    }

    /// Bytes came.
    pub(crate) fn hear(&mut self) {
        self.has_heard = true;
    }

    /// A read gave nothing.
    pub(crate) fn rest(&mut self) {
        self.was_quiet = true;
    }

    /// A newcomer was accepted.
    pub(crate) fn welcome(&mut self)
        ensures unread { self.new.was_quiet ≡ false }
    {
        self.newcomer = self.at;
        self.was_quiet = false;
    }

    /// What becomes of the newcomer, on which this came.
    pub(crate) fn fate(&self, arrival: Arrival) -> Fate
        ensures heard { result ≡ Fate.Served → arrival ≡ Arrival.Bytes }
        ensures waits { self.now.was_quiet ≡ false → result ≡ Fate.Waits }
    {
        let silent = if self.has_heard {
            0
        } else {
            self.at.saturating_sub(self.heard)
        };
        let waited = self.at.saturating_sub(self.newcomer);
        fate_of(self.was_quiet, silent, arrival, waited)
    }

    /// Whether it is time to look for another connection.
    pub(crate) fn is_look_due(&mut self) -> bool {
        if self.at.saturating_sub(self.looked) < LOOK_MS {
            return false;
        }
        self.looked = self.at;
        true
    }

    /// Why the connection ends after a read that gave this, where it does.
    pub(crate) fn end(&mut self, answer: Read, watch: &LineWatch) -> Option<LineEnd>
        ensures quiet { is_some result ≡ true → answer ≡ Read.Quiet }
        ensures by_time { result ≢ Some LineEnd.Replaced }
    {
        let progress = watch.progress();
        if progress != self.progress {
            self.progress = progress;
            self.progressed = self.at;
        }
        let standing = Standing {
            is_logged_on: watch.is_logged_on(),
            connected_ms: self.at.saturating_sub(self.connected),
            heartbeat: watch.heartbeat(),
            is_outstanding: watch.is_outstanding(),
            stuck_ms: self.at.saturating_sub(self.progressed),
        };
        end_after(answer, &standing)
    }
}
