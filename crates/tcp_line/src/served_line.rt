//! The line of a venue that is served: it stops with its venue, and ends a connection that holds its participant out.
ghost use Rattle.std.specs.Prelude.{◌≡◌, ◌≢◌, ◌^◌, ◌-◌, [], ◌∷◌, ◌++◌, true, false, is_some, None, Some, MatchResult, min};
ghost use Rattle.gateway.specs.Said.{IsWithin, Accepted, Gave, Took, Broke_off, given, faults_in};
ghost use Rattle.tcp_line.specs.Endings.{GaveNothing};
ghost use Rattle.tcp_line.specs.Link.{IsHeard};

use crate::clocks::ms_of;
use crate::dirty_flag::DirtyFlag;
use crate::events::Counts;
use crate::line::TcpLine;
use crate::line_log::LineLog;
use crate::line_timer::{Fate, LineTimer};
use crate::line_watch::{LineEnd, LineWatch};
use crate::stop::Stop;
use gateway::line::{Accept, Line, LineFault, Read};
use gateway::mem_line::LineEvent;
use gateway::piece::READ_SIZE;
use gateway::read_outcome::given_of;
use ghost_history::GhostHistory;
use std::sync::{Arc, Wait};
use std::time::Clock;

/// What a line shares with its gate and its venue.
pub struct Shared {
    pub stop: Arc<Stop>,
    pub watch: Arc<LineWatch>,
    pub activity: Arc<DirtyFlag>,
    pub counts: Arc<Counts>,
}

// Written-out drop (docs/ARCHITECTURE.md).
impl Drop for Shared {
    fn drop(self) {
        let Shared {
            stop: _stop,
            watch: _watch,
            activity: _activity,
            counts: _counts,
        } = self;
    }
}

/// A line over TCP. Once its venue stops it neither reads nor accepts, and then it is over. It ends a connection
/// without a Logon, one whose ResendRequest is overdue, and a silent one where another connection waits, as if the peer
/// had.
pub struct ServedLine<T> {
    line: TcpLine<T>,
    clock: T,
    shared: Shared,
    timer: LineTimer,
    log: LineLog,
}

// Written-out drop (docs/ARCHITECTURE.md).
impl<T: Drop> Drop for ServedLine<T> {
    fn drop(self) {
        let ServedLine {
            line: _line,
            clock: _clock,
            shared: _shared,
            timer: _timer,
            log: _log,
        } = self;
    }
}

impl<T: Clock + Drop> ServedLine<T> {
    pub fn new(line: TcpLine<T>, clock: T, shared: Shared) -> ServedLine<T>
        ensures { ⟦<ServedLine<T> as Line>⟧.said result ≡ [] }
    {
        ServedLine {
            line,
            clock,
            shared,
            timer: LineTimer::new(),
            log: LineLog::new(),
        }
    }

    /// Gives the system what still waits, and drops the connection. Whether all that was written was taken.
    pub fn close(&mut self) -> bool
        ensures same { self.new.log ≡ self.old.log }
    {
        self.line.close()
    }

    // The time of a clock that never goes back, in milliseconds; none where it cannot be read.
    fn now(&self) -> Option<u64> {
        match self.clock.monotonic() {
            Ok(time) => Some(ms_of(time)),
            Err(_) => None,
        }
    }

    fn look_at_clock(&mut self)
        ensures same { self.new.log ≡ self.old.log }
        ensures unread { self.new.line.log ≡ self.old.line.log }
        ensures newcomer { self.new.line.next ≡ self.old.line.next }
    {
        if let Some(now) = self.now() {
            self.timer.set_now(now);
        }
    }

    // Takes the next connection, unless the venue stops.
    fn change(&mut self) -> Accept
        ensures same { self.new.log ≡ self.old.log }
    {
        if self.shared.stop.is_over() {
            return Accept::Over;
        }
        if !self.shared.stop.is_open() {
            self.line.close();
            return Accept::Quiet;
        }
        let answer = self.line.change();
        if let Accept::Up = answer {
            self.shared.watch.begin();
            let now = self.now().unwrap_or(0);
            self.timer.begin(now);
        }
        answer
    }

    // Drops the newcomer, where there is one, and reports that.
    fn close_newcomer(&mut self)
        ensures same { self.new.log ≡ self.old.log }
        ensures unread { self.new.line.log ≡ self.old.line.log }
    {
        if !self.line.drop_next() {
            return;
        }
        let at_ms = match self.clock.since_1970() {
            Ok(time) => ms_of(time),
            Err(_) => 0,
        };
        self.shared.watch.note_second(at_ms);
    }

    // Takes a newcomer from the listener, in the place of an earlier one.
    fn welcome(&mut self)
        ensures same { self.new.log ≡ self.old.log }
        ensures unread { self.new.line.log ≡ self.old.line.log }
        ensures waits { is_some self.old.line.next ≡ true → is_some self.new.line.next ≡ true }
    {
        let Some(connection) = self.line.take_second() else {
            return;
        };
        self.close_newcomer();
        self.line.set_next(connection);
        self.timer.welcome();
    }

    // Looks at times for a newcomer. One that comes is neither served nor closed before a later read gave nothing.
    fn look_for_newcomer(&mut self)
        ensures same { self.new.log ≡ self.old.log }
        ensures unread { self.new.line.log ≡ self.old.line.log }
        ensures waits { is_some self.old.line.next ≡ true → is_some self.new.line.next ≡ true }
    {
        if self.timer.is_look_due() {
            self.welcome();
        }
    }

    // Whether the newcomer takes the place of this connection. One that neither does nor may wait is closed.
    fn is_taken(&mut self) -> bool
        ensures same { self.new.log ≡ self.old.log }
        ensures unread { self.new.line.log ≡ self.old.line.log }
        ensures heard { result ≡ true → IsHeard self.new.line.next }
        ensures none { self.old.line.next ≡ None → result ≡ false }
    {
        let Some(arrival) = self.line.look_at_next() else {
            return false;
        };
        match self.timer.fate(arrival) {
            Fate::Served => true,
            Fate::Waits => false,
            Fate::Closed => {
                self.close_newcomer();
                false
            }
        }
    }

    // Why the connection, of which a read gave nothing, ends now, where it does. Only a newcomer that came before that
    // read takes its place.
    fn own_end(&mut self) -> Option<LineEnd>
        ensures same { self.new.log ≡ self.old.log }
        ensures unread { self.new.line.log ≡ self.old.line.log }
        ensures heard { result ≡ Some LineEnd.Replaced → IsHeard self.new.line.next }
        ensures earlier { self.old.line.next ≡ None → result ≢ Some LineEnd.Replaced }
    {
        let end = self.timer.end(Read::Quiet, &self.shared.watch);
        if end.is_some() {
            return end;
        }
        self.timer.rest();
        if self.is_taken() {
            return Some(LineEnd::Replaced);
        }
        self.look_for_newcomer();
        None
    }

    // Ends the connection, for this cause.
    fn end(&mut self, end: LineEnd) -> Read
        ensures same { self.new.log ≡ self.old.log }
        ensures unread { self.new.line.log ≡ self.old.line.log }
        ensures newcomer { self.new.line.next ≡ self.old.line.next }
        ensures within { IsWithin result }
        ensures ended { result ≡ Read.Ended }
    {
        self.shared.watch.set_end(end);
        let passed_over = self.line.end();
        self.shared.watch.note_passed_over(passed_over);
        Read::Ended
    }

    // Reads once from a connection that goes on.
    fn receive(&mut self, buffer: &mut [u8; READ_SIZE]) -> Read
        ensures within { IsWithin result }
        ensures same { self.new.log ≡ self.old.log }
        ensures read { self.new.line.log ≡ self.old.line.log ++ Gave (given result buffer.new) ∷ [] }
        ensures newcomer { self.new.line.next ≡ self.old.line.next }
    {
        let answer = self.line.receive(buffer);
        if let Read::Got { count: _ } = answer {
            self.timer.hear();
        }
        answer
    }

    // Reads once where the venue is open. Where that gives nothing, the connection may end, by the time before the
    // read: so what came while this thread was stalled is read first. Where bytes came a newcomer goes on to wait.
    fn receive_open(&mut self, buffer: &mut [u8; READ_SIZE]) -> Read
        ensures within { IsWithin result }
        ensures same { self.new.log ≡ self.old.log }
        ensures ends { result ≡ Read.Ended → GaveNothing self.old.line.log self.new.line.log }
        ensures gave { result ≢ Read.Ended → self.new.line.log ≡ self.old.line.log ++ Gave (given result buffer.new) ∷ [] }
        ensures newcomer { result ≢ Read.Ended → result ≢ Read.Quiet → is_some self.old.line.next ≡ true → is_some self.new.line.next ≡ true }
    {
        // (The clock is asked only where the system is.)
        if self.line.is_ahead() {
            return self.receive(buffer);
        }
        self.look_at_clock();
        match self.receive(buffer) {
            Read::Quiet => self.after_quiet(),
            Read::Got { count } => {
                self.look_for_newcomer();
                Read::Got { count }
            }
            answer => answer,
        }
    }

    // What a read that gave nothing answers.
    fn after_quiet(&mut self) -> Read
        ensures within { IsWithin result }
        ensures quiet { result ≢ Read.Ended → result ≡ Read.Quiet }
        ensures same { self.new.log ≡ self.old.log }
        ensures unread { self.new.line.log ≡ self.old.line.log }
    {
        match self.own_end() {
            Some(end) => self.end(end),
            None => Read::Quiet,
        }
    }

    // Reads once, unless the venue stops.
    fn receive_served(&mut self, buffer: &mut [u8; READ_SIZE]) -> Read
        ensures within { IsWithin result }
        ensures same { self.new.log ≡ self.old.log }
    {
        if self.shared.stop.is_open() {
            return self.receive_open(buffer);
        }
        if self.shared.stop.is_over() {
            return self.end(LineEnd::Stopped);
        }
        if self.line.give_waiting() {
            self.shared.activity.clear();
            Read::Quiet
        } else {
            Read::Fault
        }
    }
}

impl<T: Clock + Drop> Line for ServedLine<T> {
    ghost said = { λ l. l.log };

    fn accept<R: Wait>(&mut self, _rt: &R) -> Accept
        ensures said { self.new.log ≡ self.old.log ++ Accepted result ∷ [] }
    {
        let answer = self.change();
        // (After a fault the listener is asked again once something comes, or after the longest wait.)
        match answer {
            Accept::Up | Accept::Over => self.shared.activity.note(),
            Accept::Quiet | Accept::Fault => self.shared.activity.clear(),
        }
        self.log.note(LineEvent::Accepted { answer });
        answer
    }

    fn read<R: Wait>(&mut self, _rt: &R, buffer: &mut [u8; READ_SIZE]) -> Read
        ensures within { IsWithin result }
        ensures said { self.new.log ≡ self.old.log ++ Gave (given result buffer.new) ∷ [] }
    {
        let answer = self.receive_served(buffer);
        match answer {
            Read::Ended | Read::Fault => self.shared.activity.note(),
            Read::Got { count: _ } | Read::Quiet => {}
        }
        let given = given_of(answer, buffer);
        self.log.note(LineEvent::Gave { given });
        answer
    }

    fn write<R: Wait>(&mut self, _rt: &R, bytes: &[u8]) -> Result<(), LineFault>
        ensures said { MatchResult result (λ _. self.new.log ≡ self.old.log ++ Took bytes.now ∷ []) (λ _. self.new.log ≡ self.old.log ++ Broke_off bytes.now ∷ []) }
    {
        let past = GhostHistory::of(bytes);
        self.shared.activity.note();
        if self.line.has_taken(bytes) {
            self.shared
                .counts
                .note_waiting(self.line.waiting_len() as u64);
            self.log.note(LineEvent::Took { bytes: past });
            return Ok(());
        }
        self.log.note(LineEvent::BrokeOff { bytes: past });
        Err(LineFault)
    }

    fn faults(&self) -> u64 {
        self.log.faults()
    }

    fn leave(&mut self) {
        let passed_over = self.line.shut();
        self.shared.watch.note_passed_over(passed_over);
    }
}
