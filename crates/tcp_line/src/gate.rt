//! A session's gate: the place where its turns wait, and which sends the session's events.
ghost use Rattle.std.specs.Prelude.{◌≡◌, []};

use crate::dirty_flag::DirtyFlag;
use crate::events::{EventKind, EventSender};
use crate::line_watch::{LineEnd, LineWatch};
use crate::notices::{Known, event_of, is_logged_on_after};
use crate::passed::Passed;
use crate::stop::Stop;
use crate::waker::{IdleWait, Peers, ThreadWaker};
use gateway::line::Gate;
use gateway::notice::Notice;
use sef_moment::Moment;
use std::mem;
use std::sync::{Arc, Wait};

/// The greatest count of turns in a row that leave the line unread while the worker answers, so that one system call
/// takes all their replies.
const MAX_DEFERRED: u64 = 32;

/// The greatest count of turns in a row that read from memory while the worker answers, each for the next message to be
/// ready in the turn of the last answer; then the messages that are ready are handed first.
const MAX_AHEAD: u64 = 16;

/// What the last turn moved at the seats.
#[derive(Clone, Copy)]
enum Moved {
    Nothing,
    /// It collected a reply, and handed nothing.
    Collected,
    /// It handed a message.
    Handed,
}

/// What the next turn does with the line.
#[derive(Clone, Copy)]
enum Plan {
    /// It is left unread.
    Defer,
    /// It is read at once.
    Read,
    /// It is read once there is something to do.
    Wait,
}

/// What a gate shares with its line and its venue.
pub struct GateShare {
    /// The worker's waker.
    pub worker: Arc<ThreadWaker>,
    pub peers: Peers,
    pub line: Arc<DirtyFlag>,
    pub watch: Arc<LineWatch>,
    pub stop: Arc<Stop>,
}

// Written-out drop (docs/ARCHITECTURE.md).
impl Drop for GateShare {
    fn drop(self) {
        let GateShare {
            worker: _worker,
            peers: _peers,
            line: _line,
            watch: _watch,
            stop: _stop,
        } = self;
    }
}

/// A gate that waits until the line, its listener or the worker has something, so that no turn is spent on waiting.
/// Sends the events of its session, and waits for nobody to receive them.
pub struct TcpGate {
    sleeper: IdleWait,
    share: GateShare,
    events: EventSender,
    was_cut: bool,
    turns: u64,
    moved: Moved,
    deferred: u64,
    ahead: u64,
    past: Passed,
}

// Written-out drop (docs/ARCHITECTURE.md).
impl Drop for TcpGate {
    fn drop(self) {
        let TcpGate {
            sleeper: _sleeper,
            share: _share,
            events: _events,
            was_cut: _was_cut,
            turns: _turns,
            moved: _moved,
            deferred: _deferred,
            ahead: _ahead,
            past: _past,
        } = self;
    }
}

impl TcpGate {
    /// The gate of a session.
    pub fn new(sleeper: IdleWait, share: GateShare, events: EventSender) -> TcpGate
        ensures { ⟦<TcpGate as Gate>⟧.passed result ≡ [] }
    {
        TcpGate {
            sleeper,
            share,
            events,
            was_cut: false,
            turns: 0,
            moved: Moved::Nothing,
            deferred: 0,
            ahead: 0,
            past: Passed::new(),
        }
    }

    // Leaves the line unread, unless that was so for too long.
    fn defer(&mut self) -> Plan
        ensures { self.new.past ≡ self.old.past }
    {
        if self.deferred >= MAX_DEFERRED {
            self.begin_anew();
            return Plan::Read;
        }
        self.deferred = self.deferred.saturating_add(1);
        Plan::Defer
    }

    fn begin_anew(&mut self)
        ensures { self.new.past ≡ self.old.past }
    {
        self.deferred = 0;
        self.ahead = 0;
    }

    // The turn after one that took a reply: where the next reply is there at once, it is taken first.
    fn plan_after_reply(&mut self) -> Plan
        ensures { self.new.past ≡ self.old.past }
    {
        if self.share.line.is_ahead() || !self.sleeper.is_answered() {
            return Plan::Wait;
        }
        self.defer()
    }

    // Whether the message that was handed is answered. In a crowd the thread waits for that, and asks the line again
    // before it waits for its sockets, since they may have become ready.
    fn is_answered<R: Wait>(&mut self, rt: &R) -> bool
        ensures { self.new.past ≡ self.old.past }
    {
        if !self.sleeper.is_crowded() {
            return self.sleeper.is_answered();
        }
        self.sleeper.await_answer(rt, &self.share.peers);
        self.share.line.note();
        true
    }

    // The turn after one that handed a message. With its answer it reads from memory at first, and asks the system only
    // where one call read no more than one read gives; without one there is nothing to do where all is read.
    fn plan_after_message<R: Wait>(&mut self, rt: &R) -> Plan
        ensures { self.new.past ≡ self.old.past }
    {
        if !self.is_answered(rt) {
            if self.share.line.is_drained() {
                self.share.line.clear();
            }
            return Plan::Wait;
        }
        let is_ahead = self.share.line.is_ahead();
        if is_ahead && self.ahead < MAX_AHEAD {
            self.ahead = self.ahead.saturating_add(1);
            return Plan::Read;
        }
        if is_ahead || self.share.line.is_batch() {
            return self.defer();
        }
        Plan::Read
    }

    fn plan<R: Wait>(&mut self, rt: &R) -> Plan
        ensures { self.new.past ≡ self.old.past }
    {
        match mem::replace(&mut self.moved, Moved::Nothing) {
            Moved::Nothing => Plan::Wait,
            Moved::Collected => self.plan_after_reply(),
            Moved::Handed => self.plan_after_message(rt),
        }
    }

    // Waits until there is something to do. A venue that is over waits no more: a session that may not read, since many
    // messages are ready that nobody takes, makes the rest of its turns.
    fn wait(&mut self)
        ensures { self.new.past ≡ self.old.past }
    {
        self.begin_anew();
        if self.sleeper.was_woken() || self.share.line.take() || self.share.stop.is_over() {
            return;
        }
        self.events.set_turns(self.turns);
        self.sleeper.wait_at_sockets();
    }

    // Whether the next turn may read; waits where there is nothing to do.
    fn is_to_read<R: Wait>(&mut self, rt: &R) -> bool
        ensures { self.new.past ≡ self.old.past }
    {
        match self.plan(rt) {
            Plan::Defer => false,
            Plan::Read => true,
            Plan::Wait => {
                self.wait();
                true
            }
        }
    }

    // Sends the event of another connection that the line closed.
    fn send_second(&mut self)
        ensures { self.new.past ≡ self.old.past }
    {
        if let Some(at_ms) = self.share.watch.take_second() {
            self.events.send(at_ms, EventKind::SecondClosed);
        }
    }

    // Sends the event of bytes that the line passed over.
    fn send_passed_over(&mut self, at_ms: u64)
        ensures { self.new.past ≡ self.old.past }
    {
        let bytes = self.share.watch.take_passed_over();
        if bytes > 0 {
            self.events.send(at_ms, EventKind::PassedOver { bytes });
        }
    }

    // Records whether the session is logged on after a notice.
    fn note_logged_on(&mut self, notice: &Notice)
        ensures { self.new.past ≡ self.old.past }
    {
        let was = self.events.is_logged_on();
        let is_logged_on = is_logged_on_after(was, notice);
        if is_logged_on == was {
            return;
        }
        self.events.set_logged_on(is_logged_on);
    }

    // Records the next numbers, where one moved.
    fn note_numbers(&mut self, incoming: u32, outgoing: u32)
        ensures { self.new.past ≡ self.old.past }
    {
        self.events
            .set_numbers(u64::from(incoming), u64::from(outgoing));
    }

    // Records what a notice means for the line and the counts. False where nothing else is to be reported of it.
    fn record(&mut self, notice: &Notice) -> bool
        ensures { self.new.past ≡ self.old.past }
    {
        match notice {
            Notice::Taken => {
                self.moved = Moved::Handed;
                self.events.add_taken();
                false
            }
            Notice::Sent => {
                self.events.add_sent();
                false
            }
            Notice::Progress {
                expected,
                outstanding,
            } => {
                self.share
                    .watch
                    .note_progress(u64::from(*expected), *outstanding);
                false
            }
            Notice::Numbers { incoming, outgoing } => {
                self.note_numbers(*incoming, *outgoing);
                false
            }
            Notice::Connected => {
                self.events.add_connection();
                true
            }
            Notice::LoggedOn { heartbeat, .. } => {
                self.share.watch.log_on(u64::from(*heartbeat));
                true
            }
            Notice::Cut => {
                self.was_cut = true;
                true
            }
            Notice::Ended {
                incoming,
                outgoing,
                ..
            } => {
                self.note_numbers(*incoming, *outgoing);
                self.events.set_turns(self.turns);
                self.sleeper.end();
                true
            }
            _ => true,
        }
    }

    // What is known besides a notice.
    fn known(&self, notice: &Notice) -> Known {
        let end = match notice {
            Notice::LineEnded => self.share.watch.take_end(),
            _ => LineEnd::Peer,
        };
        Known {
            end,
            expected: self.share.watch.expected(),
            is_spent: !self.was_cut && !self.share.stop.is_over(),
        }
    }
}

impl Gate for TcpGate {
    ghost use Rattle.tcp_line.specs.Passed.{answers};

    ghost passed = { λ g. answers g.past };

    fn pass<R: Wait>(&mut self, rt: &R, _turn: u64) -> bool {
        self.turns = self.turns.saturating_add(1);
        self.send_second();
        let passed = self.is_to_read(rt);
        self.past.add(passed);
        passed
    }

    fn progressed(&mut self) {
        self.moved = Moved::Collected;
        self.sleeper.wake(&self.share.worker);
    }

    fn notify(&mut self, notice: Notice, moment: Moment) {
        if !self.record(&notice) {
            return;
        }
        self.note_logged_on(&notice);
        let at_ms = moment.ms();
        let known = self.known(&notice);
        if let Some(kind) = event_of(&notice, &known) {
            self.events.send(at_ms, kind);
        }
        self.send_passed_over(at_ms);
    }
}
