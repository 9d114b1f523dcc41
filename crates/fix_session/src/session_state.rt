//! The state of a session with its counterparty, and its timers.

ghost use Rattle.std.specs.Prelude.{◌≡◌, ◌+◌, nat_le};
ghost use Rattle.fix_session.specs.State as state;
ghost use Rattle.fix_session.specs.Ticks as ticks;
ghost use Rattle.fix_session.specs.Machine as machine;

use crate::plan::{Plan, Step};
use fix_dictionary::{HeartbeatInterval, NewSequenceNumber, SequenceNumber};
use sef_moment::Moment;

/// The state of a session with its counterparty.
#[derive(Clone, Copy)]
pub struct SessionState {
    pub up: bool,
    /// The Logon of this connection was heard.
    pub logged_on: bool,
    /// The moment of the last call.
    pub moment: Moment,
    /// The next expected sequence number.
    pub next_incoming: NewSequenceNumber,
    /// The heartbeat interval of the Logon (108).
    pub heartbeat: HeartbeatInterval,
    /// The number of the frame that raised the last ResendRequest, which is outstanding while the expected number is
    /// not above it.
    pub outstanding_request: Option<SequenceNumber>,
    pub last_received_at: Moment,
    pub last_sent_at: Moment,
    /// When the TestRequest that is not answered yet was sent.
    pub test_request_sent_at: Option<Moment>,
    /// An earlier process may have numbered messages of this session. No call changes it.
    pub restarted: bool,
}

/// What a tick has to do.
#[derive(Clone, Copy)]
pub enum TimerAction {
    Nothing,
    Heartbeat,
    TestRequest,
    Silent,
}

// Whether `wait` milliseconds have passed.
fn has_passed(since: Moment, wait: u64, t: Moment) -> bool
    ensures { result ≡ nat_le (since + wait) t }
{
    wait <= t.ms() && since.ms() <= t.ms() - wait
}

// The heartbeat interval and one fifth more, rounded up, in milliseconds.
fn test_request_timeout(heartbeat: HeartbeatInterval) -> u64
    ensures { result ≡ ticks.test_request_timeout heartbeat }
{
    let seconds = u64::from(heartbeat.get());
    1000 * (seconds + (seconds + 4) / 5)
}

fn stays_up(answer: Step) -> bool
    ensures { result ≡ machine.stays_up answer }
{
    !matches!(answer, Step::Dropped(_))
}

impl SessionState {
    // The state of a session that was never connected, at least not to this process.
    pub(crate) fn new(restarted: bool) -> SessionState
        ensures { result ≡ state.new_line restarted }
    {
        let start = Moment::EPOCH;
        SessionState {
            up: false,
            logged_on: false,
            moment: start,
            next_incoming: NewSequenceNumber::new(1),
            heartbeat: HeartbeatInterval::new(0),
            outstanding_request: None,
            last_received_at: start,
            last_sent_at: start,
            test_request_sent_at: None,
            restarted,
        }
    }

    // A line that is up, with nothing heard on it yet.
    pub(crate) fn raised(&self, t: Moment) -> SessionState
        ensures { result ≡ state.line_up self.now t }
    {
        SessionState {
            up: true,
            logged_on: false,
            moment: t,
            next_incoming: self.next_incoming,
            heartbeat: HeartbeatInterval::new(0),
            outstanding_request: None,
            last_received_at: t,
            last_sent_at: t,
            test_request_sent_at: None,
            restarted: self.restarted,
        }
    }

    // A line that is down, with no request outstanding.
    pub(crate) fn broken(&self) -> SessionState
        ensures { result ≡ state.line_down self.now }
    {
        SessionState {
            up: false,
            logged_on: false,
            outstanding_request: None,
            test_request_sent_at: None,
            ..*self
        }
    }

    fn heartbeat_check(&self, t: Moment) -> TimerAction
        ensures { result ≡ ticks.heartbeat_check self.now t }
    {
        if has_passed(self.last_sent_at, 1000 * u64::from(self.heartbeat.get()), t) {
            TimerAction::Heartbeat
        } else {
            TimerAction::Nothing
        }
    }

    // What a tick at this moment has to do.
    pub(crate) fn timer_action(&self, t: Moment) -> TimerAction
        ensures { result ≡ ticks.timer_action self.now t }
    {
        if !self.logged_on || self.heartbeat.get() == 0 {
            return TimerAction::Nothing;
        }
        let wait = test_request_timeout(self.heartbeat);
        match self.test_request_sent_at {
            Some(since) => {
                if has_passed(since, wait, t) {
                    TimerAction::Silent
                } else {
                    self.heartbeat_check(t)
                }
            }
            None => {
                if has_passed(self.last_received_at, wait, t) {
                    TimerAction::TestRequest
                } else {
                    self.heartbeat_check(t)
                }
            }
        }
    }

    // The state after a plan at this moment, by what was written.
    pub(crate) fn after(&self, t: Moment, plan: &Plan, written: &[u8]) -> SessionState
        ensures { result ≡ machine.line_after self.now t plan.now written.now }
    {
        let up = stays_up(plan.answer);
        SessionState {
            up,
            logged_on: up && plan.logged_on,
            moment: t,
            next_incoming: plan.next_incoming,
            heartbeat: plan.heartbeat,
            outstanding_request: plan.outstanding_request,
            last_received_at: t,
            last_sent_at: if written.is_empty() {
                self.last_sent_at
            } else {
                t
            },
            test_request_sent_at: None,
            restarted: self.restarted,
        }
    }
}
