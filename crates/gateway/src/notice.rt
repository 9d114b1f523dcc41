//! What a session's thread reports of its turns.

ghost use Rattle.std.specs.Prelude.{◌≡◌};
ghost use Rattle.gateway.specs.Notices as notices;

use fix_session::{Fault, Session, SessionState, Why};

/// One fact about a session: an answer of its line, its reply seat, its intake seat or its state machine in a turn.
#[derive(Clone, Copy)]
pub enum Notice {
    /// A new connection.
    Connected,
    /// The Logon of this connection was accepted. The numbers are the next ones of both sides, `heartbeat` is in
    /// seconds.
    LoggedOn {
        incoming: u32,
        outgoing: u32,
        heartbeat: u32,
        era: u32,
    },
    /// The state machine dropped the line: before a Logon, a refusal. `fault` is that of a Logon that could not be
    /// read.
    Dropped {
        why: Why,
        was_logged_on: bool,
        fault: Option<Fault>,
    },
    /// A ResendRequest that is not yet satisfied was sent; `from` is the number expected.
    GapRequested {
        from: u32,
    },
    /// A line ends itself, since its ResendRequest was not satisfied in time. No session's thread reports this one.
    GapOverdue {
        expected: u32,
    },
    /// The number expected moved while a ResendRequest is outstanding, or a ResendRequest was sent or satisfied. A new
    /// connection has none outstanding.
    Progress {
        expected: u32,
        outstanding: bool,
    },
    /// The next numbers of both sides, after the steps of the turn.
    Numbers {
        incoming: u32,
        outgoing: u32,
    },
    /// The counterparty closed the connection.
    LineEnded,
    /// The line failed.
    LineFault,
    /// The session was cut off from its replies: a slow consumer, or the venue shuts down.
    Cut,
    /// A new era began.
    EraBegun {
        era: u32,
    },
    /// The venue took an inbound message into the intake seat.
    Taken,
    /// An outbound message was numbered.
    Sent,
    /// The turns are over, with these next numbers.
    Ended {
        incoming: u32,
        outgoing: u32,
        era: u32,
    },
}

/// The parts of a session's state that notices report.
#[derive(Clone, Copy)]
pub struct SessionReport {
    pub line: SessionState,
    /// The number of the next outbound message.
    pub outgoing: u32,
    pub era: u32,
}

impl SessionReport {
    pub(crate) fn of(session: &Session) -> SessionReport
        ensures { result ≡ notices.report_of session.now.state }
    {
        SessionReport {
            line: session.line_state(),
            outgoing: session.next_outgoing(),
            era: session.era(),
        }
    }
}
