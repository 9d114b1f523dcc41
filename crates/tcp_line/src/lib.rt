//! A session's line over TCP, with gates and clocks that wait on wakers, stop a venue, and send its events.
#![tactic(auto)]

mod clocks;
mod closing_timer;
mod connection;
mod dirty_flag;
mod draining;
mod events;
mod gate;
mod giving;
mod line;
mod line_log;
mod line_timer;
mod line_watch;
mod notices;
mod opening;
mod passed;
mod served_line;
mod session_wakers;
mod stop;
mod waiting_replies;
mod waker;

pub use clocks::{SystemClock, VenueShare, WorkerClock};
pub use connection::Connection;
pub use dirty_flag::DirtyFlag;
pub use events::{
    Cause, ClockStep, Counts, Event, EventKind, EventReceiver, EventSender, event_ring,
};
pub use gate::{GateShare, TcpGate};
pub use line::TcpLine;
pub use line_log::LineLog;
pub use line_watch::{LineEnd, LineWatch};
pub use opening::{SessionIo, VenueIo, open_lines};
pub use served_line::{ServedLine, Shared};
pub use session_wakers::SessionWakers;
pub use stop::{NoStop, Stop, StopSource};
pub use waiting_replies::WaitingReplies;
pub use waker::{AwakeThreads, IdleWait, Peers, ThreadWaker};
