//! What is listed of a log, one thing after another.

use fix_session::Step;
use participants::Who;
use sef_moment::Moment;

/// Where something comes from.
#[derive(Clone, Copy)]
pub enum Source {
    /// A frame of a participant, which its session hears.
    Participant,
    /// One that is not in the log, and brings a session to the number of its first frame.
    Assumed,
    /// A frame that the venue sent, as the log has it.
    Venue,
    /// What begins as a frame and is none.
    Broken,
}

/// A frame, or what begins as one.
#[derive(Drop)]
pub struct LogItem {
    pub source: Source,
    /// Its number among those of the log, from 1.
    pub number: u64,
    /// Its first byte in the log, from 1.
    pub place: u64,
    /// Whose session hears it.
    pub who: Who,
    pub moment: Moment,
    /// Whether a new connection begins with it.
    pub connects: bool,
    pub text: Vec<u8>,
    /// The body, of a frame.
    pub body: Vec<u8>,
}

/// The bytes that a participant is sent.
#[derive(Drop)]
pub struct Sent {
    pub to: Who,
    pub bytes: Vec<u8>,
}

/// What is listed, what its session answers, if it hears it, and what each participant is sent.
#[derive(Drop)]
pub struct Heard {
    pub item: LogItem,
    pub step: Option<Step>,
    pub sent: Vec<Sent>,
}
