//! Why a question is not answered.

use thiserror::Error;

/// The first line of a file that begins as a frame and is none, and what is wrong in it.
#[derive(Clone, Copy, Debug, PartialEq, Eq)]
pub enum BrokenLine {
    /// BodyLength (9).
    Length(u64),
    /// CheckSum (10).
    Checksum(u64),
}

/// What is found in a file that has no frame from the venue to the desk.
#[derive(Clone, Copy, Debug, PartialEq, Eq)]
pub struct NoLog {
    /// How many frames there are, from and to others.
    pub frames: u64,
    pub broken: Option<BrokenLine>,
}

/// What a question names and the day has not, or a word of the wrong form.
#[derive(Clone, Copy, Debug, PartialEq, Eq, Error)]
pub enum Unknown {
    /// A trade.
    #[error("trade")]
    Trade,
    /// The participant to whom a message is owed, or whose orders rest.
    #[error("participant")]
    Recipient,
    /// The participant who sent a message.
    #[error("participant")]
    Sender,
    /// An instrument.
    #[error("instrument")]
    Instrument,
    /// A row, or the first and the last of some.
    #[error("row")]
    Row,
    /// An order that an answer reports on.
    #[error("order")]
    Order,
    /// A room in which a request was sent.
    #[error("room")]
    Room,
    /// A desk's log of messages.
    #[error("log")]
    Log(NoLog),
}

/// Why the answer was not printed.
#[derive(Clone, Copy, Debug, PartialEq, Eq)]
pub enum AskedFault {
    /// An allocation failed.
    Memory,
    /// A write failed.
    Output,
    /// What the question names is not there.
    Unknown(Unknown),
    /// The answer was printed: what was compared differs.
    Differs,
}
