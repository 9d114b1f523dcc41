//! Inputs taken and replies owed: the row of an input, the message of a reply, and a participant's queue with its
//! sentinel.
#![tactic(auto)]

mod messages;
mod outgoing;
mod queue;
mod rows;

pub use messages::boxed_message;
pub use outgoing::Outgoing;
pub use queue::{MAX_QUEUED, Queue};
pub use rows::{message_row, tick_row};
