//! A board of seats between session threads and one worker. A seat is a single-slot mailbox: the hander puts a message
//! there, and the taker takes it. No call waits.
#![tactic(auto)]

mod atomic_steps;
mod board;
mod close;
mod hander;
pub mod laws;
mod taker;
mod views;

pub use board::{Board, MAX_SEATS};
pub use close::Unclosed;
pub use hander::HandSeat;
pub use taker::TakeSeat;
