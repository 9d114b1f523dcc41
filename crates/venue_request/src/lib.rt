//! What a handler is given of an input: the turn, and of a message the message taken.
#![tactic(auto)]

mod counts;
mod request;
mod turn;
mod unprocessed;

pub use counts::Counts;
pub use request::Request;
pub use turn::Turn;
pub use unprocessed::business_reject;
