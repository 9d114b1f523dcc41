//! The venue: its answer to each input, and its state afterwards (17 CFR 37.3(a)(3), 37.9(a)(2), (b)(1)).
#![tactic(auto)]

mod laws;
mod market;
mod messages;
mod plan;
mod quotes;
mod replay;
mod ticks;
mod unanswered;
mod venue;
mod venue_state;

pub use laws::{day_goes_on, every_day_is_lawful, rows_emit_their_inputs};
pub use plan::Plan;
pub use replay::taken_of;
pub use report_writer::message_of;
pub use venue::Venue;
