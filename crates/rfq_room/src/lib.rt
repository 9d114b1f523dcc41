//! Rooms of a venue: requests for quotes, the quotes in them, and the decision on each request, quote, withdrawal and
//! quote response (17 CFR 37.9(a)(2), (a)(3)).
//!
//! It keeps the rooms, their quotes and the used identifiers. Contracts see the facts of the day, and the definitions
//! of `venue_rules` read off them.
#![tactic(auto)]

mod answering;
mod asking;
mod decision;
mod facts;
mod flags;
mod last_quotes;
mod laws;
mod live;
mod numbered;
mod opened;
mod plan;
mod quoting;
mod recipients;
mod refusal;
mod room_index;
mod room_store;
mod rooms;
mod withdrawing;

pub use decision::Hit;
pub use laws::{rooms_are_read_alone, rooms_decide};
pub use plan::RoomPlan;
pub use refusal::{Cause, Refusal, ResponseCause, WithdrawalRefusal};
pub use rooms::Rooms;
