//! The requests for quotes on the page of a day: of each whom it asked, what was shown, its quotes and its trade.
#![tactic(auto)]

mod day;
mod fate;
mod filed;
mod keys;
mod lives;
mod picks;
mod prices;
mod refused;
mod requests;
mod section;
mod shown;
mod template;

pub use day::{Day, Form};
pub use fate::{Fate, Quoted};
pub use filed::Bucket;
pub use keys::By;
pub use lives::Axis;
pub use picks::Pick;
pub use section::add_requests;
