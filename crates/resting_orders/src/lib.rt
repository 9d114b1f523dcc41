//! The book of an instrument after the rows of a trail: every order that rests, with its owner.
#![tactic(auto)]

mod asking;
mod book;
mod fault;
mod form;
mod holding;
mod laws;
mod live;
mod noted;
mod noting;
mod quoting;
mod replaying;
mod rested;
mod rests;
mod rests_text;

pub use book::print_book;
pub use fault::BookFault;
pub use form::Form;
pub use laws::{kept_orders_agree, kept_quotes_agree, kept_requests_agree, kept_sides_agree};
pub use rests::print_rests;
