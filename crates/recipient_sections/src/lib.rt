//! Whom a request for quotes asked, on the page of a day: all of them, three who are unrelated, and who are related.
#![tactic(auto)]

mod asked;
mod template;
mod three;

pub use asked::{add_names, add_recipients};
