//! Laws of what the page of a day says of quotes.
#![tactic(auto)]

mod laws;

pub use laws::{every_quote_is_listed, quotes_end_by_the_rules, quotes_live_by_the_rules};
