//! Laws of every list of inputs that an examiner asks for, next to those of `venue_rules`: who is asked, whose quotes
//! are taken, who sees the book, and who may trade in it.
#![tactic(auto)]

mod laws;

pub use laws::{
    every_book_trade_is_between_its_owners, every_duplicate_names_what_rests,
    every_input_changes_one_book, every_recipient_may_answer, every_request_goes_to_three,
    every_trade_is_reported_twice, everybody_may_trade, everybody_sees_the_book,
    nobody_is_preferred,
};
