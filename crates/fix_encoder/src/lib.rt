//! Printing of messages.
#![tactic(auto)]

mod cross_print;
mod group_print;
mod print;
mod quote_print;

pub use print::{print_app, print_message, print_parts};
