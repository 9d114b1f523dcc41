//! The trades of a day as a table for a spreadsheet, each with how it was made: moment, row, orders, quote, aggressor
//! and cross, read off the replies to the rows of a trail.
#![tactic(auto)]

mod execution;
mod executions;
mod fields;
mod laws;
mod printing;
mod sources;

pub use laws::each_trade_has_its_execution;
pub use printing::print_trade_table;
