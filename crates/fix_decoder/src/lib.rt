//! The fields of a body, read as a message.
#![tactic(auto)]

// parts
mod cross_parts;
mod field_values;
mod group_parts;
mod parts;
mod quote_parts;

// reading
mod reading;

// laws
mod laws;

pub use laws::{printed_is_read, printed_is_short, spelled_or_faulty};
pub use reading::{read_app, read_body, read_message};
