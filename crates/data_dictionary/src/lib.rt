//! The venue's messages as QuickFIX's data dictionaries.
#![tactic(auto)]

mod dictionaries;
mod faults;
mod fields;
mod laws;
mod lines;
mod message_types;

pub use dictionaries::{Dictionary, write_dictionary};
pub use faults::WriteFault;
pub use fields::name_of;
pub use laws::{
    each_row_is_said, each_table_is_stated, names_state_fields, types_are_apart, values_are_read,
};
pub use message_types::{Listed, application_types, session_types};
