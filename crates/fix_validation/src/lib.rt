//! The tables of the message types: the positions of a body's fields in them, and the first fault that they show.
#![tactic(auto)]

// tables
mod positions;
mod table;

// faults
mod by_tag;
mod faults;
mod forms;
mod group_faults;

pub use faults::{DictFault, first_fault};
pub use group_faults::located_fault;
pub use positions::{
    FieldPosition, LocatedField, LocatedFields, Part, PartNumbers, begins, first_begin, located,
    part, second_begin,
};
pub use table::{Form, Row, header, is_grouped, is_session, resend_request_rows, rows_of, type_of};
