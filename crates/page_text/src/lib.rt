//! The text of a page of HTML: parts of a template with places, and values that are escaped in them.
#![tactic(auto)]

mod escape;
mod fill;
mod laws;
mod page;
mod spot;

pub use laws::{parts_follow_parts, values_are_read_back, values_leave_tags_alone, worked_page};
pub use page::Page;
pub use spot::{Reading, Spot};
