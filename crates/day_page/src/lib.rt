//! The day of a trail as one page of HTML.
#![tactic(auto)]

mod folds;
mod head;
mod printing;
mod rows;
mod style;
mod template;

pub use printing::print_page;
