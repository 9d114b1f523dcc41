//! The common parts of a venue's files: names, and the values of a TOML document at its keys.
#![tactic(auto)]

mod document;
mod name;

pub use document::{
    entries, is_absent, is_no_list, is_no_name, is_without_entry, list_lacks, text_at,
};
pub use name::Name;
