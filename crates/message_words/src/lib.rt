//! A message in words, the lines of a trail's row, and the forms in which what a trail answers is printed.
#![tactic(auto)]

mod cells;
mod form;
mod json;
mod kinds;
mod names;
mod orders;
mod parts;
mod prices;
mod rooms;
mod row_lines;
mod visible;
mod words;

pub use cells::{push_moment, push_number, row_bytes};
pub use form::Form;
pub use json::{JsonMember, JsonValue, append_json_text, append_object};
pub use kinds::kind_of;
pub use parts::{
    Part, Value, amount_value, append_parts, bytes, identifier_value, moment_value, number,
    number_value, price_value, quantity_value, small_number, text_value,
};
pub use row_lines::{
    append_came_lines, append_clock_line, append_reply_lines, clock_words, sender_name,
};
pub use visible::{fix_text, message_text, readable_text};
pub use words::{append_words, came_words_of, words_of};
