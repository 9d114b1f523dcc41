//! The daily bulletin of a day, and the values of the places of its page.
#![tactic(auto)]

mod bulletin;
mod laws;
mod template;
mod values;

pub use bulletin::{Place, Span, add_bulletin, number, quantity};
pub use laws::volumes_add_up;
pub use values::{
    are_dated, clock_text, date_in, date_of, grouped_text, moment_of, name_at, number_text,
    price_bytes, symbol_at, tick_at, tick_by, ticked_price, time_in, wide_text,
};
