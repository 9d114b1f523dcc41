//! The axes of a chart of prices over a day: where a moment and a price are, and the labels.
#![tactic(auto)]

mod range;
mod scale;
mod template;
mod ticks;

pub use range::{Range, covered, distance};
pub use scale::{Scale, across, down, has_dates, height_text, part_of, wide_number};
pub use ticks::{add_prices, add_times};
