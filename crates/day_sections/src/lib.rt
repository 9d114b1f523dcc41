//! Sections of the page of a day that say what its answers say: its six figures, trades, refusals and
//! participants.
#![tactic(auto)]

mod counts;
mod figures;
mod flags;
mod folds;
mod laws;
mod numbers;
mod people;
mod picks;
mod refusals;
mod reports;
mod rooms;
mod template;
mod trades;
mod values;

pub use counts::{Kind, is_quoted};
pub use figures::add_figures;
pub use flags::{Flag, flags_of};
pub use folds::{
    Fold, MOST_FOLDED, add_fold_end, add_fold_head, folds_200, folds_of, hour_of, of_200, up_to,
    within,
};
pub use laws::{every_trade_is_found, folds_leave_nothing_out};
pub use numbers::Numbers;
pub use people::{Counted, add_people};
pub use picks::Pick;
pub use refusals::add_refusals;
pub use reports::{report_of, reports_of};
pub use rooms::{keep, many, rooms_of};
pub use trades::{Reported, add_trades};
pub use values::{
    add_row_number, are_shown, id_text, is_dated, is_listed, last_moment, sender_at, text_or_empty,
};
