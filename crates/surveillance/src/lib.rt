//! Surveillance of a day: alarms, each raised if and only if its predicate holds of the run.
#![tactic(auto)]

mod again;
mod alarm;
mod alarms;
mod cancels;
mod deeds;
mod findings;
mod form;
mod index;
mod numbered;
mod own_name;
mod pairs;
mod people;
mod prices;
mod printing;
mod shown;
mod texts;
mod thresholds;
mod trades;

pub use alarm::{Alarm, Figure, Kind, Others, Place};
pub use alarms::Watched;
pub use deeds::{Act, Deed, book_trades, deeds_of, orders_times, times};
pub use findings::{Findings, findings_of};
pub use form::Form;
pub use pairs::LinkedTrade;
pub use printing::print_watch;
pub use texts::alarm_words;
pub use thresholds::{Bound, Thresholds, ThresholdsFault, thresholds_in, usual_bounds};
