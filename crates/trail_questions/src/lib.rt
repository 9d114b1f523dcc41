//! Questions about a day, and their answers from the rows of its trail.
#![tactic(auto)]

mod activity;
mod against;
mod answers;
mod book;
mod digest;
mod evidence;
mod fault;
mod headed;
mod numbers;
mod page;
mod question;
mod rests;
mod trades;
mod watch;
mod why;
mod words;

pub use answers::Narrowing;
pub use book::BookAfter;
pub use fault::{AskedFault, BrokenLine, NoLog, Unknown};
pub use numbers::{order_number, plain_number, room_number, span_in, trade_number};
pub use participant_activity::Form as ActivityForm;
pub use question::{Question, print_question};
pub use resting_orders::Form as BookForm;
pub use rests::RestsAfter;
pub use surveillance::{Form as WatchForm, Thresholds, ThresholdsFault, thresholds_in};
pub use words::{AskedWords, BookWords, NarrowingWords, RestsWords, question_of};
