//! The venue's answers on a day, from the rows of its trail: each message and each reply to it.
#![tactic(auto)]

mod emitting;
mod entry;
mod fault;
mod laws;
mod life;
mod objects;
mod printing;
mod scope;
mod sought;
mod table;
mod talk;

pub use fault::AnswersFault;
pub use laws::{messages_are_owed, orders_are_whole};
pub use message_words::Form;
pub use printing::print_answers;
pub use scope::{RowSpan, Scope};
