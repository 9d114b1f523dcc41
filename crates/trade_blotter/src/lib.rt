//! The lines of a day's trades, each with what happened in its room, as evidence of lawful execution.
#![tactic(auto)]

mod form;
mod laws;
mod line;
mod printing;
mod table;

pub use laws::each_room_trade_is_emitted_with_its_room;
pub use line::{append, append_deal, append_number, append_price, name_at, room_of};
pub use printing::{PrintFault, print_table, print_trades};
pub use table::{push_number, row_bytes, trade_fields};
