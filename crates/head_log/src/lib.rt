//! The heads of a trail: its digest after a row, computed as the rows are recorded, and the file with a line of each.
#![tactic(auto)]

mod head;
mod head_clock;
mod head_file;
mod head_keeper;
mod keep;
mod line;
mod newest;
mod report;
mod running;

pub use head::Head;
pub use head_clock::HeadClock;
pub use head_keeper::HeadKeeper;
pub use newest::Newest;
pub use report::{HeadReport, Trouble};
