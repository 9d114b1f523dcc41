//! Whole answers to requests for quotes, quotes, withdrawals and quote responses: facts for the rooms, and replies (17
//! CFR 37.9(a)(2), (a)(3)).
#![tactic(auto)]

mod answer;
mod business_reject;
mod listing;
mod quotes;
mod refusals;
mod requests;
mod responses;
mod withdrawals;

pub use answer::RoomAnswer;
pub use quotes::plan_quote;
pub use requests::plan_request;
pub use responses::plan_response;
pub use withdrawals::plan_withdrawal;
