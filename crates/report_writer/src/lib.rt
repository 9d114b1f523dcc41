//! The FIX message of each reply (FIX 5.0 SP2).
#![tactic(auto)]

mod business_reject;
mod changes;
mod identifiers;
mod message;
mod orders;
mod prices;
mod quotes;
mod reason;
mod reasons;
mod requests;
mod status;

pub use message::message_of;
