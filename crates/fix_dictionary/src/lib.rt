//! The messages of the venue: their values, their structs, and their printed text.
#![tactic(auto)]

mod copy;
mod kinds;
mod lists;
mod messages;
mod msg_type;
mod values;

pub use kinds::MessageType;
pub use lists::{EntryTypes, MarketDataEntries, Parties};
pub use messages::{
    Admin, App, Body, BodyRef, BoxedApp, BusinessMessageReject, CrossSide, ExecutionReport, Header,
    HeaderRef, Heartbeat, Item, Logon, Logout, MarketDataEntry, MarketDataRequest,
    MarketDataRequestReject, MarketDataSnapshot, Message, NewOrderCross, NewOrderSingle,
    OrderCancelReject, OrderCancelReplaceRequest, OrderCancelRequest, Party, Quote, QuoteCancel,
    QuoteRequest, QuoteRequestReject, QuoteResponse, QuoteStatusReport, Reject, ResendRequest,
    SequenceReset, TestRequest,
};
pub use values::{
    Amount, FixChar, FixInt, HeartbeatInterval, Identifier, NewSequenceNumber, OtherKind, Price,
    Quantity, SequenceNumber, Side, Text, is_identifier,
};
