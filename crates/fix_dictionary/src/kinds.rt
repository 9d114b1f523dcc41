//! The types of messages.

/// The type of a message.
#[derive(Clone, Copy)]
pub enum MessageType {
    /// `0`
    Heartbeat,
    /// `1`
    TestRequest,
    /// `2`
    ResendRequest,
    /// `3`
    Reject,
    /// `4`
    SequenceReset,
    /// `5`
    Logout,
    /// `A`
    Logon,
    /// `R`
    QuoteRequest,
    /// `S`
    Quote,
    /// `AG`
    QuoteRequestReject,
    /// `Z`
    QuoteCancel,
    /// `AJ`
    QuoteResponse,
    /// `AI`
    QuoteStatusReport,
    /// `D`
    NewOrderSingle,
    /// `F`
    OrderCancelRequest,
    /// `G`
    OrderCancelReplaceRequest,
    /// `s`
    NewOrderCross,
    /// `8`
    ExecutionReport,
    /// `9`
    OrderCancelReject,
    /// `V`
    MarketDataRequest,
    /// `W`
    MarketDataSnapshot,
    /// `Y`
    MarketDataRequestReject,
    /// `j`
    BusinessMessageReject,
    /// any other
    Unsupported,
}
