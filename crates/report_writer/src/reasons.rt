//! Reason codes and texts of refusals.
ghost use Rattle.std.specs.Prelude.{◌≡◌, ◌≤◌, IfOk, true};
ghost use Rattle.venue_rules.specs.Messages.{order_reason, change_reason, cross_reason, request_reason, quote_reason, response_reason, market_reason, business_reason};
ghost use Rattle.report_writer.specs.Reasons.{seen};

use crate::reason::Reason;
use venue_rules::{
    BusinessRefusal, ChangeRefusal, CrossRefusal, MarketDataRefusal, OrderRefusal, QuoteRefusal,
    RequestRefusal, ResponseRefusal,
};

/// OrdRejReason (103).
pub(crate) fn order_reason(cause: OrderRefusal) -> Reason
    ensures { seen result ≡ order_reason cause }
{
    match cause {
        OrderRefusal::UnknownInstrument => Reason::new(1, "Unknown instrument"),
        OrderRefusal::DuplicateClOrdId => Reason::new(6, "Duplicate ClOrdID"),
        OrderRefusal::UnsupportedOrder => Reason::new(11, "Unsupported order"),
        OrderRefusal::PriceOffTick => Reason::new(99, "Price off tick"),
        OrderRefusal::QuantityBelowLeast => Reason::new(13, "Quantity below least"),
        OrderRefusal::LinkedOrderTooRecent => Reason::new(99, "Linked order too recent"),
        OrderRefusal::BookSideFull => Reason::new(3, "Book side full"),
    }
}

/// CxlRejReason (102).
pub(crate) fn change_reason(cause: ChangeRefusal) -> Reason
    ensures { seen result ≡ change_reason cause }
{
    match cause {
        ChangeRefusal::UnknownOrder => Reason::new(1, "Unknown order"),
        ChangeRefusal::DuplicateClOrdId => Reason::new(6, "Duplicate ClOrdID"),
        ChangeRefusal::HeldSide => Reason::new(99, "Held side"),
        ChangeRefusal::UnsupportedOrder => Reason::new(99, "Unsupported order"),
        ChangeRefusal::PriceOffTick => Reason::new(99, "Price off tick"),
        ChangeRefusal::QuantityBelowLeast => Reason::new(99, "Quantity below least"),
        ChangeRefusal::QuantityAlreadyFilled => Reason::new(99, "Quantity already filled"),
        ChangeRefusal::LinkedOrderTooRecent => Reason::new(99, "Linked order too recent"),
    }
}

/// OrdRejReason (103) of a cross.
pub(crate) fn cross_reason(cause: CrossRefusal) -> Reason
    ensures { seen result ≡ cross_reason cause }
{
    match cause {
        CrossRefusal::UnknownInstrument => Reason::new(1, "Unknown instrument"),
        CrossRefusal::DuplicateCrossId => Reason::new(6, "Duplicate CrossID"),
        CrossRefusal::DuplicateClOrdId => Reason::new(6, "Duplicate ClOrdID"),
        CrossRefusal::UnsupportedOrder => Reason::new(11, "Unsupported order"),
        CrossRefusal::OneBuyAndOneSell => Reason::new(99, "One buy and one sell"),
        CrossRefusal::PriceOffTick => Reason::new(99, "Price off tick"),
        CrossRefusal::Quantity => Reason::new(13, "Quantity"),
        CrossRefusal::LinkedOrderTooRecent => Reason::new(99, "Linked order too recent"),
        CrossRefusal::BookSideFull => Reason::new(3, "Book side full"),
        CrossRefusal::TooManyHeld => Reason::new(3, "Too many held"),
    }
}

/// QuoteRequestRejectReason (658).
pub(crate) fn request_reason(cause: RequestRefusal) -> Reason
    ensures { seen result ≡ request_reason cause }
{
    match cause {
        RequestRefusal::DuplicateRequest => Reason::new(99, "Duplicate request"),
        RequestRefusal::UnknownInstrument => Reason::new(1, "Unknown instrument"),
        RequestRefusal::QuantityBelowLeast => Reason::new(99, "Quantity below least"),
        RequestRefusal::UnknownParticipant => Reason::new(99, "Unknown participant"),
        RequestRefusal::RequesterAmongRecipients => Reason::new(6, "Requester among recipients"),
        RequestRefusal::RecipientTwice => Reason::new(99, "Recipient twice"),
        RequestRefusal::TooManyRecipients => Reason::new(3, "Too many recipients"),
        RequestRefusal::TooFewRecipients => Reason::new(99, "Too few recipients"),
        RequestRefusal::RecipientsNotUnrelated => Reason::new(99, "Recipients not unrelated"),
        RequestRefusal::TooManyRequests => Reason::new(3, "Too many requests"),
    }
}

/// QuoteRejectReason (300).
pub(crate) fn quote_reason(cause: QuoteRefusal) -> Reason
    ensures { seen result ≡ quote_reason cause }
{
    match cause {
        QuoteRefusal::UnknownRequest => Reason::new(99, "Unknown request"),
        QuoteRefusal::NotAsked => Reason::new(9, "Not asked"),
        QuoteRefusal::RoomOver => Reason::new(4, "Too late"),
        QuoteRefusal::UnknownInstrument => Reason::new(1, "Unknown instrument"),
        QuoteRefusal::DuplicateQuote => Reason::new(6, "Duplicate quote"),
        QuoteRefusal::NotTradeable => Reason::new(99, "Not tradeable"),
        QuoteRefusal::InvalidPrice => Reason::new(8, "Invalid price"),
        QuoteRefusal::Size => Reason::new(99, "Size"),
        QuoteRefusal::EndPassed => Reason::new(4, "Too late"),
    }
}

/// QuoteRejectReason (300) of a quote response.
pub(crate) fn response_reason(cause: ResponseRefusal) -> Reason
    ensures { seen result ≡ response_reason cause }
{
    match cause {
        ResponseRefusal::UnsupportedResponse => Reason::new(99, "Unsupported response"),
        ResponseRefusal::NotYours => Reason::new(9, "Not yours"),
        ResponseRefusal::Side => Reason::new(99, "Side"),
        ResponseRefusal::InvalidPrice => Reason::new(8, "Invalid price"),
    }
}

/// MDReqRejReason (281), a character.
pub(crate) fn market_reason(cause: MarketDataRefusal) -> Reason
    ensures { seen result ≡ market_reason cause }
{
    match cause {
        MarketDataRefusal::UnknownInstrument => Reason::new(b'0', "Unknown instrument"),
        MarketDataRefusal::SnapshotsOnly => Reason::new(b'4', "Snapshots only"),
        MarketDataRefusal::FullDepthOnly => Reason::new(b'5', "Full depth only"),
    }
}

/// BusinessRejectReason (380).
pub(crate) fn business_reason(cause: BusinessRefusal) -> Reason
    ensures { seen result ≡ business_reason cause }
{
    match cause {
        BusinessRefusal::PriceMissing => Reason::new(5, "Price missing"),
        BusinessRefusal::QuoteMissing => Reason::new(5, "Quote missing"),
        BusinessRefusal::SideMissing => Reason::new(5, "Side missing"),
        BusinessRefusal::UnsupportedMessageType => Reason::new(3, "Unsupported message type"),
    }
}
