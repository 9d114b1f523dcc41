//! Replies of the venue.

ghost use Rattle.std.specs.Prelude.{◌≡◌, [], ◌∷◌};
ghost use Rattle.venue_rules.specs.Answer.{answers, business_reject};

use crate::lists::SnapshotEntries;
use crate::refusals::{
    BusinessRefusal, ChangeRefusal, CrossRefusal, MarketDataRefusal, OrderRefusal, QuoteRefusal,
    RequestRefusal, ResponseRefusal,
};
use fix_dictionary::{Amount, Identifier, Price, Quantity, SequenceNumber, Side};
use participants::Who;
use sef_moment::Moment;

/// Common part of execution reports. `order` is none where the report names no order of the book. A refusal as a
/// duplicate names the sender's order that rests under `id`.
#[derive(Drop)]
pub struct OrderReport {
    pub report: u64,
    pub order: Option<u64>,
    pub symbol: Identifier,
    pub side: Side,
    pub left: Amount,
    pub filled: Amount,
    pub id: Identifier,
}

/// Report of a fill: price, quantity and trade.
#[derive(Drop)]
pub struct FilledReport {
    pub order: OrderReport,
    pub price: Price,
    pub quantity: Quantity,
    pub trade: u64,
}

/// Report of a cancel or a replacement; `original` is the identifier (41) that the request named.
#[derive(Drop)]
pub struct ChangedReport {
    pub order: OrderReport,
    pub original_id: Identifier,
}

/// Report that refuses an order.
#[derive(Drop)]
pub struct OrderRefused {
    pub order: OrderReport,
    pub cause: OrderRefusal,
}

/// Report that refuses one side of a cross.
#[derive(Drop)]
pub struct CrossRefused {
    pub order: OrderReport,
    pub cause: CrossRefusal,
}

/// Kind of the refused request.
#[derive(Clone, Copy, PartialEq, Eq)]
pub enum ChangeKind {
    Cancel,
    Replace,
}

/// The resting order that a cancel or replacement named, with its filled quantity.
#[derive(Drop)]
pub struct OrderStatus {
    pub order: u64,
    pub filled: Amount,
}

/// A refusal of a cancel or a replacement.
#[derive(Drop)]
pub struct ChangeRefused {
    pub standing: Option<OrderStatus>,
    pub id: Identifier,
    pub original_id: Identifier,
    pub kind: ChangeKind,
    pub cause: ChangeRefusal,
}

/// A refusal of a request for quotes.
#[derive(Drop)]
pub struct RequestRefused {
    pub id: Identifier,
    pub symbol: Identifier,
    pub cause: RequestRefusal,
}

/// A request for quotes, as sent to a recipient.
#[derive(Drop)]
pub struct RequestSent {
    pub room: u64,
    pub symbol: Identifier,
    pub side: Option<Side>,
    pub quantity: Quantity,
}

/// State of a quote in a status report.
#[derive(Drop)]
pub enum QuoteState {
    Accepted,
    Refused(QuoteRefusal),
    ResponseRefused(ResponseRefusal),
    CancelUnsupported,
    Expired,
    NotFound,
    Passed,
    Withdrawn,
}

/// Status report of a quote, by the identifiers that its receiver knows.
#[derive(Drop)]
pub struct QuoteStatus {
    pub quote_id: Option<Identifier>,
    pub request_id: Option<Identifier>,
    pub response_id: Option<Identifier>,
    pub symbol: Option<Identifier>,
    pub state: QuoteState,
}

/// A quote, as sent to the requester.
#[derive(Drop)]
pub struct QuoteSent {
    pub quote: u64,
    pub request_id: Identifier,
    pub maker: Identifier,
    pub symbol: Identifier,
    pub bid: Option<Price>,
    pub offer: Option<Price>,
    pub quantity: Quantity,
    pub end: Moment,
}

/// Report of a trade in a room.
#[derive(Drop)]
pub struct RoomReport {
    pub report: u64,
    pub room: u64,
    pub symbol: Identifier,
    pub side: Side,
    pub quantity: Quantity,
    pub price: Price,
    pub trade: u64,
    pub response_id: Option<Identifier>,
}

/// One resting order of a snapshot.
#[derive(Drop)]
pub struct SnapshotEntry {
    pub side: Side,
    pub price: Price,
    pub left: Amount,
    pub order: u64,
}

/// Book snapshot of an instrument.
#[derive(Drop)]
pub struct BookSnapshot {
    pub request_id: Identifier,
    pub symbol: Identifier,
    pub entries: SnapshotEntries,
}

/// A refusal of a request for market data.
#[derive(Drop)]
pub struct MarketDataReject {
    pub request_id: Identifier,
    pub cause: MarketDataRefusal,
}

/// A message that was read and not processed: its number and type.
#[derive(Drop)]
pub struct BusinessReject {
    pub number: SequenceNumber,
    pub kind: Identifier,
    pub cause: BusinessRefusal,
}

/// Body of a reply.
pub enum ReplyBody {
    OrderRefused(OrderRefused),
    CrossRefused(CrossRefused),
    OrderEntered(OrderReport),
    OrderFilled(FilledReport),
    OrderUnfilled(OrderReport),
    OrderCancelled(ChangedReport),
    OrderReplaced(ChangedReport),
    ChangeRefused(ChangeRefused),
    RequestRefused(RequestRefused),
    RequestSent(RequestSent),
    QuoteStatus(QuoteStatus),
    QuoteSent(QuoteSent),
    RoomTraded(RoomReport),
    BookSnapshot(BookSnapshot),
    MarketDataReject(MarketDataReject),
    BusinessReject(BusinessReject),
}

// Written-out drop (docs/ARCHITECTURE.md).
impl Drop for ReplyBody {
    fn drop(self) {
        match self {
            ReplyBody::OrderRefused(_a) => {}
            ReplyBody::CrossRefused(_a) => {}
            ReplyBody::OrderEntered(_a) => {}
            ReplyBody::OrderFilled(_a) => {}
            ReplyBody::OrderUnfilled(_a) => {}
            ReplyBody::OrderCancelled(_a) => {}
            ReplyBody::OrderReplaced(_a) => {}
            ReplyBody::ChangeRefused(_a) => {}
            ReplyBody::RequestRefused(_a) => {}
            ReplyBody::RequestSent(_a) => {}
            ReplyBody::QuoteStatus(_a) => {}
            ReplyBody::QuoteSent(_a) => {}
            ReplyBody::RoomTraded(_a) => {}
            ReplyBody::BookSnapshot(_a) => {}
            ReplyBody::MarketDataReject(_a) => {}
            ReplyBody::BusinessReject(_a) => {}
        }
    }
}

/// A reply and its addressee.
pub struct Reply {
    pub to: Who,
    pub what: ReplyBody,
}

// Written-out drop (docs/ARCHITECTURE.md).
impl Drop for Reply {
    fn drop(self) {
        let Reply {
            to: _to,
            what: _what,
        } = self;
    }
}

impl Reply {
    /// BusinessMessageReject (j) of the message with this number and type (35).
    pub fn business_reject(
        to: Who,
        number: SequenceNumber,
        kind: Identifier,
        cause: BusinessRefusal,
    ) -> Reply
        ensures { answers (result ∷ []) ≡ business_reject (record { who = to; number = number; kind = kind }) cause }
    {
        Reply {
            to,
            what: ReplyBody::BusinessReject(BusinessReject {
                number,
                kind,
                cause,
            }),
        }
    }
}
