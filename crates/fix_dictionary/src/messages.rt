//! One struct per message type, its fields in printed order.
ghost use Rattle.std.specs.Prelude.{◌≡◌, IfOk};
ghost use Rattle.fix_dictionary.specs.Lent.{lent_header};
ghost use Rattle.fix_dictionary.specs.Values.{IsResend};

use crate::lists::{EntryTypes, MarketDataEntries, Parties};
use crate::values::{
    Amount, FixChar, FixInt, HeartbeatInterval, Identifier, NewSequenceNumber, OtherKind, Price,
    Quantity, SequenceNumber, Side, Text,
};
use sef_moment::Moment;
use std::alloc::{AllocError, Global};
use std::marker::Model;

/// The header of each message.
#[derive(Clone, Copy)]
pub struct Header {
    /// 49
    pub sender: Identifier,
    /// 56
    pub target: Identifier,
    /// 34
    pub number: SequenceNumber,
    /// 52
    pub sending_time: Moment,
    /// 43
    pub possible_duplicate: Option<bool>,
    /// 97
    pub possible_resend: Option<bool>,
    /// 122
    pub original_sending_time: Option<Moment>,
    /// 1128
    pub application_version: Option<Identifier>,
}

/// A borrowed header.
#[derive(Clone, Copy)]
pub struct HeaderRef<'a> {
    /// 49
    pub sender: &'a Identifier,
    /// 56
    pub target: &'a Identifier,
    /// 34
    pub number: SequenceNumber,
    /// 52
    pub sending_time: Moment,
    /// 43
    pub possible_duplicate: Option<bool>,
    /// 97
    pub possible_resend: Option<bool>,
    /// 122
    pub original_sending_time: Option<Moment>,
    /// 1128
    pub application_version: Option<&'a Identifier>,
}

impl Header {
    /// Borrows the header.
    pub fn lent(&self) -> HeaderRef<'_>
        ensures { lent_header result ≡ self.now }
    {
        HeaderRef {
            sender: &self.sender,
            target: &self.target,
            number: self.number,
            sending_time: self.sending_time,
            possible_duplicate: self.possible_duplicate,
            possible_resend: self.possible_resend,
            original_sending_time: self.original_sending_time,
            application_version: match &self.application_version {
                Some(version) => Some(version),
                None => None,
            },
        }
    }
}

/// Message type `0`.
#[derive(Clone, Copy)]
pub struct Heartbeat {
    /// 112
    pub test_id: Option<Identifier>,
}

/// Message type `1`.
#[derive(Clone, Copy)]
pub struct TestRequest {
    /// 112
    pub test_id: Identifier,
}

/// Message type `2`: asks for the messages from number `begin` (7) to number `end` (16), or to the last one where that
/// is 0.
#[derive(Clone, Copy, PartialEq, Eq)]
pub struct ResendRequest {
    begin: SequenceNumber,
    end: FixInt,
}

impl Model for ResendRequest {
    ghost use Rattle.fix_dictionary.specs.Values.{Resend, IsResend};

    ghost Value = { Resend };

    ghost view = { λ m. record { begin = m.begin; end = m.end } };

    ghost invariant = { λ m. IsResend m.begin m.end };

    ghost inverse = { λ r. record { begin = r.begin; end = r.end } };
}

impl ResendRequest {
    pub fn new(begin: SequenceNumber, end: FixInt) -> ResendRequest
        requires { IsResend begin end }
        ensures begin { result.begin ≡ begin }
        ensures end { result.end ≡ end }
    {
        ResendRequest { begin, end }
    }

    /// The first number asked for (7).
    pub fn begin(self) -> SequenceNumber
        ensures value { result ≡ self.begin }
        ensures range { IsResend self.begin self.end }
    {
        self.begin
    }

    /// The last number asked for (16), or 0 for the last one that was sent.
    pub fn end(self) -> FixInt
        ensures value { result ≡ self.end }
        ensures range { IsResend self.begin self.end }
    {
        self.end
    }
}

/// Message type `3`.
#[derive(Drop)]
pub struct Reject {
    /// 45
    pub reference_number: FixInt,
    /// 371
    pub reference_tag: Option<FixInt>,
    /// 372
    pub reference_type: Option<Identifier>,
    /// 373
    pub reason: Option<FixInt>,
    /// 58
    pub text: Option<Text>,
}

/// Message type `4`.
#[derive(Clone, Copy)]
pub struct SequenceReset {
    /// 123
    pub gap_fill: Option<bool>,
    /// 36
    pub new_number: NewSequenceNumber,
}

/// Message type `5`.
#[derive(Drop)]
pub struct Logout {
    /// 58
    pub text: Option<Text>,
}

/// Message type `A`. Its 98 is always 0, and its 1137 always 9.
#[derive(Clone, Copy)]
pub struct Logon {
    /// 108, in seconds
    pub heartbeat_interval: HeartbeatInterval,
    /// 141
    pub reset: Option<bool>,
}

/// A party: its name (448), the source of the name (447) and its role (452).
#[derive(Clone, Copy)]
pub struct Party {
    pub id: Identifier,
    pub source: FixChar,
    pub role: FixInt,
}

/// One entry of a market data snapshot: its type (269), price (270), size (271) and order (278).
#[derive(Clone, Copy)]
pub struct MarketDataEntry {
    pub entry_type: FixChar,
    pub price: Option<Price>,
    pub size: Option<Amount>,
    pub order_id: Option<Identifier>,
}

/// One side of a cross: side (54), identifier (11) and quantity (38).
#[derive(Clone, Copy)]
pub struct CrossSide {
    pub side: Side,
    pub order_id: Identifier,
    pub quantity: Quantity,
}

/// Message type `R`.
#[derive(Drop)]
pub struct QuoteRequest {
    /// 131
    pub request_id: Identifier,
    /// 55
    pub symbol: Identifier,
    /// 54
    pub side: Option<Side>,
    /// 38
    pub quantity: Quantity,
    /// 453
    pub parties: Parties,
}

/// Message type `S`.
#[derive(Drop)]
pub struct Quote {
    /// 117
    pub quote_id: Identifier,
    /// 131
    pub request_id: Identifier,
    /// 537
    pub quote_type: Option<FixChar>,
    /// 453
    pub parties: Parties,
    /// 55
    pub symbol: Identifier,
    /// 132
    pub bid_price: Option<Price>,
    /// 133
    pub offer_price: Option<Price>,
    /// 134
    pub bid_size: Option<Quantity>,
    /// 135
    pub offer_size: Option<Quantity>,
    /// 62
    pub valid_until: Option<Moment>,
}

/// Message type `Z`.
#[derive(Clone, Copy)]
pub struct QuoteCancel {
    /// 117
    pub quote_id: Option<Identifier>,
    /// 298
    pub cancel_type: FixInt,
}

/// Message type `AJ`.
#[derive(Clone, Copy)]
pub struct QuoteResponse {
    /// 693
    pub response_id: Identifier,
    /// 117
    pub quote_id: Identifier,
    /// 694
    pub response_type: FixInt,
    /// 54
    pub side: Option<Side>,
}

/// Message type `AI`.
#[derive(Drop)]
pub struct QuoteStatusReport {
    /// 117
    pub quote_id: Option<Identifier>,
    /// 131
    pub request_id: Option<Identifier>,
    /// 693
    pub response_id: Option<Identifier>,
    /// 55
    pub symbol: Option<Identifier>,
    /// 297
    pub status: FixInt,
    /// 300
    pub reject_reason: Option<FixInt>,
    /// 58
    pub text: Option<Text>,
}

/// Message type `AG`.
#[derive(Drop)]
pub struct QuoteRequestReject {
    /// 131
    pub request_id: Identifier,
    /// 658
    pub reject_reason: FixInt,
    /// 55
    pub symbol: Identifier,
    /// 58
    pub text: Option<Text>,
}

/// Message type `D`.
#[derive(Clone, Copy)]
pub struct NewOrderSingle {
    /// 11
    pub order_id: Identifier,
    /// 583
    pub link_id: Option<Identifier>,
    /// 55
    pub symbol: Identifier,
    /// 54
    pub side: Side,
    /// 38
    pub quantity: Quantity,
    /// 40
    pub order_type: FixChar,
    /// 44
    pub price: Option<Price>,
    /// 59
    pub time_in_force: Option<FixChar>,
    /// 60
    pub transact_time: Option<Moment>,
}

/// Message type `F`.
#[derive(Clone, Copy)]
pub struct OrderCancelRequest {
    /// 11
    pub order_id: Identifier,
    /// 41
    pub original_id: Identifier,
}

/// Message type `G`.
#[derive(Clone, Copy)]
pub struct OrderCancelReplaceRequest {
    /// 11
    pub order_id: Identifier,
    /// 41
    pub original_id: Identifier,
    /// 38
    pub quantity: Quantity,
    /// 40
    pub order_type: FixChar,
    /// 44
    pub price: Option<Price>,
}

/// Message type `s`.
#[derive(Clone, Copy)]
pub struct NewOrderCross {
    /// 548
    pub cross_id: Identifier,
    /// 549
    pub cross_type: FixInt,
    /// 550
    pub prioritization: FixInt,
    /// first side of 552
    pub first: CrossSide,
    /// second side of 552
    pub second: CrossSide,
    /// 55
    pub symbol: Identifier,
    /// 40
    pub order_type: FixChar,
    /// 44
    pub price: Option<Price>,
}

/// Message type `8`.
#[derive(Drop)]
pub struct ExecutionReport {
    /// 37
    pub venue_order_id: Identifier,
    /// 17
    pub execution_id: Identifier,
    /// 150
    pub execution_type: FixChar,
    /// 39
    pub order_status: FixChar,
    /// 55
    pub symbol: Identifier,
    /// 54
    pub side: Side,
    /// 151
    pub left: Amount,
    /// 14
    pub filled: Amount,
    /// 11
    pub order_id: Option<Identifier>,
    /// 41
    pub original_id: Option<Identifier>,
    /// 31
    pub last_price: Option<Price>,
    /// 32
    pub last_quantity: Option<Quantity>,
    /// 103
    pub reject_reason: Option<FixInt>,
    /// 880
    pub trade_id: Option<Identifier>,
    /// 693
    pub response_id: Option<Identifier>,
    /// 58
    pub text: Option<Text>,
}

/// Message type `9`.
#[derive(Drop)]
pub struct OrderCancelReject {
    /// 37
    pub venue_order_id: Identifier,
    /// 11
    pub order_id: Identifier,
    /// 41
    pub original_id: Identifier,
    /// 39
    pub order_status: FixChar,
    /// 434
    pub response_to: FixChar,
    /// 102
    pub reject_reason: FixInt,
    /// 58
    pub text: Option<Text>,
}

/// Message type `V`.
#[derive(Drop)]
pub struct MarketDataRequest {
    /// 262
    pub request_id: Identifier,
    /// 263
    pub subscription_type: FixChar,
    /// 264
    pub depth: FixInt,
    /// 267
    pub entry_types: EntryTypes,
    /// 55
    pub symbol: Identifier,
}

/// Message type `W`.
#[derive(Drop)]
pub struct MarketDataSnapshot {
    /// 262
    pub request_id: Identifier,
    /// 55
    pub symbol: Identifier,
    /// 268
    pub entries: MarketDataEntries,
}

/// Message type `Y`.
#[derive(Drop)]
pub struct MarketDataRequestReject {
    /// 262
    pub request_id: Identifier,
    /// 281
    pub reject_reason: FixChar,
    /// 58
    pub text: Option<Text>,
}

/// Message type `j`.
#[derive(Drop)]
pub struct BusinessMessageReject {
    /// 45
    pub reference_number: FixInt,
    /// 372
    pub reference_type: Identifier,
    /// 380
    pub reject_reason: FixInt,
    /// 58
    pub text: Option<Text>,
}

/// An application message.
pub enum App {
    QuoteRequest(QuoteRequest),
    Quote(Quote),
    QuoteCancel(QuoteCancel),
    QuoteResponse(QuoteResponse),
    QuoteStatusReport(QuoteStatusReport),
    QuoteRequestReject(QuoteRequestReject),
    NewOrderSingle(NewOrderSingle),
    OrderCancelRequest(OrderCancelRequest),
    OrderCancelReplaceRequest(OrderCancelReplaceRequest),
    NewOrderCross(NewOrderCross),
    ExecutionReport(ExecutionReport),
    OrderCancelReject(OrderCancelReject),
    MarketDataRequest(MarketDataRequest),
    MarketDataSnapshot(MarketDataSnapshot),
    MarketDataRequestReject(MarketDataRequestReject),
    BusinessMessageReject(BusinessMessageReject),
    /// a type other than these and those of the session
    Unsupported(OtherKind),
}

// Written-out drop (docs/ARCHITECTURE.md).
impl Drop for App {
    fn drop(self) {
        match self {
            App::QuoteRequest(_a) => {}
            App::Quote(_a) => {}
            App::QuoteCancel(_a) => {}
            App::QuoteResponse(_a) => {}
            App::QuoteStatusReport(_a) => {}
            App::QuoteRequestReject(_a) => {}
            App::NewOrderSingle(_a) => {}
            App::OrderCancelRequest(_a) => {}
            App::OrderCancelReplaceRequest(_a) => {}
            App::NewOrderCross(_a) => {}
            App::ExecutionReport(_a) => {}
            App::OrderCancelReject(_a) => {}
            App::MarketDataRequest(_a) => {}
            App::MarketDataSnapshot(_a) => {}
            App::MarketDataRequestReject(_a) => {}
            App::BusinessMessageReject(_a) => {}
            App::Unsupported(_a) => {}
        }
    }
}

/// An application message on the heap, of 8 bytes inline whatever its type.
pub struct BoxedApp {
    app: Box<App>,
}

// Written-out drop (docs/ARCHITECTURE.md).
impl Drop for BoxedApp {
    fn drop(self) {
        let BoxedApp { app: _app } = self;
    }
}

impl Model for BoxedApp {
    ghost use Rattle.fix_dictionary.specs.declared.messages.App.{App};

    ghost Value = { App };

    ghost view = { λ b. b.app.value };
}

impl BoxedApp {
    /// Moves the message to the heap.
    pub fn new(alloc: Global, app: App) -> Result<BoxedApp, AllocError>
        ensures { IfOk result (λ boxed. boxed ≡ app) }
    {
        let app = Box::new(alloc, app)?;
        Ok(BoxedApp { app })
    }

    pub fn get(&self) -> &App
        ensures { result.now ≡ self.now }
    {
        &self.app
    }

    /// Moves the message out and frees its memory.
    pub fn into_inner(self) -> App
        ensures { result ≡ self }
    {
        let BoxedApp { app } = self;
        Box::into_inner(app)
    }
}

/// A message of the session.
#[derive(Drop)]
pub enum Admin {
    Heartbeat(Heartbeat),
    TestRequest(TestRequest),
    ResendRequest(ResendRequest),
    Reject(Reject),
    SequenceReset(SequenceReset),
    Logout(Logout),
    Logon(Logon),
}

/// A message without its header.
#[derive(Drop)]
pub enum Body {
    Admin(Admin),
    App(BoxedApp),
}

/// A borrowed body.
#[derive(Clone, Copy)]
pub enum BodyRef<'a> {
    Admin(&'a Admin),
    App(&'a App),
}

/// A message.
#[derive(Drop)]
pub struct Message {
    pub header: Header,
    pub body: Body,
}

/// An application message as a session accepted it: its era, from 1, its number (34) in that era, and the message.
#[derive(Drop)]
pub struct Item {
    pub era: u32,
    pub number: SequenceNumber,
    pub app: BoxedApp,
}
