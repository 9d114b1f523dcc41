//! The table of each message type: its tags in printed order, with their forms.
ghost use Rattle.std.specs.Prelude.{◌≡◌, ℕ, true, false};
ghost use Rattle.fix_validation.specs.Tables.{header_rows, resend_request_rows, rows_of};
ghost use Rattle.fix_dictionary.specs.Kinds.{type_of, is_session, is_grouped, is_resend_request};

use fix_dictionary::MessageType;

/// The form of a value.
#[derive(Clone, Copy)]
pub enum Form {
    /// a message type
    Kind,
    /// an integer in this range
    Integer(u32, u32),
    /// 0, or an integer from this number to 999,999,999
    End(u32),
    Price,
    Quantity,
    Amount,
    Identifier,
    /// the identifier `9`, the version of the application messages
    Version,
    Character,
    /// the character 1 or 2
    OneOrTwo,
    Flag,
    Utc,
    Printable,
}

/// A row of a table. A row of a group's instances names the group by its count field.
#[derive(Clone, Copy)]
pub struct Row {
    pub tag: u32,
    pub required: bool,
    pub form: Form,
    pub group: u32,
}

// A row required in each message of the type.
macro_rules! needs {
    ($tag:expr, $form:expr) => {
        Row {
            tag: $tag,
            required: true,
            form: $form,
            group: 0,
        }
    };
}

// A row optional in a message of the type.
macro_rules! takes {
    ($tag:expr, $form:expr) => {
        Row {
            tag: $tag,
            required: false,
            form: $form,
            group: 0,
        }
    };
}

// A row required in each instance of a group.
macro_rules! needs_inside {
    ($group:expr, $tag:expr, $form:expr) => {
        Row {
            tag: $tag,
            required: true,
            form: $form,
            group: $group,
        }
    };
}

// A row optional in an instance of a group.
macro_rules! takes_inside {
    ($group:expr, $tag:expr, $form:expr) => {
        Row {
            tag: $tag,
            required: false,
            form: $form,
            group: $group,
        }
    };
}

const HEADER: [Row; 9] = [
    needs!(35, Form::Kind),
    needs!(49, Form::Identifier),
    needs!(56, Form::Identifier),
    needs!(34, Form::Integer(1, 999_999_999)),
    needs!(52, Form::Utc),
    takes!(43, Form::Flag),
    takes!(97, Form::Flag),
    takes!(122, Form::Utc),
    takes!(1128, Form::Identifier),
];

const HEARTBEAT: [Row; 1] = [takes!(112, Form::Identifier)];

const TEST_REQUEST: [Row; 1] = [needs!(112, Form::Identifier)];

const REJECT: [Row; 5] = [
    needs!(45, Form::Integer(0, 999_999_999)),
    takes!(371, Form::Integer(0, 999_999_999)),
    takes!(372, Form::Identifier),
    takes!(373, Form::Integer(0, 999_999_999)),
    takes!(58, Form::Printable),
];

const SEQUENCE_RESET: [Row; 2] = [
    takes!(123, Form::Flag),
    needs!(36, Form::Integer(1, 1_000_000_000)),
];

const LOGOUT: [Row; 1] = [takes!(58, Form::Printable)];

const LOGON: [Row; 4] = [
    needs!(98, Form::Integer(0, 0)),
    needs!(108, Form::Integer(0, 3600)),
    needs!(1137, Form::Version),
    takes!(141, Form::Flag),
];

const QUOTE_REQUEST: [Row; 9] = [
    needs!(131, Form::Identifier),
    needs!(146, Form::Integer(1, 1)),
    needs_inside!(146, 55, Form::Identifier),
    takes_inside!(146, 54, Form::OneOrTwo),
    needs_inside!(146, 38, Form::Quantity),
    takes_inside!(146, 453, Form::Integer(1, 64)),
    needs_inside!(453, 448, Form::Identifier),
    needs_inside!(453, 447, Form::Character),
    needs_inside!(453, 452, Form::Integer(0, 999_999_999)),
];

const QUOTE: [Row; 13] = [
    needs!(117, Form::Identifier),
    needs!(131, Form::Identifier),
    takes!(537, Form::Character),
    takes!(453, Form::Integer(1, 64)),
    needs_inside!(453, 448, Form::Identifier),
    needs_inside!(453, 447, Form::Character),
    needs_inside!(453, 452, Form::Integer(0, 999_999_999)),
    needs!(55, Form::Identifier),
    takes!(132, Form::Price),
    takes!(133, Form::Price),
    takes!(134, Form::Quantity),
    takes!(135, Form::Quantity),
    takes!(62, Form::Utc),
];

const QUOTE_REQUEST_REJECT: [Row; 5] = [
    needs!(131, Form::Identifier),
    needs!(658, Form::Integer(0, 999_999_999)),
    needs!(146, Form::Integer(1, 1)),
    needs_inside!(146, 55, Form::Identifier),
    takes!(58, Form::Printable),
];

const QUOTE_CANCEL: [Row; 2] = [
    takes!(117, Form::Identifier),
    needs!(298, Form::Integer(0, 999_999_999)),
];

const QUOTE_RESPONSE: [Row; 4] = [
    needs!(693, Form::Identifier),
    needs!(117, Form::Identifier),
    needs!(694, Form::Integer(0, 999_999_999)),
    takes!(54, Form::OneOrTwo),
];

const QUOTE_STATUS_REPORT: [Row; 7] = [
    takes!(117, Form::Identifier),
    takes!(131, Form::Identifier),
    takes!(693, Form::Identifier),
    takes!(55, Form::Identifier),
    needs!(297, Form::Integer(0, 999_999_999)),
    takes!(300, Form::Integer(0, 999_999_999)),
    takes!(58, Form::Printable),
];

const NEW_ORDER_SINGLE: [Row; 9] = [
    needs!(11, Form::Identifier),
    takes!(583, Form::Identifier),
    needs!(55, Form::Identifier),
    needs!(54, Form::OneOrTwo),
    needs!(38, Form::Quantity),
    needs!(40, Form::Character),
    takes!(44, Form::Price),
    takes!(59, Form::Character),
    takes!(60, Form::Utc),
];

const ORDER_CANCEL_REQUEST: [Row; 2] = [needs!(11, Form::Identifier), needs!(41, Form::Identifier)];

const ORDER_CANCEL_REPLACE_REQUEST: [Row; 5] = [
    needs!(11, Form::Identifier),
    needs!(41, Form::Identifier),
    needs!(38, Form::Quantity),
    needs!(40, Form::Character),
    takes!(44, Form::Price),
];

const NEW_ORDER_CROSS: [Row; 10] = [
    needs!(548, Form::Identifier),
    needs!(549, Form::Integer(0, 999_999_999)),
    needs!(550, Form::Integer(0, 999_999_999)),
    needs!(552, Form::Integer(2, 2)),
    needs_inside!(552, 54, Form::OneOrTwo),
    needs_inside!(552, 11, Form::Identifier),
    needs_inside!(552, 38, Form::Quantity),
    needs!(55, Form::Identifier),
    needs!(40, Form::Character),
    takes!(44, Form::Price),
];

const EXECUTION_REPORT: [Row; 16] = [
    needs!(37, Form::Identifier),
    needs!(17, Form::Identifier),
    needs!(150, Form::Character),
    needs!(39, Form::Character),
    needs!(55, Form::Identifier),
    needs!(54, Form::OneOrTwo),
    needs!(151, Form::Amount),
    needs!(14, Form::Amount),
    takes!(11, Form::Identifier),
    takes!(41, Form::Identifier),
    takes!(31, Form::Price),
    takes!(32, Form::Quantity),
    takes!(103, Form::Integer(0, 999_999_999)),
    takes!(880, Form::Identifier),
    takes!(693, Form::Identifier),
    takes!(58, Form::Printable),
];

const ORDER_CANCEL_REJECT: [Row; 7] = [
    needs!(37, Form::Identifier),
    needs!(11, Form::Identifier),
    needs!(41, Form::Identifier),
    needs!(39, Form::Character),
    needs!(434, Form::Character),
    needs!(102, Form::Integer(0, 999_999_999)),
    takes!(58, Form::Printable),
];

const MARKET_DATA_REQUEST: [Row; 7] = [
    needs!(262, Form::Identifier),
    needs!(263, Form::Character),
    needs!(264, Form::Integer(0, 999_999_999)),
    needs!(267, Form::Integer(1, 64)),
    needs_inside!(267, 269, Form::Character),
    needs!(146, Form::Integer(1, 1)),
    needs_inside!(146, 55, Form::Identifier),
];

const MARKET_DATA_SNAPSHOT: [Row; 7] = [
    needs!(262, Form::Identifier),
    needs!(55, Form::Identifier),
    needs!(268, Form::Integer(1, 400)),
    needs_inside!(268, 269, Form::Character),
    takes_inside!(268, 270, Form::Price),
    takes_inside!(268, 271, Form::Amount),
    takes_inside!(268, 278, Form::Identifier),
];

const MARKET_DATA_REQUEST_REJECT: [Row; 3] = [
    needs!(262, Form::Identifier),
    needs!(281, Form::Character),
    takes!(58, Form::Printable),
];

const BUSINESS_MESSAGE_REJECT: [Row; 4] = [
    needs!(45, Form::Integer(0, 999_999_999)),
    needs!(372, Form::Identifier),
    needs!(380, Form::Integer(0, 999_999_999)),
    takes!(58, Form::Printable),
];

/// The rows of the header of each message.
pub fn header() -> &'static [Row]
    ensures { result.now ≡ header_rows }
{
    &HEADER
}

/// The rows of a resend request that begins with this number.
pub fn resend_request_rows(begin: u32) -> [Row; 2]
    ensures { result ≡ resend_request_rows begin }
{
    [
        needs!(7, Form::Integer(1, 999_999_999)),
        needs!(16, Form::End(begin)),
    ]
}

/// The rows of a type other than a resend request.
pub fn rows_of(kind: MessageType) -> &'static [Row]
    ensures flat { (begin : ℕ) → is_resend_request kind ≡ false → result.now ≡ rows_of kind begin }
    ensures grouped { is_grouped kind ≡ true → result.now ≡ rows_of kind 0 }
{
    match kind {
        MessageType::Heartbeat => &HEARTBEAT,
        MessageType::TestRequest => &TEST_REQUEST,
        MessageType::Reject => &REJECT,
        MessageType::SequenceReset => &SEQUENCE_RESET,
        MessageType::Logout => &LOGOUT,
        MessageType::Logon => &LOGON,
        MessageType::QuoteRequest => &QUOTE_REQUEST,
        MessageType::Quote => &QUOTE,
        MessageType::QuoteRequestReject => &QUOTE_REQUEST_REJECT,
        MessageType::QuoteCancel => &QUOTE_CANCEL,
        MessageType::QuoteResponse => &QUOTE_RESPONSE,
        MessageType::QuoteStatusReport => &QUOTE_STATUS_REPORT,
        MessageType::NewOrderSingle => &NEW_ORDER_SINGLE,
        MessageType::OrderCancelRequest => &ORDER_CANCEL_REQUEST,
        MessageType::OrderCancelReplaceRequest => &ORDER_CANCEL_REPLACE_REQUEST,
        MessageType::NewOrderCross => &NEW_ORDER_CROSS,
        MessageType::ExecutionReport => &EXECUTION_REPORT,
        MessageType::OrderCancelReject => &ORDER_CANCEL_REJECT,
        MessageType::MarketDataRequest => &MARKET_DATA_REQUEST,
        MessageType::MarketDataSnapshot => &MARKET_DATA_SNAPSHOT,
        MessageType::MarketDataRequestReject => &MARKET_DATA_REQUEST_REJECT,
        MessageType::BusinessMessageReject => &BUSINESS_MESSAGE_REJECT,
        MessageType::ResendRequest | MessageType::Unsupported => &[],
    }
}

/// The type of the text of a type.
pub fn type_of(kind: &[u8]) -> MessageType
    ensures { result ≡ type_of kind.now }
{
    match kind {
        b"0" => MessageType::Heartbeat,
        b"1" => MessageType::TestRequest,
        b"2" => MessageType::ResendRequest,
        b"3" => MessageType::Reject,
        b"4" => MessageType::SequenceReset,
        b"5" => MessageType::Logout,
        b"A" => MessageType::Logon,
        b"R" => MessageType::QuoteRequest,
        b"S" => MessageType::Quote,
        b"AG" => MessageType::QuoteRequestReject,
        b"Z" => MessageType::QuoteCancel,
        b"AJ" => MessageType::QuoteResponse,
        b"AI" => MessageType::QuoteStatusReport,
        b"D" => MessageType::NewOrderSingle,
        b"F" => MessageType::OrderCancelRequest,
        b"G" => MessageType::OrderCancelReplaceRequest,
        b"s" => MessageType::NewOrderCross,
        b"8" => MessageType::ExecutionReport,
        b"9" => MessageType::OrderCancelReject,
        b"V" => MessageType::MarketDataRequest,
        b"W" => MessageType::MarketDataSnapshot,
        b"Y" => MessageType::MarketDataRequestReject,
        b"j" => MessageType::BusinessMessageReject,
        _ => MessageType::Unsupported,
    }
}

pub fn is_session(kind: MessageType) -> bool
    ensures { result ≡ is_session kind }
{
    matches!(
        kind,
        MessageType::Heartbeat
            | MessageType::TestRequest
            | MessageType::ResendRequest
            | MessageType::Reject
            | MessageType::SequenceReset
            | MessageType::Logout
            | MessageType::Logon
    )
}

pub fn is_grouped(kind: MessageType) -> bool
    ensures { result ≡ is_grouped kind }
{
    matches!(
        kind,
        MessageType::QuoteRequest
            | MessageType::Quote
            | MessageType::QuoteRequestReject
            | MessageType::NewOrderCross
            | MessageType::MarketDataRequest
            | MessageType::MarketDataSnapshot
    )
}
