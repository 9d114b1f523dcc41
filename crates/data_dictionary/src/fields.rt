//! The fields, by their tags: their names and data types in FIX 5.0 SP2.
ghost use Rattle.std.specs.Prelude.{◌≡◌, map, nat_eq};
ghost use Rattle.std.specs.List.{find};
ghost use Rattle.std.specs.Option.{option_map};
ghost use Rattle.data_dictionary.specs.Fields.{data_type_of, field_with, fields, name_of, seen, type_name_of};
ghost use Rattle.data_dictionary.specs.Layout.{application_tags, transport_tags};

/// A data type of FIX 5.0 SP2, narrowed where the venue reads few values.
#[derive(Clone, Copy)]
pub(crate) enum DataType {
    /// `STRING`
    Text,
    /// `STRING`, the version `9` of the application messages
    Version,
    /// `CHAR`
    Character,
    /// `CHAR`, 1 or 2
    Side,
    /// `BOOLEAN`
    Flag,
    /// `INT`
    Integer,
    /// `INT`, 0
    NoEncryption,
    /// `SEQNUM`
    SequenceNumber,
    /// `NUMINGROUP`
    Count,
    /// `NUMINGROUP`, one instance
    One,
    /// `NUMINGROUP`, two instances
    Two,
    /// `LENGTH`
    Length,
    /// `PRICE`
    Price,
    /// `QTY`
    Quantity,
    /// `UTCTIMESTAMP`
    Utc,
}

/// A field of FIX 5.0 SP2.
#[derive(Clone, Copy)]
pub(crate) struct Field {
    pub tag: u32,
    pub name: &'static str,
    pub data_type: DataType,
}

macro_rules! field {
    ($tag:expr, $name:expr, $data_type:expr) => {
        Field {
            tag: $tag,
            name: $name,
            data_type: $data_type,
        }
    };
}

// In rising order of the tags. QuoteType (537) is a character here, as the venue reads it, and an integer in FIX.
const FIELDS: [Field; 82] = [
    field!(7, "BeginSeqNo", DataType::SequenceNumber),
    field!(8, "BeginString", DataType::Text),
    field!(9, "BodyLength", DataType::Length),
    field!(10, "CheckSum", DataType::Text),
    field!(11, "ClOrdID", DataType::Text),
    field!(14, "CumQty", DataType::Quantity),
    field!(16, "EndSeqNo", DataType::SequenceNumber),
    field!(17, "ExecID", DataType::Text),
    field!(31, "LastPx", DataType::Price),
    field!(32, "LastQty", DataType::Quantity),
    field!(34, "MsgSeqNum", DataType::SequenceNumber),
    field!(35, "MsgType", DataType::Text),
    field!(36, "NewSeqNo", DataType::SequenceNumber),
    field!(37, "OrderID", DataType::Text),
    field!(38, "OrderQty", DataType::Quantity),
    field!(39, "OrdStatus", DataType::Character),
    field!(40, "OrdType", DataType::Character),
    field!(41, "OrigClOrdID", DataType::Text),
    field!(43, "PossDupFlag", DataType::Flag),
    field!(44, "Price", DataType::Price),
    field!(45, "RefSeqNum", DataType::SequenceNumber),
    field!(49, "SenderCompID", DataType::Text),
    field!(52, "SendingTime", DataType::Utc),
    field!(54, "Side", DataType::Side),
    field!(55, "Symbol", DataType::Text),
    field!(56, "TargetCompID", DataType::Text),
    field!(58, "Text", DataType::Text),
    field!(59, "TimeInForce", DataType::Character),
    field!(60, "TransactTime", DataType::Utc),
    field!(62, "ValidUntilTime", DataType::Utc),
    field!(97, "PossResend", DataType::Flag),
    field!(98, "EncryptMethod", DataType::NoEncryption),
    field!(102, "CxlRejReason", DataType::Integer),
    field!(103, "OrdRejReason", DataType::Integer),
    field!(108, "HeartBtInt", DataType::Integer),
    field!(112, "TestReqID", DataType::Text),
    field!(117, "QuoteID", DataType::Text),
    field!(122, "OrigSendingTime", DataType::Utc),
    field!(123, "GapFillFlag", DataType::Flag),
    field!(131, "QuoteReqID", DataType::Text),
    field!(132, "BidPx", DataType::Price),
    field!(133, "OfferPx", DataType::Price),
    field!(134, "BidSize", DataType::Quantity),
    field!(135, "OfferSize", DataType::Quantity),
    field!(141, "ResetSeqNumFlag", DataType::Flag),
    field!(146, "NoRelatedSym", DataType::One),
    field!(150, "ExecType", DataType::Character),
    field!(151, "LeavesQty", DataType::Quantity),
    field!(262, "MDReqID", DataType::Text),
    field!(263, "SubscriptionRequestType", DataType::Character),
    field!(264, "MarketDepth", DataType::Integer),
    field!(267, "NoMDEntryTypes", DataType::Count),
    field!(268, "NoMDEntries", DataType::Count),
    field!(269, "MDEntryType", DataType::Character),
    field!(270, "MDEntryPx", DataType::Price),
    field!(271, "MDEntrySize", DataType::Quantity),
    field!(278, "MDEntryID", DataType::Text),
    field!(281, "MDReqRejReason", DataType::Character),
    field!(297, "QuoteStatus", DataType::Integer),
    field!(298, "QuoteCancelType", DataType::Integer),
    field!(300, "QuoteRejectReason", DataType::Integer),
    field!(371, "RefTagID", DataType::Integer),
    field!(372, "RefMsgType", DataType::Text),
    field!(373, "SessionRejectReason", DataType::Integer),
    field!(380, "BusinessRejectReason", DataType::Integer),
    field!(434, "CxlRejResponseTo", DataType::Character),
    field!(447, "PartyIDSource", DataType::Character),
    field!(448, "PartyID", DataType::Text),
    field!(452, "PartyRole", DataType::Integer),
    field!(453, "NoPartyIDs", DataType::Count),
    field!(537, "QuoteType", DataType::Character),
    field!(548, "CrossID", DataType::Text),
    field!(549, "CrossType", DataType::Integer),
    field!(550, "CrossPrioritization", DataType::Integer),
    field!(552, "NoSides", DataType::Two),
    field!(583, "ClOrdLinkID", DataType::Text),
    field!(658, "QuoteRequestRejectReason", DataType::Integer),
    field!(693, "QuoteRespID", DataType::Text),
    field!(694, "QuoteRespType", DataType::Integer),
    field!(880, "TrdMatchID", DataType::Text),
    field!(1128, "ApplVerID", DataType::Text),
    field!(1137, "DefaultApplVerID", DataType::Version),
];

// The tags of each dictionary, in rising order.
const TRANSPORT: [u32; 26] = [
    7, 8, 9, 10, 16, 34, 35, 36, 43, 45, 49, 52, 56, 58, 97, 98, 108, 112, 122, 123, 141, 371, 372,
    373, 1128, 1137,
];

const APPLICATION: [u32; 59] = [
    11, 14, 17, 31, 32, 37, 38, 39, 40, 41, 44, 45, 54, 55, 58, 59, 60, 62, 102, 103, 117, 131,
    132, 133, 134, 135, 146, 150, 151, 262, 263, 264, 267, 268, 269, 270, 271, 278, 281, 297, 298,
    300, 372, 380, 434, 447, 448, 452, 453, 537, 548, 549, 550, 552, 583, 658, 693, 694, 880,
];

/// The tags of the frame, the header and the session's messages.
#[tactic(auto, unfolding(crate::specs::Layout::transport_tags, crate::specs::Layout::frame_begin, crate::specs::Layout::frame_end, crate::specs::MessageTypes::session_types))]
pub(crate) fn transport_tags() -> &'static [u32]
    ensures { result.now ≡ transport_tags }
{
    &TRANSPORT
}

/// The tags of the application messages.
#[tactic(auto, unfolding(crate::specs::Layout::application_tags, crate::specs::MessageTypes::application_types))]
pub(crate) fn application_tags() -> &'static [u32]
    ensures { result.now ≡ application_tags }
{
    &APPLICATION
}

/// The FIX name of a data type.
#[tactic(auto, unfolding(crate::specs::Fields::type_name_of))]
pub(crate) fn type_name_of(data_type: DataType) -> &'static str
    ensures { result.now ≡ type_name_of data_type }
{
    match data_type {
        DataType::Text => "STRING",
        DataType::Version => "STRING",
        DataType::Character => "CHAR",
        DataType::Side => "CHAR",
        DataType::Flag => "BOOLEAN",
        DataType::Integer => "INT",
        DataType::NoEncryption => "INT",
        DataType::SequenceNumber => "SEQNUM",
        DataType::Count => "NUMINGROUP",
        DataType::One => "NUMINGROUP",
        DataType::Two => "NUMINGROUP",
        DataType::Length => "LENGTH",
        DataType::Price => "PRICE",
        DataType::Quantity => "QTY",
        DataType::Utc => "UTCTIMESTAMP",
    }
}

#[tactic(auto, unfolding(crate::specs::Fields::fields))]
fn fields() -> &'static [Field]
    ensures { map seen result.now ≡ fields }
{
    &FIELDS
}

// The first of these fields with this tag.
fn first_of(fields: &[Field], tag: u32) -> Option<&Field>
    ensures { option_map (λ field. field.now) result ≡ find (λ field. nat_eq field.tag tag) fields.now }
{
    fields.iter().find(|field| field.tag == tag)
}

fn field_of(tag: u32) -> Option<Field>
    ensures { option_map seen result ≡ field_with tag }
{
    first_of(fields(), tag).copied()
}

/// The name of the field with this tag, or an empty one where no field has it.
pub fn name_of(tag: u32) -> &'static str
    ensures { result.now ≡ name_of tag }
{
    match field_of(tag) {
        Some(field) => field.name,
        None => "",
    }
}

/// The data type of the field with this tag, or a text where no field has it.
pub(crate) fn data_type_of(tag: u32) -> DataType
    ensures { result ≡ data_type_of tag }
{
    match field_of(tag) {
        Some(field) => field.data_type,
        None => DataType::Text,
    }
}
