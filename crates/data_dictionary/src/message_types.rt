//! The types of messages that the venue reads or sends, as the dictionaries list them.
ghost use Rattle.std.specs.Prelude.{◌≡◌, map};
ghost use Rattle.data_dictionary.specs.MessageTypes.{application_types, seen, session_types};

/// A message type.
#[derive(Clone, Copy)]
pub struct Listed {
    /// the value of 35
    pub code: &'static str,
    /// its name in FIXT 1.1 and FIX 5.0 SP2
    pub name: &'static str,
}

macro_rules! listed {
    ($code:expr, $name:expr) => {
        Listed {
            code: $code,
            name: $name,
        }
    };
}

const SESSION: [Listed; 7] = [
    listed!("0", "Heartbeat"),
    listed!("1", "TestRequest"),
    listed!("2", "ResendRequest"),
    listed!("3", "Reject"),
    listed!("4", "SequenceReset"),
    listed!("5", "Logout"),
    listed!("A", "Logon"),
];

const APPLICATION: [Listed; 16] = [
    listed!("R", "QuoteRequest"),
    listed!("S", "Quote"),
    listed!("Z", "QuoteCancel"),
    listed!("AJ", "QuoteResponse"),
    listed!("AI", "QuoteStatusReport"),
    listed!("AG", "QuoteRequestReject"),
    listed!("D", "NewOrderSingle"),
    listed!("F", "OrderCancelRequest"),
    listed!("G", "OrderCancelReplaceRequest"),
    listed!("s", "NewOrderCross"),
    listed!("8", "ExecutionReport"),
    listed!("9", "OrderCancelReject"),
    listed!("V", "MarketDataRequest"),
    listed!("W", "MarketDataSnapshotFullRefresh"),
    listed!("Y", "MarketDataRequestReject"),
    listed!("j", "BusinessMessageReject"),
];

/// The types of the session's own messages.
#[tactic(auto, unfolding(crate::specs::MessageTypes::session_types))]
pub fn session_types() -> &'static [Listed]
    ensures { map seen result.now ≡ session_types }
{
    &SESSION
}

/// The types of the application messages.
#[tactic(auto, unfolding(crate::specs::MessageTypes::application_types))]
pub fn application_types() -> &'static [Listed]
    ensures { map seen result.now ≡ application_types }
{
    &APPLICATION
}
