//! MsgType (35) of application messages.
ghost use Rattle.std.specs.Prelude.{◌≡◌};
ghost use Rattle.fix_dictionary.specs.Text.{app_kind};
ghost use Rattle.fix_dictionary.specs.Values.{IsText};

use crate::messages::App;

impl App {
    /// MsgType (35).
    pub fn msg_type(&self) -> &[u8]
        ensures value { result.now ≡ app_kind self.now }
        ensures form { IsText 64 result.now }
    {
        match self {
            App::QuoteRequest(_) => b"R",
            App::Quote(_) => b"S",
            App::QuoteCancel(_) => b"Z",
            App::QuoteResponse(_) => b"AJ",
            App::QuoteStatusReport(_) => b"AI",
            App::QuoteRequestReject(_) => b"AG",
            App::NewOrderSingle(_) => b"D",
            App::OrderCancelRequest(_) => b"F",
            App::OrderCancelReplaceRequest(_) => b"G",
            App::NewOrderCross(_) => b"s",
            App::ExecutionReport(_) => b"8",
            App::OrderCancelReject(_) => b"9",
            App::MarketDataRequest(_) => b"V",
            App::MarketDataSnapshot(_) => b"W",
            App::MarketDataRequestReject(_) => b"Y",
            App::BusinessMessageReject(_) => b"j",
            App::Unsupported(kind) => kind.as_slice(),
        }
    }
}
