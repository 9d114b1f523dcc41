//! Of which kind a message is.
ghost use Rattle.std.specs.Prelude.{◌≡◌};
ghost use Rattle.message_words.specs.Kinds.{kind_of};

use crate::names::report_kind;
use fix_dictionary::App;

/// Of which kind a message is, in a word or two.
#[tactic(auto, unfolding(crate::specs::Kinds::kind_of))]
pub fn kind_of(app: &App) -> &'static [u8]
    ensures { result.now ≡ kind_of app.now }
{
    match app {
        App::NewOrderSingle(_) => b"order",
        App::OrderCancelRequest(_) => b"cancel",
        App::OrderCancelReplaceRequest(_) => b"replacement",
        App::NewOrderCross(_) => b"cross",
        App::QuoteRequest(_) => b"request",
        App::Quote(_) => b"quote",
        App::QuoteCancel(_) => b"withdrawal",
        App::QuoteResponse(_) => b"response",
        App::QuoteStatusReport(_) => b"status",
        App::QuoteRequestReject(_) => b"request refused",
        App::ExecutionReport(report) => report_kind(report.execution_type),
        App::OrderCancelReject(_) => b"change refused",
        App::MarketDataRequest(_) => b"prices request",
        App::MarketDataSnapshot(_) => b"prices",
        App::MarketDataRequestReject(_) => b"prices refused",
        App::BusinessMessageReject(_) => b"not processed",
        App::Unsupported(_) => b"unsupported",
    }
}
