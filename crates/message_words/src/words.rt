//! A message in words.
ghost use Rattle.std.specs.Prelude.{◌≡◌, ◌++◌, IfOk, OnOk};
ghost use Rattle.message_words.specs.Words.{came_words, words};

use crate::orders::{
    append_cancel, append_change_refused, append_cross, append_order, append_replacement,
    append_report,
};
use crate::prices::{
    append_prices, append_prices_refused, append_prices_request, append_unprocessed,
    append_unsupported,
};
use crate::rooms::{
    append_came_quote, append_quote, append_request, append_request_refused, append_response,
    append_status, append_withdrawal,
};
use fix_dictionary::App;
use std::alloc::{AllocError, Global};

/// Appends a message of the venue in words.
#[tactic(auto, unfolding(crate::specs::Words::words))]
pub fn append_words(alloc: Global, text: &mut Vec<u8>, app: &App) -> Result<(), AllocError>
    ensures { OnOk result (text.new.items ≡ text.old.items ++ words app.now) }
{
    match app {
        App::NewOrderSingle(d) => append_order(alloc, text, d),
        App::OrderCancelRequest(d) => append_cancel(alloc, text, d),
        App::OrderCancelReplaceRequest(d) => append_replacement(alloc, text, d),
        App::NewOrderCross(d) => append_cross(alloc, text, d),
        App::QuoteRequest(d) => append_request(alloc, text, d),
        App::Quote(d) => append_quote(alloc, text, d),
        App::QuoteCancel(d) => append_withdrawal(alloc, text, d),
        App::QuoteResponse(d) => append_response(alloc, text, d),
        App::QuoteStatusReport(d) => append_status(alloc, text, d),
        App::QuoteRequestReject(d) => append_request_refused(alloc, text, d),
        App::ExecutionReport(d) => append_report(alloc, text, d),
        App::OrderCancelReject(d) => append_change_refused(alloc, text, d),
        App::MarketDataRequest(d) => append_prices_request(alloc, text, d),
        App::MarketDataSnapshot(d) => append_prices(alloc, text, d),
        App::MarketDataRequestReject(d) => append_prices_refused(alloc, text, d),
        App::BusinessMessageReject(d) => append_unprocessed(alloc, text, d),
        App::Unsupported(kind) => append_unsupported(alloc, text, kind),
    }
}

/// A message of the venue in words.
pub fn words_of(alloc: Global, app: &App) -> Result<Vec<u8>, AllocError>
    ensures { IfOk result (λ text. text.items ≡ words app.now) }
{
    let mut text = Vec::new(alloc);
    append_words(alloc, &mut text, app)?;
    Ok(text)
}

/// Appends a message that came in words: the parties of a maker's quote do not say whose it is.
#[tactic(auto, unfolding(crate::specs::Words::came_words))]
fn append_came_words(alloc: Global, text: &mut Vec<u8>, app: &App) -> Result<(), AllocError>
    ensures { OnOk result (text.new.items ≡ text.old.items ++ came_words app.now) }
{
    match app {
        App::Quote(d) => append_came_quote(alloc, text, d),
        _ => append_words(alloc, text, app),
    }
}

/// A message that came in words.
pub fn came_words_of(alloc: Global, app: &App) -> Result<Vec<u8>, AllocError>
    ensures { IfOk result (λ text. text.items ≡ came_words app.now) }
{
    let mut text = Vec::new(alloc);
    append_came_words(alloc, &mut text, app)?;
    Ok(text)
}
