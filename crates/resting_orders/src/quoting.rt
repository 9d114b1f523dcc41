//! The quote that each input makes.

ghost use Rattle.std.specs.Prelude.{◌≡◌, ◌++◌, [], Some, OnOk, option_map};
ghost use Rattle.std.specs.List.{cons_option, filter_map};
ghost use Rattle.row_replay.specs.Inputs.{input_of};
ghost use Rattle.resting_orders.specs.Quoting.{quoted_at, quoted_by, quoted_in, quoted_what};

use fix_dictionary::{App, Identifier, Price, Quantity, Quote};
use participants::Who;
use sef_moment::Moment;
use std::alloc::AllocError;
use venue_rules::{Reply, ReplyBody, Taken};

/// A quote in a room: its maker, the maker's identifiers of quote (117) and request (131), what is quoted, and until
/// when.
#[derive(Clone, Copy)]
pub struct OwnQuote {
    pub number: u64,
    pub maker: Who,
    pub id: Identifier,
    pub request: Identifier,
    pub symbol: Identifier,
    pub bid: Option<Price>,
    pub offer: Option<Price>,
    pub quantity: Quantity,
    pub end: Moment,
}

fn quoted_what(maker: Who, quote: &Quote, what: &ReplyBody) -> Option<OwnQuote>
    ensures { result ≡ quoted_what maker quote.now what.now }
{
    match what {
        ReplyBody::QuoteSent(sent) => Some(OwnQuote {
            number: sent.quote,
            maker,
            id: quote.quote_id,
            request: quote.request_id,
            symbol: sent.symbol,
            bid: sent.bid,
            offer: sent.offer,
            quantity: sent.quantity,
            end: sent.end,
        }),
        _ => None,
    }
}

/// The quote that a message makes, if it is one.
fn quoted_in(app: &App) -> Option<&Quote>
    ensures { option_map (λ d. d.now) result ≡ quoted_in app.now }
{
    match app {
        App::Quote(quote) => Some(quote),
        App::QuoteRequest(_) => None,
        App::QuoteCancel(_) => None,
        App::QuoteResponse(_) => None,
        App::QuoteStatusReport(_) => None,
        App::QuoteRequestReject(_) => None,
        App::NewOrderSingle(_) => None,
        App::OrderCancelRequest(_) => None,
        App::OrderCancelReplaceRequest(_) => None,
        App::NewOrderCross(_) => None,
        App::ExecutionReport(_) => None,
        App::OrderCancelReject(_) => None,
        App::MarketDataRequest(_) => None,
        App::MarketDataSnapshot(_) => None,
        App::MarketDataRequestReject(_) => None,
        App::BusinessMessageReject(_) => None,
        App::Unsupported(_) => None,
    }
}

fn push_quote(quotes: &mut Vec<OwnQuote>, quote: Option<OwnQuote>) -> Result<(), AllocError>
    ensures { OnOk result (quotes.new.items ≡ quotes.old.items ++ cons_option quote []) }
{
    match quote {
        Some(quote) => {
            let _bid: Option<Price> = quote.bid;
            match quotes.push(quote) {
                Ok(()) => Ok(()),
                Err(_) => Err(AllocError),
            }
        }
        None => Ok(()),
    }
}

fn push_sent(
    quotes: &mut Vec<OwnQuote>,
    maker: Who,
    quote: &Quote,
    replies: &[Reply],
) -> Result<(), AllocError>
    ensures { OnOk result (quotes.new.items ≡ quotes.old.items ++ filter_map (quoted_by maker quote.now) replies.now) }
{
    for reply in replies {
        push_quote(quotes, quoted_what(maker, quote, &reply.what))?;
    }
    Ok(())
}

fn push_taken(
    quotes: &mut Vec<OwnQuote>,
    taken: &Taken,
    moment: Moment,
    replies: &[Reply],
) -> Result<(), AllocError>
    ensures { OnOk result (quotes.new.items ≡ quotes.old.items ++ quoted_at (input_of (Some taken.now) moment) replies.now) }
{
    match quoted_in(taken.item.app.get()) {
        Some(quote) => push_sent(quotes, taken.from, quote, replies),
        None => Ok(()),
    }
}

/// Keeps the quote that an input makes, by the replies to it.
pub(crate) fn keep_quotes(
    quotes: &mut Vec<OwnQuote>,
    taken: &Option<Taken>,
    moment: Moment,
    replies: &[Reply],
) -> Result<(), AllocError>
    ensures { OnOk result (quotes.new.items ≡ quotes.old.items ++ quoted_at (input_of taken.now moment) replies.now) }
{
    match taken {
        Some(taken) => push_taken(quotes, taken, moment, replies),
        None => Ok(()),
    }
}
