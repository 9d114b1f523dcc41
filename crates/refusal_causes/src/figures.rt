//! The figures that decide a cause, besides those of the message itself.

ghost use Rattle.std.specs.Prelude.{◌≡◌, ◌++◌, pos, OnOk, decimal};
ghost use Rattle.instruments.specs.Listing.{instrument_of, least_of, tick_of};
ghost use Rattle.fix_dictionary.specs.Text.{given};
ghost use Rattle.message_words.specs.Parts.{parts_text, shown_option};
ghost use Rattle.refusal_causes.specs.Figures.{change_figured, change_figures, cross_figured, cross_figures, due_figures, figures, figures_parts, filled_of, market_figured, market_figures, no_figures, of_identifier, of_instrument, order_figured, order_figures, quote_figured, quote_figures, request_figured, request_figures, state_figures};

use fix_dictionary::{
    App, Identifier, MarketDataRequest, NewOrderCross, NewOrderSingle, Price, Quote, QuoteRequest,
};
use instruments::Instruments;
use message_words::{Part, Value, append_parts, identifier_value, price_value};
use std::alloc::{AllocError, Global};
use venue_rules::{
    ChangeRefusal, ChangeRefused, CrossRefusal, MarketDataRefusal, OrderRefusal, OrderStatus,
    QuoteRefusal, QuoteState, ReplyBody, RequestRefusal,
};

macro_rules! part {
    ($before:expr, $value:expr) => {
        Part {
            before: $before,
            value: $value,
        }
    };
}

/// The figures that decide a cause, each where it does.
#[derive(Clone, Copy)]
pub struct Figures {
    /// the identifier that was used before, or that nothing has
    pub identifier: Option<Identifier>,
    pub instrument: Option<Identifier>,
    pub price: Option<Price>,
    pub tick: Option<Price>,
    pub quantity: Option<u64>,
    pub least: Option<u64>,
    pub filled: Option<u64>,
}

impl Figures {
    fn none() -> Figures
        ensures { result ≡ no_figures }
    {
        Figures {
            identifier: None,
            instrument: None,
            price: None,
            tick: None,
            quantity: None,
            least: None,
            filled: None,
        }
    }

    fn of_identifier(id: Identifier) -> Figures
        ensures { result ≡ of_identifier id }
    {
        Figures {
            identifier: Some(id),
            ..Figures::none()
        }
    }

    fn of_instrument(symbol: Identifier) -> Figures
        ensures { result ≡ of_instrument symbol }
    {
        Figures {
            instrument: Some(symbol),
            ..Figures::none()
        }
    }
}

/// The tick of a symbol's instrument, as a price; a millionth where there is none.
fn tick_for(instruments: &Instruments, symbol: &Identifier) -> Price
    ensures { result ≡ pos (tick_of instruments.now (instrument_of instruments.now symbol.now)) }
{
    match instruments.find(symbol.as_slice()) {
        Some(place) => Price::new(instruments.get(place).tick as i64),
        None => Price::new(1),
    }
}

/// The least quantity of a symbol's instrument; 1 where there is none.
fn least_for(instruments: &Instruments, symbol: &Identifier) -> u64
    ensures { result ≡ least_of instruments.now (instrument_of instruments.now symbol.now) }
{
    match instruments.find(symbol.as_slice()) {
        Some(place) => instruments.get(place).least,
        None => 1,
    }
}

fn order_figures(instruments: &Instruments, d: &NewOrderSingle, cause: OrderRefusal) -> Figures
    ensures { result ≡ order_figures instruments.now d.now cause }
{
    match cause {
        OrderRefusal::UnknownInstrument => Figures::of_instrument(d.symbol),
        OrderRefusal::DuplicateClOrdId => Figures::of_identifier(d.order_id),
        OrderRefusal::UnsupportedOrder => Figures::none(),
        OrderRefusal::PriceOffTick => Figures {
            instrument: Some(d.symbol),
            price: d.price,
            tick: Some(tick_for(instruments, &d.symbol)),
            ..Figures::none()
        },
        OrderRefusal::QuantityBelowLeast => Figures {
            instrument: Some(d.symbol),
            quantity: Some(d.quantity.get()),
            least: Some(least_for(instruments, &d.symbol)),
            ..Figures::none()
        },
        OrderRefusal::LinkedOrderTooRecent => Figures::of_instrument(d.symbol),
        OrderRefusal::BookSideFull => Figures::of_instrument(d.symbol),
    }
}

fn cross_figures(instruments: &Instruments, d: &NewOrderCross, cause: CrossRefusal) -> Figures
    ensures { result ≡ cross_figures instruments.now d.now cause }
{
    match cause {
        CrossRefusal::UnknownInstrument => Figures::of_instrument(d.symbol),
        CrossRefusal::DuplicateCrossId => Figures::of_identifier(d.cross_id),
        CrossRefusal::DuplicateClOrdId => Figures::none(),
        CrossRefusal::UnsupportedOrder => Figures::none(),
        CrossRefusal::OneBuyAndOneSell => Figures::none(),
        CrossRefusal::PriceOffTick => Figures {
            instrument: Some(d.symbol),
            price: d.price,
            tick: Some(tick_for(instruments, &d.symbol)),
            ..Figures::none()
        },
        CrossRefusal::Quantity => Figures {
            instrument: Some(d.symbol),
            least: Some(least_for(instruments, &d.symbol)),
            ..Figures::none()
        },
        CrossRefusal::LinkedOrderTooRecent => Figures::of_instrument(d.symbol),
        CrossRefusal::BookSideFull => Figures::of_instrument(d.symbol),
        CrossRefusal::TooManyHeld => Figures::none(),
    }
}

fn request_figures(instruments: &Instruments, d: &QuoteRequest, cause: RequestRefusal) -> Figures
    ensures { result ≡ request_figures instruments.now d.now cause }
{
    match cause {
        RequestRefusal::DuplicateRequest => Figures::of_identifier(d.request_id),
        RequestRefusal::UnknownInstrument => Figures::of_instrument(d.symbol),
        RequestRefusal::QuantityBelowLeast => Figures {
            instrument: Some(d.symbol),
            quantity: Some(d.quantity.get()),
            least: Some(least_for(instruments, &d.symbol)),
            ..Figures::none()
        },
        RequestRefusal::UnknownParticipant => Figures::none(),
        RequestRefusal::RequesterAmongRecipients => Figures::none(),
        RequestRefusal::RecipientTwice => Figures::none(),
        RequestRefusal::TooManyRecipients => Figures::none(),
        RequestRefusal::TooFewRecipients => Figures::none(),
        RequestRefusal::RecipientsNotUnrelated => Figures::none(),
        RequestRefusal::TooManyRequests => Figures::none(),
    }
}

fn quote_figures(instruments: &Instruments, d: &Quote, cause: QuoteRefusal) -> Figures
    ensures { result ≡ quote_figures instruments.now d.now cause }
{
    match cause {
        QuoteRefusal::UnknownRequest => Figures::of_identifier(d.request_id),
        QuoteRefusal::NotAsked => Figures::of_identifier(d.request_id),
        QuoteRefusal::RoomOver => Figures::of_identifier(d.request_id),
        QuoteRefusal::UnknownInstrument => Figures::of_instrument(d.symbol),
        QuoteRefusal::DuplicateQuote => Figures::of_identifier(d.quote_id),
        QuoteRefusal::NotTradeable => Figures::none(),
        QuoteRefusal::InvalidPrice => Figures {
            instrument: Some(d.symbol),
            tick: Some(tick_for(instruments, &d.symbol)),
            ..Figures::none()
        },
        QuoteRefusal::Size => Figures::none(),
        QuoteRefusal::EndPassed => Figures::none(),
    }
}

fn market_figures(
    _instruments: &Instruments,
    d: &MarketDataRequest,
    cause: MarketDataRefusal,
) -> Figures
    ensures { result ≡ market_figures _instruments.now d.now cause }
{
    match cause {
        MarketDataRefusal::UnknownInstrument => Figures::of_instrument(d.symbol),
        MarketDataRefusal::SnapshotsOnly => Figures::none(),
        MarketDataRefusal::FullDepthOnly => Figures::none(),
    }
}

fn filled_of(standing: &Option<OrderStatus>) -> Option<u64>
    ensures { result ≡ filled_of standing.now }
{
    match standing {
        None => None,
        Some(status) => Some(status.filled.get()),
    }
}

fn change_figures(refused: &ChangeRefused, cause: ChangeRefusal) -> Figures
    ensures { result ≡ change_figures refused.now cause }
{
    match cause {
        ChangeRefusal::UnknownOrder => Figures::of_identifier(refused.original_id),
        ChangeRefusal::DuplicateClOrdId => Figures::of_identifier(refused.id),
        ChangeRefusal::HeldSide => Figures::of_identifier(refused.original_id),
        ChangeRefusal::UnsupportedOrder => Figures::none(),
        ChangeRefusal::PriceOffTick => Figures::none(),
        ChangeRefusal::QuantityBelowLeast => Figures::none(),
        ChangeRefusal::QuantityAlreadyFilled => Figures {
            filled: filled_of(&refused.standing),
            ..Figures::none()
        },
        ChangeRefusal::LinkedOrderTooRecent => Figures::none(),
    }
}

fn order_figured(instruments: &Instruments, d: &NewOrderSingle, what: &ReplyBody) -> Figures
    ensures { result ≡ order_figured instruments.now d.now what.now }
{
    match what {
        ReplyBody::OrderRefused(refused) => order_figures(instruments, d, refused.cause),
        _ => Figures::none(),
    }
}

fn cross_figured(instruments: &Instruments, d: &NewOrderCross, what: &ReplyBody) -> Figures
    ensures { result ≡ cross_figured instruments.now d.now what.now }
{
    match what {
        ReplyBody::CrossRefused(refused) => cross_figures(instruments, d, refused.cause),
        _ => Figures::none(),
    }
}

fn request_figured(instruments: &Instruments, d: &QuoteRequest, what: &ReplyBody) -> Figures
    ensures { result ≡ request_figured instruments.now d.now what.now }
{
    match what {
        ReplyBody::RequestRefused(refused) => request_figures(instruments, d, refused.cause),
        _ => Figures::none(),
    }
}

fn state_figures(instruments: &Instruments, d: &Quote, state: &QuoteState) -> Figures
    ensures { result ≡ state_figures instruments.now d.now state.now }
{
    match state {
        QuoteState::Refused(cause) => quote_figures(instruments, d, *cause),
        _ => Figures::none(),
    }
}

fn quote_figured(instruments: &Instruments, d: &Quote, what: &ReplyBody) -> Figures
    ensures { result ≡ quote_figured instruments.now d.now what.now }
{
    match what {
        ReplyBody::QuoteStatus(status) => state_figures(instruments, d, &status.state),
        _ => Figures::none(),
    }
}

fn market_figured(instruments: &Instruments, d: &MarketDataRequest, what: &ReplyBody) -> Figures
    ensures { result ≡ market_figured instruments.now d.now what.now }
{
    match what {
        ReplyBody::MarketDataReject(refused) => market_figures(instruments, d, refused.cause),
        _ => Figures::none(),
    }
}

fn change_figured(what: &ReplyBody) -> Figures
    ensures { result ≡ change_figured what.now }
{
    match what {
        ReplyBody::ChangeRefused(refused) => change_figures(refused, refused.cause),
        _ => Figures::none(),
    }
}

/// The figures that decide the cause that the first reply to a message names.
pub(crate) fn figures_for(instruments: &Instruments, app: &App, what: &ReplyBody) -> Figures
    ensures { result ≡ figures instruments.now app.now what.now }
{
    match app {
        App::NewOrderSingle(d) => order_figured(instruments, d, what),
        App::NewOrderCross(d) => cross_figured(instruments, d, what),
        App::QuoteRequest(d) => request_figured(instruments, d, what),
        App::Quote(d) => quote_figured(instruments, d, what),
        App::MarketDataRequest(d) => market_figured(instruments, d, what),
        App::OrderCancelRequest(_) => change_figured(what),
        App::OrderCancelReplaceRequest(_) => change_figured(what),
        App::QuoteResponse(d) => Figures::of_identifier(d.quote_id),
        App::QuoteCancel(d) => Figures {
            identifier: d.quote_id,
            ..Figures::none()
        },
        _ => Figures::none(),
    }
}

/// The figures of a held side that is refused at a row of the clock.
pub(crate) fn due_figures(what: &ReplyBody) -> Figures
    ensures { result ≡ due_figures what.now }
{
    match what {
        ReplyBody::OrderRefused(refused) => Figures {
            identifier: Some(refused.order.id),
            instrument: Some(refused.order.symbol),
            ..Figures::none()
        },
        _ => Figures::none(),
    }
}

fn count_value<'a>(v: Option<u64>) -> Option<Value<'a>>
    ensures { shown_option result ≡ given decimal v }
{
    match v {
        Some(n) => Some(Value::Number(n)),
        None => None,
    }
}

/// Appends figures, each on a line of its own.
pub(crate) fn append_figures(
    alloc: Global,
    text: &mut Vec<u8>,
    f: &Figures,
) -> Result<(), AllocError>
    ensures { OnOk result (text.new.items ≡ text.old.items ++ parts_text (figures_parts f.now)) }
{
    append_parts(
        alloc,
        text,
        &[
            part!(b"\n    identifier ", identifier_value(&f.identifier)),
            part!(b"\n    instrument ", identifier_value(&f.instrument)),
            part!(b"\n    price ", price_value(f.price)),
            part!(b"\n    tick ", price_value(f.tick)),
            part!(b"\n    quantity ", count_value(f.quantity)),
            part!(b"\n    least quantity ", count_value(f.least)),
            part!(b"\n    filled so far ", count_value(f.filled)),
        ],
    )
}
