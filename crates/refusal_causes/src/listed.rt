//! The number of a cause in docs/PROTOCOL.md, and how many its list there has.

ghost use Rattle.std.specs.Prelude.{◌≡◌};
ghost use Rattle.refusal_causes.specs.Listed.{change_listed, change_number, many_in, number_in, one_fewer, quote_listed, quote_number, quote_state_number};

use crate::verdict::Place;
use fix_dictionary::App;
use venue_rules::{ChangeRefusal, QuoteRefusal, QuoteState, ReplyBody};

fn change_number(cause: ChangeRefusal) -> u64
    ensures { result ≡ change_number cause }
{
    match cause {
        ChangeRefusal::UnknownOrder => 1,
        ChangeRefusal::DuplicateClOrdId => 2,
        ChangeRefusal::HeldSide => 3,
        ChangeRefusal::UnsupportedOrder => 4,
        ChangeRefusal::PriceOffTick => 6,
        ChangeRefusal::QuantityBelowLeast => 7,
        ChangeRefusal::QuantityAlreadyFilled => 8,
        ChangeRefusal::LinkedOrderTooRecent => 9,
    }
}

fn change_listed(what: &ReplyBody) -> u64
    ensures { result ≡ change_listed what.now }
{
    match what {
        ReplyBody::ChangeRefused(refused) => change_number(refused.cause),
        _ => 5,
    }
}

fn quote_number(cause: QuoteRefusal) -> u64
    ensures { result ≡ quote_number cause }
{
    match cause {
        QuoteRefusal::UnknownRequest => 1,
        QuoteRefusal::NotAsked => 2,
        QuoteRefusal::RoomOver => 3,
        QuoteRefusal::UnknownInstrument => 4,
        QuoteRefusal::DuplicateQuote => 5,
        QuoteRefusal::NotTradeable => 6,
        QuoteRefusal::InvalidPrice => 7,
        QuoteRefusal::Size => 8,
        QuoteRefusal::EndPassed => 9,
    }
}

fn quote_state_number(state: &QuoteState) -> u64
    ensures { result ≡ quote_state_number state.now }
{
    match state {
        QuoteState::Refused(cause) => quote_number(*cause),
        _ => 0,
    }
}

fn quote_listed(what: &ReplyBody) -> u64
    ensures { result ≡ quote_listed what.now }
{
    match what {
        ReplyBody::QuoteStatus(status) => quote_state_number(&status.state),
        _ => 0,
    }
}

fn one_fewer(last: u64, place: u64) -> u64
    ensures { result ≡ one_fewer last place }
{
    if last < place { place - 1 } else { place }
}

fn number_in(app: &App, place: u64, what: &ReplyBody) -> u64
    ensures { result ≡ number_in app.now place what.now }
{
    match app {
        App::OrderCancelRequest(_) => change_listed(what),
        App::OrderCancelReplaceRequest(_) => change_listed(what),
        App::NewOrderCross(_) => one_fewer(9, place),
        App::Quote(_) => quote_listed(what),
        App::QuoteResponse(_) => one_fewer(7, place),
        App::QuoteCancel(_) => 0,
        _ => place,
    }
}

fn many_in(app: &App, count: u64) -> u64
    ensures { result ≡ many_in app.now count }
{
    match app {
        App::OrderCancelRequest(_) => 9,
        App::OrderCancelReplaceRequest(_) => 9,
        App::NewOrderCross(_) => 10,
        App::Quote(_) => 9,
        App::QuoteResponse(_) => 8,
        _ => count,
    }
}

/// The number there of a cause with this place in the rules' list (0 where there is no list), and how many there are.
pub(crate) fn listed_place(app: &App, place: Place, what: &ReplyBody) -> Place
    ensures number { result.cause ≡ number_in app.now place.cause what.now }
    ensures many { result.count ≡ many_in app.now place.count }
{
    Place {
        cause: number_in(app, place.cause, what),
        count: many_in(app, place.count),
    }
}
