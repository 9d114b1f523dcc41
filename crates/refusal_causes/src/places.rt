//! Which cause of its list an answer names, and how many causes the list has.

ghost use Rattle.std.specs.Prelude.{◌≡◌};
ghost use Rattle.refusal_causes.specs.Causes.{is_of_all, is_of_one, is_pass};
ghost use Rattle.refusal_causes.specs.Places.{cancel_named, change_count, change_place, count, counted_by, cross_named, cross_place, cross_waits, due_count, due_named, due_place, first_named, first_waits, gone_count, gone_place, is_full_request, is_recent_change, is_recent_cross, is_recent_order, is_unknown_request, is_unsupported, kind_count, market_named, market_place, missing_place, named_by, order_named, order_place, order_waits, place, quote_count, quote_named, quote_place, quote_state_count, quote_state_place, replace_count, replace_named, replace_waits, request_named, request_place, request_waits, response_count, response_named, response_place, response_state_count, response_state_place, standing_count, waits, waits_by, withdrawal_count, withdrawal_named, withdrawal_state_place};

use fix_dictionary::{App, Identifier, QuoteCancel, QuoteResponse};
use venue_rules::{
    BusinessRefusal, ChangeRefusal, CrossRefusal, MarketDataRefusal, OrderRefusal, OrderStatus,
    QuoteRefusal, QuoteState, Reply, ReplyBody, RequestRefusal, ResponseRefusal,
};

fn order_place(cause: OrderRefusal) -> u64
    ensures { result ≡ order_place cause }
{
    match cause {
        OrderRefusal::UnknownInstrument => 1,
        OrderRefusal::DuplicateClOrdId => 2,
        OrderRefusal::UnsupportedOrder => 3,
        OrderRefusal::PriceOffTick => 5,
        OrderRefusal::QuantityBelowLeast => 6,
        OrderRefusal::LinkedOrderTooRecent => 7,
        OrderRefusal::BookSideFull => 8,
    }
}

fn change_place(cause: ChangeRefusal) -> u64
    ensures { result ≡ change_place cause }
{
    match cause {
        ChangeRefusal::UnknownOrder => 1,
        ChangeRefusal::DuplicateClOrdId => 1,
        ChangeRefusal::HeldSide => 2,
        ChangeRefusal::UnsupportedOrder => 2,
        ChangeRefusal::PriceOffTick => 4,
        ChangeRefusal::QuantityBelowLeast => 5,
        ChangeRefusal::QuantityAlreadyFilled => 6,
        ChangeRefusal::LinkedOrderTooRecent => 7,
    }
}

fn cross_place(cause: CrossRefusal) -> u64
    ensures { result ≡ cross_place cause }
{
    match cause {
        CrossRefusal::UnknownInstrument => 1,
        CrossRefusal::DuplicateCrossId => 2,
        CrossRefusal::DuplicateClOrdId => 3,
        CrossRefusal::UnsupportedOrder => 4,
        CrossRefusal::OneBuyAndOneSell => 6,
        CrossRefusal::PriceOffTick => 7,
        CrossRefusal::Quantity => 8,
        CrossRefusal::LinkedOrderTooRecent => 9,
        CrossRefusal::BookSideFull => 10,
        CrossRefusal::TooManyHeld => 11,
    }
}

fn request_place(cause: RequestRefusal) -> u64
    ensures { result ≡ request_place cause }
{
    match cause {
        RequestRefusal::DuplicateRequest => 1,
        RequestRefusal::UnknownInstrument => 2,
        RequestRefusal::QuantityBelowLeast => 3,
        RequestRefusal::UnknownParticipant => 4,
        RequestRefusal::RequesterAmongRecipients => 5,
        RequestRefusal::RecipientTwice => 6,
        RequestRefusal::TooManyRecipients => 7,
        RequestRefusal::TooFewRecipients => 8,
        RequestRefusal::RecipientsNotUnrelated => 9,
        RequestRefusal::TooManyRequests => 10,
    }
}

fn quote_place(cause: QuoteRefusal) -> u64
    ensures { result ≡ quote_place cause }
{
    match cause {
        QuoteRefusal::UnknownRequest => 1,
        QuoteRefusal::NotAsked => 1,
        QuoteRefusal::RoomOver => 2,
        QuoteRefusal::UnknownInstrument => 3,
        QuoteRefusal::DuplicateQuote => 4,
        QuoteRefusal::NotTradeable => 5,
        QuoteRefusal::InvalidPrice => 6,
        QuoteRefusal::Size => 7,
        QuoteRefusal::EndPassed => 8,
    }
}

fn response_place(cause: ResponseRefusal) -> u64
    ensures { result ≡ response_place cause }
{
    match cause {
        ResponseRefusal::UnsupportedResponse => 1,
        ResponseRefusal::NotYours => 3,
        ResponseRefusal::Side => 7,
        ResponseRefusal::InvalidPrice => 9,
    }
}

fn market_place(cause: MarketDataRefusal) -> u64
    ensures { result ≡ market_place cause }
{
    match cause {
        MarketDataRefusal::UnknownInstrument => 1,
        MarketDataRefusal::SnapshotsOnly => 2,
        MarketDataRefusal::FullDepthOnly => 3,
    }
}

/// The place of a missing field in a list, unless the type itself is not processed.
fn missing_place(cause: BusinessRefusal, place: u64) -> u64
    ensures { result ≡ missing_place cause place }
{
    match cause {
        BusinessRefusal::UnsupportedMessageType => 0,
        BusinessRefusal::PriceMissing => place,
        BusinessRefusal::QuoteMissing => place,
        BusinessRefusal::SideMissing => place,
    }
}

fn order_named(what: &ReplyBody) -> u64
    ensures { result ≡ order_named what.now }
{
    match what {
        ReplyBody::OrderRefused(refused) => order_place(refused.cause),
        ReplyBody::BusinessReject(refused) => missing_place(refused.cause, 4),
        _ => 0,
    }
}

fn cancel_named(what: &ReplyBody) -> u64
    ensures { result ≡ cancel_named what.now }
{
    match what {
        ReplyBody::ChangeRefused(refused) => change_place(refused.cause),
        _ => 0,
    }
}

fn replace_named(what: &ReplyBody) -> u64
    ensures { result ≡ replace_named what.now }
{
    match what {
        ReplyBody::ChangeRefused(refused) => change_place(refused.cause),
        ReplyBody::BusinessReject(refused) => missing_place(refused.cause, 3),
        _ => 0,
    }
}

fn cross_named(what: &ReplyBody) -> u64
    ensures { result ≡ cross_named what.now }
{
    match what {
        ReplyBody::CrossRefused(refused) => cross_place(refused.cause),
        ReplyBody::BusinessReject(refused) => missing_place(refused.cause, 5),
        _ => 0,
    }
}

fn request_named(what: &ReplyBody) -> u64
    ensures { result ≡ request_named what.now }
{
    match what {
        ReplyBody::RequestRefused(refused) => request_place(refused.cause),
        _ => 0,
    }
}

fn quote_state_place(state: &QuoteState) -> u64
    ensures { result ≡ quote_state_place state.now }
{
    match state {
        QuoteState::Refused(cause) => quote_place(*cause),
        _ => 0,
    }
}

fn quote_named(what: &ReplyBody) -> u64
    ensures { result ≡ quote_named what.now }
{
    match what {
        ReplyBody::QuoteStatus(status) => quote_state_place(&status.state),
        _ => 0,
    }
}

fn gone_place(symbol: &Option<Identifier>) -> u64
    ensures { result ≡ gone_place symbol.now }
{
    match symbol {
        None => 2,
        Some(_) => 4,
    }
}

fn response_state_place(state: &QuoteState, symbol: &Option<Identifier>) -> u64
    ensures { result ≡ response_state_place state.now symbol.now }
{
    match state {
        QuoteState::ResponseRefused(cause) => response_place(*cause),
        QuoteState::NotFound => gone_place(symbol),
        QuoteState::Withdrawn => 5,
        QuoteState::Expired => 6,
        _ => 0,
    }
}

fn response_named(what: &ReplyBody) -> u64
    ensures { result ≡ response_named what.now }
{
    match what {
        ReplyBody::QuoteStatus(status) => response_state_place(&status.state, &status.symbol),
        ReplyBody::BusinessReject(refused) => missing_place(refused.cause, 8),
        _ => 0,
    }
}

fn withdrawal_state_place(state: &QuoteState, one: bool) -> u64
    ensures { result ≡ withdrawal_state_place state.now one }
{
    match state {
        QuoteState::CancelUnsupported => 1,
        QuoteState::NotFound => { if one { 3 } else { 2 } }
        _ => 0,
    }
}

fn withdrawal_named(one: bool, what: &ReplyBody) -> u64
    ensures { result ≡ withdrawal_named one what.now }
{
    match what {
        ReplyBody::QuoteStatus(status) => withdrawal_state_place(&status.state, one),
        ReplyBody::BusinessReject(refused) => missing_place(refused.cause, 2),
        _ => 0,
    }
}

fn market_named(what: &ReplyBody) -> u64
    ensures { result ≡ market_named what.now }
{
    match what {
        ReplyBody::MarketDataReject(refused) => market_place(refused.cause),
        _ => 0,
    }
}

fn is_pass(response: &QuoteResponse) -> bool
    ensures { result ≡ is_pass response.now }
{
    response.response_type.get() == 6
}

fn is_of_one(request: &QuoteCancel) -> bool
    ensures { result ≡ is_of_one request.now }
{
    request.cancel_type.get() == 5
}

fn is_of_all(request: &QuoteCancel) -> bool
    ensures { result ≡ is_of_all request.now }
{
    request.cancel_type.get() == 4
}

fn named_by(app: &App, what: &ReplyBody) -> u64
    ensures { result ≡ named_by app.now what.now }
{
    match app {
        App::NewOrderSingle(_) => order_named(what),
        App::OrderCancelRequest(_) => cancel_named(what),
        App::OrderCancelReplaceRequest(_) => replace_named(what),
        App::NewOrderCross(_) => cross_named(what),
        App::QuoteRequest(_) => request_named(what),
        App::Quote(_) => quote_named(what),
        App::QuoteResponse(_) => response_named(what),
        App::QuoteCancel(d) => withdrawal_named(is_of_one(d), what),
        App::MarketDataRequest(_) => market_named(what),
        _ => 0,
    }
}

/// The number of the cause that the replies to a message name, from 1; 0 where they name none.
pub(crate) fn place(app: &App, replies: &[Reply]) -> u64
    ensures { result ≡ place app.now replies.now }
{
    match replies.split_first() {
        Some((first, _)) => named_by(app, &first.what),
        None => 0,
    }
}

fn standing_count(standing: &Option<OrderStatus>) -> u64
    ensures { result ≡ standing_count standing.now }
{
    match standing {
        None => 2,
        Some(_) => 7,
    }
}

fn change_count(cause: ChangeRefusal, standing: &Option<OrderStatus>) -> u64
    ensures { result ≡ change_count cause standing.now }
{
    match cause {
        ChangeRefusal::UnknownOrder => 1,
        ChangeRefusal::DuplicateClOrdId => standing_count(standing),
        ChangeRefusal::HeldSide => standing_count(standing),
        ChangeRefusal::UnsupportedOrder => standing_count(standing),
        ChangeRefusal::PriceOffTick => standing_count(standing),
        ChangeRefusal::QuantityBelowLeast => standing_count(standing),
        ChangeRefusal::QuantityAlreadyFilled => standing_count(standing),
        ChangeRefusal::LinkedOrderTooRecent => standing_count(standing),
    }
}

fn replace_count(what: &ReplyBody) -> u64
    ensures { result ≡ replace_count what.now }
{
    match what {
        ReplyBody::ChangeRefused(refused) => change_count(refused.cause, &refused.standing),
        _ => 7,
    }
}

fn is_unknown_request(cause: QuoteRefusal) -> bool
    ensures { result ≡ is_unknown_request cause }
{
    matches!(cause, QuoteRefusal::UnknownRequest)
}

fn quote_state_count(state: &QuoteState) -> u64
    ensures { result ≡ quote_state_count state.now }
{
    match state {
        QuoteState::Refused(cause) => { if is_unknown_request(*cause) { 1 } else { 8 } }
        _ => 8,
    }
}

fn quote_count(what: &ReplyBody) -> u64
    ensures { result ≡ quote_count what.now }
{
    match what {
        ReplyBody::QuoteStatus(status) => quote_state_count(&status.state),
        _ => 8,
    }
}

fn kind_count(passes: bool) -> u64
    ensures { result ≡ kind_count passes }
{
    if passes { 6 } else { 9 }
}

fn gone_count(symbol: &Option<Identifier>, passes: bool) -> u64
    ensures { result ≡ gone_count symbol.now passes }
{
    match symbol {
        None => 2,
        Some(_) => kind_count(passes),
    }
}

fn is_unsupported(cause: ResponseRefusal) -> bool
    ensures { result ≡ is_unsupported cause }
{
    matches!(cause, ResponseRefusal::UnsupportedResponse)
}

fn response_state_count(state: &QuoteState, symbol: &Option<Identifier>, passes: bool) -> u64
    ensures { result ≡ response_state_count state.now symbol.now passes }
{
    match state {
        QuoteState::ResponseRefused(cause) => {
            if is_unsupported(*cause) {
                1
            } else {
                kind_count(passes)
            }
        }
        QuoteState::NotFound => gone_count(symbol, passes),
        _ => kind_count(passes),
    }
}

fn response_count(passes: bool, what: &ReplyBody) -> u64
    ensures { result ≡ response_count passes what.now }
{
    match what {
        ReplyBody::QuoteStatus(status) => {
            response_state_count(&status.state, &status.symbol, passes)
        }
        _ => kind_count(passes),
    }
}

fn withdrawal_count(one: bool, all: bool) -> u64
    ensures { result ≡ withdrawal_count one all }
{
    if one {
        return 3;
    }
    if all { 2 } else { 1 }
}

fn counted_by(app: &App, what: &ReplyBody) -> u64
    ensures { result ≡ counted_by app.now what.now }
{
    match app {
        App::NewOrderSingle(_) => 8,
        App::OrderCancelRequest(_) => 1,
        App::OrderCancelReplaceRequest(_) => replace_count(what),
        App::NewOrderCross(_) => 11,
        App::QuoteRequest(_) => 10,
        App::Quote(_) => quote_count(what),
        App::QuoteResponse(d) => response_count(is_pass(d), what),
        App::QuoteCancel(d) => withdrawal_count(is_of_one(d), is_of_all(d)),
        App::MarketDataRequest(_) => 3,
        _ => 0,
    }
}

/// Of how many causes the list is in which the cause stands that the replies name.
pub(crate) fn count(app: &App, replies: &[Reply]) -> u64
    ensures { result ≡ count app.now replies.now }
{
    match replies.split_first() {
        Some((first, _)) => counted_by(app, &first.what),
        None => 0,
    }
}

fn due_place(cause: OrderRefusal) -> u64
    ensures { result ≡ due_place cause }
{
    match cause {
        OrderRefusal::LinkedOrderTooRecent => 1,
        OrderRefusal::BookSideFull => 2,
        _ => 0,
    }
}

fn due_named(what: &ReplyBody) -> u64
    ensures { result ≡ due_named what.now }
{
    match what {
        ReplyBody::OrderRefused(refused) => due_place(refused.cause),
        _ => 0,
    }
}

/// The number of the cause for which a held side that is due was refused; 0 where it was not.
pub(crate) fn place_due(replies: &[Reply]) -> u64
    ensures { result ≡ first_named due_named replies.now }
{
    match replies.split_first() {
        Some((first, _)) => due_named(&first.what),
        None => 0,
    }
}

/// Of how many causes the list of a held side that is due is.
pub(crate) fn count_due(replies: &[Reply]) -> u64
    ensures { result ≡ first_named due_count replies.now }
{
    match replies.split_first() {
        Some(_) => 2,
        None => 0,
    }
}

fn is_recent_order(cause: OrderRefusal) -> bool
    ensures { result ≡ is_recent_order cause }
{
    matches!(cause, OrderRefusal::LinkedOrderTooRecent)
}

fn is_recent_change(cause: ChangeRefusal) -> bool
    ensures { result ≡ is_recent_change cause }
{
    matches!(cause, ChangeRefusal::LinkedOrderTooRecent)
}

fn is_recent_cross(cause: CrossRefusal) -> bool
    ensures { result ≡ is_recent_cross cause }
{
    matches!(cause, CrossRefusal::LinkedOrderTooRecent)
}

fn is_full_request(cause: RequestRefusal) -> bool
    ensures { result ≡ is_full_request cause }
{
    matches!(cause, RequestRefusal::TooManyRequests)
}

fn order_waits(what: &ReplyBody) -> bool
    ensures { result ≡ order_waits what.now }
{
    match what {
        ReplyBody::OrderRefused(refused) => is_recent_order(refused.cause),
        _ => false,
    }
}

fn replace_waits(what: &ReplyBody) -> bool
    ensures { result ≡ replace_waits what.now }
{
    match what {
        ReplyBody::ChangeRefused(refused) => is_recent_change(refused.cause),
        _ => false,
    }
}

fn cross_waits(what: &ReplyBody) -> bool
    ensures { result ≡ cross_waits what.now }
{
    match what {
        ReplyBody::CrossRefused(refused) => is_recent_cross(refused.cause),
        _ => false,
    }
}

fn request_waits(what: &ReplyBody) -> bool
    ensures { result ≡ request_waits what.now }
{
    match what {
        ReplyBody::RequestRefused(refused) => is_full_request(refused.cause),
        _ => false,
    }
}

fn waits_by(app: &App, what: &ReplyBody) -> bool
    ensures { result ≡ waits_by app.now what.now }
{
    match app {
        App::NewOrderSingle(_) => order_waits(what),
        App::OrderCancelReplaceRequest(_) => replace_waits(what),
        App::NewOrderCross(_) => cross_waits(what),
        App::QuoteRequest(_) => request_waits(what),
        _ => false,
    }
}

/// Whether a message was refused for a cause that ends by time alone.
pub(crate) fn waits(app: &App, replies: &[Reply]) -> bool
    ensures { result ≡ waits app.now replies.now }
{
    match replies.split_first() {
        Some((first, _)) => waits_by(app, &first.what),
        None => false,
    }
}
