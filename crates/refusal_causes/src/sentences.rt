//! Why a message is refused, in words: the sentence of each cause.

ghost use Rattle.std.specs.Prelude.{◌≡◌};
ghost use Rattle.refusal_causes.specs.Sentences.{change_sentence, cross_sentence, gone_sentence, market_sentence, missing_sentence, not_found_sentence, order_sentence, quote_sentence, request_sentence, response_sentence, sentence, state_sentence};

use fix_dictionary::Identifier;
use venue_rules::{
    BusinessRefusal, ChangeRefusal, CrossRefusal, MarketDataRefusal, OrderRefusal, QuoteRefusal,
    QuoteState, ReplyBody, RequestRefusal, ResponseRefusal,
};

fn order_sentence(cause: OrderRefusal) -> &'static [u8]
    ensures { result.now ≡ order_sentence cause }
{
    match cause {
        OrderRefusal::UnknownInstrument => b"no instrument has its symbol (55)",
        OrderRefusal::DuplicateClOrdId => b"the sender used its identifier (11) before",
        OrderRefusal::UnsupportedOrder => {
            b"it is no limit order (40=2), or its time in force (59) is none of 0, 3 and 4"
        }
        OrderRefusal::PriceOffTick => b"its price (44) is no multiple of the instrument's tick",
        OrderRefusal::QuantityBelowLeast => b"its quantity (38) is below the instrument's least",
        OrderRefusal::LinkedOrderTooRecent => {
            b"it would trade with a linked order that entered less than the instrument's delay before (17 CFR 37.9(b)(1), (b)(2))"
        }
        OrderRefusal::BookSideFull => {
            b"what it does not fill would rest, but 200 orders of its side rest, and no more than 200 may"
        }
    }
}

fn change_sentence(cause: ChangeRefusal) -> &'static [u8]
    ensures { result.now ≡ change_sentence cause }
{
    match cause {
        ChangeRefusal::UnknownOrder => {
            b"no order of the sender that rests or is held has the identifier that it names (41)"
        }
        ChangeRefusal::DuplicateClOrdId => b"the sender used its identifier (11) before",
        ChangeRefusal::HeldSide => b"it names a held side of a cross, which is not replaced",
        ChangeRefusal::UnsupportedOrder => b"it is no limit order (40=2)",
        ChangeRefusal::PriceOffTick => {
            b"its price (44) is no multiple of the tick of the order's instrument"
        }
        ChangeRefusal::QuantityBelowLeast => {
            b"its quantity (38) is below the least of the order's instrument"
        }
        ChangeRefusal::QuantityAlreadyFilled => {
            b"its quantity (38) is not above what the order has filled"
        }
        ChangeRefusal::LinkedOrderTooRecent => {
            b"it would trade with a linked order that entered less than the instrument's delay before (17 CFR 37.9(b)(1), (b)(2))"
        }
    }
}

fn cross_sentence(cause: CrossRefusal) -> &'static [u8]
    ensures { result.now ≡ cross_sentence cause }
{
    match cause {
        CrossRefusal::UnknownInstrument => b"no instrument has its symbol (55)",
        CrossRefusal::DuplicateCrossId => b"the sender used its identifier (548) before",
        CrossRefusal::DuplicateClOrdId => {
            b"the sender used an identifier of its sides (11) before, or both have the same"
        }
        CrossRefusal::UnsupportedOrder => {
            b"it is no cross of type 4 (549) with a first side (550=1 or 2) at a limit (40=2)"
        }
        CrossRefusal::OneBuyAndOneSell => b"both of its sides are to buy, or both to sell",
        CrossRefusal::PriceOffTick => b"its price (44) is no multiple of the instrument's tick",
        CrossRefusal::Quantity => {
            b"its sides have different quantities (38), or less than the instrument's least"
        }
        CrossRefusal::LinkedOrderTooRecent => {
            b"its first side would trade with a linked order that entered less than the instrument's delay before (17 CFR 37.9(b)(1), (b)(2))"
        }
        CrossRefusal::BookSideFull => {
            b"what its first side does not fill would rest, but 200 orders of that side rest, and no more than 200 may"
        }
        CrossRefusal::TooManyHeld =>
            b"1000 second sides of crosses are held, and no more than 1000 may be",
    }
}

fn request_sentence(cause: RequestRefusal) -> &'static [u8]
    ensures { result.now ≡ request_sentence cause }
{
    match cause {
        RequestRefusal::DuplicateRequest => b"the sender used its identifier (131) before",
        RequestRefusal::UnknownInstrument => b"no instrument has its symbol (55)",
        RequestRefusal::QuantityBelowLeast => b"its quantity (38) is below the instrument's least",
        RequestRefusal::UnknownParticipant => b"one of its recipients is no participant",
        RequestRefusal::RequesterAmongRecipients => b"the sender is one of its recipients",
        RequestRefusal::RecipientTwice => b"a participant is named twice among its recipients",
        RequestRefusal::TooManyRecipients => b"it has more than 12 recipients",
        RequestRefusal::TooFewRecipients => {
            b"it has fewer than three recipients (17 CFR 37.9(a)(3))"
        }
        RequestRefusal::RecipientsNotUnrelated => {
            b"no three of its recipients are unrelated to the sender and to each other (17 CFR 37.9(a)(3))"
        }
        RequestRefusal::TooManyRequests => b"1000 requests are open, and no more than 1000 may be",
    }
}

fn quote_sentence(cause: QuoteRefusal) -> &'static [u8]
    ensures { result.now ≡ quote_sentence cause }
{
    match cause {
        QuoteRefusal::UnknownRequest => b"no request has the identifier that it names (131)",
        QuoteRefusal::NotAsked => b"the sender is no recipient of the request",
        QuoteRefusal::RoomOver => b"the request has traded, or its end has passed",
        QuoteRefusal::UnknownInstrument => {
            b"its symbol (55) is not that of the request's instrument"
        }
        QuoteRefusal::DuplicateQuote => b"the sender used its identifier (117) before",
        QuoteRefusal::NotTradeable => b"it is not tradeable (537 is present, and not 1)",
        QuoteRefusal::InvalidPrice => {
            b"no side that was asked has a price, a price (132, 133) is no multiple of the instrument's tick, or the bid is above the offer"
        }
        QuoteRefusal::Size => b"a size (134, 135) is not the quantity of the request",
        QuoteRefusal::EndPassed => b"its end (62) is before the moment of this row",
    }
}

fn response_sentence(cause: ResponseRefusal) -> &'static [u8]
    ensures { result.now ≡ response_sentence cause }
{
    match cause {
        ResponseRefusal::UnsupportedResponse => b"it is no hit (694=1) and no pass (694=6)",
        ResponseRefusal::NotYours => b"the quote was given to the request of another participant",
        ResponseRefusal::Side => b"its side (54) is not the one that was asked",
        ResponseRefusal::InvalidPrice => b"the quote has no price for the side",
    }
}

fn market_sentence(cause: MarketDataRefusal) -> &'static [u8]
    ensures { result.now ≡ market_sentence cause }
{
    match cause {
        MarketDataRefusal::UnknownInstrument => b"no instrument has its symbol (55)",
        MarketDataRefusal::SnapshotsOnly => b"it asks for more than a snapshot (263 is not 0)",
        MarketDataRefusal::FullDepthOnly => b"it asks for less than the whole book (264 is not 0)",
    }
}

fn missing_sentence(cause: BusinessRefusal) -> &'static [u8]
    ensures { result.now ≡ missing_sentence cause }
{
    match cause {
        BusinessRefusal::PriceMissing => b"it has no price (44)",
        BusinessRefusal::QuoteMissing => b"it names no quote (117)",
        BusinessRefusal::SideMissing => b"both sides were asked for, and it names none (54)",
        BusinessRefusal::UnsupportedMessageType => {
            b"the venue does not process messages of this type"
        }
    }
}

fn gone_sentence(symbol: &Option<Identifier>) -> &'static [u8]
    ensures { result.now ≡ gone_sentence symbol.now }
{
    match symbol {
        None => b"no quote has the identifier that it names (117)",
        Some(_) => b"the quote's maker quoted again in the request, or the request has traded",
    }
}

fn not_found_sentence(
    response_id: &Option<Identifier>,
    symbol: &Option<Identifier>,
) -> &'static [u8]
    ensures { result.now ≡ not_found_sentence response_id.now symbol.now }
{
    match response_id {
        None => b"the sender has no live quote, or none with the identifier that it names (117)",
        Some(_) => gone_sentence(symbol),
    }
}

fn state_sentence(
    state: &QuoteState,
    response_id: &Option<Identifier>,
    symbol: &Option<Identifier>,
) -> &'static [u8]
    ensures { result.now ≡ state_sentence state.now response_id.now symbol.now }
{
    match state {
        QuoteState::Refused(cause) => quote_sentence(*cause),
        QuoteState::ResponseRefused(cause) => response_sentence(*cause),
        QuoteState::CancelUnsupported => {
            b"it withdraws neither one quote (298=5) nor all (298=4)"
        }
        QuoteState::NotFound => not_found_sentence(response_id, symbol),
        QuoteState::Withdrawn => b"the quote was withdrawn or passed",
        QuoteState::Expired => b"the quote's end has passed",
        _ => b"",
    }
}

/// The sentence of the cause that a reply names; none where it names none.
pub(crate) fn sentence(what: &ReplyBody) -> &'static [u8]
    ensures { result.now ≡ sentence what.now }
{
    match what {
        ReplyBody::OrderRefused(refused) => order_sentence(refused.cause),
        ReplyBody::CrossRefused(refused) => cross_sentence(refused.cause),
        ReplyBody::ChangeRefused(refused) => change_sentence(refused.cause),
        ReplyBody::RequestRefused(refused) => request_sentence(refused.cause),
        ReplyBody::QuoteStatus(status) => {
            state_sentence(&status.state, &status.response_id, &status.symbol)
        }
        ReplyBody::MarketDataReject(refused) => market_sentence(refused.cause),
        ReplyBody::BusinessReject(refused) => missing_sentence(refused.cause),
        _ => b"",
    }
}
