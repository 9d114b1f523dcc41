//! Refusals of requests, quotes, withdrawals and quote responses.
ghost use Rattle.std.specs.Prelude.{◌≡◌, Option, Some, MatchOption};
ghost use Rattle.rfq_room.specs.declared.refusal.Cause.{Cause as CauseValue};
ghost use Rattle.rfq_room.specs.Refusals.{cause_of, quote_refusal, refusal_of, request_refusal, response_refusal, withdrawal_refusal, IsRefusedFor};

use venue_rules::{QuoteRefusal, RequestRefusal};

/// Refusals of a withdrawal.
#[derive(Clone, Copy, PartialEq, Eq)]
pub enum WithdrawalRefusal {
    /// a withdrawal of one quote that names none
    QuoteMissing,
    /// no such quote is live
    NotFound,
    /// a withdrawal neither of one quote nor of all
    Unsupported,
}

/// Refusals of a quote response.
#[derive(Clone, Copy, PartialEq, Eq)]
pub enum ResponseCause {
    /// neither a hit nor a pass
    Unsupported,
    UnknownQuote,
    /// the room is another participant's
    NotYours,
    /// the room has traded, or the quote was replaced
    Over,
    /// the quote was withdrawn or passed
    Withdrawn,
    /// the quote's end has passed
    Expired,
    /// the side is not the one asked for
    OtherSide,
    /// both sides were asked for, and none is named
    SideMissing,
    /// the quote has no price for the side
    NoPrice,
}

/// The cause behind a refusal, by the message refused: it decides the reply.
#[derive(Clone, Copy, PartialEq, Eq)]
pub enum Cause {
    Request(RequestRefusal),
    Quote(QuoteRefusal),
    Withdrawal(WithdrawalRefusal),
    Response(ResponseCause),
}

/// Refusals by number, and allocation failure.
#[derive(Clone, Copy, PartialEq, Eq)]
pub enum Refusal {
    /// 1: fewer than three recipients.
    TooFew(Cause),
    /// 2: no three recipients are unrelated to the requester and each other.
    NotUnrelated(Cause),
    /// 3: no such room.
    UnknownRoom(Cause),
    /// 4: the room, or the quote, is over.
    Late(Cause),
    /// 5: the room's recipients are others.
    NotAsked(Cause),
    /// 6: no such quote.
    UnknownQuote(Cause),
    /// 7: the room is another participant's.
    NotYours(Cause),
    /// 8: the open rooms are at capacity.
    Full(Cause),
    /// 9: a price is missing, off tick, or crossed.
    BadPrice(Cause),
    /// 10: the identifier was used before.
    Duplicate(Cause),
    /// 11: any other cause.
    Other(Cause),
    NoMemory,
}

impl Refusal {
    /// The cause behind the refusal; none after an allocation failure.
    pub fn cause(self) -> Option<Cause>
        ensures value { result ≡ cause_of self }
    {
        match self {
            Refusal::TooFew(cause)
            | Refusal::NotUnrelated(cause)
            | Refusal::UnknownRoom(cause)
            | Refusal::Late(cause)
            | Refusal::NotAsked(cause)
            | Refusal::UnknownQuote(cause)
            | Refusal::NotYours(cause)
            | Refusal::Full(cause)
            | Refusal::BadPrice(cause)
            | Refusal::Duplicate(cause)
            | Refusal::Other(cause) => Some(cause),
            Refusal::NoMemory => None,
        }
    }
}

pub(crate) fn request_refusal(refusal: RequestRefusal) -> Refusal
    ensures { result ≡ request_refusal refusal }
{
    let cause = Cause::Request(refusal);
    match refusal {
        RequestRefusal::DuplicateRequest => Refusal::Duplicate(cause),
        RequestRefusal::TooFewRecipients => Refusal::TooFew(cause),
        RequestRefusal::RecipientsNotUnrelated => Refusal::NotUnrelated(cause),
        RequestRefusal::TooManyRequests => Refusal::Full(cause),
        RequestRefusal::UnknownInstrument
        | RequestRefusal::QuantityBelowLeast
        | RequestRefusal::UnknownParticipant
        | RequestRefusal::RequesterAmongRecipients
        | RequestRefusal::RecipientTwice
        | RequestRefusal::TooManyRecipients => Refusal::Other(cause),
    }
}

pub(crate) fn quote_refusal(refusal: QuoteRefusal) -> Refusal
    ensures { result ≡ quote_refusal refusal }
{
    let cause = Cause::Quote(refusal);
    match refusal {
        QuoteRefusal::UnknownRequest => Refusal::UnknownRoom(cause),
        QuoteRefusal::NotAsked => Refusal::NotAsked(cause),
        QuoteRefusal::RoomOver | QuoteRefusal::EndPassed => Refusal::Late(cause),
        QuoteRefusal::DuplicateQuote => Refusal::Duplicate(cause),
        QuoteRefusal::InvalidPrice => Refusal::BadPrice(cause),
        QuoteRefusal::UnknownInstrument | QuoteRefusal::NotTradeable | QuoteRefusal::Size => {
            Refusal::Other(cause)
        }
    }
}

pub(crate) fn withdrawal_refusal(refusal: WithdrawalRefusal) -> Refusal
    ensures { result ≡ withdrawal_refusal refusal }
{
    let cause = Cause::Withdrawal(refusal);
    match refusal {
        WithdrawalRefusal::NotFound => Refusal::UnknownQuote(cause),
        WithdrawalRefusal::QuoteMissing | WithdrawalRefusal::Unsupported => Refusal::Other(cause),
    }
}

pub(crate) fn response_refusal(refusal: ResponseCause) -> Refusal
    ensures { result ≡ response_refusal refusal }
{
    let cause = Cause::Response(refusal);
    match refusal {
        ResponseCause::UnknownQuote => Refusal::UnknownQuote(cause),
        ResponseCause::NotYours => Refusal::NotYours(cause),
        ResponseCause::Over | ResponseCause::Withdrawn | ResponseCause::Expired => {
            Refusal::Late(cause)
        }
        ResponseCause::NoPrice => Refusal::BadPrice(cause),
        ResponseCause::Unsupported | ResponseCause::OtherSide | ResponseCause::SideMissing => {
            Refusal::Other(cause)
        }
    }
}
