//! Causes of the rooms' refusals, by kind of message; none after an allocation failure.
ghost use Rattle.std.specs.Prelude.{◌≡◌, option_map};
ghost use Rattle.rfq_room.specs.declared.refusal.Cause.TheVariants as kind;
ghost use Rattle.rfq_handler.specs.Refused.{IsOfQuote, IsOfRequest, IsOfResponse, IsOfWithdrawal};

use rfq_room::{Cause, ResponseCause, WithdrawalRefusal};
use venue_rules::{QuoteRefusal, RequestRefusal};

pub(crate) fn of_request(given: Option<Cause>) -> Option<RequestRefusal>
    requires { IsOfRequest given }
    ensures { given ≡ option_map (λ c. kind.Request c) result }
{
    match given {
        Some(Cause::Request(cause)) => Some(cause),
        Some(Cause::Quote(_)) => unreachable!(),
        Some(Cause::Withdrawal(_)) => unreachable!(),
        Some(Cause::Response(_)) => unreachable!(),
        None => None,
    }
}

pub(crate) fn of_quote(given: Option<Cause>) -> Option<QuoteRefusal>
    requires { IsOfQuote given }
    ensures { given ≡ option_map (λ c. kind.Quote c) result }
{
    match given {
        Some(Cause::Quote(cause)) => Some(cause),
        Some(Cause::Request(_)) => unreachable!(),
        Some(Cause::Withdrawal(_)) => unreachable!(),
        Some(Cause::Response(_)) => unreachable!(),
        None => None,
    }
}

pub(crate) fn of_withdrawal(given: Option<Cause>) -> Option<WithdrawalRefusal>
    requires { IsOfWithdrawal given }
    ensures { given ≡ option_map (λ c. kind.Withdrawal c) result }
{
    match given {
        Some(Cause::Withdrawal(cause)) => Some(cause),
        Some(Cause::Request(_)) => unreachable!(),
        Some(Cause::Quote(_)) => unreachable!(),
        Some(Cause::Response(_)) => unreachable!(),
        None => None,
    }
}

pub(crate) fn of_response(given: Option<Cause>) -> Option<ResponseCause>
    requires { IsOfResponse given }
    ensures { given ≡ option_map (λ c. kind.Response c) result }
{
    match given {
        Some(Cause::Response(cause)) => Some(cause),
        Some(Cause::Request(_)) => unreachable!(),
        Some(Cause::Quote(_)) => unreachable!(),
        Some(Cause::Withdrawal(_)) => unreachable!(),
        None => None,
    }
}
