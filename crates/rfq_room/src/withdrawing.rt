//! QuoteCancel (Z): withdrawals of quotes.
ghost use Rattle.std.specs.Prelude.{◌≡◌, map, None, IfOk, IfErr, option_map};
ghost use Rattle.rfq_room.specs.Causes.{form_cause, none_found, withdrawal_cause, withdrawal_id};
ghost use Rattle.rfq_room.specs.Named.{named_quotes};
ghost use Rattle.rfq_room.specs.Plans.{withdrawal_plan, withdrawn};
ghost use Rattle.rfq_room.specs.Refusals.{IsWithdrawalRefused};

use crate::plan::RoomPlan;
use crate::refusal::{Refusal, WithdrawalRefusal, withdrawal_refusal};
use crate::room_store::RoomStore;
use fix_dictionary::{Identifier, QuoteCancel};
use participants::Who;
use sef_moment::Moment;
use std::alloc::{AllocError, Global};
use venue_rules::{Fact, RoomQuote, Withdrawal};

/// The fact that a quote was withdrawn or passed.
pub(crate) fn withdrawn(quote: &RoomQuote) -> Fact
    ensures { result ≡ withdrawn quote.now }
{
    Fact::Withdrawn(Withdrawal {
        quote: quote.number,
    })
}

// The refusal where there are no quotes to withdraw.
fn none_found(quotes: &[RoomQuote]) -> Option<WithdrawalRefusal>
    ensures { result ≡ none_found quotes.now }
{
    if quotes.is_empty() {
        Some(WithdrawalRefusal::NotFound)
    } else {
        None
    }
}

// Causes that refuse a withdrawal before any search for quotes.
fn form_cause(request: &QuoteCancel) -> Option<WithdrawalRefusal>
    ensures { result ≡ form_cause request.now }
{
    if request.cancel_type.get() == 5 {
        if request.quote_id.is_none() {
            return Some(WithdrawalRefusal::QuoteMissing);
        }
        return None;
    }
    if request.cancel_type.get() == 4 {
        return None;
    }
    Some(WithdrawalRefusal::Unsupported)
}

// The identifier of a withdrawal of one quote, else none.
fn withdrawal_id(request: &QuoteCancel) -> Option<&Identifier>
    ensures { option_map (λ id. id.now) result ≡ withdrawal_id request.now }
{
    if request.cancel_type.get() == 5 {
        request.quote_id.as_ref()
    } else {
        None
    }
}

// The facts that these quotes are withdrawn.
fn all_withdrawn(alloc: Global, quotes: &[RoomQuote]) -> Result<Vec<Fact>, AllocError>
    ensures { IfOk result (λ facts. facts.items ≡ map withdrawn quotes.now) }
{
    let mut facts = Vec::new(alloc);
    for quote in quotes {
        facts.push(withdrawn(quote))?;
    }
    Ok(facts)
}

/// The plan of a withdrawal, before memory is reserved for it.
pub(crate) fn draft_withdraw(
    alloc: Global,
    kept: &RoomStore,
    who: Who,
    request: &QuoteCancel,
    moment: Moment,
) -> Result<RoomPlan, Refusal>
    ensures planned { IfOk result (λ p. (withdrawal_cause kept.now.facts who request.now moment ≡ None) × (p ≡ withdrawal_plan (named_quotes kept.now.facts who moment (withdrawal_id request.now)))) }
    ensures refused { IfErr result (IsWithdrawalRefused (withdrawal_cause kept.now.facts who request.now moment)) }
{
    if let Some(cause) = form_cause(request) {
        return Err(withdrawal_refusal(cause));
    }
    let Ok(quotes) = kept.named_quotes(who, moment, withdrawal_id(request)) else {
        return Err(Refusal::NoMemory);
    };
    if let Some(cause) = none_found(&quotes) {
        return Err(withdrawal_refusal(cause));
    }
    let Ok(facts) = all_withdrawn(alloc, &quotes) else {
        return Err(Refusal::NoMemory);
    };
    Ok(RoomPlan::of(facts, quotes, None))
}
