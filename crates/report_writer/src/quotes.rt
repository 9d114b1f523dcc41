//! Quote (S), as sent to the requester, and QuoteStatusReport (AI).
ghost use Rattle.std.specs.Prelude.{◌≡◌, IfOk, option_map};
ghost use Rattle.venue_rules.specs.declared.replies.ReplyBody.TheVariants as what;
ghost use Rattle.venue_rules.specs.Messages.{message, status_of};
ghost use Rattle.report_writer.specs.Reasons.{seen_status};

use crate::reason::Reason;
use crate::reasons::{quote_reason, response_reason};
use crate::status::Status;
use fix_dictionary::{
    App, FixChar, FixInt, Parties, Party, Price, Quantity, Quote, QuoteStatusReport, Text,
};
use std::alloc::{AllocError, Global};
use venue_rules::{QuoteSent, QuoteState, QuoteStatus, printed_identifier};

/// QuoteStatus (297), with the reason of a refusal.
fn status_of(state: &QuoteState) -> Status
    ensures { seen_status result ≡ status_of state.now }
{
    match state {
        QuoteState::Accepted => Status::new(0, None),
        QuoteState::Refused(cause) => Status::new(5, Some(quote_reason(*cause))),
        QuoteState::ResponseRefused(cause) => Status::new(5, Some(response_reason(*cause))),
        QuoteState::CancelUnsupported => {
            Status::new(5, Some(Reason::new(99, "Unsupported cancel")))
        }
        QuoteState::Expired => Status::new(7, None),
        QuoteState::NotFound => Status::new(9, None),
        QuoteState::Passed => Status::new(11, None),
        QuoteState::Withdrawn => Status::new(17, None),
    }
}

pub(crate) fn quote_status(alloc: Global, r: &QuoteStatus) -> Result<App, AllocError>
    ensures { IfOk result (λ app. app ≡ message (what.QuoteStatus r.now)) }
{
    let status = status_of(&r.state);
    Ok(App::QuoteStatusReport(QuoteStatusReport {
        quote_id: r.quote_id,
        request_id: r.request_id,
        response_id: r.response_id,
        symbol: r.symbol,
        status: status.number(),
        reject_reason: status.reject_reason(),
        text: status.text(alloc)?,
    }))
}

/// The requested quantity, as the size of a price that is present.
fn size(price: Option<Price>, quantity: Quantity) -> Option<Quantity>
    ensures { result ≡ option_map (λ _. quantity) price }
{
    match price {
        Some(_) => Some(quantity),
        None => None,
    }
}

pub(crate) fn quote_sent(alloc: Global, r: &QuoteSent) -> Result<App, AllocError>
    ensures { IfOk result (λ app. app ≡ message (what.QuoteSent r.now)) }
{
    let maker = Party {
        id: r.maker,
        source: FixChar::new(b'D'),
        role: FixInt::new(35),
    };
    Ok(App::Quote(Quote {
        quote_id: printed_identifier(b'Q', r.quote),
        request_id: r.request_id,
        quote_type: Some(FixChar::new(b'1')),
        parties: Parties::from_vec(vec![in alloc; maker]?),
        symbol: r.symbol,
        bid_price: r.bid,
        offer_price: r.offer,
        bid_size: size(r.bid, r.quantity),
        offer_size: size(r.offer, r.quantity),
        valid_until: Some(r.end),
    }))
}
