//! QuoteRequest (R), as sent to a recipient, and its refusal, QuoteRequestReject (AG).
ghost use Rattle.std.specs.Prelude.{◌≡◌, IfOk};
ghost use Rattle.venue_rules.specs.declared.replies.ReplyBody.TheVariants as what;
ghost use Rattle.venue_rules.specs.Messages.{message};

use crate::reasons::request_reason;
use fix_dictionary::{App, Parties, QuoteRequest, QuoteRequestReject};
use std::alloc::{AllocError, Global};
use venue_rules::{RequestRefused, RequestSent, printed_identifier};

pub(crate) fn request_refused(alloc: Global, r: &RequestRefused) -> Result<App, AllocError>
    ensures { IfOk result (λ app. app ≡ message (what.RequestRefused r.now)) }
{
    let why = request_reason(r.cause);
    Ok(App::QuoteRequestReject(QuoteRequestReject {
        request_id: r.id,
        reject_reason: why.number(),
        symbol: r.symbol,
        text: Some(why.text(alloc)?),
    }))
}

pub(crate) fn request_sent(alloc: Global, r: &RequestSent) -> App
    ensures { result ≡ message (what.RequestSent r.now) }
{
    App::QuoteRequest(QuoteRequest {
        request_id: printed_identifier(b'R', r.room),
        symbol: r.symbol,
        side: r.side,
        quantity: r.quantity,
        parties: Parties::from_vec(Vec::new(alloc)),
    })
}
