//! MarketDataRequest (V): book snapshots.
ghost use Rattle.std.specs.Prelude.{◌≡◌, [], ◌∷◌, IfOk, IfErr};
ghost use Rattle.venue_rules.specs.declared.replies.ReplyBody.TheVariants as what;
ghost use Rattle.venue_rules.specs.Answer.{answers, reply};
ghost use Rattle.venue_rules.specs.Book.{picture};
ghost use Rattle.venue_rules.specs.Facts.{History};
ghost use Rattle.venue_rules.specs.MarketData.{answer_market_data};
ghost use Rattle.price_book.specs.BookFacts.{book_facts};
ghost use Rattle.order_handler.specs.Parts.{answer_of};
ghost use Rattle.order_handler.specs.Shown.{IsNotShown, IsShown};
ghost use Rattle.venue_rules.specs.Market.{market_of};
ghost use Rattle.venue_request.specs.Senders.{sender};

use crate::answer::OrderAnswer;
use fix_dictionary::MarketDataRequest;
use instruments::Instruments;
use price_book::{PriceBook, book_is_read_alone};
use std::alloc::AllocError;
use venue_request::Request;
use venue_rules::{
    BookSnapshot, MarketDataRefusal, MarketDataReject, Reply, ReplyBody, SnapshotEntries,
    instrument_of,
};

/// The requested instrument, or the first cause to refuse its snapshot.
#[tactic(auto, using(crate::proofs::Showing::showings))]
fn asked_for(
    instruments: &Instruments,
    message: &MarketDataRequest,
) -> Result<u32, MarketDataRefusal>
    ensures shown { IfOk result (IsShown instruments.now message.now) }
    ensures refused { IfErr result (IsNotShown instruments.now message.now) }
{
    let Some(instrument) = instrument_of(instruments, &message.symbol) else {
        return Err(MarketDataRefusal::UnknownInstrument);
    };
    if message.subscription_type.get() != b'0' {
        return Err(MarketDataRefusal::SnapshotsOnly);
    }
    if message.depth.get() != 0 {
        return Err(MarketDataRefusal::FullDepthOnly);
    }
    Ok(instrument)
}

/// The snapshot of an instrument.
fn shown(
    request: &Request<'_>,
    book: &PriceBook,
    message: &MarketDataRequest,
    instrument: u32,
) -> Result<OrderAnswer, AllocError>
    ensures answer { IfOk result (λ a. answer_of a ≡ answers (reply request.now.taken.now.from (what.BookSnapshot (record { request_id = message.now.request_id; symbol = message.now.symbol; entries = picture book.now.facts instrument })) ∷ [])) }
    ensures quiet { IfOk result (λ a. (a.book ≡ []) × (a.delay ≡ [])) }
{
    let (alloc, to) = (request.turn.alloc, request.taken.from);
    let entries = book.picture(instrument)?;
    let what = ReplyBody::BookSnapshot(BookSnapshot {
        request_id: message.request_id,
        symbol: message.symbol,
        entries: SnapshotEntries::from_vec(entries),
    });
    let replies = vec![in alloc; Reply { to, what }]?;
    Ok(OrderAnswer::of_replies(alloc, replies))
}

fn refused(
    request: &Request<'_>,
    message: &MarketDataRequest,
    cause: MarketDataRefusal,
) -> Result<OrderAnswer, AllocError>
    ensures answer { IfOk result (λ a. answer_of a ≡ answers (reply request.now.taken.now.from (what.MarketDataReject (record { request_id = message.now.request_id; cause = cause })) ∷ [])) }
    ensures quiet { IfOk result (λ a. (a.book ≡ []) × (a.delay ≡ [])) }
{
    let (alloc, to) = (request.turn.alloc, request.taken.from);
    let what = ReplyBody::MarketDataReject(MarketDataReject {
        request_id: message.request_id,
        cause,
    });
    let replies = vec![in alloc; Reply { to, what }]?;
    Ok(OrderAnswer::of_replies(alloc, replies))
}

/// The answer to a request for market data; it changes nothing.
pub fn plan_prices(
    request: &Request<'_>,
    book: &PriceBook,
    message: &MarketDataRequest,
) -> Result<OrderAnswer, AllocError>
    ensures planned { IfOk result (λ a. (h : History) → book_facts h.facts ≡ book.now.facts → answer_of a ≡ answer_market_data (market_of request.now.turn.market) h (sender request.now.taken.now) message.now) }
    ensures quiet { IfOk result (λ a. (a.book ≡ []) × (a.delay ≡ [])) }
{
    book_is_read_alone();
    match asked_for(request.turn.market.instruments, message) {
        Ok(instrument) => shown(request, book, message, instrument),
        Err(cause) => refused(request, message, cause),
    }
}
