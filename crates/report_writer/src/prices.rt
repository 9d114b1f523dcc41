//! MarketDataSnapshot (W), the book snapshot of an instrument, and its refusal, MarketDataRequestReject (Y).
ghost use Rattle.std.specs.Prelude.{◌≡◌, [], ◌∷◌, IfOk};
ghost use Rattle.venue_rules.specs.declared.replies.ReplyBody.TheVariants as what;
ghost use Rattle.venue_rules.specs.Messages.{entry_type, market_reason, message, shown_entry, snapshot};

use crate::reasons::market_reason;
use fix_dictionary::{
    App, FixChar, MarketDataEntries, MarketDataEntry, MarketDataRequestReject, MarketDataSnapshot,
    Side,
};
use std::alloc::{AllocError, Global};
use venue_rules::{
    BookSnapshot, MarketDataRefusal, MarketDataReject, SnapshotEntry, printed_identifier,
};

/// MDEntryType (269).
fn entry_type(side: Side) -> FixChar
    ensures { result ≡ entry_type side }
{
    match side {
        Side::Buy => FixChar::new(b'0'),
        Side::Sell => FixChar::new(b'1'),
    }
}

fn shown_entry(entry: &SnapshotEntry) -> MarketDataEntry
    ensures { result ≡ shown_entry entry.now }
{
    MarketDataEntry {
        entry_type: entry_type(entry.side),
        price: Some(entry.price),
        size: Some(entry.left),
        order_id: Some(printed_identifier(b'O', entry.order)),
    }
}

/// The entry of an instrument without resting orders.
fn empty_book() -> MarketDataEntry
    ensures { result ∷ [] ≡ snapshot [] }
{
    MarketDataEntry {
        entry_type: FixChar::new(b'J'),
        price: None,
        size: None,
        order_id: None,
    }
}

fn snapshot(alloc: Global, entries: &[SnapshotEntry]) -> Result<Vec<MarketDataEntry>, AllocError>
    ensures { IfOk result (λ v. v.items ≡ snapshot entries.now) }
{
    if entries.is_empty() {
        return Ok(vec![in alloc; empty_book()]?);
    }
    let mut shown = Vec::new(alloc);
    for entry in entries {
        shown.push(shown_entry(entry))?;
    }
    Ok(shown)
}

pub(crate) fn prices(alloc: Global, r: &BookSnapshot) -> Result<App, AllocError>
    ensures { IfOk result (λ app. app ≡ message (what.BookSnapshot r.now)) }
{
    let entries = snapshot(alloc, r.entries.as_slice())?;
    Ok(App::MarketDataSnapshot(MarketDataSnapshot {
        request_id: r.request_id,
        symbol: r.symbol,
        entries: MarketDataEntries::from_vec(entries),
    }))
}

/// MDReqRejReason (281).
fn market_code(cause: MarketDataRefusal) -> FixChar
    ensures { result ≡ (market_reason cause).code }
{
    match cause {
        MarketDataRefusal::UnknownInstrument => FixChar::new(b'0'),
        MarketDataRefusal::SnapshotsOnly => FixChar::new(b'4'),
        MarketDataRefusal::FullDepthOnly => FixChar::new(b'5'),
    }
}

pub(crate) fn prices_refused(alloc: Global, r: &MarketDataReject) -> Result<App, AllocError>
    ensures { IfOk result (λ app. app ≡ message (what.MarketDataReject r.now)) }
{
    let why = market_reason(r.cause);
    Ok(App::MarketDataRequestReject(MarketDataRequestReject {
        request_id: r.request_id,
        reject_reason: market_code(r.cause),
        text: Some(why.text(alloc)?),
    }))
}
