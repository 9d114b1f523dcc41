//! Copies of application messages.
ghost use Rattle.std.specs.Prelude.{◌≡◌, IfOk};

use crate::lists::{EntryTypes, MarketDataEntries, Parties};
use crate::messages::{
    App, BusinessMessageReject, ExecutionReport, MarketDataRequest, MarketDataRequestReject,
    MarketDataSnapshot, OrderCancelReject, Quote, QuoteRequest, QuoteRequestReject,
    QuoteStatusReport,
};
use crate::values::Text;
use std::alloc::{AllocError, Global};

fn optional_text(alloc: Global, value: &Option<Text>) -> Result<Option<Text>, AllocError>
    ensures { IfOk result (λ copy. copy ≡ value.now) }
{
    match value {
        Some(text) => Ok(Some(text.copy(alloc)?)),
        None => Ok(None),
    }
}

fn parties(alloc: Global, list: &Parties) -> Result<Parties, AllocError>
    ensures { IfOk result (λ copy. copy ≡ list.now) }
{
    Ok(Parties::from_vec(Vec::from_slice(alloc, list.as_slice())?))
}

fn entries(alloc: Global, list: &MarketDataEntries) -> Result<MarketDataEntries, AllocError>
    ensures { IfOk result (λ copy. copy ≡ list.now) }
{
    Ok(MarketDataEntries::from_vec(Vec::from_slice(alloc, list.as_slice())?))
}

fn entry_types(alloc: Global, list: &EntryTypes) -> Result<EntryTypes, AllocError>
    ensures { IfOk result (λ copy. copy ≡ list.now) }
{
    Ok(EntryTypes::from_vec(Vec::from_slice(alloc, list.as_slice())?))
}

fn quote_request(alloc: Global, m: &QuoteRequest) -> Result<QuoteRequest, AllocError>
    ensures { IfOk result (λ copy. copy ≡ m.now) }
{
    Ok(QuoteRequest {
        request_id: m.request_id,
        symbol: m.symbol,
        side: m.side,
        quantity: m.quantity,
        parties: parties(alloc, &m.parties)?,
    })
}

fn quote(alloc: Global, m: &Quote) -> Result<Quote, AllocError>
    ensures { IfOk result (λ copy. copy ≡ m.now) }
{
    Ok(Quote {
        quote_id: m.quote_id,
        request_id: m.request_id,
        quote_type: m.quote_type,
        parties: parties(alloc, &m.parties)?,
        symbol: m.symbol,
        bid_price: m.bid_price,
        offer_price: m.offer_price,
        bid_size: m.bid_size,
        offer_size: m.offer_size,
        valid_until: m.valid_until,
    })
}

fn quote_status_report(
    alloc: Global,
    m: &QuoteStatusReport,
) -> Result<QuoteStatusReport, AllocError>
    ensures { IfOk result (λ copy. copy ≡ m.now) }
{
    Ok(QuoteStatusReport {
        quote_id: m.quote_id,
        request_id: m.request_id,
        response_id: m.response_id,
        symbol: m.symbol,
        status: m.status,
        reject_reason: m.reject_reason,
        text: optional_text(alloc, &m.text)?,
    })
}

fn quote_request_reject(
    alloc: Global,
    m: &QuoteRequestReject,
) -> Result<QuoteRequestReject, AllocError>
    ensures { IfOk result (λ copy. copy ≡ m.now) }
{
    Ok(QuoteRequestReject {
        request_id: m.request_id,
        reject_reason: m.reject_reason,
        symbol: m.symbol,
        text: optional_text(alloc, &m.text)?,
    })
}

fn execution_report(alloc: Global, m: &ExecutionReport) -> Result<ExecutionReport, AllocError>
    ensures { IfOk result (λ copy. copy ≡ m.now) }
{
    Ok(ExecutionReport {
        venue_order_id: m.venue_order_id,
        execution_id: m.execution_id,
        execution_type: m.execution_type,
        order_status: m.order_status,
        symbol: m.symbol,
        side: m.side,
        left: m.left,
        filled: m.filled,
        order_id: m.order_id,
        original_id: m.original_id,
        last_price: m.last_price,
        last_quantity: m.last_quantity,
        reject_reason: m.reject_reason,
        trade_id: m.trade_id,
        response_id: m.response_id,
        text: optional_text(alloc, &m.text)?,
    })
}

fn order_cancel_reject(
    alloc: Global,
    m: &OrderCancelReject,
) -> Result<OrderCancelReject, AllocError>
    ensures { IfOk result (λ copy. copy ≡ m.now) }
{
    Ok(OrderCancelReject {
        venue_order_id: m.venue_order_id,
        order_id: m.order_id,
        original_id: m.original_id,
        order_status: m.order_status,
        response_to: m.response_to,
        reject_reason: m.reject_reason,
        text: optional_text(alloc, &m.text)?,
    })
}

fn market_data_request(
    alloc: Global,
    m: &MarketDataRequest,
) -> Result<MarketDataRequest, AllocError>
    ensures { IfOk result (λ copy. copy ≡ m.now) }
{
    Ok(MarketDataRequest {
        request_id: m.request_id,
        subscription_type: m.subscription_type,
        depth: m.depth,
        entry_types: entry_types(alloc, &m.entry_types)?,
        symbol: m.symbol,
    })
}

fn market_data_snapshot(
    alloc: Global,
    m: &MarketDataSnapshot,
) -> Result<MarketDataSnapshot, AllocError>
    ensures { IfOk result (λ copy. copy ≡ m.now) }
{
    Ok(MarketDataSnapshot {
        request_id: m.request_id,
        symbol: m.symbol,
        entries: entries(alloc, &m.entries)?,
    })
}

fn market_data_request_reject(
    alloc: Global,
    m: &MarketDataRequestReject,
) -> Result<MarketDataRequestReject, AllocError>
    ensures { IfOk result (λ copy. copy ≡ m.now) }
{
    Ok(MarketDataRequestReject {
        request_id: m.request_id,
        reject_reason: m.reject_reason,
        text: optional_text(alloc, &m.text)?,
    })
}

fn business_message_reject(
    alloc: Global,
    m: &BusinessMessageReject,
) -> Result<BusinessMessageReject, AllocError>
    ensures { IfOk result (λ copy. copy ≡ m.now) }
{
    Ok(BusinessMessageReject {
        reference_number: m.reference_number,
        reference_type: m.reference_type,
        reject_reason: m.reject_reason,
        text: optional_text(alloc, &m.text)?,
    })
}

impl App {
    /// A copy of the message.
    pub fn copy(&self, alloc: Global) -> Result<App, AllocError>
        ensures { IfOk result (λ copy. copy ≡ self.now) }
    {
        Ok(match self {
            App::QuoteRequest(m) => App::QuoteRequest(quote_request(alloc, m)?),
            App::Quote(m) => App::Quote(quote(alloc, m)?),
            App::QuoteCancel(m) => App::QuoteCancel(*m),
            App::QuoteResponse(m) => App::QuoteResponse(*m),
            App::QuoteStatusReport(m) => App::QuoteStatusReport(quote_status_report(alloc, m)?),
            App::QuoteRequestReject(m) => App::QuoteRequestReject(quote_request_reject(alloc, m)?),
            App::NewOrderSingle(m) => App::NewOrderSingle(*m),
            App::OrderCancelRequest(m) => App::OrderCancelRequest(*m),
            App::OrderCancelReplaceRequest(m) => App::OrderCancelReplaceRequest(*m),
            App::NewOrderCross(m) => App::NewOrderCross(*m),
            App::ExecutionReport(m) => App::ExecutionReport(execution_report(alloc, m)?),
            App::OrderCancelReject(m) => App::OrderCancelReject(order_cancel_reject(alloc, m)?),
            App::MarketDataRequest(m) => App::MarketDataRequest(market_data_request(alloc, m)?),
            App::MarketDataSnapshot(m) => App::MarketDataSnapshot(market_data_snapshot(alloc, m)?),
            App::MarketDataRequestReject(m) => App::MarketDataRequestReject(
                market_data_request_reject(alloc, m)?,
            ),
            App::BusinessMessageReject(m) => App::BusinessMessageReject(business_message_reject(
                alloc, m,
            )?),
            App::Unsupported(kind) => App::Unsupported(*kind),
        })
    }
}
