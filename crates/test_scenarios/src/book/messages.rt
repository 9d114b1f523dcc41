//! The requests for quotes, quotes and hits that are timed.

use crate::book::stream::{id_of, price, quantity};
use crate::texts::identifier_in;
use anyhow::Result;
use fix_dictionary::{FixChar, FixInt, Parties, Party, Quote, QuoteRequest, QuoteResponse, Side};
use std::alloc::Global;
use venue_rules::printed_identifier;

// A liquidity provider that is asked.
fn recipient(name: &str) -> Result<Party> {
    Ok(Party {
        id: identifier_in(name)?,
        source: FixChar::new(b'D'),
        role: FixInt::new(35),
    })
}

/// The n-th request: for an offer of 50, to three.
pub(crate) fn request_of(alloc: Global, n: u64) -> Result<QuoteRequest> {
    let parties = vec![in alloc;
        recipient("BETA")?,
        recipient("DELTA")?,
        recipient("EPSILON")?,
    ]?;
    Ok(QuoteRequest {
        request_id: id_of(n),
        symbol: identifier_in("IRS5Y")?,
        side: Some(Side::Buy),
        quantity: quantity(49),
        parties: Parties::from_vec(parties),
    })
}

/// The quote in the n-th room, of both prices.
pub(crate) fn quote_of(alloc: Global, n: u64) -> Result<Quote> {
    Ok(Quote {
        quote_id: id_of(n),
        request_id: printed_identifier(b'R', n),
        quote_type: None,
        parties: Parties::from_vec(Vec::new(alloc)),
        symbol: identifier_in("IRS5Y")?,
        bid_price: Some(price(499)),
        offer_price: Some(price(501)),
        bid_size: Some(quantity(49)),
        offer_size: Some(quantity(49)),
        valid_until: None,
    })
}

/// The hit of the n-th quote.
pub(crate) fn hit_of(n: u64) -> QuoteResponse {
    QuoteResponse {
        response_id: id_of(n),
        quote_id: printed_identifier(b'Q', n),
        response_type: FixInt::new(1),
        side: Some(Side::Buy),
    }
}
