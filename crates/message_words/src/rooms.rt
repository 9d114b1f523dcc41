//! Requests for quotes, quotes and the responses to them in words.
ghost use Rattle.std.specs.Prelude.{◌≡◌, ◌++◌, None, OnOk};
ghost use Rattle.std.specs.List.{flat_map};
ghost use Rattle.message_words.specs.Parts.{parts_text};
ghost use Rattle.message_words.specs.Words.{response_parts, asked_words, is_asked, is_withdrawal_refused, maker_words, named_status, no_quote_parts, outcome_parts, party_words, quote_parts, quote_status_parts, request_parts, request_refused_parts, status_words, withdrawal_parts, withdrawal_refused_parts};

use crate::names::{
    asked_side, outcome_name, response_name, side_value, status_name, withdrawal_name,
};
use crate::parts::{
    Part, Value, append_parts, bytes, identifier_value, moment_value, number, number_value,
    price_value, quantity_value, small_number, text_value,
};
use fix_dictionary::{
    Party, Quote, QuoteCancel, QuoteRequest, QuoteRequestReject, QuoteResponse, QuoteStatusReport,
};
use std::alloc::{AllocError, Global};
use trade_blotter::append;

macro_rules! part {
    ($before:expr, $value:expr) => {
        Part {
            before: $before,
            value: $value,
        }
    };
}

fn append_asking(alloc: Global, text: &mut Vec<u8>, d: &QuoteRequest) -> Result<(), AllocError>
    ensures { OnOk result (text.new.items ≡ text.old.items ++ parts_text (request_parts d.now)) }
{
    append_parts(
        alloc,
        text,
        &[
            part!(b"request ", bytes(d.request_id.as_slice())),
            part!(b" for quotes", bytes(b"")),
            part!(asked_side(d.side), number(d.quantity.get())),
            part!(b" ", bytes(d.symbol.as_slice())),
        ],
    )
}

/// Whether a request goes to a party.
fn is_asked(party: &Party) -> bool
    ensures { result ≡ is_asked party.now }
{
    party.source.get() == b'D' && party.role.get() == 35
}

/// Appends a party that is nobody of the message's own: its name, the source of the name and its role.
#[tactic(auto, unfolding(crate::specs::Words::party_words))]
fn append_party(alloc: Global, text: &mut Vec<u8>, party: &Party) -> Result<(), AllocError>
    ensures { OnOk result (text.new.items ≡ text.old.items ++ party_words party.now) }
{
    append_parts(
        alloc,
        text,
        &[
            part!(b", with party ", bytes(party.id.as_slice())),
            part!(b" (447=", Some(Value::Byte(party.source.get()))),
            part!(b", 452=", small_number(party.role.get())),
            part!(b")", bytes(b"")),
        ],
    )
}

#[tactic(auto, unfolding(crate::specs::Words::asked_words))]
fn append_asked_party(alloc: Global, text: &mut Vec<u8>, party: &Party) -> Result<(), AllocError>
    ensures { OnOk result (text.new.items ≡ text.old.items ++ asked_words party.now) }
{
    if is_asked(party) {
        append(text, &[b", asking ", party.id.as_slice()])
    } else {
        append_party(alloc, text, party)
    }
}

fn append_asked(alloc: Global, text: &mut Vec<u8>, parties: &[Party]) -> Result<(), AllocError>
    ensures { OnOk result (text.new.items ≡ text.old.items ++ flat_map asked_words parties.now) }
{
    for party in parties {
        append_asked_party(alloc, text, party)?;
    }
    Ok(())
}

pub(crate) fn append_request(
    alloc: Global,
    text: &mut Vec<u8>,
    d: &QuoteRequest,
) -> Result<(), AllocError>
    ensures { OnOk result (text.new.items ≡ text.old.items ++ (parts_text (request_parts d.now) ++ flat_map asked_words d.now.parties)) }
{
    append_asking(alloc, text, d)?;
    append_asked(alloc, text, d.parties.as_slice())
}

fn append_quoted(alloc: Global, text: &mut Vec<u8>, d: &Quote) -> Result<(), AllocError>
    ensures { OnOk result (text.new.items ≡ text.old.items ++ parts_text (quote_parts d.now)) }
{
    append_parts(
        alloc,
        text,
        &[
            part!(b"quote ", bytes(d.quote_id.as_slice())),
            part!(b" in request ", bytes(d.request_id.as_slice())),
            part!(b" for ", bytes(d.symbol.as_slice())),
            part!(b", bid ", price_value(d.bid_price)),
            part!(b" for ", quantity_value(d.bid_size)),
            part!(b", offer ", price_value(d.offer_price)),
            part!(b" for ", quantity_value(d.offer_size)),
            part!(b", until ", moment_value(d.valid_until)),
        ],
    )
}

#[tactic(auto, unfolding(crate::specs::Words::maker_words))]
fn append_maker(alloc: Global, text: &mut Vec<u8>, party: &Party) -> Result<(), AllocError>
    ensures { OnOk result (text.new.items ≡ text.old.items ++ maker_words party.now) }
{
    if is_asked(party) {
        append(text, &[b", of ", party.id.as_slice()])
    } else {
        append_party(alloc, text, party)
    }
}

fn append_makers(alloc: Global, text: &mut Vec<u8>, parties: &[Party]) -> Result<(), AllocError>
    ensures { OnOk result (text.new.items ≡ text.old.items ++ flat_map maker_words parties.now) }
{
    for party in parties {
        append_maker(alloc, text, party)?;
    }
    Ok(())
}

fn append_parties(alloc: Global, text: &mut Vec<u8>, parties: &[Party]) -> Result<(), AllocError>
    ensures { OnOk result (text.new.items ≡ text.old.items ++ flat_map party_words parties.now) }
{
    for party in parties {
        append_party(alloc, text, party)?;
    }
    Ok(())
}

pub(crate) fn append_quote(alloc: Global, text: &mut Vec<u8>, d: &Quote) -> Result<(), AllocError>
    ensures { OnOk result (text.new.items ≡ text.old.items ++ (parts_text (quote_parts d.now) ++ flat_map maker_words d.now.parties)) }
{
    append_quoted(alloc, text, d)?;
    append_makers(alloc, text, d.parties.as_slice())
}

/// Appends a quote as it came: its parties are not used.
pub(crate) fn append_came_quote(
    alloc: Global,
    text: &mut Vec<u8>,
    d: &Quote,
) -> Result<(), AllocError>
    ensures { OnOk result (text.new.items ≡ text.old.items ++ (parts_text (quote_parts d.now) ++ flat_map party_words d.now.parties)) }
{
    append_quoted(alloc, text, d)?;
    append_parties(alloc, text, d.parties.as_slice())
}

pub(crate) fn append_withdrawal(
    alloc: Global,
    text: &mut Vec<u8>,
    d: &QuoteCancel,
) -> Result<(), AllocError>
    ensures { OnOk result (text.new.items ≡ text.old.items ++ parts_text (withdrawal_parts d.now)) }
{
    append_parts(
        alloc,
        text,
        &[
            part!(withdrawal_name(d.cancel_type), bytes(b"")),
            part!(b" ", identifier_value(&d.quote_id)),
        ],
    )
}

pub(crate) fn append_response(
    alloc: Global,
    text: &mut Vec<u8>,
    d: &QuoteResponse,
) -> Result<(), AllocError>
    ensures { OnOk result (text.new.items ≡ text.old.items ++ parts_text (response_parts d.now)) }
{
    append_parts(
        alloc,
        text,
        &[
            part!(response_name(d.response_type), bytes(d.quote_id.as_slice())),
            part!(b" ", side_value(d.side)),
            part!(b" as ", bytes(d.response_id.as_slice())),
        ],
    )
}

fn append_outcome<'a>(
    alloc: Global,
    text: &mut Vec<u8>,
    response: &'a [u8],
    d: &'a QuoteStatusReport,
) -> Result<(), AllocError>
    ensures { OnOk result (text.new.items ≡ text.old.items ++ parts_text (outcome_parts response.now d.now)) }
{
    append_parts(
        alloc,
        text,
        &[
            part!(b"status: response ", bytes(response)),
            part!(b" to quote ", identifier_value(&d.quote_id)),
            part!(b" in request ", identifier_value(&d.request_id)),
            part!(b" for ", identifier_value(&d.symbol)),
            part!(b" ", bytes(outcome_name(d.status))),
            part!(b", 300=", number_value(d.reject_reason)),
            part!(b" ", text_value(&d.text)),
        ],
    )
}

fn append_no_quote(
    alloc: Global,
    text: &mut Vec<u8>,
    d: &QuoteStatusReport,
) -> Result<(), AllocError>
    ensures { OnOk result (text.new.items ≡ text.old.items ++ parts_text (no_quote_parts d.now)) }
{
    append_parts(
        alloc,
        text,
        &[
            part!(b"status: no live quote", bytes(b"")),
            part!(b" ", identifier_value(&d.quote_id)),
            part!(b" in request ", identifier_value(&d.request_id)),
            part!(b" for ", identifier_value(&d.symbol)),
            part!(b", 300=", number_value(d.reject_reason)),
            part!(b" ", text_value(&d.text)),
        ],
    )
}

fn append_quote_status(
    alloc: Global,
    text: &mut Vec<u8>,
    d: &QuoteStatusReport,
) -> Result<(), AllocError>
    ensures { OnOk result (text.new.items ≡ text.old.items ++ parts_text (quote_status_parts d.now)) }
{
    append_parts(
        alloc,
        text,
        &[
            part!(b"status:", bytes(b"")),
            part!(b" quote ", identifier_value(&d.quote_id)),
            part!(b" in request ", identifier_value(&d.request_id)),
            part!(b" for ", identifier_value(&d.symbol)),
            part!(b" ", bytes(status_name(d.status))),
            part!(b", 300=", number_value(d.reject_reason)),
            part!(b" ", text_value(&d.text)),
        ],
    )
}

/// Whether a status without a response says that a withdrawal was refused: it names no request (131).
fn is_withdrawal_refused(d: &QuoteStatusReport) -> bool
    ensures { result ≡ is_withdrawal_refused d.now }
{
    d.status.get() == 5 && d.request_id.is_none()
}

fn append_withdrawal_refused(
    alloc: Global,
    text: &mut Vec<u8>,
    d: &QuoteStatusReport,
) -> Result<(), AllocError>
    ensures { OnOk result (text.new.items ≡ text.old.items ++ parts_text (withdrawal_refused_parts d.now)) }
{
    append_parts(
        alloc,
        text,
        &[
            part!(b"status: withdrawal", bytes(b"")),
            part!(b" of quote ", identifier_value(&d.quote_id)),
            part!(b" for ", identifier_value(&d.symbol)),
            part!(b" refused", bytes(b"")),
            part!(b", 300=", number_value(d.reject_reason)),
            part!(b" ", text_value(&d.text)),
        ],
    )
}

fn append_named_status(
    alloc: Global,
    text: &mut Vec<u8>,
    d: &QuoteStatusReport,
) -> Result<(), AllocError>
    ensures { OnOk result (text.new.items ≡ text.old.items ++ named_status d.now) }
{
    if is_withdrawal_refused(d) {
        return append_withdrawal_refused(alloc, text, d);
    }
    append_quote_status(alloc, text, d)
}

fn append_unnamed_status(
    alloc: Global,
    text: &mut Vec<u8>,
    d: &QuoteStatusReport,
) -> Result<(), AllocError>
    ensures { OnOk result (text.new.items ≡ text.old.items ++ status_words None d.now) }
{
    if d.status.get() == 9 {
        return append_no_quote(alloc, text, d);
    }
    append_named_status(alloc, text, d)
}

/// Appends a status: of a response, of a withdrawal that finds no quote or is refused, or of a quote.
pub(crate) fn append_status(
    alloc: Global,
    text: &mut Vec<u8>,
    d: &QuoteStatusReport,
) -> Result<(), AllocError>
    ensures { OnOk result (text.new.items ≡ text.old.items ++ status_words d.now.response_id d.now) }
{
    match &d.response_id {
        Some(response) => append_outcome(alloc, text, response.as_slice(), d),
        None => append_unnamed_status(alloc, text, d),
    }
}

pub(crate) fn append_request_refused(
    alloc: Global,
    text: &mut Vec<u8>,
    d: &QuoteRequestReject,
) -> Result<(), AllocError>
    ensures { OnOk result (text.new.items ≡ text.old.items ++ parts_text (request_refused_parts d.now)) }
{
    append_parts(
        alloc,
        text,
        &[
            part!(b"request ", bytes(d.request_id.as_slice())),
            part!(b" for ", bytes(d.symbol.as_slice())),
            part!(b" refused, 658=", small_number(d.reject_reason.get())),
            part!(b" ", text_value(&d.text)),
        ],
    )
}
