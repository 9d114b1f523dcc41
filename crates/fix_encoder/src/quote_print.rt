//! Printing of requests for quotes, quotes and refusals of requests.
ghost use Rattle.std.specs.Prelude.{◌≡◌, ℕ, ◌≤◌, ◌++◌, ◌∷◌, [], decimal, Some, length};
ghost use Rattle.std.specs.List.{AllByRecursion};
ghost use Rattle.fix_fields.specs.Fields.{Appends};
ghost use Rattle.fix_dictionary.specs.Fits.{FitsParty, FitsQuoteRequest, FitsQuote, FitsQuoteRequestReject};
ghost use Rattle.fix_encoder.specs.Printed.{printed_option, slots};
ghost use Rattle.fix_dictionary.specs.Text.{slots_text, given, side_text, each_slots, party_count, party_slots, quote_request_slots, quote_slots, quote_rest_slots, quote_request_reject_slots};

use crate::print::{
    Printed, Slot, append_slots, printed_character, printed_moment, printed_optional_side,
    printed_price, printed_quantity, printed_text,
};
use fix_dictionary::{Party, Quote, QuoteRequest, QuoteRequestReject};
use std::alloc::AllocError;

macro_rules! slot {
    ($tag:expr, $value:expr) => {
        Slot {
            tag: $tag,
            value: $value,
        }
    };
}

fn printed_count<'a>(list: &[Party]) -> Option<Printed<'a>>
    ensures { printed_option result ≡ party_count list.now }
{
    match list {
        [] => None,
        [_, ..] => Some(Printed::Number(list.len() as u64)),
    }
}

fn print_party(out: &mut Vec<u8>, m: &Party) -> Result<(), AllocError>
    ensures text { Appends out.old.items out.new.items (slots_text (party_slots m.now)) result }
{
    append_slots(
        out,
        &[
            slot!(448, Some(Printed::Bytes(m.id.as_slice()))),
            slot!(447, Some(Printed::Byte(m.source.get()))),
            slot!(452, Some(Printed::Number(u64::from(m.role.get())))),
        ],
    )
}

fn print_parties(out: &mut Vec<u8>, list: &[Party]) -> Result<(), AllocError>
    ensures { Appends out.old.items out.new.items (slots_text (each_slots party_slots list.now)) result }
{
    for instance in list {
        print_party(out, instance)?;
    }
    Ok(())
}

fn party_fits(m: &Party)
    ensures { FitsParty m.now }
{
    let _ = m.id.as_slice();
    let _ = m.source.get();
    let _ = m.role.get();
}

// The values of each party are in their ranges, as their types say.
fn parties_fit(list: &[Party])
    ensures { AllByRecursion FitsParty list.now }
{
    for instance in list {
        party_fits(instance);
    }
}

fn print_request_head(out: &mut Vec<u8>, m: &QuoteRequest, list: &[Party]) -> Result<(), AllocError>
    ensures { Appends out.old.items out.new.items (slots_text ((131, Some m.now.request_id) ∷ (146, Some (decimal 1)) ∷ (55, Some m.now.symbol) ∷ (54, given side_text m.now.side) ∷ (38, Some (decimal m.now.quantity)) ∷ (453, party_count list.now) ∷ [])) result }
{
    append_slots(
        out,
        &[
            slot!(131, Some(Printed::Bytes(m.request_id.as_slice()))),
            slot!(146, Some(Printed::Number(1))),
            slot!(55, Some(Printed::Bytes(m.symbol.as_slice()))),
            slot!(54, printed_optional_side(m.side)),
            slot!(38, Some(Printed::Number(m.quantity.get()))),
            slot!(453, printed_count(list)),
        ],
    )
}

fn append_request(out: &mut Vec<u8>, m: &QuoteRequest) -> Result<(), AllocError>
    ensures { Appends out.old.items out.new.items (slots_text (quote_request_slots m.now)) result }
{
    let list = m.parties.as_slice();
    print_request_head(out, m, list)?;
    print_parties(out, list)
}

pub(crate) fn print_quote_request(out: &mut Vec<u8>, m: &QuoteRequest) -> Result<(), AllocError>
    ensures text { Appends out.old.items out.new.items (slots_text (quote_request_slots m.now)) result }
    ensures fits { FitsQuoteRequest m.now }
{
    let _ = m.request_id.as_slice();
    let _ = m.symbol.as_slice();
    let _ = m.quantity.get();
    parties_fit(m.parties.as_slice());
    append_request(out, m)
}

fn print_quote_head(out: &mut Vec<u8>, m: &Quote, list: &[Party]) -> Result<(), AllocError>
    ensures { Appends out.old.items out.new.items (slots_text ((117, Some m.now.quote_id) ∷ (131, Some m.now.request_id) ∷ (537, given (λ c. c ∷ []) m.now.quote_type) ∷ (453, party_count list.now) ∷ [])) result }
{
    append_slots(
        out,
        &[
            slot!(117, Some(Printed::Bytes(m.quote_id.as_slice()))),
            slot!(131, Some(Printed::Bytes(m.request_id.as_slice()))),
            slot!(537, printed_character(m.quote_type)),
            slot!(453, printed_count(list)),
        ],
    )
}

fn print_quote_rest(out: &mut Vec<u8>, m: &Quote) -> Result<(), AllocError>
    ensures { Appends out.old.items out.new.items (slots_text (quote_rest_slots m.now)) result }
{
    append_slots(
        out,
        &[
            slot!(55, Some(Printed::Bytes(m.symbol.as_slice()))),
            slot!(132, printed_price(m.bid_price)),
            slot!(133, printed_price(m.offer_price)),
            slot!(134, printed_quantity(m.bid_size)),
            slot!(135, printed_quantity(m.offer_size)),
            slot!(62, printed_moment(m.valid_until)),
        ],
    )
}

fn print_quote_tail(out: &mut Vec<u8>, m: &Quote, list: &[Party]) -> Result<(), AllocError>
    ensures { Appends out.old.items out.new.items (slots_text (each_slots party_slots list.now ++ quote_rest_slots m.now)) result }
{
    print_parties(out, list)?;
    print_quote_rest(out, m)
}

fn append_quote(out: &mut Vec<u8>, m: &Quote) -> Result<(), AllocError>
    ensures { Appends out.old.items out.new.items (slots_text (quote_slots m.now)) result }
{
    let list = m.parties.as_slice();
    print_quote_head(out, m, list)?;
    print_quote_tail(out, m, list)
}

pub(crate) fn print_quote(out: &mut Vec<u8>, m: &Quote) -> Result<(), AllocError>
    ensures text { Appends out.old.items out.new.items (slots_text (quote_slots m.now)) result }
    ensures fits { FitsQuote m.now }
{
    let _ = m.quote_id.as_slice();
    let _ = m.request_id.as_slice();
    let _ = printed_character(m.quote_type);
    let _ = m.symbol.as_slice();
    let _ = printed_price(m.bid_price);
    let _ = printed_price(m.offer_price);
    let _ = printed_quantity(m.bid_size);
    let _ = printed_quantity(m.offer_size);
    let _ = printed_moment(m.valid_until);
    parties_fit(m.parties.as_slice());
    append_quote(out, m)
}

pub(crate) fn print_quote_request_reject(
    out: &mut Vec<u8>,
    m: &QuoteRequestReject,
) -> Result<(), AllocError>
    ensures text { Appends out.old.items out.new.items (slots_text (quote_request_reject_slots m.now)) result }
    ensures fits { FitsQuoteRequestReject m.now }
{
    append_slots(
        out,
        &[
            slot!(131, Some(Printed::Bytes(m.request_id.as_slice()))),
            slot!(658, Some(Printed::Number(u64::from(m.reject_reason.get())))),
            slot!(146, Some(Printed::Number(1))),
            slot!(55, Some(Printed::Bytes(m.symbol.as_slice()))),
            slot!(58, printed_text(&m.text)),
        ],
    )
}
