//! Reading of requests for quotes, quotes and refusals of requests, from fields in which their tables found no fault.
ghost use Rattle.std.specs.Prelude.{◌≡◌, ℕ, ◌≤◌, IfOk, List, Some, map, length};
ghost use Rattle.fix_fields.specs.Fields.{value_of};
ghost use Rattle.fix_fields.specs.Views.{entries};
ghost use Rattle.sef_moment.specs.Utc.{moment_of};
ghost use Rattle.fix_validation.specs.Tables.{header_rows, asked_rows, party_rows, instrument_rows, quote_request_rows, quote_rows, quote_request_reject_rows};
ghost use Rattle.fix_validation.specs.Holding.{Holds};
ghost use Rattle.fix_validation.specs.GroupHolding.{members, Clean, EachHolds};
ghost use Rattle.fix_validation.specs.Positions.{places, part, begins, instances, first_begin, sole};
ghost use Rattle.fix_dictionary.specs.Values.{FitsParties};
ghost use Rattle.fix_validation.specs.Stated.{stated, bytes_at, character_in, number_in, price_in, quantity_in, side_in};
ghost use Rattle.fix_decoder.specs.Messages.{party, parties_in, quote_request, quote, quote_request_reject};

use crate::field_values::{
    character, identifier, number, optional_character, optional_moment, optional_price,
    optional_quantity, optional_side, optional_text, quantity, value_of,
};
use crate::group_parts::symbol;
use fix_dictionary::{Identifier, Parties, Party, Quote, QuoteRequest, QuoteRequestReject};
use fix_fields::Field;
use fix_validation::{LocatedField, begins, first_begin, part};
use std::alloc::{AllocError, Global};

fn party(fields: &[Field]) -> Party
    requires { Holds party_rows (entries fields.now) }
    ensures { result ≡ party (entries fields.now) }
{
    Party {
        id: identifier(fields, 448),
        source: character(fields, 447),
        role: number(fields, 452),
    }
}

fn party_list(
    alloc: Global,
    located: &[LocatedField],
    place: usize,
) -> Result<Vec<Party>, AllocError>
    requires { EachHolds party_rows 448 place (places located.now) }
    ensures { IfOk result (λ list. list.items ≡ map party (instances 448 place (places located.now))) }
{
    let begins = begins(alloc, located, 448, place)?;
    let mut list = Vec::new(alloc);
    for begin in begins.as_slice() {
        let fields = part(alloc, located, *begin)?;
        list.push(party(&fields))?;
    }
    Ok(list)
}

// The parties of a part, given its fields.
fn parties_of(
    alloc: Global,
    located: &[LocatedField],
    place: usize,
    fields: &[Field],
) -> Result<Vec<Party>, AllocError>
    requires each { EachHolds party_rows 448 place (places located.now) }
    requires fields { entries fields.now ≡ part place (places located.now) }
    ensures { IfOk result (λ list. list.items ≡ parties_in place (places located.now)) }
{
    match value_of(fields, 453) {
        Some(_) => party_list(alloc, located, place),
        None => Ok(Vec::new(alloc)),
    }
}

fn asked(fields: &[Field], request_id: Identifier, list: Parties) -> QuoteRequest
    requires { Holds asked_rows (entries fields.now) }
    ensures { result ≡ record {
      request_id = request_id;
      symbol = bytes_at 55 (entries fields.now);
      side = stated side_in (value_of 54 (entries fields.now));
      quantity = quantity_in (bytes_at 38 (entries fields.now));
      parties = list;
    } }
{
    QuoteRequest {
        request_id,
        symbol: identifier(fields, 55),
        side: optional_side(fields, 54),
        quantity: quantity(fields, 38),
        parties: list,
    }
}

fn request_id(alloc: Global, located: &[LocatedField]) -> Result<Identifier, AllocError>
    requires { Holds (members 0 quote_request_rows) (part 0 (places located.now)) }
    ensures { IfOk result (λ id. id ≡ bytes_at 131 (part 0 (places located.now))) }
{
    let fields = part(alloc, located, 0)?;
    Ok(identifier(&fields, 131))
}

pub(crate) fn quote_request(
    alloc: Global,
    located: &[LocatedField],
) -> Result<QuoteRequest, AllocError>
    requires { Clean header_rows quote_request_rows (places located.now) }
    ensures { IfOk result (λ m. m ≡ quote_request (places located.now)) }
{
    let request_id = request_id(alloc, located)?;
    let place = first_begin(located, 55);
    let fields = part(alloc, located, place)?;
    let list = Parties::from_vec(parties_of(alloc, located, place, &fields)?);
    Ok(asked(&fields, request_id, list))
}

fn quote_of(fields: &[Field], list: Parties) -> Quote
    requires { Holds (members 0 quote_rows) (entries fields.now) }
    ensures { result ≡ record {
      quote_id = bytes_at 117 (entries fields.now);
      request_id = bytes_at 131 (entries fields.now);
      quote_type = stated character_in (value_of 537 (entries fields.now));
      parties = list;
      symbol = bytes_at 55 (entries fields.now);
      bid_price = stated price_in (value_of 132 (entries fields.now));
      offer_price = stated price_in (value_of 133 (entries fields.now));
      bid_size = stated quantity_in (value_of 134 (entries fields.now));
      offer_size = stated quantity_in (value_of 135 (entries fields.now));
      valid_until = stated moment_of (value_of 62 (entries fields.now));
    } }
{
    Quote {
        quote_id: identifier(fields, 117),
        request_id: identifier(fields, 131),
        quote_type: optional_character(fields, 537),
        parties: list,
        symbol: identifier(fields, 55),
        bid_price: optional_price(fields, 132),
        offer_price: optional_price(fields, 133),
        bid_size: optional_quantity(fields, 134),
        offer_size: optional_quantity(fields, 135),
        valid_until: optional_moment(fields, 62),
    }
}

pub(crate) fn quote(alloc: Global, located: &[LocatedField]) -> Result<Quote, AllocError>
    requires { Clean header_rows quote_rows (places located.now) }
    ensures { IfOk result (λ m. m ≡ quote (places located.now)) }
{
    let fields = part(alloc, located, 0)?;
    let list = Parties::from_vec(parties_of(alloc, located, 0, &fields)?);
    Ok(quote_of(&fields, list))
}

fn reject_of(
    alloc: Global,
    fields: &[Field],
    symbol: Identifier,
) -> Result<QuoteRequestReject, AllocError>
    requires { Holds (members 0 quote_request_reject_rows) (entries fields.now) }
    ensures { IfOk result (λ m. m ≡ record {
      request_id = bytes_at 131 (entries fields.now);
      reject_reason = number_in (bytes_at 658 (entries fields.now));
      symbol = symbol;
      text = value_of 58 (entries fields.now);
    }) }
{
    Ok(QuoteRequestReject {
        request_id: identifier(fields, 131),
        reject_reason: number(fields, 658),
        symbol,
        text: optional_text(alloc, fields, 58)?,
    })
}

pub(crate) fn quote_request_reject(
    alloc: Global,
    located: &[LocatedField],
) -> Result<QuoteRequestReject, AllocError>
    requires { Clean header_rows quote_request_reject_rows (places located.now) }
    ensures { IfOk result (λ m. m ≡ quote_request_reject (places located.now)) }
{
    let fields = part(alloc, located, 0)?;
    let symbol = symbol(alloc, located)?;
    reject_of(alloc, &fields, symbol)
}
