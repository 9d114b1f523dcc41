//! Reading of each message type with repeating groups, from fields in which its table found no fault.
ghost use Rattle.std.specs.Prelude.{◌≡◌, ◌≤◌, IfOk, map, length};
ghost use Rattle.fix_fields.specs.Views.{entries};
ghost use Rattle.fix_validation.specs.Tables.{header_rows, entry_type_rows, instrument_rows, market_data_entry_rows, market_data_request_rows, market_data_snapshot_rows};
ghost use Rattle.fix_validation.specs.Holding.{Holds};
ghost use Rattle.fix_validation.specs.GroupHolding.{members, Clean, EachHolds};
ghost use Rattle.fix_validation.specs.Positions.{places, part, begins, instances, sole};
ghost use Rattle.fix_dictionary.specs.Values.{FitsEntryTypes, FitsEntries};
ghost use Rattle.fix_validation.specs.Stated.{bytes_at, character_in, number_in};
ghost use Rattle.fix_decoder.specs.Messages.{entry_type, market_data_entry, market_data_request, market_data_snapshot};

use crate::field_values::{
    character, identifier, number, optional_amount, optional_identifier, optional_price,
};
use fix_dictionary::{
    EntryTypes, FixChar, Identifier, MarketDataEntries, MarketDataEntry, MarketDataRequest,
    MarketDataSnapshot,
};
use fix_fields::Field;
use fix_validation::{LocatedField, Part, begins, part};
use smallvec::SmallVec;
use std::alloc::{AllocError, Global};

fn market_data_entries(
    alloc: Global,
    located: &[LocatedField],
) -> Result<Vec<MarketDataEntry>, AllocError>
    requires { EachHolds market_data_entry_rows 269 0 (places located.now) }
    ensures { IfOk result (λ list. list.items ≡ map market_data_entry (instances 269 0 (places located.now))) }
{
    let begins = begins(alloc, located, 269, 0)?;
    let mut list = Vec::new(alloc);
    for begin in begins.as_slice() {
        let fields = part(alloc, located, *begin)?;
        list.push(MarketDataEntry {
            entry_type: character(&fields, 269),
            price: optional_price(&fields, 270),
            size: optional_amount(&fields, 271),
            order_id: optional_identifier(&fields, 278),
        })?;
    }
    Ok(list)
}

fn entry_types(alloc: Global, located: &[LocatedField]) -> Result<Vec<FixChar>, AllocError>
    requires { EachHolds entry_type_rows 269 0 (places located.now) }
    ensures { IfOk result (λ list. list.items ≡ map entry_type (instances 269 0 (places located.now))) }
{
    let begins = begins(alloc, located, 269, 0)?;
    let mut list = Vec::new(alloc);
    for begin in begins.as_slice() {
        let fields = part(alloc, located, *begin)?;
        list.push(character(&fields, 269))?;
    }
    Ok(list)
}

// The fields of the only instance of a group outside of groups.
fn sole<'a>(alloc: Global, located: &[LocatedField<'a>], first: u32) -> Result<Part<'a>, AllocError>
    ensures { IfOk result (λ fields. entries fields.items ≡ sole first (places located.now)) }
{
    let begins = begins(alloc, located, first, 0)?;
    match begins.as_slice() {
        [begin, ..] => part(alloc, located, *begin),
        [] => Ok(SmallVec::new(alloc)),
    }
}

// The instrument of a group.
pub(crate) fn symbol(alloc: Global, located: &[LocatedField]) -> Result<Identifier, AllocError>
    requires { Holds instrument_rows (sole 55 (places located.now)) }
    ensures { IfOk result (λ id. id ≡ bytes_at 55 (sole 55 (places located.now))) }
{
    let fields = sole(alloc, located, 55)?;
    Ok(identifier(&fields, 55))
}

fn request_of(fields: &[Field], list: EntryTypes, symbol: Identifier) -> MarketDataRequest
    requires { Holds (members 0 market_data_request_rows) (entries fields.now) }
    ensures { result ≡ record {
      request_id = bytes_at 262 (entries fields.now);
      subscription_type = character_in (bytes_at 263 (entries fields.now));
      depth = number_in (bytes_at 264 (entries fields.now));
      entry_types = list;
      symbol = symbol;
    } }
{
    MarketDataRequest {
        request_id: identifier(fields, 262),
        subscription_type: character(fields, 263),
        depth: number(fields, 264),
        entry_types: list,
        symbol,
    }
}

pub(crate) fn market_data_request(
    alloc: Global,
    located: &[LocatedField],
) -> Result<MarketDataRequest, AllocError>
    requires { Clean header_rows market_data_request_rows (places located.now) }
    ensures { IfOk result (λ m. m ≡ market_data_request (places located.now)) }
{
    let fields = part(alloc, located, 0)?;
    let list = EntryTypes::from_vec(entry_types(alloc, located)?);
    let symbol = symbol(alloc, located)?;
    Ok(request_of(&fields, list, symbol))
}

fn snapshot_of(fields: &[Field], list: MarketDataEntries) -> MarketDataSnapshot
    requires { Holds (members 0 market_data_snapshot_rows) (entries fields.now) }
    ensures { result ≡ record {
      request_id = bytes_at 262 (entries fields.now);
      symbol = bytes_at 55 (entries fields.now);
      entries = list;
    } }
{
    MarketDataSnapshot {
        request_id: identifier(fields, 262),
        symbol: identifier(fields, 55),
        entries: list,
    }
}

pub(crate) fn market_data_snapshot(
    alloc: Global,
    located: &[LocatedField],
) -> Result<MarketDataSnapshot, AllocError>
    requires { Clean header_rows market_data_snapshot_rows (places located.now) }
    ensures { IfOk result (λ m. m ≡ market_data_snapshot (places located.now)) }
{
    let fields = part(alloc, located, 0)?;
    let list = MarketDataEntries::from_vec(market_data_entries(alloc, located)?);
    Ok(snapshot_of(&fields, list))
}
