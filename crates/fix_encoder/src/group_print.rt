//! Printing of messages with repeating groups.
ghost use Rattle.std.specs.Prelude.{◌≡◌, ℕ, ◌≤◌, ◌++◌, ◌∷◌, [], decimal, Some, length};
ghost use Rattle.std.specs.List.{AllByRecursion};
ghost use Rattle.fix_fields.specs.Fields.{Appends};
ghost use Rattle.fix_dictionary.specs.Values.{IsAmount};
ghost use Rattle.fix_dictionary.specs.Fits.{Given, IsGraphic, FitsMarketDataEntry, FitsMarketDataRequest, FitsMarketDataSnapshot};
ghost use Rattle.fix_encoder.specs.Printed.{printed_option, slots};
ghost use Rattle.fix_dictionary.specs.Text.{slots_text, given, each_slots, entry_type_slots, market_data_entry_slots, market_data_request_slots, market_data_snapshot_slots};

use crate::print::{Printed, Slot, append_slots, printed_identifier, printed_price};
use fix_dictionary::{
    Amount, FixChar, Identifier, MarketDataEntry, MarketDataRequest, MarketDataSnapshot,
};
use std::alloc::AllocError;

macro_rules! slot {
    ($tag:expr, $value:expr) => {
        Slot {
            tag: $tag,
            value: $value,
        }
    };
}

fn printed_amount<'a>(v: Option<Amount>) -> Option<Printed<'a>>
    ensures value { printed_option result ≡ given decimal v }
    ensures fits { Given IsAmount v }
{
    match v {
        Some(x) => Some(Printed::Number(x.get())),
        None => None,
    }
}

fn print_entry_type(out: &mut Vec<u8>, entry_type: FixChar) -> Result<(), AllocError>
    ensures text { Appends out.old.items out.new.items (slots_text (entry_type_slots entry_type)) result }
    ensures fits { IsGraphic entry_type }
{
    append_slots(out, &[slot!(269, Some(Printed::Byte(entry_type.get())))])
}

fn print_entry_types(out: &mut Vec<u8>, list: &[FixChar]) -> Result<(), AllocError>
    ensures { Appends out.old.items out.new.items (slots_text (each_slots entry_type_slots list.now)) result }
{
    for instance in list {
        print_entry_type(out, *instance)?;
    }
    Ok(())
}

fn print_entry(out: &mut Vec<u8>, m: &MarketDataEntry) -> Result<(), AllocError>
    ensures text { Appends out.old.items out.new.items (slots_text (market_data_entry_slots m.now)) result }
{
    append_slots(
        out,
        &[
            slot!(269, Some(Printed::Byte(m.entry_type.get()))),
            slot!(270, printed_price(m.price)),
            slot!(271, printed_amount(m.size)),
            slot!(278, printed_identifier(&m.order_id)),
        ],
    )
}

fn print_entries(out: &mut Vec<u8>, list: &[MarketDataEntry]) -> Result<(), AllocError>
    ensures { Appends out.old.items out.new.items (slots_text (each_slots market_data_entry_slots list.now)) result }
{
    for instance in list {
        print_entry(out, instance)?;
    }
    Ok(())
}

// The values of each instance are in their ranges, as their types say.
fn entry_types_fit(list: &[FixChar])
    ensures { AllByRecursion IsGraphic list.now }
{
    for instance in list {
        let _ = instance.get();
    }
}

fn entry_fits(m: &MarketDataEntry)
    ensures { FitsMarketDataEntry m.now }
{
    let _ = m.entry_type.get();
    let _ = printed_price(m.price);
    let _ = printed_amount(m.size);
    let _ = printed_identifier(&m.order_id);
}

fn entries_fit(list: &[MarketDataEntry])
    ensures { AllByRecursion FitsMarketDataEntry list.now }
{
    for instance in list {
        entry_fits(instance);
    }
}

fn print_request_head(
    out: &mut Vec<u8>,
    m: &MarketDataRequest,
    number: usize,
) -> Result<(), AllocError>
    ensures { Appends out.old.items out.new.items (slots_text ((262, Some m.now.request_id) ∷ (263, Some (m.now.subscription_type ∷ [])) ∷ (264, Some (decimal m.now.depth)) ∷ (267, Some (decimal number)) ∷ [])) result }
{
    append_slots(
        out,
        &[
            slot!(262, Some(Printed::Bytes(m.request_id.as_slice()))),
            slot!(263, Some(Printed::Byte(m.subscription_type.get()))),
            slot!(264, Some(Printed::Number(u64::from(m.depth.get())))),
            slot!(267, Some(Printed::Number(number as u64))),
        ],
    )
}

fn print_instrument(out: &mut Vec<u8>, symbol: &Identifier) -> Result<(), AllocError>
    ensures { Appends out.old.items out.new.items (slots_text ((146, Some (decimal 1)) ∷ (55, Some symbol.now) ∷ [])) result }
{
    append_slots(
        out,
        &[
            slot!(146, Some(Printed::Number(1))),
            slot!(55, Some(Printed::Bytes(symbol.as_slice()))),
        ],
    )
}

fn print_request_tail(out: &mut Vec<u8>, m: &MarketDataRequest) -> Result<(), AllocError>
    ensures { Appends out.old.items out.new.items (slots_text (each_slots entry_type_slots m.now.entry_types ++ (146, Some (decimal 1)) ∷ (55, Some m.now.symbol) ∷ [])) result }
{
    print_entry_types(out, m.entry_types.as_slice())?;
    print_instrument(out, &m.symbol)
}

fn append_request(out: &mut Vec<u8>, m: &MarketDataRequest) -> Result<(), AllocError>
    ensures { Appends out.old.items out.new.items (slots_text (market_data_request_slots m.now)) result }
{
    print_request_head(out, m, m.entry_types.as_slice().len())?;
    print_request_tail(out, m)
}

pub(crate) fn print_market_data_request(
    out: &mut Vec<u8>,
    m: &MarketDataRequest,
) -> Result<(), AllocError>
    ensures text { Appends out.old.items out.new.items (slots_text (market_data_request_slots m.now)) result }
    ensures fits { FitsMarketDataRequest m.now }
{
    let _ = m.request_id.as_slice();
    let _ = m.subscription_type.get();
    let _ = m.depth.get();
    let _ = m.symbol.as_slice();
    entry_types_fit(m.entry_types.as_slice());
    append_request(out, m)
}

fn print_snapshot_head(
    out: &mut Vec<u8>,
    m: &MarketDataSnapshot,
    number: usize,
) -> Result<(), AllocError>
    ensures { Appends out.old.items out.new.items (slots_text ((262, Some m.now.request_id) ∷ (55, Some m.now.symbol) ∷ (268, Some (decimal number)) ∷ [])) result }
{
    append_slots(
        out,
        &[
            slot!(262, Some(Printed::Bytes(m.request_id.as_slice()))),
            slot!(55, Some(Printed::Bytes(m.symbol.as_slice()))),
            slot!(268, Some(Printed::Number(number as u64))),
        ],
    )
}

fn append_snapshot(out: &mut Vec<u8>, m: &MarketDataSnapshot) -> Result<(), AllocError>
    ensures { Appends out.old.items out.new.items (slots_text (market_data_snapshot_slots m.now)) result }
{
    let list = m.entries.as_slice();
    print_snapshot_head(out, m, list.len())?;
    print_entries(out, list)
}

pub(crate) fn print_market_data_snapshot(
    out: &mut Vec<u8>,
    m: &MarketDataSnapshot,
) -> Result<(), AllocError>
    ensures text { Appends out.old.items out.new.items (slots_text (market_data_snapshot_slots m.now)) result }
    ensures fits { FitsMarketDataSnapshot m.now }
{
    let _ = m.request_id.as_slice();
    let _ = m.symbol.as_slice();
    entries_fit(m.entries.as_slice());
    append_snapshot(out, m)
}
