//! Prices, and what is not processed, in words.
ghost use Rattle.std.specs.Prelude.{◌≡◌, ◌++◌, OnOk};
ghost use Rattle.std.specs.List.{flat_map};
ghost use Rattle.message_words.specs.Parts.{parts_text};
ghost use Rattle.message_words.specs.Words.{entry_words, prices_parts, prices_refused_parts, prices_request_parts, unprocessed_parts, unsupported_parts};

use crate::names::entry_name;
use crate::parts::{
    Part, Value, amount_value, append_parts, bytes, identifier_value, number, price_value,
    text_value,
};
use fix_dictionary::{
    BusinessMessageReject, MarketDataEntry, MarketDataRequest, MarketDataRequestReject,
    MarketDataSnapshot, OtherKind,
};
use std::alloc::{AllocError, Global};

macro_rules! part {
    ($before:expr, $value:expr) => {
        Part {
            before: $before,
            value: $value,
        }
    };
}

pub(crate) fn append_prices_request(
    alloc: Global,
    text: &mut Vec<u8>,
    d: &MarketDataRequest,
) -> Result<(), AllocError>
    ensures { OnOk result (text.new.items ≡ text.old.items ++ parts_text (prices_request_parts d.now)) }
{
    append_parts(
        alloc,
        text,
        &[
            part!(b"request ", bytes(d.request_id.as_slice())),
            part!(b" for the prices of ", bytes(d.symbol.as_slice())),
        ],
    )
}

fn append_heading(
    alloc: Global,
    text: &mut Vec<u8>,
    d: &MarketDataSnapshot,
) -> Result<(), AllocError>
    ensures { OnOk result (text.new.items ≡ text.old.items ++ parts_text (prices_parts d.now)) }
{
    append_parts(
        alloc,
        text,
        &[
            part!(b"prices of ", bytes(d.symbol.as_slice())),
            part!(b" for request ", bytes(d.request_id.as_slice())),
        ],
    )
}

fn append_entry(alloc: Global, text: &mut Vec<u8>, e: &MarketDataEntry) -> Result<(), AllocError>
    ensures { OnOk result (text.new.items ≡ text.old.items ++ entry_words e.now) }
{
    append_parts(
        alloc,
        text,
        &[
            part!(entry_name(e.entry_type), bytes(b"")),
            part!(b" ", identifier_value(&e.order_id)),
            part!(b" ", amount_value(e.size)),
            part!(b" @ ", price_value(e.price)),
        ],
    )
}

fn append_entries(
    alloc: Global,
    text: &mut Vec<u8>,
    entries: &[MarketDataEntry],
) -> Result<(), AllocError>
    ensures { OnOk result (text.new.items ≡ text.old.items ++ flat_map entry_words entries.now) }
{
    for entry in entries {
        append_entry(alloc, text, entry)?;
    }
    Ok(())
}

pub(crate) fn append_prices(
    alloc: Global,
    text: &mut Vec<u8>,
    d: &MarketDataSnapshot,
) -> Result<(), AllocError>
    ensures { OnOk result (text.new.items ≡ text.old.items ++ (parts_text (prices_parts d.now) ++ flat_map entry_words d.now.entries)) }
{
    append_heading(alloc, text, d)?;
    append_entries(alloc, text, d.entries.as_slice())
}

pub(crate) fn append_prices_refused(
    alloc: Global,
    text: &mut Vec<u8>,
    d: &MarketDataRequestReject,
) -> Result<(), AllocError>
    ensures { OnOk result (text.new.items ≡ text.old.items ++ parts_text (prices_refused_parts d.now)) }
{
    append_parts(
        alloc,
        text,
        &[
            part!(b"request ", bytes(d.request_id.as_slice())),
            part!(
                b" for prices refused, 281=",
                Some(Value::Byte(d.reject_reason.get()))
            ),
            part!(b" ", text_value(&d.text)),
        ],
    )
}

pub(crate) fn append_unprocessed(
    alloc: Global,
    text: &mut Vec<u8>,
    d: &BusinessMessageReject,
) -> Result<(), AllocError>
    ensures { OnOk result (text.new.items ≡ text.old.items ++ parts_text (unprocessed_parts d.now)) }
{
    append_parts(
        alloc,
        text,
        &[
            part!(
                b"message with sequence number ",
                number(u64::from(d.reference_number.get()))
            ),
            part!(b" of type ", bytes(d.reference_type.as_slice())),
            part!(
                b" not processed, 380=",
                number(u64::from(d.reject_reason.get()))
            ),
            part!(b" ", text_value(&d.text)),
        ],
    )
}

pub(crate) fn append_unsupported(
    alloc: Global,
    text: &mut Vec<u8>,
    kind: &OtherKind,
) -> Result<(), AllocError>
    ensures { OnOk result (text.new.items ≡ text.old.items ++ parts_text (unsupported_parts kind.now)) }
{
    append_parts(
        alloc,
        text,
        &[
            part!(b"message of type ", bytes(kind.as_slice())),
            part!(b", which is not supported", bytes(b"")),
        ],
    )
}
