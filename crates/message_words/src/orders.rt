//! Orders, cancels, replacements and crosses in words, and reports on them.
ghost use Rattle.std.specs.Prelude.{◌≡◌, ◌++◌, OnOk};
ghost use Rattle.message_words.specs.Parts.{parts_text};
ghost use Rattle.message_words.specs.Words.{cancel_parts, change_refused_parts, cross_parts, order_parts, replacement_parts, report_parts};

use crate::names::{
    change_name, holder, life_value, order_number, other_type, report_kind, report_known_as,
    report_number, to_side,
};
use crate::parts::{
    Part, append_parts, bytes, identifier_value, number, number_value, price_value, quantity_value,
    small_number, text_value,
};
use fix_dictionary::{
    ExecutionReport, NewOrderCross, NewOrderSingle, OrderCancelReject, OrderCancelReplaceRequest,
    OrderCancelRequest,
};
use std::alloc::{AllocError, Global};

macro_rules! part {
    ($before:expr, $value:expr) => {
        Part {
            before: $before,
            value: $value,
        }
    };
}

pub(crate) fn append_order(
    alloc: Global,
    text: &mut Vec<u8>,
    d: &NewOrderSingle,
) -> Result<(), AllocError>
    ensures { OnOk result (text.new.items ≡ text.old.items ++ parts_text (order_parts d.now)) }
{
    append_parts(
        alloc,
        text,
        &[
            part!(b"order ", bytes(d.order_id.as_slice())),
            part!(to_side(d.side), number(d.quantity.get())),
            part!(b" ", bytes(d.symbol.as_slice())),
            part!(b" @ ", price_value(d.price)),
            part!(b" of order type ", other_type(d.order_type)),
            part!(b" ", life_value(d.time_in_force)),
            part!(b" with link ", identifier_value(&d.link_id)),
        ],
    )
}

pub(crate) fn append_cancel(
    alloc: Global,
    text: &mut Vec<u8>,
    d: &OrderCancelRequest,
) -> Result<(), AllocError>
    ensures { OnOk result (text.new.items ≡ text.old.items ++ parts_text (cancel_parts d.now)) }
{
    append_parts(
        alloc,
        text,
        &[
            part!(b"cancel ", bytes(d.order_id.as_slice())),
            part!(b" of order ", bytes(d.original_id.as_slice())),
        ],
    )
}

pub(crate) fn append_replacement(
    alloc: Global,
    text: &mut Vec<u8>,
    d: &OrderCancelReplaceRequest,
) -> Result<(), AllocError>
    ensures { OnOk result (text.new.items ≡ text.old.items ++ parts_text (replacement_parts d.now)) }
{
    append_parts(
        alloc,
        text,
        &[
            part!(b"replacement ", bytes(d.order_id.as_slice())),
            part!(b" of order ", bytes(d.original_id.as_slice())),
            part!(b" by ", number(d.quantity.get())),
            part!(b" @ ", price_value(d.price)),
            part!(b" of order type ", other_type(d.order_type)),
        ],
    )
}

pub(crate) fn append_cross(
    alloc: Global,
    text: &mut Vec<u8>,
    d: &NewOrderCross,
) -> Result<(), AllocError>
    ensures { OnOk result (text.new.items ≡ text.old.items ++ parts_text (cross_parts d.now)) }
{
    append_parts(
        alloc,
        text,
        &[
            part!(b"cross ", bytes(d.cross_id.as_slice())),
            part!(b" of ", bytes(d.symbol.as_slice())),
            part!(b" @ ", price_value(d.price)),
            part!(b": ", bytes(d.first.order_id.as_slice())),
            part!(to_side(d.first.side), number(d.first.quantity.get())),
            part!(b", ", bytes(d.second.order_id.as_slice())),
            part!(to_side(d.second.side), number(d.second.quantity.get())),
            part!(b", of cross type ", small_number(d.cross_type.get())),
            part!(b" and priority ", small_number(d.prioritization.get())),
            part!(b" and order type ", other_type(d.order_type)),
        ],
    )
}

pub(crate) fn append_report(
    alloc: Global,
    text: &mut Vec<u8>,
    d: &ExecutionReport,
) -> Result<(), AllocError>
    ensures { OnOk result (text.new.items ≡ text.old.items ++ parts_text (report_parts d.now)) }
{
    append_parts(
        alloc,
        text,
        &[
            part!(b"report ", bytes(d.execution_id.as_slice())),
            part!(b": ", report_number(d.execution_type, &d.venue_order_id)),
            part!(
                report_known_as(d.execution_type, &d.venue_order_id),
                identifier_value(&d.order_id)
            ),
            part!(to_side(d.side), bytes(d.symbol.as_slice())),
            part!(b" ", bytes(report_kind(d.execution_type))),
            part!(b" ", quantity_value(d.last_quantity)),
            part!(b" @ ", price_value(d.last_price)),
            part!(b" in trade ", identifier_value(&d.trade_id)),
            part!(b", left ", number(d.left.get())),
            part!(b", filled so far ", number(d.filled.get())),
            part!(b", original ", identifier_value(&d.original_id)),
            part!(b", to response ", identifier_value(&d.response_id)),
            part!(b", 103=", number_value(d.reject_reason)),
            part!(b" ", text_value(&d.text)),
            part!(b" of ", holder(d.execution_type, &d.venue_order_id)),
        ],
    )
}

pub(crate) fn append_change_refused(
    alloc: Global,
    text: &mut Vec<u8>,
    d: &OrderCancelReject,
) -> Result<(), AllocError>
    ensures { OnOk result (text.new.items ≡ text.old.items ++ parts_text (change_refused_parts d.now)) }
{
    append_parts(
        alloc,
        text,
        &[
            part!(change_name(d.response_to), bytes(d.order_id.as_slice())),
            part!(b" of order ", bytes(d.original_id.as_slice())),
            part!(b", ", order_number(&d.venue_order_id)),
            part!(b", refused, 102=", number(u64::from(d.reject_reason.get()))),
            part!(b" ", text_value(&d.text)),
        ],
    )
}
