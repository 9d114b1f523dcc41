//! Execution reports to a participant, and refusals of its messages.

ghost use Rattle.std.specs.Prelude.{◌≡◌, OnOk};
ghost use Rattle.participant_activity.specs.Kept.{activity_of};
ghost use Rattle.participant_activity.specs.Noting.{after_report, begins_with, cancelled, cancelled_order, caused, caused_by, filled, filled_by, if_first_fill, if_whole, no_trades, order_traded, quantity_in, refused, room_traded, traded, with_trade};

use crate::activity::{Activity, OrderCounts, Traded, plus, plus_wide};
use crate::key::{Cause, Name};
use crate::occasion::{Occasion, is_another};
use crate::quoting::hit;
use fix_dictionary::{ExecutionReport, Identifier, Quantity, Side, Text};
use std::alloc::{AllocError, Global};
use std::collections::BTreeMap;

fn cause(alloc: Global, causes: &mut BTreeMap<Cause, u64>, text: &Text) -> Result<(), AllocError>
    ensures { OnOk result (causes.new.entries ≡ caused causes.old.entries text.now) }
{
    let cause = Cause {
        text: text.copy(alloc)?,
    };
    let before = causes.get(&cause).copied().unwrap_or(0);
    causes.insert(cause, plus(before, 1))?;
    Ok(())
}

fn cause_by(
    alloc: Global,
    causes: &mut BTreeMap<Cause, u64>,
    text: &Option<Text>,
) -> Result<(), AllocError>
    ensures { OnOk result (causes.new.entries ≡ caused_by causes.old.entries text.now) }
{
    match text {
        Some(text) => cause(alloc, causes, text),
        None => Ok(()),
    }
}

/// Notes a refusal, by its text (58).
pub(crate) fn refuse(
    alloc: Global,
    activity: &mut Activity,
    text: &Option<Text>,
) -> Result<(), AllocError>
    ensures { OnOk result (activity_of activity.new ≡ refused (activity_of activity.old) text.now) }
{
    cause_by(alloc, &mut activity.causes, text)?;
    activity.orders.refused = plus(activity.orders.refused, 1);
    Ok(())
}

fn no_trades() -> Traded
    ensures { result ≡ no_trades }
{
    Traded {
        bought: 0,
        quantity_bought: 0,
        sold: 0,
        quantity_sold: 0,
    }
}

fn with_trade(before: Traded, side: Side, quantity: u64) -> Traded
    ensures { result ≡ with_trade before side quantity }
{
    match side {
        Side::Buy => Traded {
            bought: plus(before.bought, 1),
            quantity_bought: plus_wide(before.quantity_bought, u128::from(quantity)),
            ..before
        },
        Side::Sell => Traded {
            sold: plus(before.sold, 1),
            quantity_sold: plus_wide(before.quantity_sold, u128::from(quantity)),
            ..before
        },
    }
}

fn trade(
    trades: &mut BTreeMap<Name, Traded>,
    symbol: Identifier,
    side: Side,
    quantity: u64,
) -> Result<(), AllocError>
    ensures { OnOk result (trades.new.entries ≡ traded trades.old.entries symbol side quantity) }
{
    let name = Name { id: symbol };
    let before = trades.get(&name).copied().unwrap_or(no_trades());
    trades.insert(name, with_trade(before, side, quantity))?;
    Ok(())
}

fn quantity_in(quantity: Option<Quantity>) -> u64
    ensures { result ≡ quantity_in quantity }
{
    match quantity {
        Some(quantity) => quantity.get(),
        None => 0,
    }
}

fn begins_with(first: u8, id: &[u8]) -> bool
    ensures { result ≡ begins_with first id.now }
{
    match id.split_first() {
        Some((byte, _)) => *byte == first,
        None => false,
    }
}

/// Notes the trade of a request: of another's hit of its quote, or of its own hit.
fn trade_room(
    activity: &mut Activity,
    report: &ExecutionReport,
    is_another: bool,
) -> Result<(), AllocError>
    ensures { OnOk result (activity_of activity.new ≡ room_traded (activity_of activity.old) report.now is_another) }
{
    if is_another {
        return hit(activity, Some(report.venue_order_id));
    }
    activity.quotes.requests_traded = plus(activity.quotes.requests_traded, 1);
    Ok(())
}

fn if_first_fill(counts: OrderCounts, so_far: u64, quantity: u64) -> OrderCounts
    ensures { result ≡ if_first_fill counts so_far quantity }
{
    if so_far == quantity {
        OrderCounts {
            filled: plus(counts.filled, 1),
            ..counts
        }
    } else {
        counts
    }
}

fn if_whole(counts: OrderCounts, left: u64) -> OrderCounts
    ensures { result ≡ if_whole counts left }
{
    if left == 0 {
        OrderCounts {
            whole: plus(counts.whole, 1),
            ..counts
        }
    } else {
        counts
    }
}

fn trade_order(activity: &mut Activity, report: &ExecutionReport)
    ensures { activity_of activity.new ≡ order_traded (activity_of activity.old) report.now }
{
    let counts = if_first_fill(
        activity.orders,
        report.filled.get(),
        quantity_in(report.last_quantity),
    );
    activity.orders = if_whole(counts, report.left.get());
}

fn fill_by(
    activity: &mut Activity,
    occasion: Occasion,
    report: &ExecutionReport,
) -> Result<(), AllocError>
    ensures { OnOk result (activity_of activity.new ≡ filled_by (activity_of activity.old) occasion report.now) }
{
    if begins_with(b'R', report.venue_order_id.as_slice()) {
        trade_room(activity, report, is_another(occasion))
    } else {
        trade_order(activity, report);
        Ok(())
    }
}

/// Notes a fill.
fn fill(
    activity: &mut Activity,
    occasion: Occasion,
    report: &ExecutionReport,
) -> Result<(), AllocError>
    ensures { OnOk result (activity_of activity.new ≡ filled (activity_of activity.old) occasion report.now) }
{
    trade(
        &mut activity.trades,
        report.symbol,
        report.side,
        quantity_in(report.last_quantity),
    )?;
    fill_by(activity, occasion, report)
}

fn cancelled_order(counts: OrderCounts, original: &Option<Identifier>) -> OrderCounts
    ensures { result ≡ cancelled_order counts original.now }
{
    match original {
        Some(_) => OrderCounts {
            cancelled: plus(counts.cancelled, 1),
            ..counts
        },
        None => OrderCounts {
            unfilled: plus(counts.unfilled, 1),
            ..counts
        },
    }
}

fn cancelled(counts: OrderCounts, report: &ExecutionReport) -> OrderCounts
    ensures { result ≡ cancelled counts report.now }
{
    if begins_with(b'O', report.venue_order_id.as_slice()) {
        cancelled_order(counts, &report.original_id)
    } else {
        OrderCounts {
            held: plus(counts.held, 1),
            ..counts
        }
    }
}

/// Notes an execution report, by its ExecType (150).
pub(crate) fn report(
    alloc: Global,
    activity: &mut Activity,
    occasion: Occasion,
    report: &ExecutionReport,
) -> Result<(), AllocError>
    ensures { OnOk result (activity_of activity.new ≡ after_report (activity_of activity.old) occasion report.now) }
{
    let kind = report.execution_type.get();
    if kind == b'F' {
        return fill(activity, occasion, report);
    }
    if kind == b'0' {
        activity.orders.entered = plus(activity.orders.entered, 1);
    } else if kind == b'4' {
        activity.orders = cancelled(activity.orders, report);
    } else if kind == b'5' {
        activity.orders.replaced = plus(activity.orders.replaced, 1);
    } else if kind == b'8' {
        return refuse(alloc, activity, &report.text);
    }
    Ok(())
}
