//! ExecutionReport (8): reports on orders.
ghost use Rattle.std.specs.Prelude.{◌≡◌, IfOk};
ghost use Rattle.venue_rules.specs.declared.replies.ReplyBody.TheVariants as what;
ghost use Rattle.venue_rules.specs.Messages.{fill_status, message, open_status, refusal, report};
ghost use Rattle.report_writer.specs.Reasons.{seen};

use crate::identifiers::order_id_or_none;
use crate::reason::Reason;
use crate::reasons::{cross_reason, order_reason};
use fix_dictionary::{Amount, App, ExecutionReport, FixChar};
use std::alloc::{AllocError, Global};
use venue_rules::{
    ChangedReport, CrossRefused, FilledReport, OrderRefused, OrderReport, RoomReport,
    printed_identifier,
};

/// Common part of the reports, with this ExecType (150) and OrdStatus (39).
fn report(r: &OrderReport, kind: FixChar, status: FixChar) -> ExecutionReport
    ensures { result ≡ report r.now kind status }
{
    ExecutionReport {
        venue_order_id: order_id_or_none(r.order),
        execution_id: printed_identifier(b'E', r.report),
        execution_type: kind,
        order_status: status,
        symbol: r.symbol,
        side: r.side,
        left: r.left,
        filled: r.filled,
        order_id: Some(r.id),
        original_id: None,
        last_price: None,
        last_quantity: None,
        reject_reason: None,
        trade_id: None,
        response_id: None,
        text: None,
    }
}

fn refusal(alloc: Global, r: &OrderReport, why: Reason) -> Result<App, AllocError>
    ensures { IfOk result (λ app. app ≡ refusal r.now (seen why)) }
{
    let report = report(r, FixChar::new(b'8'), FixChar::new(b'8'));
    Ok(App::ExecutionReport(ExecutionReport {
        reject_reason: Some(why.number()),
        text: Some(why.text(alloc)?),
        ..report
    }))
}

pub(crate) fn order_refused(alloc: Global, r: &OrderRefused) -> Result<App, AllocError>
    ensures { IfOk result (λ app. app ≡ message (what.OrderRefused r.now)) }
{
    refusal(alloc, &r.order, order_reason(r.cause))
}

pub(crate) fn cross_refused(alloc: Global, r: &CrossRefused) -> Result<App, AllocError>
    ensures { IfOk result (λ app. app ≡ message (what.CrossRefused r.now)) }
{
    refusal(alloc, &r.order, cross_reason(r.cause))
}

pub(crate) fn order_entered(r: &OrderReport) -> App
    ensures { result ≡ message (what.OrderEntered r.now) }
{
    App::ExecutionReport(report(r, FixChar::new(b'0'), FixChar::new(b'0')))
}

pub(crate) fn order_unfilled(r: &OrderReport) -> App
    ensures { result ≡ message (what.OrderUnfilled r.now) }
{
    App::ExecutionReport(report(r, FixChar::new(b'4'), FixChar::new(b'4')))
}

/// OrdStatus (39) after a fill: filled or partially filled.
fn fill_status(left: Amount) -> FixChar
    ensures { result ≡ fill_status left }
{
    if left.get() == 0 {
        FixChar::new(b'2')
    } else {
        FixChar::new(b'1')
    }
}

/// OrdStatus (39) of a resting order: new or partially filled.
pub(crate) fn open_status(filled: Amount) -> FixChar
    ensures { result ≡ open_status filled }
{
    if filled.get() == 0 {
        FixChar::new(b'0')
    } else {
        FixChar::new(b'1')
    }
}

pub(crate) fn order_filled(r: &FilledReport) -> App
    ensures { result ≡ message (what.OrderFilled r.now) }
{
    let status = fill_status(r.order.left);
    let report = report(&r.order, FixChar::new(b'F'), status);
    App::ExecutionReport(ExecutionReport {
        last_price: Some(r.price),
        last_quantity: Some(r.quantity),
        trade_id: Some(printed_identifier(b'T', r.trade)),
        ..report
    })
}

pub(crate) fn order_cancelled(r: &ChangedReport) -> App
    ensures { result ≡ message (what.OrderCancelled r.now) }
{
    let report = report(&r.order, FixChar::new(b'4'), FixChar::new(b'4'));
    App::ExecutionReport(ExecutionReport {
        original_id: Some(r.original_id),
        ..report
    })
}

pub(crate) fn order_replaced(r: &ChangedReport) -> App
    ensures { result ≡ message (what.OrderReplaced r.now) }
{
    let status = open_status(r.order.filled);
    let report = report(&r.order, FixChar::new(b'5'), status);
    App::ExecutionReport(ExecutionReport {
        original_id: Some(r.original_id),
        ..report
    })
}

pub(crate) fn room_traded(r: &RoomReport) -> App
    ensures { result ≡ message (what.RoomTraded r.now) }
{
    App::ExecutionReport(ExecutionReport {
        venue_order_id: printed_identifier(b'R', r.room),
        execution_id: printed_identifier(b'E', r.report),
        execution_type: FixChar::new(b'F'),
        order_status: FixChar::new(b'2'),
        symbol: r.symbol,
        side: r.side,
        left: Amount::new(0),
        filled: Amount::new(r.quantity.get()),
        order_id: None,
        original_id: None,
        last_price: Some(r.price),
        last_quantity: Some(r.quantity),
        reject_reason: None,
        trade_id: Some(printed_identifier(b'T', r.trade)),
        response_id: r.response_id,
        text: None,
    })
}
