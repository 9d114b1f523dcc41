//! What an answer says of orders that enter.

ghost use Rattle.std.specs.Prelude.{◌≡◌, ◌++◌, [], OnOk};
ghost use Rattle.std.specs.List.{cons_option};
ghost use Rattle.resting_orders.specs.Noting.{entered_as, entered_by, orders_after};

use crate::noted::{EnteredAt, EnteredOrder};
use participants::Who;
use std::alloc::AllocError;
use venue_rules::{OrderReport, Reply, ReplyBody};

fn entered_as(at: &EnteredAt, owner: Who, report: &OrderReport) -> Option<EnteredOrder>
    ensures { result ≡ entered_as at.now owner report.now report.now.order }
{
    match report.order {
        Some(number) => Some(EnteredOrder {
            number,
            owner,
            id: report.id,
            quantity: report.left,
            filled_before: report.filled,
            at: *at,
        }),
        None => None,
    }
}

/// The order that a reply reports as new, or as a replacement.
fn entered_by(at: &EnteredAt, reply: &Reply) -> Option<EnteredOrder>
    ensures { result ≡ entered_by at.now reply.now }
{
    match &reply.what {
        ReplyBody::OrderEntered(report) => entered_as(at, reply.to, report),
        ReplyBody::OrderReplaced(report) => entered_as(at, reply.to, &report.order),
        _ => None,
    }
}

fn push_order(orders: &mut Vec<EnteredOrder>, order: Option<EnteredOrder>) -> Result<(), AllocError>
    ensures { OnOk result (orders.new.items ≡ orders.old.items ++ cons_option order []) }
{
    match order {
        Some(order) => match orders.push(order) {
            Ok(()) => Ok(()),
            Err(_) => Err(AllocError),
        },
        None => Ok(()),
    }
}

/// Keeps the orders that enter by an answer.
pub(crate) fn push_orders(
    at: &EnteredAt,
    orders: &mut Vec<EnteredOrder>,
    replies: &[Reply],
) -> Result<(), AllocError>
    ensures { OnOk result (orders.new.items ≡ orders_after at.now orders.old.items replies.now) }
{
    for reply in replies {
        push_order(orders, entered_by(at, reply))?;
    }
    Ok(())
}
