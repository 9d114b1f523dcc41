//! OrderCancelReject (9): refusals of cancels and replacements.
ghost use Rattle.std.specs.Prelude.{◌≡◌, IfOk};
ghost use Rattle.venue_rules.specs.declared.replies.ReplyBody.TheVariants as what;
ghost use Rattle.venue_rules.specs.Messages.{message, response_to, standing_id, standing_status};

use crate::identifiers::order_id_or_none;
use crate::orders::open_status;
use crate::reasons::change_reason;
use fix_dictionary::{App, FixChar, Identifier, OrderCancelReject};
use std::alloc::{AllocError, Global};
use venue_rules::{ChangeKind, ChangeRefused, OrderStatus};

fn standing_id(standing: &Option<OrderStatus>) -> Identifier
    ensures { result ≡ standing_id standing.now }
{
    match standing {
        Some(standing) => order_id_or_none(Some(standing.order)),
        None => order_id_or_none(None),
    }
}

fn standing_status(standing: &Option<OrderStatus>) -> FixChar
    ensures { result ≡ standing_status standing.now }
{
    match standing {
        Some(standing) => open_status(standing.filled),
        None => FixChar::new(b'8'),
    }
}

/// CxlRejResponseTo (434).
fn response_to(kind: ChangeKind) -> FixChar
    ensures { result ≡ response_to kind }
{
    match kind {
        ChangeKind::Cancel => FixChar::new(b'1'),
        ChangeKind::Replace => FixChar::new(b'2'),
    }
}

pub(crate) fn change_refused(alloc: Global, r: &ChangeRefused) -> Result<App, AllocError>
    ensures { IfOk result (λ app. app ≡ message (what.ChangeRefused r.now)) }
{
    let why = change_reason(r.cause);
    Ok(App::OrderCancelReject(OrderCancelReject {
        venue_order_id: standing_id(&r.standing),
        order_id: r.id,
        original_id: r.original_id,
        order_status: standing_status(&r.standing),
        response_to: response_to(r.kind),
        reject_reason: why.number(),
        text: Some(why.text(alloc)?),
    }))
}
