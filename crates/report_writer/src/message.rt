//! The message of a reply.
ghost use Rattle.std.specs.Prelude.{◌≡◌, IfOk};
ghost use Rattle.venue_rules.specs.Messages.{message};

use crate::business_reject::business_reject;
use crate::changes::change_refused;
use crate::orders::{
    cross_refused, order_cancelled, order_entered, order_filled, order_refused, order_replaced,
    order_unfilled, room_traded,
};
use crate::prices::{prices, prices_refused};
use crate::quotes::{quote_sent, quote_status};
use crate::requests::{request_refused, request_sent};
use fix_dictionary::App;
use std::alloc::{AllocError, Global};
use venue_rules::{Reply, ReplyBody};

/// The message of a reply; fails only for an allocation failure.
pub fn message_of(alloc: Global, reply: &Reply) -> Result<App, AllocError>
    ensures { IfOk result (λ app. app ≡ message reply.now.what) }
{
    match &reply.what {
        ReplyBody::OrderRefused(r) => order_refused(alloc, r),
        ReplyBody::CrossRefused(r) => cross_refused(alloc, r),
        ReplyBody::OrderEntered(r) => Ok(order_entered(r)),
        ReplyBody::OrderFilled(r) => Ok(order_filled(r)),
        ReplyBody::OrderUnfilled(r) => Ok(order_unfilled(r)),
        ReplyBody::OrderCancelled(r) => Ok(order_cancelled(r)),
        ReplyBody::OrderReplaced(r) => Ok(order_replaced(r)),
        ReplyBody::ChangeRefused(r) => change_refused(alloc, r),
        ReplyBody::RequestRefused(r) => request_refused(alloc, r),
        ReplyBody::RequestSent(r) => Ok(request_sent(alloc, r)),
        ReplyBody::QuoteStatus(r) => quote_status(alloc, r),
        ReplyBody::QuoteSent(r) => quote_sent(alloc, r),
        ReplyBody::RoomTraded(r) => Ok(room_traded(r)),
        ReplyBody::BookSnapshot(r) => prices(alloc, r),
        ReplyBody::MarketDataReject(r) => prices_refused(alloc, r),
        ReplyBody::BusinessReject(r) => business_reject(alloc, r),
    }
}
