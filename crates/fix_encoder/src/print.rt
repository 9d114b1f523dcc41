//! Printing of messages.
ghost use Rattle.std.specs.Prelude.{◌≡◌, ℕ, ◌≤◌, ◌++◌, ◌∷◌, [], decimal, OnOk, OnErr, MatchOption, None, Some, option_map, take, length};
ghost use Rattle.fix_fields.specs.Fields.{Appends, IsTag, field_text, fields_text};
ghost use Rattle.fix_fields.specs.Forms.{price_text};
ghost use Rattle.sef_moment.specs.Utc.{utc_text};
ghost use Rattle.fix_dictionary.specs.Values.{IsText, IsFixInt, IsQuantity, IsPrice};
ghost use Rattle.fix_dictionary.specs.Fits.{Given, IsGraphic, IsMoment, FitsHeader, FitsHeartbeat, FitsTestRequest, FitsResendRequest, FitsReject, FitsSequenceReset, FitsLogout, FitsLogon, FitsQuoteCancel, FitsQuoteResponse, FitsQuoteStatusReport, FitsNewOrderSingle, FitsOrderCancelRequest, FitsOrderCancelReplaceRequest, FitsExecutionReport, FitsOrderCancelReject, FitsMarketDataRequestReject, FitsBusinessMessageReject, FitsBody, FitsMessage};
ghost use Rattle.fix_dictionary.specs.Lent.{lent_body, lent_header};
ghost use Rattle.fix_encoder.specs.Printed.{printed, printed_option, slots};
ghost use Rattle.fix_dictionary.specs.Text.{with_slot, fields_of, slots_text, given, flag_text, side_text, app_kind, app_slots, admin_kind, admin_slots, body_kind, body_slots, message_slots, message_text, app_text, header_slots, heartbeat_slots, test_request_slots, resend_request_slots, reject_slots, sequence_reset_slots, logout_slots, logon_slots, quote_cancel_slots, quote_response_slots, quote_status_report_slots, new_order_single_slots, order_cancel_request_slots, order_cancel_replace_request_slots, execution_report_slots, order_cancel_reject_slots, market_data_request_reject_slots, business_message_reject_slots};

use crate::cross_print::print_new_order_cross;
use crate::group_print::{print_market_data_request, print_market_data_snapshot};
use crate::quote_print::{print_quote, print_quote_request, print_quote_request_reject};
use fix_dictionary::{
    Admin, App, Body, BodyRef, BusinessMessageReject, ExecutionReport, FixChar, FixInt, HeaderRef,
    Heartbeat, Identifier, Logon, Logout, MarketDataRequestReject, Message, NewOrderSingle,
    OrderCancelReject, OrderCancelReplaceRequest, OrderCancelRequest, Price, Quantity, QuoteCancel,
    QuoteResponse, QuoteStatusReport, Reject, ResendRequest, SequenceReset, Side, TestRequest,
    Text,
};
use fix_fields::{append_byte, append_bytes, append_moment, append_number, append_price};
use sef_moment::Moment;
use std::alloc::AllocError;

/// A printed value.
#[derive(Clone, Copy)]
pub(crate) enum Printed<'a> {
    Bytes(&'a [u8]),
    Number(u64),
    Price(i64),
    Moment(Moment),
    Byte(u8),
}

/// A tag, and its printed value if it has one.
#[derive(Clone, Copy)]
pub(crate) struct Slot<'a> {
    pub tag: u32,
    pub value: Option<Printed<'a>>,
}

macro_rules! slot {
    ($tag:expr, $value:expr) => {
        Slot {
            tag: $tag,
            value: $value,
        }
    };
}

fn append_slot(out: &mut Vec<u8>, tag: u32, value: &Printed) -> Result<(), AllocError>
    ensures { Appends out.old.items out.new.items (field_text tag (printed value.now)) result }
{
    match value {
        Printed::Bytes(bytes) => append_bytes(out, tag, bytes),
        Printed::Number(number) => append_number(out, tag, *number),
        Printed::Price(price) => append_price(out, tag, *price),
        Printed::Moment(moment) => append_moment(out, tag, *moment),
        Printed::Byte(byte) => append_byte(out, tag, *byte),
    }
}

// Appends a slot, or nothing where it has no value.
fn append_optional(out: &mut Vec<u8>, slot: &Slot) -> Result<(), AllocError>
    ensures { Appends out.old.items out.new.items (fields_text (with_slot slot.now.tag (printed_option slot.now.value) [])) result }
{
    match &slot.value {
        Some(value) => append_slot(out, slot.tag, value),
        None => Ok(()),
    }
}

pub(crate) fn append_slots(out: &mut Vec<u8>, list: &[Slot]) -> Result<(), AllocError>
    ensures { Appends out.old.items out.new.items (slots_text (slots list.now)) result }
{
    for slot in list {
        append_optional(out, slot)?;
    }
    Ok(())
}

pub(crate) fn printed_side<'a>(side: Side) -> Printed<'a>
    ensures { printed result ≡ side_text side }
{
    match side {
        Side::Buy => Printed::Byte(b'1'),
        Side::Sell => Printed::Byte(b'2'),
    }
}

pub(crate) fn printed_identifier<'a>(v: &'a Option<Identifier>) -> Option<Printed<'a>>
    ensures value { printed_option result ≡ v.now }
    ensures fits { Given (IsText 64) v.now }
{
    match v {
        Some(x) => Some(Printed::Bytes(x.as_slice())),
        None => None,
    }
}

fn printed_lent<'a>(v: Option<&'a Identifier>) -> Option<Printed<'a>>
    ensures value { printed_option result ≡ option_map (λ x. x.now) v.entry }
    ensures fits { Given (IsText 64) (option_map (λ x. x.now) v.entry) }
{
    match v {
        Some(x) => Some(Printed::Bytes(x.as_slice())),
        None => None,
    }
}

pub(crate) fn printed_text<'a>(v: &'a Option<Text>) -> Option<Printed<'a>>
    ensures value { printed_option result ≡ v.now }
    ensures fits { Given (IsText 200) v.now }
{
    match v {
        Some(x) => Some(Printed::Bytes(x.as_slice())),
        None => None,
    }
}

fn printed_number<'a>(v: Option<FixInt>) -> Option<Printed<'a>>
    ensures value { printed_option result ≡ given decimal v }
    ensures fits { Given IsFixInt v }
{
    match v {
        Some(x) => Some(Printed::Number(u64::from(x.get()))),
        None => None,
    }
}

pub(crate) fn printed_quantity<'a>(v: Option<Quantity>) -> Option<Printed<'a>>
    ensures value { printed_option result ≡ given decimal v }
    ensures fits { Given IsQuantity v }
{
    match v {
        Some(x) => Some(Printed::Number(x.get())),
        None => None,
    }
}

pub(crate) fn printed_price<'a>(v: Option<Price>) -> Option<Printed<'a>>
    ensures value { printed_option result ≡ given price_text v }
    ensures fits { Given IsPrice v }
{
    match v {
        Some(x) => Some(Printed::Price(x.get())),
        None => None,
    }
}

pub(crate) fn printed_character<'a>(v: Option<FixChar>) -> Option<Printed<'a>>
    ensures value { printed_option result ≡ given (λ c. c ∷ []) v }
    ensures fits { Given IsGraphic v }
{
    match v {
        Some(x) => Some(Printed::Byte(x.get())),
        None => None,
    }
}

fn printed_time<'a>(v: Moment) -> Printed<'a>
    ensures value { printed result ≡ utc_text v }
    ensures fits { IsMoment v }
{
    let _ = v.ms();
    Printed::Moment(v)
}

pub(crate) fn printed_moment<'a>(v: Option<Moment>) -> Option<Printed<'a>>
    ensures value { printed_option result ≡ given utc_text v }
    ensures fits { Given IsMoment v }
{
    match v {
        Some(x) => Some(printed_time(x)),
        None => None,
    }
}

pub(crate) fn printed_optional_side<'a>(v: Option<Side>) -> Option<Printed<'a>>
    ensures { printed_option result ≡ given side_text v }
{
    match v {
        Some(x) => Some(printed_side(x)),
        None => None,
    }
}

fn printed_flag<'a>(v: Option<bool>) -> Option<Printed<'a>>
    ensures { printed_option result ≡ given flag_text v }
{
    match v {
        Some(x) => Some(if x {
            Printed::Byte(b'Y')
        } else {
            Printed::Byte(b'N')
        }),
        None => None,
    }
}

fn print_header(out: &mut Vec<u8>, m: &HeaderRef) -> Result<(), AllocError>
    ensures text { Appends out.old.items out.new.items (slots_text (header_slots (lent_header m.now))) result }
    ensures fits { FitsHeader (lent_header m.now) }
{
    append_slots(
        out,
        &[
            slot!(49, Some(Printed::Bytes(m.sender.as_slice()))),
            slot!(56, Some(Printed::Bytes(m.target.as_slice()))),
            slot!(34, Some(Printed::Number(u64::from(m.number.get())))),
            slot!(52, Some(printed_time(m.sending_time))),
            slot!(43, printed_flag(m.possible_duplicate)),
            slot!(97, printed_flag(m.possible_resend)),
            slot!(122, printed_moment(m.original_sending_time)),
            slot!(1128, printed_lent(m.application_version)),
        ],
    )
}

fn print_heartbeat(out: &mut Vec<u8>, m: &Heartbeat) -> Result<(), AllocError>
    ensures text { Appends out.old.items out.new.items (slots_text (heartbeat_slots m.now)) result }
    ensures fits { FitsHeartbeat m.now }
{
    append_slots(out, &[slot!(112, printed_identifier(&m.test_id))])
}

fn print_test_request(out: &mut Vec<u8>, m: &TestRequest) -> Result<(), AllocError>
    ensures text { Appends out.old.items out.new.items (slots_text (test_request_slots m.now)) result }
    ensures fits { FitsTestRequest m.now }
{
    append_slots(
        out,
        &[slot!(112, Some(Printed::Bytes(m.test_id.as_slice())))],
    )
}

fn print_resend_request(out: &mut Vec<u8>, m: ResendRequest) -> Result<(), AllocError>
    ensures text { Appends out.old.items out.new.items (slots_text (resend_request_slots m)) result }
    ensures fits { FitsResendRequest m }
{
    append_slots(
        out,
        &[
            slot!(7, Some(Printed::Number(u64::from(m.begin().get())))),
            slot!(16, Some(Printed::Number(u64::from(m.end().get())))),
        ],
    )
}

fn print_reject(out: &mut Vec<u8>, m: &Reject) -> Result<(), AllocError>
    ensures text { Appends out.old.items out.new.items (slots_text (reject_slots m.now)) result }
    ensures fits { FitsReject m.now }
{
    append_slots(
        out,
        &[
            slot!(
                45,
                Some(Printed::Number(u64::from(m.reference_number.get())))
            ),
            slot!(371, printed_number(m.reference_tag)),
            slot!(372, printed_identifier(&m.reference_type)),
            slot!(373, printed_number(m.reason)),
            slot!(58, printed_text(&m.text)),
        ],
    )
}

fn print_sequence_reset(out: &mut Vec<u8>, m: &SequenceReset) -> Result<(), AllocError>
    ensures text { Appends out.old.items out.new.items (slots_text (sequence_reset_slots m.now)) result }
    ensures fits { FitsSequenceReset m.now }
{
    append_slots(
        out,
        &[
            slot!(123, printed_flag(m.gap_fill)),
            slot!(36, Some(Printed::Number(u64::from(m.new_number.get())))),
        ],
    )
}

fn print_logout(out: &mut Vec<u8>, m: &Logout) -> Result<(), AllocError>
    ensures text { Appends out.old.items out.new.items (slots_text (logout_slots m.now)) result }
    ensures fits { FitsLogout m.now }
{
    append_slots(out, &[slot!(58, printed_text(&m.text))])
}

fn print_logon(out: &mut Vec<u8>, m: &Logon) -> Result<(), AllocError>
    ensures text { Appends out.old.items out.new.items (slots_text (logon_slots m.now)) result }
    ensures fits { FitsLogon m.now }
{
    append_slots(
        out,
        &[
            slot!(98, Some(Printed::Number(0))),
            slot!(
                108,
                Some(Printed::Number(u64::from(m.heartbeat_interval.get())))
            ),
            slot!(1137, Some(Printed::Byte(b'9'))),
            slot!(141, printed_flag(m.reset)),
        ],
    )
}

fn print_quote_cancel(out: &mut Vec<u8>, m: &QuoteCancel) -> Result<(), AllocError>
    ensures text { Appends out.old.items out.new.items (slots_text (quote_cancel_slots m.now)) result }
    ensures fits { FitsQuoteCancel m.now }
{
    append_slots(
        out,
        &[
            slot!(117, printed_identifier(&m.quote_id)),
            slot!(298, Some(Printed::Number(u64::from(m.cancel_type.get())))),
        ],
    )
}

fn print_quote_response(out: &mut Vec<u8>, m: &QuoteResponse) -> Result<(), AllocError>
    ensures text { Appends out.old.items out.new.items (slots_text (quote_response_slots m.now)) result }
    ensures fits { FitsQuoteResponse m.now }
{
    append_slots(
        out,
        &[
            slot!(693, Some(Printed::Bytes(m.response_id.as_slice()))),
            slot!(117, Some(Printed::Bytes(m.quote_id.as_slice()))),
            slot!(694, Some(Printed::Number(u64::from(m.response_type.get())))),
            slot!(54, printed_optional_side(m.side)),
        ],
    )
}

fn print_quote_status_report(out: &mut Vec<u8>, m: &QuoteStatusReport) -> Result<(), AllocError>
    ensures text { Appends out.old.items out.new.items (slots_text (quote_status_report_slots m.now)) result }
    ensures fits { FitsQuoteStatusReport m.now }
{
    append_slots(
        out,
        &[
            slot!(117, printed_identifier(&m.quote_id)),
            slot!(131, printed_identifier(&m.request_id)),
            slot!(693, printed_identifier(&m.response_id)),
            slot!(55, printed_identifier(&m.symbol)),
            slot!(297, Some(Printed::Number(u64::from(m.status.get())))),
            slot!(300, printed_number(m.reject_reason)),
            slot!(58, printed_text(&m.text)),
        ],
    )
}

fn print_new_order_single(out: &mut Vec<u8>, m: &NewOrderSingle) -> Result<(), AllocError>
    ensures text { Appends out.old.items out.new.items (slots_text (new_order_single_slots m.now)) result }
    ensures fits { FitsNewOrderSingle m.now }
{
    append_slots(
        out,
        &[
            slot!(11, Some(Printed::Bytes(m.order_id.as_slice()))),
            slot!(583, printed_identifier(&m.link_id)),
            slot!(55, Some(Printed::Bytes(m.symbol.as_slice()))),
            slot!(54, Some(printed_side(m.side))),
            slot!(38, Some(Printed::Number(m.quantity.get()))),
            slot!(40, Some(Printed::Byte(m.order_type.get()))),
            slot!(44, printed_price(m.price)),
            slot!(59, printed_character(m.time_in_force)),
            slot!(60, printed_moment(m.transact_time)),
        ],
    )
}

fn print_order_cancel_request(out: &mut Vec<u8>, m: &OrderCancelRequest) -> Result<(), AllocError>
    ensures text { Appends out.old.items out.new.items (slots_text (order_cancel_request_slots m.now)) result }
    ensures fits { FitsOrderCancelRequest m.now }
{
    append_slots(
        out,
        &[
            slot!(11, Some(Printed::Bytes(m.order_id.as_slice()))),
            slot!(41, Some(Printed::Bytes(m.original_id.as_slice()))),
        ],
    )
}

fn print_order_cancel_replace_request(
    out: &mut Vec<u8>,
    m: &OrderCancelReplaceRequest,
) -> Result<(), AllocError>
    ensures text { Appends out.old.items out.new.items (slots_text (order_cancel_replace_request_slots m.now)) result }
    ensures fits { FitsOrderCancelReplaceRequest m.now }
{
    append_slots(
        out,
        &[
            slot!(11, Some(Printed::Bytes(m.order_id.as_slice()))),
            slot!(41, Some(Printed::Bytes(m.original_id.as_slice()))),
            slot!(38, Some(Printed::Number(m.quantity.get()))),
            slot!(40, Some(Printed::Byte(m.order_type.get()))),
            slot!(44, printed_price(m.price)),
        ],
    )
}

fn print_execution_report(out: &mut Vec<u8>, m: &ExecutionReport) -> Result<(), AllocError>
    ensures text { Appends out.old.items out.new.items (slots_text (execution_report_slots m.now)) result }
    ensures fits { FitsExecutionReport m.now }
{
    append_slots(
        out,
        &[
            slot!(37, Some(Printed::Bytes(m.venue_order_id.as_slice()))),
            slot!(17, Some(Printed::Bytes(m.execution_id.as_slice()))),
            slot!(150, Some(Printed::Byte(m.execution_type.get()))),
            slot!(39, Some(Printed::Byte(m.order_status.get()))),
            slot!(55, Some(Printed::Bytes(m.symbol.as_slice()))),
            slot!(54, Some(printed_side(m.side))),
            slot!(151, Some(Printed::Number(m.left.get()))),
            slot!(14, Some(Printed::Number(m.filled.get()))),
            slot!(11, printed_identifier(&m.order_id)),
            slot!(41, printed_identifier(&m.original_id)),
            slot!(31, printed_price(m.last_price)),
            slot!(32, printed_quantity(m.last_quantity)),
            slot!(103, printed_number(m.reject_reason)),
            slot!(880, printed_identifier(&m.trade_id)),
            slot!(693, printed_identifier(&m.response_id)),
            slot!(58, printed_text(&m.text)),
        ],
    )
}

fn print_order_cancel_reject(out: &mut Vec<u8>, m: &OrderCancelReject) -> Result<(), AllocError>
    ensures text { Appends out.old.items out.new.items (slots_text (order_cancel_reject_slots m.now)) result }
    ensures fits { FitsOrderCancelReject m.now }
{
    append_slots(
        out,
        &[
            slot!(37, Some(Printed::Bytes(m.venue_order_id.as_slice()))),
            slot!(11, Some(Printed::Bytes(m.order_id.as_slice()))),
            slot!(41, Some(Printed::Bytes(m.original_id.as_slice()))),
            slot!(39, Some(Printed::Byte(m.order_status.get()))),
            slot!(434, Some(Printed::Byte(m.response_to.get()))),
            slot!(102, Some(Printed::Number(u64::from(m.reject_reason.get())))),
            slot!(58, printed_text(&m.text)),
        ],
    )
}

fn print_market_data_request_reject(
    out: &mut Vec<u8>,
    m: &MarketDataRequestReject,
) -> Result<(), AllocError>
    ensures text { Appends out.old.items out.new.items (slots_text (market_data_request_reject_slots m.now)) result }
    ensures fits { FitsMarketDataRequestReject m.now }
{
    append_slots(
        out,
        &[
            slot!(262, Some(Printed::Bytes(m.request_id.as_slice()))),
            slot!(281, Some(Printed::Byte(m.reject_reason.get()))),
            slot!(58, printed_text(&m.text)),
        ],
    )
}

fn print_business_message_reject(
    out: &mut Vec<u8>,
    m: &BusinessMessageReject,
) -> Result<(), AllocError>
    ensures text { Appends out.old.items out.new.items (slots_text (business_message_reject_slots m.now)) result }
    ensures fits { FitsBusinessMessageReject m.now }
{
    append_slots(
        out,
        &[
            slot!(
                45,
                Some(Printed::Number(u64::from(m.reference_number.get())))
            ),
            slot!(372, Some(Printed::Bytes(m.reference_type.as_slice()))),
            slot!(380, Some(Printed::Number(u64::from(m.reject_reason.get())))),
            slot!(58, printed_text(&m.text)),
        ],
    )
}

fn append_app(out: &mut Vec<u8>, message: &App) -> Result<(), AllocError>
    ensures text { Appends out.old.items out.new.items (slots_text (app_slots message.now)) result }
    ensures fits { FitsBody (Body.App message.now) }
{
    match message {
        App::QuoteCancel(m) => print_quote_cancel(out, m),
        App::QuoteResponse(m) => print_quote_response(out, m),
        App::QuoteStatusReport(m) => print_quote_status_report(out, m),
        App::NewOrderSingle(m) => print_new_order_single(out, m),
        App::OrderCancelRequest(m) => print_order_cancel_request(out, m),
        App::OrderCancelReplaceRequest(m) => print_order_cancel_replace_request(out, m),
        App::ExecutionReport(m) => print_execution_report(out, m),
        App::OrderCancelReject(m) => print_order_cancel_reject(out, m),
        App::MarketDataRequestReject(m) => print_market_data_request_reject(out, m),
        App::BusinessMessageReject(m) => print_business_message_reject(out, m),
        App::NewOrderCross(m) => print_new_order_cross(out, m),
        App::QuoteRequest(m) => print_quote_request(out, m),
        App::Quote(m) => print_quote(out, m),
        App::QuoteRequestReject(m) => print_quote_request_reject(out, m),
        App::MarketDataRequest(m) => print_market_data_request(out, m),
        App::MarketDataSnapshot(m) => print_market_data_snapshot(out, m),
        App::Unsupported(kind) => {
            let _ = kind.as_slice();
            Ok(())
        }
    }
}

fn admin_kind(message: &Admin) -> &[u8]
    ensures { result.now ≡ admin_kind message.now }
{
    match message {
        Admin::Heartbeat(_) => b"0",
        Admin::TestRequest(_) => b"1",
        Admin::ResendRequest(_) => b"2",
        Admin::Reject(_) => b"3",
        Admin::SequenceReset(_) => b"4",
        Admin::Logout(_) => b"5",
        Admin::Logon(_) => b"A",
    }
}

fn append_admin(out: &mut Vec<u8>, message: &Admin) -> Result<(), AllocError>
    ensures text { Appends out.old.items out.new.items (slots_text (admin_slots message.now)) result }
    ensures fits { FitsBody (Body.Admin message.now) }
{
    match message {
        Admin::Heartbeat(m) => print_heartbeat(out, m),
        Admin::TestRequest(m) => print_test_request(out, m),
        Admin::ResendRequest(m) => print_resend_request(out, *m),
        Admin::Reject(m) => print_reject(out, m),
        Admin::SequenceReset(m) => print_sequence_reset(out, m),
        Admin::Logout(m) => print_logout(out, m),
        Admin::Logon(m) => print_logon(out, m),
    }
}

fn body_kind(body: BodyRef) -> &[u8]
    ensures { result.now ≡ body_kind (lent_body body.entry) }
{
    match body {
        BodyRef::Admin(message) => admin_kind(message),
        BodyRef::App(message) => message.msg_type(),
    }
}

fn append_body(out: &mut Vec<u8>, body: BodyRef) -> Result<(), AllocError>
    ensures text { Appends out.old.items out.new.items (slots_text (body_slots (lent_body body.entry))) result }
    ensures fits { FitsBody (lent_body body.entry) }
{
    match body {
        BodyRef::Admin(message) => append_admin(out, message),
        BodyRef::App(message) => append_app(out, message),
    }
}

// Appends the header and the body after the type.
#[tactic(auto, using(fix_dictionary::proofs::TextLemmas::slots_text_append))]
fn append_rest(out: &mut Vec<u8>, header: &HeaderRef, body: BodyRef) -> Result<(), AllocError>
    ensures text { Appends out.old.items out.new.items (slots_text (header_slots (lent_header header.now) ++ body_slots (lent_body body.entry))) result }
    ensures fits { OnOk result (FitsMessage (record { header = lent_header header.now; body = lent_body body.entry })) }
{
    print_header(out, header)?;
    append_body(out, body)
}

fn append_message(out: &mut Vec<u8>, header: &HeaderRef, body: BodyRef) -> Result<(), AllocError>
    ensures text { Appends out.old.items out.new.items (message_text (record { header = lent_header header.now; body = lent_body body.entry })) result }
    ensures fits { OnOk result (FitsMessage (record { header = lent_header header.now; body = lent_body body.entry })) }
{
    append_bytes(out, 35, body_kind(body))?;
    append_rest(out, header, body)
}

fn append_application(out: &mut Vec<u8>, message: &App) -> Result<(), AllocError>
    ensures text { Appends out.old.items out.new.items (app_text message.now) result }
    ensures fits { OnOk result (FitsBody (Body.App message.now)) }
{
    append_bytes(out, 35, message.msg_type())?;
    append_app(out, message)
}

// Truncates what a failed call appended.
fn settle(out: &mut Vec<u8>, start: usize, done: Result<(), AllocError>) -> Result<(), AllocError>
    ensures result { result ≡ done }
    ensures ok { OnOk done (out.new.items ≡ out.old.items) }
    ensures err { OnErr done (out.new.items ≡ take start out.old.items) }
{
    if done.is_err() {
        out.truncate(start);
    }
    done
}

/// Appends the body of the frame of a message with this header and body. An `Err` appends nothing.
pub fn print_parts(header: &HeaderRef, body: BodyRef, out: &mut Vec<u8>) -> Result<(), AllocError>
    ensures ok { OnOk result (out.new.items ≡ out.old.items ++ message_text (record { header = lent_header header.now; body = lent_body body.entry })) }
    ensures fits { OnOk result (FitsMessage (record { header = lent_header header.now; body = lent_body body.entry })) }
    ensures err { OnErr result (out.new.items ≡ out.old.items) }
{
    let start = out.len();
    let done = append_message(out, header, body);
    settle(out, start, done)
}

/// Appends the body of the message's frame. An `Err` appends nothing.
pub fn print_message(message: &Message, out: &mut Vec<u8>) -> Result<(), AllocError>
    ensures ok { OnOk result (out.new.items ≡ out.old.items ++ message_text message.now) }
    ensures fits { OnOk result (FitsMessage message.now) }
    ensures err { OnErr result (out.new.items ≡ out.old.items) }
{
    let body = match &message.body {
        Body::Admin(body) => BodyRef::Admin(body),
        Body::App(app) => BodyRef::App(app.get()),
    };
    print_parts(&message.header.lent(), body, out)
}

/// Appends the text of an application message: its type and its own fields, without a header. An `Err` appends nothing.
pub fn print_app(message: &App, out: &mut Vec<u8>) -> Result<(), AllocError>
    ensures ok { OnOk result (out.new.items ≡ out.old.items ++ app_text message.now) }
    ensures fits { OnOk result (FitsBody (Body.App message.now)) }
    ensures err { OnErr result (out.new.items ≡ out.old.items) }
{
    let start = out.len();
    let done = append_application(out, message);
    settle(out, start, done)
}
