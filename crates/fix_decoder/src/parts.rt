//! Reading of each message type from fields in which its table found no fault.
ghost use Rattle.std.specs.Prelude.{◌≡◌, IfOk};
ghost use Rattle.fix_validation.specs.Tables.{header_rows, heartbeat_rows, test_request_rows, resend_request_rows, reject_rows, sequence_reset_rows, logout_rows, logon_rows, quote_cancel_rows, quote_response_rows, quote_status_report_rows, new_order_single_rows, order_cancel_request_rows, order_cancel_replace_request_rows, execution_report_rows, order_cancel_reject_rows, market_data_request_reject_rows, business_message_reject_rows};
ghost use Rattle.fix_fields.specs.Views.{entries};
ghost use Rattle.fix_validation.specs.Holding.{Holds};
ghost use Rattle.fix_validation.specs.Stated.{bytes_at};
ghost use Rattle.fix_dictionary.specs.Kinds.{IsOtherKind};
ghost use Rattle.fix_decoder.specs.Messages.{header, heartbeat, test_request, begin_in, resend_request, reject, sequence_reset, logout, logon, quote_cancel, quote_response, quote_status_report, new_order_single, order_cancel_request, order_cancel_replace_request, execution_report, order_cancel_reject, market_data_request_reject, business_message_reject};

use crate::field_values::{
    amount, bytes_at, character, identifier, interval, moment, new_sequence_number, number,
    optional_character, optional_flag, optional_identifier, optional_moment, optional_number,
    optional_price, optional_quantity, optional_side, optional_text, quantity, sequence_number,
    side,
};
use fix_dictionary::{
    App, BoxedApp, BusinessMessageReject, ExecutionReport, Header, Heartbeat, Logon, Logout,
    MarketDataRequestReject, NewOrderSingle, OrderCancelReject, OrderCancelReplaceRequest,
    OrderCancelRequest, OtherKind, QuoteCancel, QuoteResponse, QuoteStatusReport, Reject,
    ResendRequest, SequenceReset, TestRequest,
};
use fix_fields::Field;
use std::alloc::{AllocError, Global};

pub(crate) fn header(fields: &[Field]) -> Header
    requires { Holds header_rows (entries fields.now) }
    ensures { result ≡ header (entries fields.now) }
{
    Header {
        sender: identifier(fields, 49),
        target: identifier(fields, 56),
        number: sequence_number(fields, 34),
        sending_time: moment(fields, 52),
        possible_duplicate: optional_flag(fields, 43),
        possible_resend: optional_flag(fields, 97),
        original_sending_time: optional_moment(fields, 122),
        application_version: optional_identifier(fields, 1128),
    }
}

pub(crate) fn heartbeat(fields: &[Field]) -> Heartbeat
    requires { Holds heartbeat_rows (entries fields.now) }
    ensures { result ≡ heartbeat (entries fields.now) }
{
    Heartbeat {
        test_id: optional_identifier(fields, 112),
    }
}

pub(crate) fn test_request(fields: &[Field]) -> TestRequest
    requires { Holds test_request_rows (entries fields.now) }
    ensures { result ≡ test_request (entries fields.now) }
{
    TestRequest {
        test_id: identifier(fields, 112),
    }
}

pub(crate) fn resend_request(fields: &[Field]) -> ResendRequest
    requires { Holds (resend_request_rows (begin_in (entries fields.now))) (entries fields.now) }
    ensures { result ≡ resend_request (entries fields.now) }
{
    ResendRequest::new(sequence_number(fields, 7), number(fields, 16))
}

pub(crate) fn reject(alloc: Global, fields: &[Field]) -> Result<Reject, AllocError>
    requires { Holds reject_rows (entries fields.now) }
    ensures { IfOk result (λ m. m ≡ reject (entries fields.now)) }
{
    Ok(Reject {
        reference_number: number(fields, 45),
        reference_tag: optional_number(fields, 371),
        reference_type: optional_identifier(fields, 372),
        reason: optional_number(fields, 373),
        text: optional_text(alloc, fields, 58)?,
    })
}

pub(crate) fn sequence_reset(fields: &[Field]) -> SequenceReset
    requires { Holds sequence_reset_rows (entries fields.now) }
    ensures { result ≡ sequence_reset (entries fields.now) }
{
    SequenceReset {
        gap_fill: optional_flag(fields, 123),
        new_number: new_sequence_number(fields, 36),
    }
}

pub(crate) fn logout(alloc: Global, fields: &[Field]) -> Result<Logout, AllocError>
    requires { Holds logout_rows (entries fields.now) }
    ensures { IfOk result (λ m. m ≡ logout (entries fields.now)) }
{
    Ok(Logout {
        text: optional_text(alloc, fields, 58)?,
    })
}

pub(crate) fn logon(fields: &[Field]) -> Logon
    requires { Holds logon_rows (entries fields.now) }
    ensures { result ≡ logon (entries fields.now) }
{
    Logon {
        heartbeat_interval: interval(fields, 108),
        reset: optional_flag(fields, 141),
    }
}

// Each message of the venue is built on the heap where it is read, so that the largest type costs the others nothing,
// and is not moved by value.

pub(crate) fn quote_cancel(alloc: Global, fields: &[Field]) -> Result<BoxedApp, AllocError>
    requires { Holds quote_cancel_rows (entries fields.now) }
    ensures { IfOk result (λ m. m ≡ App.QuoteCancel (quote_cancel (entries fields.now))) }
{
    BoxedApp::new(
        alloc,
        App::QuoteCancel(QuoteCancel {
            quote_id: optional_identifier(fields, 117),
            cancel_type: number(fields, 298),
        }),
    )
}

pub(crate) fn quote_response(alloc: Global, fields: &[Field]) -> Result<BoxedApp, AllocError>
    requires { Holds quote_response_rows (entries fields.now) }
    ensures { IfOk result (λ m. m ≡ App.QuoteResponse (quote_response (entries fields.now))) }
{
    BoxedApp::new(
        alloc,
        App::QuoteResponse(QuoteResponse {
            response_id: identifier(fields, 693),
            quote_id: identifier(fields, 117),
            response_type: number(fields, 694),
            side: optional_side(fields, 54),
        }),
    )
}

pub(crate) fn quote_status_report(alloc: Global, fields: &[Field]) -> Result<BoxedApp, AllocError>
    requires { Holds quote_status_report_rows (entries fields.now) }
    ensures { IfOk result (λ m. m ≡ App.QuoteStatusReport (quote_status_report (entries fields.now))) }
{
    BoxedApp::new(
        alloc,
        App::QuoteStatusReport(QuoteStatusReport {
            quote_id: optional_identifier(fields, 117),
            request_id: optional_identifier(fields, 131),
            response_id: optional_identifier(fields, 693),
            symbol: optional_identifier(fields, 55),
            status: number(fields, 297),
            reject_reason: optional_number(fields, 300),
            text: optional_text(alloc, fields, 58)?,
        }),
    )
}

pub(crate) fn new_order_single(alloc: Global, fields: &[Field]) -> Result<BoxedApp, AllocError>
    requires { Holds new_order_single_rows (entries fields.now) }
    ensures { IfOk result (λ m. m ≡ App.NewOrderSingle (new_order_single (entries fields.now))) }
{
    BoxedApp::new(
        alloc,
        App::NewOrderSingle(NewOrderSingle {
            order_id: identifier(fields, 11),
            link_id: optional_identifier(fields, 583),
            symbol: identifier(fields, 55),
            side: side(fields, 54),
            quantity: quantity(fields, 38),
            order_type: character(fields, 40),
            price: optional_price(fields, 44),
            time_in_force: optional_character(fields, 59),
            transact_time: optional_moment(fields, 60),
        }),
    )
}

pub(crate) fn order_cancel_request(alloc: Global, fields: &[Field]) -> Result<BoxedApp, AllocError>
    requires { Holds order_cancel_request_rows (entries fields.now) }
    ensures { IfOk result (λ m. m ≡ App.OrderCancelRequest (order_cancel_request (entries fields.now))) }
{
    BoxedApp::new(
        alloc,
        App::OrderCancelRequest(OrderCancelRequest {
            order_id: identifier(fields, 11),
            original_id: identifier(fields, 41),
        }),
    )
}

pub(crate) fn order_cancel_replace_request(
    alloc: Global,
    fields: &[Field],
) -> Result<BoxedApp, AllocError>
    requires { Holds order_cancel_replace_request_rows (entries fields.now) }
    ensures { IfOk result (λ m. m ≡ App.OrderCancelReplaceRequest (order_cancel_replace_request (entries fields.now))) }
{
    BoxedApp::new(
        alloc,
        App::OrderCancelReplaceRequest(OrderCancelReplaceRequest {
            order_id: identifier(fields, 11),
            original_id: identifier(fields, 41),
            quantity: quantity(fields, 38),
            order_type: character(fields, 40),
            price: optional_price(fields, 44),
        }),
    )
}

pub(crate) fn execution_report(alloc: Global, fields: &[Field]) -> Result<BoxedApp, AllocError>
    requires { Holds execution_report_rows (entries fields.now) }
    ensures { IfOk result (λ m. m ≡ App.ExecutionReport (execution_report (entries fields.now))) }
{
    BoxedApp::new(
        alloc,
        App::ExecutionReport(ExecutionReport {
            venue_order_id: identifier(fields, 37),
            execution_id: identifier(fields, 17),
            execution_type: character(fields, 150),
            order_status: character(fields, 39),
            symbol: identifier(fields, 55),
            side: side(fields, 54),
            left: amount(fields, 151),
            filled: amount(fields, 14),
            order_id: optional_identifier(fields, 11),
            original_id: optional_identifier(fields, 41),
            last_price: optional_price(fields, 31),
            last_quantity: optional_quantity(fields, 32),
            reject_reason: optional_number(fields, 103),
            trade_id: optional_identifier(fields, 880),
            response_id: optional_identifier(fields, 693),
            text: optional_text(alloc, fields, 58)?,
        }),
    )
}

pub(crate) fn order_cancel_reject(alloc: Global, fields: &[Field]) -> Result<BoxedApp, AllocError>
    requires { Holds order_cancel_reject_rows (entries fields.now) }
    ensures { IfOk result (λ m. m ≡ App.OrderCancelReject (order_cancel_reject (entries fields.now))) }
{
    BoxedApp::new(
        alloc,
        App::OrderCancelReject(OrderCancelReject {
            venue_order_id: identifier(fields, 37),
            order_id: identifier(fields, 11),
            original_id: identifier(fields, 41),
            order_status: character(fields, 39),
            response_to: character(fields, 434),
            reject_reason: number(fields, 102),
            text: optional_text(alloc, fields, 58)?,
        }),
    )
}

pub(crate) fn market_data_request_reject(
    alloc: Global,
    fields: &[Field],
) -> Result<BoxedApp, AllocError>
    requires { Holds market_data_request_reject_rows (entries fields.now) }
    ensures { IfOk result (λ m. m ≡ App.MarketDataRequestReject (market_data_request_reject (entries fields.now))) }
{
    BoxedApp::new(
        alloc,
        App::MarketDataRequestReject(MarketDataRequestReject {
            request_id: identifier(fields, 262),
            reject_reason: character(fields, 281),
            text: optional_text(alloc, fields, 58)?,
        }),
    )
}

pub(crate) fn business_message_reject(
    alloc: Global,
    fields: &[Field],
) -> Result<BoxedApp, AllocError>
    requires { Holds business_message_reject_rows (entries fields.now) }
    ensures { IfOk result (λ m. m ≡ App.BusinessMessageReject (business_message_reject (entries fields.now))) }
{
    BoxedApp::new(
        alloc,
        App::BusinessMessageReject(BusinessMessageReject {
            reference_number: number(fields, 45),
            reference_type: identifier(fields, 372),
            reject_reason: number(fields, 380),
            text: optional_text(alloc, fields, 58)?,
        }),
    )
}

pub(crate) fn unsupported(alloc: Global, fields: &[Field]) -> Result<BoxedApp, AllocError>
    requires { IsOtherKind (bytes_at 35 (entries fields.now)) }
    ensures { IfOk result (λ m. m ≡ App.Unsupported (bytes_at 35 (entries fields.now))) }
{
    let kind = OtherKind::from_slice(bytes_at(fields, 35));
    BoxedApp::new(alloc, App::Unsupported(kind))
}
