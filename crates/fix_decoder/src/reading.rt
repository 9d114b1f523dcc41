//! Reading of messages.
ghost use Rattle.std.specs.Prelude.{◌≡◌, ◌++◌, true, false, None, Err, IfOk, MatchResult};
ghost use Rattle.fix_validation.specs.Tables.{header_rows, rows_of};
ghost use Rattle.fix_validation.specs.Holding.{Holds};
ghost use Rattle.fix_validation.specs.GroupHolding.{Clean};
ghost use Rattle.fix_validation.specs.Positions.{places};
ghost use Rattle.fix_dictionary.specs.Kinds.{type_of, is_grouped, is_session};
ghost use Rattle.fix_validation.specs.Faults.{first_fault};
ghost use Rattle.fix_validation.specs.Stated.{bytes_at};
ghost use Rattle.fix_dictionary.specs.Values.{IsText};
ghost use Rattle.fix_decoder.specs.Messages.{body_in, type_in, begin_in, fault_in, fault_as_type, message_as, message_in, placed_as, Spells, IsFault};
ghost use Rattle.fix_decoder.specs.Applications.{IsApp, plain_header, app_fault_in, SpellsApp};
ghost use Rattle.fix_fields.specs.Views.{entries};

use crate::field_values::{begin_in, bytes_at};
use crate::{cross_parts, group_parts, parts, quote_parts};
use fix_dictionary::{Admin, App, Body, BoxedApp, Message, MessageType};
use fix_fields::{Field, Fields};
use fix_validation::{
    DictFault, LocatedField, first_fault, header, is_grouped, is_session, located, located_fault,
    part, resend_request_rows, rows_of, type_of,
};
use std::alloc::{AllocError, Global};

// A message of the session, without its header.
fn admin_in(alloc: Global, kind: MessageType, fields: &[Field]) -> Result<Admin, AllocError>
    requires holds { Holds (rows_of kind (begin_in (entries fields.now))) (entries fields.now) }
    requires session { is_session kind ≡ true }
    ensures { IfOk result (λ m. Body.Admin m ≡ body_in kind (entries fields.now)) }
{
    Ok(match kind {
        MessageType::Heartbeat => Admin::Heartbeat(parts::heartbeat(fields)),
        MessageType::TestRequest => Admin::TestRequest(parts::test_request(fields)),
        MessageType::ResendRequest => Admin::ResendRequest(parts::resend_request(fields)),
        MessageType::Reject => Admin::Reject(parts::reject(alloc, fields)?),
        MessageType::SequenceReset => Admin::SequenceReset(parts::sequence_reset(fields)),
        MessageType::Logout => Admin::Logout(parts::logout(alloc, fields)?),
        MessageType::Logon => Admin::Logon(parts::logon(fields)),
        _ => unreachable!(),
    })
}

// A message of the venue without groups, without its header.
fn flat_app(alloc: Global, kind: MessageType, fields: &[Field]) -> Result<BoxedApp, AllocError>
    requires holds { Holds (rows_of kind 0) (entries fields.now) }
    requires flat { is_grouped kind ≡ false }
    requires venue { is_session kind ≡ false }
    requires kind { kind ≡ type_in (entries fields.now) }
    requires text { IsText 64 (bytes_at 35 (entries fields.now)) }
    ensures { IfOk result (λ m. Body.App m ≡ body_in kind (entries fields.now)) }
{
    match kind {
        MessageType::QuoteCancel => parts::quote_cancel(alloc, fields),
        MessageType::QuoteResponse => parts::quote_response(alloc, fields),
        MessageType::QuoteStatusReport => parts::quote_status_report(alloc, fields),
        MessageType::NewOrderSingle => parts::new_order_single(alloc, fields),
        MessageType::OrderCancelRequest => parts::order_cancel_request(alloc, fields),
        MessageType::OrderCancelReplaceRequest => {
            parts::order_cancel_replace_request(alloc, fields)
        }
        MessageType::ExecutionReport => parts::execution_report(alloc, fields),
        MessageType::OrderCancelReject => parts::order_cancel_reject(alloc, fields),
        MessageType::MarketDataRequestReject => parts::market_data_request_reject(alloc, fields),
        MessageType::BusinessMessageReject => parts::business_message_reject(alloc, fields),
        MessageType::Unsupported => parts::unsupported(alloc, fields),
        _ => unreachable!(),
    }
}

fn body_in(alloc: Global, kind: MessageType, fields: &[Field]) -> Result<Body, AllocError>
    requires holds { Holds (rows_of kind (begin_in (entries fields.now))) (entries fields.now) }
    requires flat { is_grouped kind ≡ false }
    requires kind { kind ≡ type_in (entries fields.now) }
    requires text { IsText 64 (bytes_at 35 (entries fields.now)) }
    ensures { IfOk result (λ b. b ≡ body_in kind (entries fields.now)) }
{
    if is_session(kind) {
        Ok(Body::Admin(admin_in(alloc, kind, fields)?))
    } else {
        Ok(Body::App(flat_app(alloc, kind, fields)?))
    }
}

// The body of a message without groups.
fn flat_body(alloc: Global, kind: MessageType, fields: &[Field]) -> Result<Body, AllocError>
    requires holds { Holds (header_rows ++ rows_of kind (begin_in (entries fields.now))) (entries fields.now) }
    requires flat { is_grouped kind ≡ false }
    requires kind { kind ≡ type_in (entries fields.now) }
    ensures { IfOk result (λ b. b ≡ body_in kind (entries fields.now)) }
{
    body_in(alloc, kind, fields)
}

fn message_in(alloc: Global, kind: MessageType, fields: &[Field]) -> Result<Message, AllocError>
    requires holds { Holds (header_rows ++ rows_of kind (begin_in (entries fields.now))) (entries fields.now) }
    requires flat { is_grouped kind ≡ false }
    requires kind { kind ≡ type_in (entries fields.now) }
    ensures { IfOk result (λ m. m ≡ message_as kind (entries fields.now)) }
{
    Ok(Message {
        header: parts::header(fields),
        body: flat_body(alloc, kind, fields)?,
    })
}

// A message with groups, without its header.
fn grouped_app(
    alloc: Global,
    kind: MessageType,
    fields: &[Field],
    located: &[LocatedField],
) -> Result<App, AllocError>
    requires grouped { is_grouped kind ≡ true }
    requires located { places located.now ≡ placed_as kind (entries fields.now) }
    requires clean { Clean header_rows (rows_of kind 0) (places located.now) }
    ensures { IfOk result (λ m. Body.App m ≡ body_in kind (entries fields.now)) }
{
    Ok(match kind {
        MessageType::QuoteRequest => {
            App::QuoteRequest(quote_parts::quote_request(alloc, located)?)
        }
        MessageType::NewOrderCross => {
            App::NewOrderCross(cross_parts::new_order_cross(alloc, located)?)
        }
        MessageType::Quote => App::Quote(quote_parts::quote(alloc, located)?),
        MessageType::QuoteRequestReject => {
            App::QuoteRequestReject(quote_parts::quote_request_reject(alloc, located)?)
        }
        MessageType::MarketDataRequest => App::MarketDataRequest(group_parts::market_data_request(
            alloc, located,
        )?),
        MessageType::MarketDataSnapshot => App::MarketDataSnapshot(
            group_parts::market_data_snapshot(alloc, located)?,
        ),
        _ => unreachable!(),
    })
}

// The body of a message with groups.
fn grouped_body(
    alloc: Global,
    kind: MessageType,
    fields: &[Field],
    located: &[LocatedField],
) -> Result<Body, AllocError>
    requires grouped { is_grouped kind ≡ true }
    requires located { places located.now ≡ placed_as kind (entries fields.now) }
    requires clean { Clean header_rows (rows_of kind 0) (places located.now) }
    ensures { IfOk result (λ b. b ≡ body_in kind (entries fields.now)) }
{
    let app = grouped_app(alloc, kind, fields, located)?;
    Ok(Body::App(BoxedApp::new(alloc, app)?))
}

fn grouped_message(
    alloc: Global,
    kind: MessageType,
    fields: &[Field],
    located: &[LocatedField],
) -> Result<Message, AllocError>
    requires grouped { is_grouped kind ≡ true }
    requires located { places located.now ≡ placed_as kind (entries fields.now) }
    requires clean { Clean header_rows (rows_of kind 0) (places located.now) }
    ensures { IfOk result (λ m. m ≡ message_as kind (entries fields.now)) }
{
    let outside = part(alloc, located, 0)?;
    Ok(Message {
        header: parts::header(&outside),
        body: grouped_body(alloc, kind, fields, located)?,
    })
}

fn read_grouped(alloc: Global, kind: MessageType, fields: &[Field]) -> Result<Message, DictFault>
    requires { is_grouped kind ≡ true }
    ensures { MatchResult result (λ m. (fault_as_type kind (entries fields.now) ≡ None) × (m ≡ message_as kind (entries fields.now))) (IsFault (fault_as_type kind (entries fields.now))) }
{
    let Ok(located) = located(alloc, header(), rows_of(kind), fields) else {
        return Err(DictFault::NoMemory);
    };
    match located_fault(header(), rows_of(kind), &located, fields) {
        Some(found) => Err(found),
        None => match grouped_message(alloc, kind, fields, &located) {
            Ok(message) => Ok(message),
            Err(_) => Err(DictFault::NoMemory),
        },
    }
}

fn read_grouped_body(alloc: Global, kind: MessageType, fields: &[Field]) -> Result<Body, DictFault>
    requires { is_grouped kind ≡ true }
    ensures { MatchResult result (λ b. (fault_as_type kind (entries fields.now) ≡ None) × (b ≡ body_in kind (entries fields.now))) (IsFault (fault_as_type kind (entries fields.now))) }
{
    let Ok(located) = located(alloc, header(), rows_of(kind), fields) else {
        return Err(DictFault::NoMemory);
    };
    match located_fault(header(), rows_of(kind), &located, fields) {
        Some(found) => Err(found),
        None => match grouped_body(alloc, kind, fields, &located) {
            Ok(body) => Ok(body),
            Err(_) => Err(DictFault::NoMemory),
        },
    }
}

// The first fault, by the header's table and that of the type.
fn fault_in(kind: MessageType, fields: &[Field]) -> Option<DictFault>
    ensures { result ≡ first_fault (header_rows ++ rows_of kind (begin_in (entries fields.now))) (entries fields.now) }
{
    match kind {
        MessageType::ResendRequest => {
            first_fault(header(), &resend_request_rows(begin_in(fields)), fields)
        }
        _ => first_fault(header(), rows_of(kind), fields),
    }
}

fn read_fields(alloc: Global, fields: &[Field]) -> Result<Message, DictFault>
    ensures read { MatchResult result (λ m. Spells m (entries fields.now)) (IsFault (fault_in (entries fields.now))) }
    ensures flat { result ≡ Err DictFault.NoMemory → is_grouped (type_in (entries fields.now)) ≡ false → fault_in (entries fields.now) ≡ None }
{
    let kind = type_of(bytes_at(fields, 35));
    if is_grouped(kind) {
        return read_grouped(alloc, kind, fields);
    }
    match fault_in(kind, fields) {
        Some(fault) => Err(fault),
        None => match message_in(alloc, kind, fields) {
            Ok(message) => Ok(message),
            Err(_) => Err(DictFault::NoMemory),
        },
    }
}

fn read_body_in(alloc: Global, fields: &[Field]) -> Result<Body, DictFault>
    ensures read { MatchResult result (λ b. (fault_in (entries fields.now) ≡ None) × (b ≡ (message_in (entries fields.now)).body)) (IsFault (fault_in (entries fields.now))) }
    ensures flat { result ≡ Err DictFault.NoMemory → is_grouped (type_in (entries fields.now)) ≡ false → fault_in (entries fields.now) ≡ None }
{
    let kind = type_of(bytes_at(fields, 35));
    if is_grouped(kind) {
        return read_grouped_body(alloc, kind, fields);
    }
    match fault_in(kind, fields) {
        Some(fault) => Err(fault),
        None => match flat_body(alloc, kind, fields) {
            Ok(body) => Ok(body),
            Err(_) => Err(DictFault::NoMemory),
        },
    }
}

/// The body of the message that the fields spell, or their first fault. The header is checked and dropped.
pub fn read_body(alloc: Global, fields: &Fields) -> Result<Body, DictFault>
    ensures read { MatchResult result (λ b. (fault_in fields.now ≡ None) × (b ≡ (message_in fields.now).body)) (IsFault (fault_in fields.now)) }
    ensures flat { result ≡ Err DictFault.NoMemory → is_grouped (type_in fields.now) ≡ false → fault_in fields.now ≡ None }
{
    read_body_in(alloc, fields.as_slice())
}

/// The message that the fields of a body spell, or their first fault.
pub fn read_message(alloc: Global, fields: &Fields) -> Result<Message, DictFault>
    ensures read { MatchResult result (λ m. Spells m fields.now) (IsFault (fault_in fields.now)) }
    ensures flat { result ≡ Err DictFault.NoMemory → is_grouped (type_in fields.now) ≡ false → fault_in fields.now ≡ None }
{
    read_fields(alloc, fields.as_slice())
}

// A valid header with its required fields alone.
const PLAIN_HEADER: [Field<'static>; 4] = [
    Field {
        tag: 49,
        value: b"S",
    },
    Field {
        tag: 56,
        value: b"T",
    },
    Field {
        tag: 34,
        value: b"1",
    },
    Field {
        tag: 52,
        value: b"19700101-00:00:00.000",
    },
];

fn with_header<'a>(alloc: Global, fields: &[Field<'a>]) -> Result<Vec<Field<'a>>, AllocError>
    ensures { IfOk result (λ all. entries all.items ≡ plain_header ++ entries fields.now) }
{
    let mut all = Vec::new(alloc);
    all.extend_from_slice(&PLAIN_HEADER)?;
    all.extend_from_slice(fields)?;
    Ok(all)
}

fn application(body: Body) -> App
    requires { IsApp body }
    ensures { body ≡ Body.App result }
{
    match body {
        Body::App(app) => app.into_inner(),
        Body::Admin(_) => unreachable!(),
    }
}

/// The application message that fields without a header spell, as `print_app` writes them, or their first fault. The
/// header's optional fields are accepted, once and in their form, and dropped.
pub fn read_app(alloc: Global, fields: &Fields) -> Result<App, DictFault>
    ensures { MatchResult result (λ a. SpellsApp a fields.now) (IsFault (app_fault_in fields.now)) }
{
    if is_session(type_of(bytes_at(fields.as_slice(), 35))) {
        return Err(DictFault::Format(35));
    }
    let Ok(all) = with_header(alloc, fields.as_slice()) else {
        return Err(DictFault::NoMemory);
    };
    match read_body_in(alloc, &all) {
        Ok(body) => Ok(application(body)),
        Err(fault) => Err(fault),
    }
}
