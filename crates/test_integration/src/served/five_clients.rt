//! A trading day of five clients over TCP: the day of `tests/e2e`, without its reset and without the resend request for
//! messages that were received. A script has no step for either.

use super::cues::{Day, Plan};
use super::five_ports::{opened_somewhere, scenario, serve_in_parallel};
use super::fixture::{Outcome, ScenarioFault};
use super::lines_of_a_day::script_of;
use crate::messages::bytes_of;
use fix_dictionary::{Admin, App, Body, Message};
use fix_encoder::print_app;
use sef_client::Heard;
use std::alloc::{AllocError, Global};
use std::mem::drop;
use std::net::{Net, TcpListener, TcpStream};
use std::sync::Wait;
use std::test::*;
use std::thread;
use std::thread::Threads;
use std::time::Clock;

/// What each client does, in order. ALPHA's connection breaks before it sends a3, which is lost, as is the report of
/// d2; a resend request asks for each.
const DAY: [&str; 49] = [
    "ALPHA logon",
    "BETA logon",
    "GAMMA logon",
    "DELTA logon",
    "EPSILON logon",
    // A trade in the book; ALPHA changes its order.
    "ALPHA 35=D|11=a1|55=IRS5Y|54=1|38=100|40=2|44=2.5|",
    "DELTA 35=D|11=d1|55=IRS5Y|54=2|38=40|40=2|44=2.5|",
    "ALPHA hears 2",
    "ALPHA 35=G|11=a2|41=a1|38=120|40=2|44=2.4975|",
    // EPSILON looks at the book; orders that are refused; a cross, whose two sides are cancelled.
    "EPSILON 35=V|262=v1|263=0|264=0|267=1|269=0|146=1|55=IRS5Y|",
    "EPSILON 35=V|262=v2|263=1|264=0|267=1|269=0|146=1|55=IRS5Y|",
    "EPSILON 35=D|11=e1|55=IRS5Y|54=1|38=10|40=2|44=2.501|",
    "EPSILON 35=D|11=e1|55=NONE|54=1|38=10|40=2|44=2.5|",
    "EPSILON 35=F|11=e2|41=e1|",
    "EPSILON 35=s|548=x1|549=4|550=1|552=2|54=1|11=xb|38=10|54=2|11=xs|38=10|55=BASIS1Y|40=2|44=1|",
    "EPSILON 35=F|11=xc|41=xs|",
    "EPSILON 35=F|11=xd|41=xb|",
    // A request to two related banks alone is refused; one to four is sent to all.
    "ALPHA 35=R|131=q0|146=1|55=IRS5Y|54=1|38=100|453=3|448=BETA|447=D|452=35|448=GAMMA|447=D|452=35|448=DELTA|447=D|452=35|",
    "ALPHA 35=R|131=q1|146=1|55=IRS5Y|54=1|38=100|453=4|448=BETA|447=D|452=35|448=GAMMA|447=D|452=35|448=DELTA|447=D|452=35|448=EPSILON|447=D|452=35|",
    "BETA hears 1",
    "GAMMA hears 1",
    "DELTA hears 3",
    "EPSILON hears 9",
    // Three quotes: the third is withdrawn, the second passed, the first hit.
    "DELTA 35=S|117=dq|131=R1|55=IRS5Y|133=2.5025|",
    "BETA 35=S|117=bq|131=R1|55=IRS5Y|133=2.505|",
    "EPSILON 35=S|117=eq|131=R1|55=IRS5Y|133=2.5|",
    "EPSILON 35=Z|117=eq|298=5|",
    "ALPHA hears 9",
    "ALPHA 35=AJ|693=h0|117=Q2|694=6|",
    "BETA hears 3",
    "ALPHA 35=AJ|693=h1|117=Q1|694=1|",
    "ALPHA hears 11",
    "DELTA hears 5",
    // ALPHA's connection breaks, and DELTA trades with its order.
    "ALPHA break",
    "ALPHA 35=D|11=a3|55=BASIS1Y|54=1|38=5|40=2|44=-0.25|",
    "DELTA 35=D|11=d2|55=IRS5Y|54=2|38=10|40=2|44=2.4975|",
    "DELTA hears 7",
    "ALPHA logon",
    "ALPHA hears 13",
    "ALPHA 35=F|11=a4|41=a3|",
    "ALPHA hears 14",
    "DELTA 35=V|262=v3|263=0|264=0|267=1|269=0|146=1|55=IRS5Y|",
    "DELTA hears 8",
    "EPSILON hears 11",
    "ALPHA logout",
    "BETA logout",
    "GAMMA logout",
    "DELTA logout",
    "EPSILON logout",
];

/// The clients, how many application messages each receives, and these, each by its type and its trade; among them the
/// venue's resend requests (35=2).
const HEARD: [(&str, usize, &str); 5] = [
    (
        "ALPHA",
        14,
        "35=8|35=8|880=T1|35=8|35=AG|35=W|35=S|35=S|35=S|35=AI|35=AI|35=8|880=T2|35=2|35=8|880=T3|35=8|35=8|",
    ),
    ("BETA", 3, "35=R|35=AI|35=AI|"),
    ("GAMMA", 1, "35=R|"),
    (
        "DELTA",
        8,
        "35=8|35=8|880=T1|35=R|35=AI|35=8|880=T2|35=8|35=8|880=T3|35=W|",
    ),
    (
        "EPSILON",
        11,
        "35=W|35=Y|35=8|35=8|35=9|35=8|35=8|35=8|35=R|35=AI|35=AI|",
    ),
];

// Whether a field is a message's type, or a trade.
fn emits(field: &[u8]) -> bool {
    field.starts_with(b"35=") || field.starts_with(b"880=")
}

// Appends the fields that make the kind of an application message.
fn append_kind(alloc: Global, app: &App, kinds: &mut Vec<u8>) -> Result<(), AllocError> {
    let mut text = Vec::new(alloc);
    print_app(app, &mut text)?;
    for field in text.split(|byte| *byte == 1) {
        if emits(field) {
            kinds.extend_from_slice(field)?;
            kinds.push(1)?;
        }
    }
    Ok(())
}

// Appends the kind of an application message, and each resend request of the venue.
fn append_message(alloc: Global, message: &Message, kinds: &mut Vec<u8>) -> Result<(), AllocError> {
    match &message.body {
        Body::App(app) => append_kind(alloc, app.get(), kinds),
        Body::Admin(Admin::ResendRequest(_)) => kinds.extend_from_slice(b"35=2\x01"),
        Body::Admin(_) => Ok(()),
    }
}

fn kinds_of(alloc: Global, messages: &[Message]) -> Result<Vec<u8>, AllocError> {
    let mut kinds = Vec::new(alloc);
    for message in messages {
        append_message(alloc, message, &mut kinds)?;
    }
    Ok(kinds)
}

// Whether this many application messages were received, of these kinds.
fn is_heard(alloc: Global, heard: Heard, count: usize, kinds: &str) -> Result<bool, AllocError> {
    let is_counted = heard.applications() == count;
    let emitted = kinds_of(alloc, heard.as_slice());
    drop(heard);
    let emitted = emitted?;
    let expected = bytes_of(alloc, kinds)?;
    Ok(is_counted && emitted.as_slice() == expected.as_slice())
}

// Runs the client at this place; whether it received what it is owed.
fn run_client<R: Net<Listener = TcpListener, Stream = TcpStream> + Wait + Clock + Copy + Drop>(
    rt: &R,
    alloc: Global,
    place: usize,
    port: u16,
    day: &Day,
) -> Result<bool, ScenarioFault> {
    let Some((name, count, kinds)) = HEARD.get(place) else {
        return Ok(false);
    };
    let script = script_of(alloc, *name, &DAY)?;
    let heard = scenario(rt, alloc, script, port.saturating_add(place as u16), day)?;
    Ok(is_heard(alloc, heard, *count, *kinds)?)
}

fn are_all(clients: &[Result<bool, ScenarioFault>]) -> Result<bool, ScenarioFault> {
    for client in clients {
        match client {
            Ok(true) => {}
            Ok(false) => return Ok(false),
            Err(fault) => return Err(*fault),
        }
    }
    Ok(true)
}

// All clients run, and then the day is over; whether each received what it is owed.
fn run_clients<
    R: Net<Listener = TcpListener, Stream = TcpStream>
        + Threads
        + Wait
        + Sync
        + Clock
        + Copy
        + Drop,
>(rt: &R, alloc: Global, port: u16, day: &Day) -> Result<bool, ScenarioFault> {
    let clients = thread::map_indices(
        rt,
        alloc,
        HEARD.len(),
        &|place| { run_client(rt, alloc, place, port, day) },
    );
    day.over.give();
    let clients = clients?;
    are_all(&clients)
}

// The day over TCP: what the venue had, and whether each client received what it is owed.
fn trade_a_day<
    R: Net<Listener = TcpListener, Stream = TcpStream>
        + Threads
        + Wait
        + Send
        + Sync
        + Clock
        + Copy
        + Drop,
>(rt: &R, alloc: Global) -> Result<(Outcome, bool), ScenarioFault> {
    let (port, opened) = opened_somewhere(rt, alloc)?;
    let day = Day::new(Plan::FiveClients);
    serve_in_parallel(rt, alloc, opened, &day, || {
        run_clients(rt, alloc, port, &day)
    })
}

#[test]
fn a_day_of_five_clients(rt: HostRuntime) {
    let outcome = Outcome {
        sessions: 5,
        taken: 23,
        numbers: [2, 2],
    };
    let traded = trade_a_day(&rt, rt.alloc());
    assert_eq!(rt; traded, Ok((outcome, true)));
}
