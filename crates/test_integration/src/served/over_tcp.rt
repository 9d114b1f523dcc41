//! A trade over TCP, by two counterparties of a venue of five.

use super::cues::{Day, Plan};
use super::five_ports::{opened_somewhere, scenario, serve_in_parallel};
use super::fixture::{Outcome, ScenarioFault};
use super::scripts::{order, script};
use crate::messages::bytes_of;
use fix_dictionary::{Body, Identifier, Message, Quantity, Side};
use fix_encoder::print_app;
use sef_client::{Heard, Script, ScriptStep};
use std::alloc::{AllocError, Global};
use std::mem::drop;
use std::net::{Net, TcpListener, TcpStream};
use std::sync::Wait;
use std::test::*;
use std::thread;
use std::thread::Threads;
use std::time::Clock;

/// DELTA is the fourth.
const DELTA: u16 = 3;

/// What ALPHA is to receive: its order is new, and then 40 of it are filled.
const REPORTS: &str = "35=8|37=O1|17=E1|150=0|39=0|55=IRS5Y|54=1|151=100|14=0|11=a1|\
     35=8|37=O1|17=E4|150=F|39=1|55=IRS5Y|54=1|151=60|14=40|11=a1|31=2.5|32=40|880=T1|";

fn alpha(alloc: Global) -> Result<Script, AllocError> {
    let buy = order(Identifier::from_slice(b"a1"), Side::Buy, Quantity::new(100));
    let steps = vec![in alloc;
        ScriptStep::Logon,
        ScriptStep::Send(buy),
        ScriptStep::Await(2),
        ScriptStep::Logout,
    ]?;
    Ok(script(Identifier::from_slice(b"ALPHA"), steps))
}

fn delta(alloc: Global) -> Result<Script, AllocError> {
    let sell = order(Identifier::from_slice(b"d1"), Side::Sell, Quantity::new(40));
    let steps = vec![in alloc; ScriptStep::Logon, ScriptStep::Send(sell)]?;
    Ok(script(Identifier::from_slice(b"DELTA"), steps))
}

// The application messages among these, printed without their headers.
fn reports_in(alloc: Global, messages: &[Message]) -> Result<Vec<u8>, AllocError> {
    let mut text = Vec::new(alloc);
    for message in messages {
        if let Body::App(app) = &message.body {
            print_app(app.get(), &mut text)?;
        }
    }
    Ok(text)
}

// Whether ALPHA received what it is to receive.
fn is_emitted(alloc: Global, heard: Heard) -> Result<bool, AllocError> {
    let emitted = reports_in(alloc, heard.as_slice());
    drop(heard);
    let emitted = emitted?;
    let expected = bytes_of(alloc, REPORTS)?;
    Ok(emitted.as_slice() == expected.as_slice())
}

// ALPHA buys; whether it received what it is to receive.
fn run_alpha<R: Net<Listener = TcpListener, Stream = TcpStream> + Wait + Clock + Copy + Drop>(
    rt: &R,
    alloc: Global,
    port: u16,
    day: &Day,
) -> Result<bool, ScenarioFault> {
    let heard = scenario(rt, alloc, alpha(alloc)?, port, day)?;
    Ok(is_emitted(alloc, heard)?)
}

// DELTA sells.
fn run_delta<R: Net<Listener = TcpListener, Stream = TcpStream> + Wait + Clock + Copy + Drop>(
    rt: &R,
    alloc: Global,
    port: u16,
    day: &Day,
) -> Result<(), ScenarioFault> {
    let heard = scenario(rt, alloc, delta(alloc)?, port, day)?;
    drop(heard);
    Ok(())
}

// Both run, and then all is over.
fn run_to_the_end<
    R: Net<Listener = TcpListener, Stream = TcpStream>
        + Threads
        + Wait
        + Sync
        + Clock
        + Copy
        + Drop,
>(rt: &R, alloc: Global, port: u16, day: &Day) -> Result<bool, ScenarioFault> {
    let delta_port = port.saturating_add(DELTA);
    let (emitted, sold) = thread::join(
        rt,
        || run_alpha(rt, alloc, port, day),
        || run_delta(rt, alloc, delta_port, day),
    );
    day.over.give();
    sold?;
    emitted
}

// A trade over TCP: what the venue had, and whether ALPHA received what it is to receive.
fn trade<
    R: Net<Listener = TcpListener, Stream = TcpStream>
        + Threads
        + Wait
        + Send
        + Sync
        + Clock
        + Copy
        + Drop,
>(rt: &R, alloc: Global) -> Result<(Outcome, bool), ScenarioFault> {
    let (port, opened) = opened_somewhere(rt, alloc)?;
    let day = Day::new(Plan::TwoOrders);
    serve_in_parallel(rt, alloc, opened, &day, || {
        run_to_the_end(rt, alloc, port, &day)
    })
}

#[test]
fn two_orders_trade_over_tcp(rt: HostRuntime) {
    let outcome = Outcome {
        sessions: 5,
        taken: 2,
        numbers: [2, 2],
    };
    let traded = trade(&rt, rt.alloc());
    assert_eq!(rt; traded, Ok((outcome, true)));
}
