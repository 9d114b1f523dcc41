//! The next order of a participant, an instrument and a side after one that was refused, since a linked one was too
//! recent.

ghost use Rattle.std.specs.Prelude.{◌≡◌, ◌++◌, IfOk, OnOk};
ghost use Rattle.surveillance.specs.Again.{again_alarm, again_alarms, find_alike, if_refused, is_alike, order_sent, raised, sent_again, sent_by, sent_what, waiting, without};

use crate::alarm::{Alarm, Figure, Kind, Others, Place, push_alarm};
use crate::index::place;
use day_events::{Event, What};
use fix_dictionary::{Identifier, Side};
use participants::Who;
use std::alloc::{AllocError, Global};
use venue_rules::is_side;

/// An order that a message sent.
#[derive(Clone, Copy)]
pub struct Sent {
    pub at: Place,
    pub who: Who,
    pub symbol: Identifier,
    pub side: Side,
    /// none of a refused one
    pub order: Option<u64>,
}

fn order_sent(event: &Event, symbol: Identifier, side: Side, order: Option<u64>) -> Sent
    ensures { result ≡ order_sent event.now symbol side order }
{
    Sent {
        at: place(event),
        who: event.to,
        symbol,
        side,
        order,
    }
}

/// The order that enters, or is refused as too recent.
#[tactic(auto, unfolding(crate::specs::Again::sent_what))]
fn sent_what(event: &Event) -> Option<Sent>
    ensures { result ≡ sent_what event.now event.now.what }
{
    match &event.what {
        What::Entered(order) => Some(order_sent(event, order.symbol, order.side, order.order)),
        What::TooRecent(order) => Some(order_sent(event, order.symbol, order.side, None)),
        _ => None,
    }
}

/// The order of a message. A held side, which enters or is refused at a row of the clock, was sent before.
fn sent_by(event: &Event) -> Option<Sent>
    ensures { result ≡ sent_by event.now }
{
    if event.at.from == 0 {
        None
    } else {
        sent_what(event)
    }
}

fn is_alike(a: &Sent, b: &Sent) -> bool
    ensures { result ≡ is_alike a.now b.now }
{
    a.who.place() == b.who.place() && a.symbol.is(&b.symbol) && is_side(a.side, b.side)
}

fn find_alike(order: &Sent, refused: &[Sent]) -> Option<Sent>
    ensures { result ≡ find_alike order.now refused.now }
{
    for other in refused {
        if is_alike(other, order) {
            return Some(*other);
        }
    }
    None
}

fn without(alloc: Global, order: &Sent, refused: &[Sent]) -> Result<Vec<Sent>, AllocError>
    ensures { IfOk result (λ rest. rest.items ≡ without order.now refused.now) }
{
    let mut rest = Vec::new(alloc);
    for other in refused {
        if !is_alike(other, order) {
            rest.push(*other)?;
        }
    }
    Ok(rest)
}

fn sent_again(order: &Sent, earlier: &Sent) -> Alarm
    ensures { result ≡ sent_again order.now earlier.now }
{
    let ms = order.at.moment.ms().saturating_sub(earlier.at.moment.ms());
    Alarm {
        kind: Kind::SentAgain,
        at: Some(order.at),
        who: order.who,
        others: Others::None,
        trade: None,
        order: order.order,
        found: Some(Figure::Number(ms)),
        base: Some(earlier.at.row),
        bound: None,
    }
}

fn push_again(
    alarms: &mut Vec<Alarm>,
    order: &Sent,
    earlier: &Option<Sent>,
) -> Result<(), AllocError>
    ensures { OnOk result (alarms.new.items ≡ alarms.old.items ++ again_alarm order.now earlier.now) }
{
    match earlier {
        None => Ok(()),
        Some(earlier) => push_alarm(alarms, sent_again(order, earlier)),
    }
}

fn push_raised(
    alarms: &mut Vec<Alarm>,
    refused: &[Sent],
    order: &Option<Sent>,
) -> Result<(), AllocError>
    ensures { OnOk result (alarms.new.items ≡ alarms.old.items ++ raised refused.now order.now) }
{
    match order {
        None => Ok(()),
        Some(order) => push_again(alarms, order, &find_alike(order, refused)),
    }
}

#[tactic(auto, unfolding(crate::specs::Again::if_refused))]
fn push_if_refused(rest: &mut Vec<Sent>, what: &What, order: &Sent) -> Result<(), AllocError>
    ensures { OnOk result (rest.new.items ≡ rest.old.items ++ if_refused what.now order.now) }
{
    match what {
        What::TooRecent(_) => match rest.push(*order) {
            Ok(()) => Ok(()),
            Err(_) => Err(AllocError),
        },
        _ => Ok(()),
    }
}

/// Those refused that wait for the next one alike.
fn waiting(
    alloc: Global,
    refused: Vec<Sent>,
    what: &What,
    order: &Option<Sent>,
) -> Result<Vec<Sent>, AllocError>
    ensures { IfOk result (λ rest. rest.items ≡ waiting refused.items what.now order.now) }
{
    match order {
        None => Ok(refused),
        Some(order) => {
            let mut rest = without(alloc, order, &refused)?;
            push_if_refused(&mut rest, what, order)?;
            Ok(rest)
        }
    }
}

/// Appends the alarms of next orders after one that was refused as too recent.
pub(crate) fn push_all_again(
    alloc: Global,
    alarms: &mut Vec<Alarm>,
    events: &[Event],
) -> Result<(), AllocError>
    ensures { OnOk result (alarms.new.items ≡ alarms.old.items ++ again_alarms events.now) }
{
    let mut refused = Vec::new(alloc);
    for event in events {
        let order = sent_by(event);
        push_raised(alarms, &refused, &order)?;
        refused = waiting(alloc, refused, &event.what, &order)?;
    }
    Ok(())
}
