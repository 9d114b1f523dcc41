//! Ratios of a participant past their bounds, and requests that all go to the same three.

ghost use Rattle.std.specs.Prelude.{◌≡◌, ◌*◌, ◌++◌, IfOk, OnOk};
ghost use Rattle.surveillance.specs.Alarms.{cancels_alarms, could_be_asked, hits_alarms, if_often, orders_alarms, people_alarms, percent_alarms, person_alarms, ratio_alarm, ratio_alarms, same_alarms, three_alarm, three_alarms};
ghost use Rattle.surveillance.specs.Deeds.{asked_by, recipients};

use crate::alarm::{Alarm, Figure, Kind, Others, push_alarm};
use crate::deeds::{
    Act, Deed, asked_by, asked_times, book_trades, orders_times, recipients, times,
};
use crate::thresholds::Thresholds;
use participants::{Participants, Who};
use std::alloc::{AllocError, Global};
use venue_rules::TradeFact;

fn product(a: u64, b: u64) -> u128
    ensures { result ≡ a * b }
{
    a as u128 * b as u128
}

fn ratio_alarm(kind: Kind, who: Who, found: u64, base: u64, bound: u64) -> Alarm
    ensures { result ≡ ratio_alarm kind who found base bound }
{
    Alarm {
        kind,
        at: None,
        who,
        others: Others::None,
        trade: None,
        order: None,
        found: Some(Figure::Number(found)),
        base: Some(base),
        bound: Some(Figure::Number(bound)),
    }
}

/// Appends the alarm of more orders than the bound for each trade.
fn push_orders(
    alarms: &mut Vec<Alarm>,
    bounds: &Thresholds,
    who: Who,
    orders: u64,
    trades: u64,
) -> Result<(), AllocError>
    ensures { OnOk result (alarms.new.items ≡ alarms.old.items ++ orders_alarms bounds.now who orders trades) }
{
    if bounds.fewest_for_ratio <= orders
        && product(bounds.orders_per_trade, trades) < orders as u128
    {
        let alarm = ratio_alarm(
            Kind::ManyOrders,
            who,
            orders,
            trades,
            bounds.orders_per_trade,
        );
        push_alarm(alarms, alarm)
    } else {
        Ok(())
    }
}

/// A percentage, and the fewest of which it is looked at.
#[derive(Clone, Copy)]
struct Percent {
    fewest: u64,
    bound: u64,
}

/// Appends the alarm of more of these than the bound in a hundred of those.
fn push_percent(
    alarms: &mut Vec<Alarm>,
    kind: Kind,
    percent: Percent,
    who: Who,
    found: u64,
    base: u64,
) -> Result<(), AllocError>
    ensures { OnOk result (alarms.new.items ≡ alarms.old.items ++ percent_alarms kind percent.fewest percent.bound who found base) }
{
    if percent.fewest <= base && product(percent.bound, base) < product(100, found) {
        push_alarm(alarms, ratio_alarm(kind, who, found, base, percent.bound))
    } else {
        Ok(())
    }
}

fn push_cancels(
    alarms: &mut Vec<Alarm>,
    bounds: &Thresholds,
    deeds: &[Deed],
    who: Who,
) -> Result<(), AllocError>
    ensures { OnOk result (alarms.new.items ≡ alarms.old.items ++ cancels_alarms bounds.now deeds.now who) }
{
    let percent = Percent {
        fewest: bounds.fewest_for_ratio,
        bound: bounds.cancelled_percent,
    };
    let found = times(Act::Cancelled, who, deeds);
    let base = times(Act::Entered, who, deeds);
    push_percent(alarms, Kind::ManyCancels, percent, who, found, base)
}

fn push_hits(
    alarms: &mut Vec<Alarm>,
    bounds: &Thresholds,
    deeds: &[Deed],
    who: Who,
) -> Result<(), AllocError>
    ensures { OnOk result (alarms.new.items ≡ alarms.old.items ++ hits_alarms bounds.now deeds.now who) }
{
    let percent = Percent {
        fewest: bounds.fewest_for_ratio,
        bound: bounds.hit_percent,
    };
    let found = times(Act::Hit, who, deeds);
    let base = times(Act::Quoted, who, deeds);
    push_percent(alarms, Kind::ManyHits, percent, who, found, base)
}

/// Appends the alarms of ratios of a participant.
fn push_ratios(
    alarms: &mut Vec<Alarm>,
    bounds: &Thresholds,
    trades: &[TradeFact],
    deeds: &[Deed],
    who: Who,
) -> Result<(), AllocError>
    ensures { OnOk result (alarms.new.items ≡ alarms.old.items ++ ratio_alarms bounds.now trades.now deeds.now who) }
{
    let orders = orders_times(who, deeds);
    push_orders(alarms, bounds, who, orders, book_trades(who, trades))?;
    push_cancels(alarms, bounds, deeds, who)?;
    push_hits(alarms, bounds, deeds, who)
}

/// How many a request of a participant could be sent to: all others that are not related to it.
fn could_be_asked(
    alloc: Global,
    participants: &Participants,
    who: Who,
    everybody: &[Who],
) -> Result<Vec<Who>, AllocError>
    ensures { IfOk result (λ others. others.items ≡ could_be_asked participants.now who everybody.now) }
{
    let mut others = Vec::new(alloc);
    for other in everybody {
        if who.place() != other.place() && !participants.related(who, *other) {
            others.push(*other)?;
        }
    }
    Ok(others)
}

fn three_alarm(fewest: u64, who: Who, asked: &[Deed], three: (Who, Who, Who)) -> Alarm
    ensures { result ≡ three_alarm fewest who asked.now three.0 three.1 three.2 }
{
    let (a, b, c) = three;
    Alarm {
        kind: Kind::SameThree,
        at: None,
        who,
        others: Others::Three(a, b, c),
        trade: None,
        order: None,
        found: Some(Figure::Number(asked_times(asked, a))),
        base: None,
        bound: Some(Figure::Number(fewest)),
    }
}

fn push_if_often(
    alarms: &mut Vec<Alarm>,
    fewest: u64,
    who: Who,
    asked: &[Deed],
    three: (Who, Who, Who),
) -> Result<(), AllocError>
    ensures { OnOk result (alarms.new.items ≡ alarms.old.items ++ if_often fewest who asked.now three.0 three.1 three.2) }
{
    if fewest <= asked_times(asked, three.0) {
        push_alarm(alarms, three_alarm(fewest, who, asked, three))
    } else {
        Ok(())
    }
}

fn push_three(
    alarms: &mut Vec<Alarm>,
    fewest: u64,
    who: Who,
    asked: &[Deed],
    others: &[Who],
) -> Result<(), AllocError>
    ensures { OnOk result (alarms.new.items ≡ alarms.old.items ++ three_alarms fewest who asked.now others.now) }
{
    match others {
        [a, b, c] => push_if_often(alarms, fewest, who, asked, (*a, *b, *c)),
        _ => Ok(()),
    }
}

/// Appends the alarm of requests that all go to the same three, if there are others.
fn push_same(
    alarms: &mut Vec<Alarm>,
    fewest: u64,
    who: Who,
    asked: &[Deed],
    others: &[Who],
    could: u64,
) -> Result<(), AllocError>
    ensures { OnOk result (alarms.new.items ≡ alarms.old.items ++ same_alarms fewest who asked.now others.now could) }
{
    if could > 3 {
        push_three(alarms, fewest, who, asked, others)
    } else {
        Ok(())
    }
}

/// Appends the alarms of a participant.
fn push_person(
    alloc: Global,
    alarms: &mut Vec<Alarm>,
    bounds: &Thresholds,
    counted: &Counted<'_>,
    who: Who,
) -> Result<(), AllocError>
    ensures { OnOk result (alarms.new.items ≡ alarms.old.items ++ person_alarms bounds.now counted.now.participants.now counted.now.trades.now counted.now.deeds.now counted.now.everybody.now who) }
{
    push_ratios(alarms, bounds, counted.trades, counted.deeds, who)?;
    let asked = asked_by(alloc, who, counted.deeds)?;
    let others = recipients(alloc, counted.everybody, &asked)?;
    let could = could_be_asked(alloc, counted.participants, who, counted.everybody)?;
    push_same(
        alarms,
        bounds.same_three_requests,
        who,
        &asked,
        &others,
        could.len() as u64,
    )
}

/// What is counted of participants.
#[derive(Clone, Copy)]
pub(crate) struct Counted<'a> {
    pub participants: &'a Participants,
    pub trades: &'a [TradeFact],
    pub deeds: &'a [Deed],
    pub everybody: &'a [Who],
}

/// Appends the alarms of participants.
pub(crate) fn push_people(
    alloc: Global,
    alarms: &mut Vec<Alarm>,
    bounds: &Thresholds,
    counted: &Counted<'_>,
) -> Result<(), AllocError>
    ensures { OnOk result (alarms.new.items ≡ alarms.old.items ++ people_alarms bounds.now counted.now.participants.now counted.now.trades.now counted.now.deeds.now counted.now.everybody.now) }
{
    for who in counted.everybody {
        push_person(alloc, alarms, bounds, counted, *who)?;
    }
    Ok(())
}
