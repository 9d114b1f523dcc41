//! A stream of requests to both books.

use crate::book::market::{Market, market_of};
use crate::book::stream::{drawn, id_of, next, price, quantity};
use crate::emitting::emit_line;
use anyhow::{Result, anyhow};
use fix_dictionary::Identifier;
use participants::Who;
use price_book::{FillPlan, PriceBook, ReferenceBook, Refusal};
use sef_moment::Moment;
use std::alloc::Global;
use venue_rules::SnapshotEntry;

/// What the books answered so far.
#[derive(Clone, Copy)]
struct Tally {
    facts: u64,
    fills: u64,
    too_soon: u64,
    full: u64,
    no_memory: u64,
    cancelled: u64,
    replaced: u64,
    unlike: u64,
}

fn is_alike(a: &FillPlan, b: &FillPlan) -> bool {
    if a.facts().len() != b.facts().len() || a.fills().len() != b.fills().len() {
        return false;
    }
    for (x, y) in a.fills().iter().zip(b.fills()) {
        if x.number != y.number
            || x.quantity.get() != y.quantity.get()
            || x.left.get() != y.left.get()
            || x.filled.get() != y.filled.get()
            || x.price.get() != y.price.get()
            || !x.id.is(&y.id)
        {
            return false;
        }
    }
    match (a.entered(), b.entered()) {
        (Some(x), Some(y)) => x.number == y.number,
        (None, None) => true,
        _ => false,
    }
}

fn is_same_snapshot(a: &[SnapshotEntry], b: &[SnapshotEntry]) -> bool {
    if a.len() != b.len() {
        return false;
    }
    for (x, y) in a.iter().zip(b) {
        if x.order != y.order || x.left.get() != y.left.get() || x.price.get() != y.price.get() {
            return false;
        }
    }
    true
}

fn count_plan(tally: &mut Tally, plan: &FillPlan, scanned: &FillPlan) {
    tally.facts = tally.facts.saturating_add(plan.facts().len() as u64);
    tally.fills = tally.fills.saturating_add(plan.fills().len() as u64);
    if !is_alike(plan, scanned) {
        tally.unlike = tally.unlike.saturating_add(1);
    }
}

fn count_refusals(tally: &mut Tally, one: Refusal, other: Refusal) {
    if one != other {
        tally.unlike = tally.unlike.saturating_add(1);
    }
    match one {
        Refusal::TooSoon(_) => tally.too_soon = tally.too_soon.saturating_add(1),
        Refusal::Full => tally.full = tally.full.saturating_add(1),
        Refusal::NoMemory => tally.no_memory = tally.no_memory.saturating_add(1),
    }
}

/// Both books.
#[derive(Drop)]
struct Books {
    book: PriceBook,
    scanned: ReferenceBook,
}

fn enter(market: &Market, books: &mut Books, tally: &mut Tally, n: u64, state: u64) {
    let order = drawn(n, state);
    let first = books.book.plan_entry(market.files(), &order, market.moment);
    let second = books
        .scanned
        .plan_entry(market.files(), &order, market.moment);
    match (first, second) {
        (Ok(first), Ok(second)) => {
            count_plan(tally, &first, &second);
            books.book.apply(first);
            books.scanned.apply(second);
        }
        (Err(first), Err(second)) => count_refusals(tally, first, second),
        _ => tally.unlike = tally.unlike.saturating_add(1),
    }
}

fn cancel(books: &mut Books, tally: &mut Tally, who: Who, old: &Identifier, id: &Identifier) {
    let Some(order) = books.book.order(who, old) else {
        if books.scanned.order(who, old).is_some() {
            tally.unlike = tally.unlike.saturating_add(1);
        }
        return;
    };
    let number = order.entry.number;
    if books.scanned.order(who, old).is_none() {
        tally.unlike = tally.unlike.saturating_add(1);
        return;
    }
    let first = books.book.plan_cancel(who, number, id);
    let second = books.scanned.plan_cancel(who, old, id);
    match (first, second) {
        (Ok(first), Ok(second)) => {
            count_plan(tally, &first, &second);
            tally.cancelled = tally.cancelled.saturating_add(1);
            books.book.apply(first);
            books.scanned.apply(second);
        }
        _ => tally.unlike = tally.unlike.saturating_add(1),
    }
}

fn replace(
    market: &Market,
    books: &mut Books,
    tally: &mut Tally,
    who: Who,
    old: &Identifier,
    n: u64,
    state: u64,
) {
    let units = quantity(state >> 40);
    let terms = price(state >> 36 & 15);
    let id = id_of(n);
    let Some(one) = books.book.order(who, old) else {
        return;
    };
    if units.get() <= one.filled().get() {
        return;
    }
    let number = one.entry.number;
    let Some(other) = books.scanned.order(who, old) else {
        tally.unlike = tally.unlike.saturating_add(1);
        return;
    };
    if units.get() <= other.filled().get() {
        tally.unlike = tally.unlike.saturating_add(1);
        return;
    }
    let first = books.book.plan_replace(
        market.files(),
        who,
        number,
        &id,
        units,
        terms,
        market.moment,
    );
    let second = books
        .scanned
        .plan_replace(market.files(), who, old, &id, units, terms, market.moment);
    match (first, second) {
        (Ok(first), Ok(second)) => {
            count_plan(tally, &first, &second);
            tally.replaced = tally.replaced.saturating_add(1);
            books.book.apply(first);
            books.scanned.apply(second);
        }
        (Err(first), Err(second)) => count_refusals(tally, first, second),
        _ => tally.unlike = tally.unlike.saturating_add(1),
    }
}

fn compare(books: &Books, tally: &mut Tally, n: u64, state: u64) -> Result<()> {
    let order = drawn(n, state);
    if books.book.used(order.who, &order.id) != books.scanned.used(order.who, &order.id) {
        tally.unlike = tally.unlike.saturating_add(1);
    }
    let one = books.book.picture(order.instrument)?;
    let other = books.scanned.picture(order.instrument)?;
    if !is_same_snapshot(&one, &other) {
        tally.unlike = tally.unlike.saturating_add(1);
    }
    Ok(())
}

// The n-th request, as the state of the generator has it: a cancel or a replacement of an order some way back, or an
// entry.
fn request(
    market: &mut Market,
    books: &mut Books,
    tally: &mut Tally,
    n: u64,
    state: u64,
) -> Result<()> {
    let Some(moment) = Moment::of_ms(n.saturating_mul(2_000)) else {
        return Err(anyhow!("the day is over"));
    };
    market.moment = moment;
    let back = n.saturating_sub(1 + (state >> 50) % 40);
    let who = Who::of((back % 5) as u32);
    match (state >> 55) % 8 {
        0 => cancel(books, tally, who, &id_of(back), &id_of(n)),
        1 => replace(market, books, tally, who, &id_of(back), n, state),
        _ => enter(market, books, tally, n, state),
    }
    Ok(())
}

fn run_all(market: &mut Market, books: &mut Books, requests: u64) -> Result<Tally> {
    let mut tally = Tally {
        facts: 0,
        fills: 0,
        too_soon: 0,
        full: 0,
        no_memory: 0,
        cancelled: 0,
        replaced: 0,
        unlike: 0,
    };
    let mut state: u64 = 7;
    for n in 0..requests {
        state = next(state);
        request(market, books, &mut tally, n, state)?;
        if n % 100 == 99 {
            compare(books, &mut tally, n, state)?;
        }
    }
    Ok(tally)
}

fn outcome(alloc: Global, requests: u64) -> Result<Tally> {
    let mut market = market_of(alloc)?;
    let mut books = Books {
        book: PriceBook::new(alloc),
        scanned: ReferenceBook::new(alloc),
    };
    let tally = run_all(&mut market, &mut books, requests);
    drop(books);
    drop(market);
    tally
}

/// Sends this many requests to both books, and prints how their answers compare.
pub(crate) fn scenario(alloc: Global, requests: u64, emitted: &mut Vec<u8>) -> Result<()> {
    let tally = outcome(alloc, requests)?;
    let text = format!(in alloc;
        "requests {requests}\n  facts {} fills {}\n  cancelled {} replaced {}\n  too soon {} full {}\n  refused without cause {}\n  answered otherwise {}",
        tally.facts,
        tally.fills,
        tally.cancelled,
        tally.replaced,
        tally.too_soon,
        tally.full,
        tally.no_memory,
        tally.unlike
    )?;
    Ok(emit_line(text.as_str(), emitted)?)
}
