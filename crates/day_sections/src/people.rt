//! The section of the participants.

ghost use Rattle.std.specs.Prelude.{◌≡◌, ◌%◌, OnOk, IfOk, length};
ghost use Rattle.page_text.specs.Parts.{with_part, with_parts};
ghost use Rattle.day_tables.specs.Parts.{each_from};
ghost use Rattle.day_sections.specs.Numbers.{AreNumbers};
ghost use Rattle.day_sections.specs.People.{bought_by, cancel_ratio, cut, hit_ratio, order_ratio, people_parts, percent, person_parts, quoted_part, ratio, sent_part, sold_by, tenths, traded_part};
ghost use Rattle.day_sections.specs.Rooms.{rooms};

use crate::counts::count_sent;
use crate::numbers::{Numbers, numbers_of, repeats};
use crate::rooms::{count_made, rooms_of};
use crate::template::{PEOPLE, PEOPLE_END, PERSON, PERSON_QUOTES, PERSON_TRADES};
use day_events::Event;
use day_tables::{grouped_text, name_at, number_text, wide_text};
use page_text::Page;
use participants::{Participants, Who};
use std::alloc::{AllocError, Global};
use surveillance::{Act, Deed, book_trades, orders_times, times};
use venue_rules::{TradeFact, TrailRow};

/// How many trades a participant bought in.
fn bought_by(trades: &[TradeFact], place: u32) -> usize
    ensures { result ≡ bought_by place trades.now }
{
    trades
        .iter()
        .filter(|trade| trade.buyer.place() == place)
        .count()
}

/// And sold in.
fn sold_by(trades: &[TradeFact], place: u32) -> usize
    ensures { result ≡ sold_by place trades.now }
{
    trades
        .iter()
        .filter(|trade| trade.seller.place() == place)
        .count()
}

/// The rows and trades of a day, what its answers say, and the requests among that.
#[derive(Clone, Copy)]
struct Kept<'a> {
    pub rows: &'a [TrailRow],
    pub trades: &'a [TradeFact],
    pub events: &'a [Event],
    pub rooms: &'a [Event],
    /// what each participant did
    pub deeds: &'a [Deed],
    /// whom the events are of
    pub numbers: &'a Numbers,
}

/// The last digit of a number.
fn last_digit(number: u128) -> u64
    ensures { result ≡ number % 10 }
{
    (number % 10) as u64
}

/// A number of tenths, with one decimal.
fn tenths(alloc: Global, number: u128) -> Result<Vec<u8>, AllocError>
    ensures { IfOk result (λ text. text.items ≡ tenths number) }
{
    let digit = number_text(alloc, last_digit(number))?;
    let mut text = wide_text(alloc, number / 10)?;
    text.extend_from_slice(b".")?;
    text.extend_from_slice(&digit)?;
    Ok(text)
}

/// A number of tenths for each of these, cut; empty where there is none.
fn cut(alloc: Global, number: u128, base: u64) -> Result<Vec<u8>, AllocError>
    ensures { IfOk result (λ text. text.items ≡ cut number base) }
{
    if base == 0 {
        Ok(Vec::new(alloc))
    } else {
        tenths(alloc, number / u128::from(base))
    }
}

/// How many of these there are for each of those.
fn ratio(alloc: Global, found: u64, base: u64) -> Result<Vec<u8>, AllocError>
    ensures { IfOk result (λ text. text.items ≡ ratio found base) }
{
    cut(alloc, u128::from(found) * 10, base)
}

/// And in a hundred of those.
fn percent(alloc: Global, found: u64, base: u64) -> Result<Vec<u8>, AllocError>
    ensures { IfOk result (λ text. text.items ≡ percent found base) }
{
    cut(alloc, u128::from(found) * 1_000, base)
}

/// Of the orders of a participant, those that it cancelled.
fn cancel_ratio(alloc: Global, deeds: &[Deed], who: Who) -> Result<Vec<u8>, AllocError>
    ensures { IfOk result (λ text. text.items ≡ cancel_ratio deeds.now who) }
{
    let cancelled = times(Act::Cancelled, who, deeds);
    percent(alloc, cancelled, times(Act::Entered, who, deeds))
}

/// Its orders and replacements, for each of its trades in the book.
fn order_ratio(
    alloc: Global,
    trades: &[TradeFact],
    deeds: &[Deed],
    who: Who,
) -> Result<Vec<u8>, AllocError>
    ensures { IfOk result (λ text. text.items ≡ order_ratio trades.now deeds.now who) }
{
    ratio(alloc, orders_times(who, deeds), book_trades(who, trades))
}

/// Of the rooms that it quoted in, those where it was hit.
fn hit_ratio(alloc: Global, deeds: &[Deed], who: Who) -> Result<Vec<u8>, AllocError>
    ensures { IfOk result (λ text. text.items ≡ hit_ratio deeds.now who) }
{
    let hit = times(Act::Hit, who, deeds);
    percent(alloc, hit, times(Act::Quoted, who, deeds))
}

/// Adds what a participant sent, was refused and entered.
fn add_sent(
    alloc: Global,
    page: &mut Page,
    participants: &Participants,
    kept: &Kept<'_>,
    place: u32,
) -> Result<(), AllocError>
    requires numbers { AreNumbers kept.now.events.now kept.now.numbers.now }
    ensures { OnOk result (page.new ≡ with_part page.old (sent_part participants.now kept.now.rows.now kept.now.events.now place)) }
{
    let name = name_at(participants, Who::of(place));
    let number = number_text(alloc, u64::from(place) + 1)?;
    let sent = grouped_text(alloc, count_sent(kept.rows, Some(place)) as u64)?;
    let refused = grouped_text(alloc, repeats(&kept.numbers.refused, place))?;
    let entered = grouped_text(alloc, repeats(&kept.numbers.entered, place))?;
    let replaced = grouped_text(alloc, repeats(&kept.numbers.replaced, place))?;
    let cancelled = grouped_text(alloc, repeats(&kept.numbers.cancelled, place))?;
    page.add(
        PERSON,
        &[
            &number, name, &sent, &refused, &entered, &replaced, &cancelled,
        ],
    )
}

/// Adds what it traded, and the requests that it made.
fn add_traded(alloc: Global, page: &mut Page, kept: &Kept<'_>, place: u32) -> Result<(), AllocError>
    ensures { OnOk result (page.new ≡ with_part page.old (traded_part kept.now.trades.now kept.now.rooms.now kept.now.deeds.now place)) }
{
    let who = Who::of(place);
    let cancels = cancel_ratio(alloc, kept.deeds, who)?;
    let orders = order_ratio(alloc, kept.trades, kept.deeds, who)?;
    let bought = grouped_text(alloc, bought_by(kept.trades, place) as u64)?;
    let sold = grouped_text(alloc, sold_by(kept.trades, place) as u64)?;
    let made = grouped_text(alloc, count_made(kept.rooms, place) as u64)?;
    page.add(PERSON_TRADES, &[&cancels, &orders, &bought, &sold, &made])
}

/// Adds the requests that it was asked, and its quotes.
fn add_quoted(alloc: Global, page: &mut Page, kept: &Kept<'_>, place: u32) -> Result<(), AllocError>
    requires numbers { AreNumbers kept.now.events.now kept.now.numbers.now }
    ensures { OnOk result (page.new ≡ with_part page.old (quoted_part kept.now.events.now kept.now.deeds.now place)) }
{
    let who = Who::of(place);
    let asked = grouped_text(alloc, repeats(&kept.numbers.asked, place))?;
    let rooms = grouped_text(alloc, times(Act::Quoted, who, kept.deeds))?;
    let quotes = grouped_text(alloc, repeats(&kept.numbers.quotes, place))?;
    let hits = grouped_text(alloc, repeats(&kept.numbers.hits, place))?;
    let ratio = hit_ratio(alloc, kept.deeds, who)?;
    page.add(PERSON_QUOTES, &[&asked, &rooms, &quotes, &hits, &ratio])
}

/// Adds the row of a participant.
fn add_person(
    alloc: Global,
    page: &mut Page,
    participants: &Participants,
    kept: &Kept<'_>,
    place: u32,
) -> Result<(), AllocError>
    requires numbers { AreNumbers kept.now.events.now kept.now.numbers.now }
    ensures { OnOk result (page.new ≡ with_parts page.old (person_parts participants.now kept.now.rows.now kept.now.trades.now kept.now.events.now kept.now.rooms.now kept.now.deeds.now place)) }
{
    add_sent(alloc, page, participants, kept, place)?;
    add_traded(alloc, page, kept, place)?;
    add_quoted(alloc, page, kept, place)
}

/// Adds the rows of the participants, in their file's order.
fn add_each(
    alloc: Global,
    page: &mut Page,
    participants: &Participants,
    kept: &Kept<'_>,
) -> Result<(), AllocError>
    requires numbers { AreNumbers kept.now.events.now kept.now.numbers.now }
    ensures { OnOk result (page.new ≡ with_parts page.old (each_from (person_parts participants.now kept.now.rows.now kept.now.trades.now kept.now.events.now kept.now.rooms.now kept.now.deeds.now) 0 (length participants.now.names))) }
{
    for place in 0..participants.len() {
        add_person(alloc, page, participants, kept, place as u32)?;
    }
    Ok(())
}

/// The rows, trades and events of a day, and what each participant did, as surveillance counts it.
#[derive(Clone, Copy)]
pub struct Counted<'a> {
    pub rows: &'a [TrailRow],
    pub trades: &'a [TradeFact],
    pub events: &'a [Event],
    pub deeds: &'a [Deed],
}

/// Adds the section of the participants.
pub fn add_people(
    alloc: Global,
    page: &mut Page,
    participants: &Participants,
    counted: &Counted<'_>,
) -> Result<(), AllocError>
    ensures { OnOk result (page.new ≡ with_parts page.old (people_parts participants.now counted.now.rows.now counted.now.trades.now counted.now.events.now counted.now.deeds.now)) }
{
    let rooms = rooms_of(alloc, counted.events)?;
    let numbers = numbers_of(alloc, counted.events)?;
    let kept = Kept {
        rows: counted.rows,
        trades: counted.trades,
        events: counted.events,
        rooms: &rooms,
        deeds: counted.deeds,
        numbers: &numbers,
    };
    let people = grouped_text(alloc, participants.len() as u64)?;
    page.add(PEOPLE, &[&people])?;
    add_each(alloc, page, participants, &kept)?;
    page.add(PEOPLE_END, &[])
}
