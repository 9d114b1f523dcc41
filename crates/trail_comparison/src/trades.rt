//! The trades of two runs of the same rows.

ghost use Rattle.std.specs.Prelude.{◌≡◌, ◌++◌, ◌<◌, ◌≤◌, ◌&&◌, ◌||◌, IfOk, OnOk, length, take, ◌+◌};
ghost use Rattle.std.specs.List.{count_by, flat_map, list_any};
ghost use Rattle.venue_rules.specs.Facts.{History};
ghost use Rattle.venue_rules.specs.Readings.{trade_facts};
ghost use Rattle.venue_core.specs.VenueFacts.{IsHistory};
ghost use Rattle.trail_comparison.specs.Trades as specs;

use itoa::Buffer;
use std::alloc::{AllocError, Global};
use trade_blotter::{append, append_deal, append_number};
use venue_core::Venue;
use venue_rules::TradeFact;

fn is_like(trade: &TradeFact, other: &TradeFact) -> bool
    ensures { result ≡ specs.is_like trade.now other.now }
{
    trade.instrument == other.instrument
        && trade.quantity.get() == other.quantity.get()
        && trade.price.get() == other.price.get()
        && trade.buyer.place() == other.buyer.place()
        && trade.seller.place() == other.seller.place()
}

fn count_like(trade: &TradeFact, trades: &[TradeFact]) -> usize
    ensures count { result ≡ count_by (specs.is_like trade.now) trades.now }
    ensures bound { result ≤ length trades.now }
{
    let mut count = 0;
    for other in trades {
        if is_like(trade, other) {
            count += 1;
        }
    }
    count
}

/// Whether the other run has fewer trades like this one than there are up to it.
fn is_alone(all: &[TradeFact], others: &[TradeFact], at: usize, trade: &TradeFact) -> bool
    requires { at < length all.now }
    ensures { result ≡ specs.is_alone all.now others.now at trade.now }
{
    count_like(trade, others) < count_like(trade, &all[..at + 1])
}

fn append_line(
    alloc: Global,
    text: &mut Vec<u8>,
    label: &[u8],
    venue: &Venue,
    trade: &TradeFact,
) -> Result<(), AllocError>
    ensures { OnOk result (text.new.items ≡ text.old.items ++ specs.trade_line label.now venue.now.market trade.now) }
{
    append_number(text, label, trade.number)?;
    append(text, &[b" "])?;
    append_deal(
        alloc,
        text,
        venue.participants(),
        venue.instruments(),
        trade,
    )?;
    append(text, &[b"\n"])
}

/// The trades of a run, those of the other, and what is printed before each that the other has not.
#[derive(Clone, Copy)]
struct Compared<'a> {
    label: &'a [u8],
    venue: &'a Venue,
    all: &'a [TradeFact],
    others: &'a [TradeFact],
}

/// Appends a trade, if the other run has it not. Returns how many were appended.
fn append_if_alone(
    alloc: Global,
    text: &mut Vec<u8>,
    compared: &Compared,
    at: usize,
    trade: &TradeFact,
) -> Result<usize, AllocError>
    requires { at < length compared.now.all.now }
    ensures text { OnOk result (text.new.items ≡ text.old.items ++ specs.trade_lines compared.now.label.now compared.now.venue.now.market (specs.alone_at compared.now.all.now compared.now.others.now at trade.now)) }
    ensures count { IfOk result (λ count. count ≡ length (specs.alone_at compared.now.all.now compared.now.others.now at trade.now)) }
    ensures bound { IfOk result (λ count. count ≤ 1) }
{
    if !is_alone(compared.all, compared.others, at, trade) {
        return Ok(0);
    }
    append_line(alloc, text, compared.label, compared.venue, trade)?;
    Ok(1)
}

/// Appends the trades that the other run has not. Returns how many these are.
#[tactic(auto, using(crate::proofs::Alone::one_more_text, crate::proofs::Alone::one_more_count))]
fn append_alone(alloc: Global, text: &mut Vec<u8>, compared: &Compared) -> Result<usize, AllocError>
    ensures text { OnOk result (text.new.items ≡ text.old.items ++ specs.trade_lines compared.now.label.now compared.now.venue.now.market (specs.alone compared.now.all.now compared.now.others.now)) }
    ensures count { IfOk result (λ count. count ≡ length (specs.alone compared.now.all.now compared.now.others.now)) }
{
    let mut count = 0;
    let mut at = 0;
    for trade in compared.all {
        count += append_if_alone(alloc, text, compared, at, trade)?;
        at += 1;
    }
    Ok(count)
}

fn is_in_room(trade: &TradeFact) -> bool
    ensures { result ≡ specs.is_in_room trade.now }
{
    trade.room.is_some()
}

/// Whether one was found before, or this trade is one in a room that the other run has not.
fn is_found(compared: &Compared, at: usize, trade: &TradeFact, found: bool) -> bool
    requires { at < length compared.now.all.now }
    ensures { result ≡ (found || (specs.is_in_room trade.now && specs.is_alone compared.now.all.now compared.now.others.now at trade.now)) }
{
    found || (is_in_room(trade) && is_alone(compared.all, compared.others, at, trade))
}

/// Whether a trade that the other run has not is one in a room.
fn has_room(compared: &Compared) -> bool
    ensures { result ≡ list_any specs.is_in_room (specs.alone compared.now.all.now compared.now.others.now) }
{
    let mut found = false;
    let mut at = 0;
    for trade in compared.all {
        let next = is_found(compared, at, trade, found);
        found = next;
        at += 1;
    }
    found
}

fn have_room(a: &Compared, b: &Compared) -> bool
    ensures { result ≡ (list_any specs.is_in_room (specs.alone a.now.all.now a.now.others.now) || list_any specs.is_in_room (specs.alone b.now.all.now b.now.others.now)) }
{
    has_room(a) || has_room(b)
}

/// Appends that numbers of rooms and quotes alone may lose or gain trades, where some in rooms are.
fn append_numbers(text: &mut Vec<u8>, in_room: bool) -> Result<(), AllocError>
    ensures { OnOk result (text.new.items ≡ text.old.items ++ specs.numbers_line in_room) }
{
    if in_room {
        return text.extend_from_slice(
            b"quotes and hits name the numbers that A gave to requests and quotes; where B gives others, trades in rooms may be lost or gained by that alone\n",
        );
    }
    Ok(())
}

fn append_counts(
    text: &mut Vec<u8>,
    one: usize,
    other: usize,
    lost: usize,
    gained: usize,
) -> Result<(), AllocError>
    ensures { OnOk result (text.new.items ≡ text.old.items ++ specs.counts_line one other lost gained) }
{
    let mut first = Buffer::new();
    let mut second = Buffer::new();
    let mut third = Buffer::new();
    let mut fourth = Buffer::new();
    append(
        text,
        &[
            b"trades: ",
            first.format(one).as_bytes(),
            b" in A, ",
            second.format(other).as_bytes(),
            b" in B: ",
            third.format(lost).as_bytes(),
            b" lost, ",
            fourth.format(gained).as_bytes(),
            b" gained\n",
        ],
    )
}

/// Appends the trades of these lists that the other has not, and how many. Returns whether there is none.
fn append_lists(
    alloc: Global,
    text: &mut Vec<u8>,
    a: &Compared,
    b: &Compared,
) -> Result<bool, AllocError>
    requires same { b.now.others.now ≡ a.now.all.now }
    requires same_too { b.now.all.now ≡ a.now.others.now }
    requires lost { a.now.label.now ≡ specs.lost }
    requires gained { b.now.label.now ≡ specs.gained }
    ensures text { OnOk result (text.new.items ≡ text.old.items ++ specs.trades_text a.now.venue.now.market b.now.venue.now.market a.now.all.now a.now.others.now) }
    ensures alike { IfOk result (λ alike. alike ≡ specs.are_same_trades a.now.all.now a.now.others.now) }
{
    let lost = append_alone(alloc, text, a)?;
    let gained = append_alone(alloc, text, b)?;
    append_counts(text, a.all.len(), b.all.len(), lost, gained)?;
    append_numbers(text, have_room(a, b))?;
    Ok(lost == 0 && gained == 0)
}

/// Appends the trades of one venue that the other has not, and how many. Returns whether there is none.
pub(crate) fn append_trades(
    alloc: Global,
    text: &mut Vec<u8>,
    a: &Venue,
    b: &Venue,
) -> Result<bool, AllocError>
    ensures text { (h k : History) → IsHistory a.now h → IsHistory b.now k → OnOk result (text.new.items ≡ text.old.items ++ specs.trades_text a.now.market b.now.market (trade_facts h.facts) (trade_facts k.facts)) }
    ensures same { (h k : History) → IsHistory a.now h → IsHistory b.now k → IfOk result (λ same. same ≡ specs.are_same_trades (trade_facts h.facts) (trade_facts k.facts)) }
{
    let trades = a.trades();
    let others = b.trades();
    let one = Compared {
        label: b"lost: T",
        venue: a,
        all: trades,
        others,
    };
    let other = Compared {
        label: b"gained: T",
        venue: b,
        all: others,
        others: trades,
    };
    append_lists(alloc, text, &one, &other)
}
