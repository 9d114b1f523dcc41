//! The same rows by the trail's own rules and by others, or without those of a participant.

ghost use Rattle.std.specs.Prelude.{◌≡◌, ◌++◌, ◌≤◌, All, length, IfErr, IfOk, OnOk};
ghost use Rattle.participants.specs.Relations.{name_of};
ghost use Rattle.venue_rules.specs.Facts.{History, no_history};
ghost use Rattle.venue_rules.specs.Readings.{trade_facts};
ghost use Rattle.venue_core.specs.Plan.{most_items};
ghost use Rattle.venue_core.specs.Replay.{IsItem};
ghost use Rattle.venue_core.specs.VenueFacts.{IsHistory};
ghost use Rattle.trail_comparison.specs.Differences.{BeginsRows, count_line};
ghost use Rattle.trail_comparison.specs.Trades.{are_same_trades, trades_text};
ghost use Rattle.trail_comparison.specs.Under as specs;
ghost use Rattle.trail_comparison.specs.declared.fault.ComparisonFault.TheVariants.{Memory};

use crate::fault::ComparisonFault;
use crate::left_out::{Rows, count_shared};
use crate::lines::count_line;
use crate::replaying::{emit_rows, write_text};
use crate::rules::{BothRules, OtherRules, Parts, Rules};
use crate::trades::append_trades;
use itoa::Buffer;
use participants::{Participants, Who};
use row_replay::rows_have_their_inputs;
use std::alloc::{AllocError, Global};
use std::io::Write;
use trade_blotter::{append, name_at};
use venue_core::Venue;
use venue_rules::TrailRow;

/// What follows the rows that differ: how many these are, and the trades of one run that the other has not. And whether
/// there is no such trade.
fn last_lines(
    alloc: Global,
    a: &Venue,
    b: &Venue,
    count: usize,
    rows: usize,
) -> Result<(Vec<u8>, bool), AllocError>
    ensures text { (h k : History) → IsHistory a.now h → IsHistory b.now k
        → IfOk result (λ last. last.0.items ≡ count_line count rows ++ trades_text a.now.market b.now.market (trade_facts h.facts) (trade_facts k.facts)) }
    ensures same { (h k : History) → IsHistory a.now h → IsHistory b.now k → IfOk result (λ last. last.1 ≡ are_same_trades (trade_facts h.facts) (trade_facts k.facts)) }
{
    let mut text = count_line(alloc, count, rows)?;
    let same = append_trades(alloc, &mut text, a, b)?;
    Ok((text, same))
}

/// Writes how the answers of two venues, on which nothing has happened, and their trades differ. Returns whether all of
/// these are the same.
#[tactic(auto, using(crate::proofs::BothRuns::are_compared, crate::proofs::SideBySide::begins_all))]
fn print_runs<W: Write>(
    alloc: Global,
    a: &mut Venue,
    b: &mut Venue,
    rows: &Rows<'_>,
    writer: &mut W,
) -> Result<bool, ComparisonFault>
    requires kept { All IsItem rows.now.all.now }
    requires few { length rows.now.all.now ≤ most_items }
    requires fresh { IsHistory a.old no_history }
    requires fresh_too { IsHistory b.old no_history }
    requires first { a.old.items ≡ 0 }
    requires first_too { b.old.items ≡ 0 }
    ensures emitted { IfOk result (λ same. specs.EmitsRuns rows.now.left_out same a.old.market b.old.market rows.now.all.now (W.contents writer.old) (W.contents writer.new)) }
    ensures begun { IfErr result (λ fault. fault ≡ Memory → BeginsRows rows.now.left_out a.old.market b.old.market rows.now.all.now (W.contents writer.old) (W.contents writer.new)) }
{
    rows_have_their_inputs();
    let count = emit_rows(alloc, a, b, rows, writer)?;
    let (text, same) = last_lines(alloc, a, b, count, count_shared(rows))?;
    write_text(&text, writer)?;
    Ok(count == 0 && same)
}

/// Writes these first lines, and how the answers by two rules to the rows differ.
#[tactic(auto, using(crate::proofs::BothRuns::behind_head, crate::proofs::BothRuns::begun_behind))]
fn print_both<W: Write>(
    alloc: Global,
    rules: BothRules,
    first: &[u8],
    rows: &Rows<'_>,
    writer: &mut W,
) -> Result<bool, ComparisonFault>
    requires kept { All IsItem rows.now.all.now }
    requires few { length rows.now.all.now ≤ most_items }
    ensures emitted { IfOk result (λ same. specs.EmitsBehind first.now rows.now.left_out same (specs.market_of_rules rules.a) (specs.market_of_rules rules.b) rows.now.all.now (W.contents writer.old) (W.contents writer.new)) }
    ensures begun { IfErr result (λ fault. fault ≡ Memory → specs.IsBegunBehind first.now rows.now.left_out (specs.market_of_rules rules.a) (specs.market_of_rules rules.b) rows.now.all.now (W.contents writer.old) (W.contents writer.new)) }
{
    let BothRules { a, b } = rules;
    let mut venue = Venue::open(alloc, a.participants, a.instruments)?;
    let mut second = Venue::open(alloc, b.participants, b.instruments)?;
    write_text(first, writer)?;
    let printed = print_runs(alloc, &mut venue, &mut second, rows, writer);
    drop(venue);
    drop(second);
    printed
}

/// What A and B are, in a line each.
fn head(parts: Parts) -> &'static [u8]
    ensures { result.now ≡ specs.head parts }
{
    match parts {
        Parts::Both => {
            b"A: the rows of the trail under its own files and delays\nB: the same rows under the participants, the instruments and the delays of the other file\nB has A's rows of the clock and no others: a held side of a cross enters at one of these after its delay, or never; trades may be lost or gained by that alone\n"
        }
        Parts::Participants => {
            b"A: the rows of the trail under its own files and delays\nB: the same rows under the participants of the other file\nB has A's rows of the clock and no others: a held side of a cross enters at one of these after its delay, or never; trades may be lost or gained by that alone\n"
        }
        Parts::Instruments => {
            b"A: the rows of the trail under its own files and delays\nB: the same rows under the instruments and the delays of the other file\nB has A's rows of the clock and no others: a held side of a cross enters at one of these after its delay, or never; trades may be lost or gained by that alone\n"
        }
    }
}

/// Prints how the answers to the rows of a trail differ where they are answered by other rules (B) than its own (A):
/// each row with other answers, with both; how many these are; the trades of A that B has not, those that B has and A
/// has not, and how many. Returns whether all answers and trades are the same. Where an allocation fails the output is
/// nothing, or a first part.
pub fn print_under<W: Write>(
    alloc: Global,
    own: Rules,
    other: OtherRules,
    rows: &[TrailRow],
    writer: &mut W,
) -> Result<bool, ComparisonFault>
    requires kept { All IsItem rows.now }
    requires few { length rows.now ≤ most_items }
    ensures emitted { IfOk result (λ same. specs.EmitsUnder other.parts same (specs.market_of_rules own) (specs.market_of_rules other.rules) rows.now (W.contents writer.old) (W.contents writer.new)) }
    ensures begun { IfErr result (λ fault. fault ≡ Memory → specs.IsBegun other.parts (specs.market_of_rules own) (specs.market_of_rules other.rules) rows.now (W.contents writer.old) (W.contents writer.new)) }
{
    let OtherRules { parts, rules } = other;
    let both = BothRules { a: own, b: rules };
    let all = Rows {
        all: rows,
        left_out: None,
    };
    print_both(alloc, both, head(parts), &all, writer)
}

/// What A and B are, in a line each.
fn head_without(
    alloc: Global,
    participants: &Participants,
    who: Who,
    count: usize,
) -> Result<Vec<u8>, AllocError>
    ensures { IfOk result (λ text. text.items ≡ specs.head_without (name_of participants.now who) count) }
{
    let mut text = Vec::new(alloc);
    let mut digits = Buffer::new();
    let pieces = [
        b"A: the rows of the trail under its own files and delays\nB: the same rows without the ",
        digits.format(count).as_bytes(),
        b" of ",
        name_at(participants, who),
        b"\nrows left out are not compared, nor what anybody was sent at them; B numbers its own reports, orders, requests, quotes and trades: answers to later rows may differ in these numbers alone\nB has A's rows of the clock and no others: a held side of a cross enters at one of these after its delay, or never; trades may be lost or gained by that alone\n",
    ];
    append(&mut text, &pieces)?;
    Ok(text)
}

/// Prints how the answers to the rows of a trail differ where those that a participant sent are left out (B) from how
/// they are with them (A). A row that is left out has no answer in B, and is not printed; all else is as `print_under`
/// prints it. Both take the rules of the trail. Returns whether all answers to the other rows, and all trades, are the
/// same.
pub fn print_without<W: Write>(
    alloc: Global,
    rules: BothRules,
    who: Who,
    rows: &[TrailRow],
    writer: &mut W,
) -> Result<bool, ComparisonFault>
    requires kept { All IsItem rows.now }
    requires few { length rows.now ≤ most_items }
    ensures emitted { IfOk result (λ same. specs.EmitsWithout who same (specs.market_of_rules rules.a) (specs.market_of_rules rules.b) rows.now (W.contents writer.old) (W.contents writer.new)) }
    ensures begun { IfErr result (λ fault. fault ≡ Memory → specs.IsBegunWithout who (specs.market_of_rules rules.a) (specs.market_of_rules rules.b) rows.now (W.contents writer.old) (W.contents writer.new)) }
{
    let all = Rows {
        all: rows,
        left_out: Some(who),
    };
    let count = rows.len() - count_shared(&all);
    let first = head_without(alloc, &rules.a.participants, who, count)?;
    print_both(alloc, rules, &first, &all, writer)
}
