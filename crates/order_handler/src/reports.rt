//! Reports of an entering order.
ghost use Rattle.std.specs.Prelude.{◌≡◌, ◌≤◌, ◌<◌, ◌+◌, ◌-◌, ◌^◌, ℕ, ◌++◌, not, IfOk, length, take};
ghost use Rattle.venue_rules.specs.Book.{is_day};
ghost use Rattle.venue_rules.specs.Answer.{numbered};
ghost use Rattle.venue_rules.specs.declared.replies.ReplyBody.TheVariants as what;
ghost use Rattle.venue_request.specs.Counting.{AreCounts};
ghost use Rattle.order_handler.specs.Reports.{entry_report, filled_reply, reports_of, rest_reports, replaced_reports, resting_report, total, walked};

use fix_dictionary::{Amount, Identifier};
use price_book::FilledOrder;
use std::alloc::AllocError;
use venue_request::{Request, Turn};
use venue_rules::{ChangedReport, Entry, FilledReport, OrderReport, Reply, ReplyBody, TimeInForce};

/// A report on an entering order.
pub(crate) fn entry_report(
    symbol: &Identifier,
    entry: &Entry,
    left: Amount,
    filled: Amount,
    report: u64,
) -> OrderReport
    ensures { result ≡ entry_report symbol.now entry.now left filled report }
{
    OrderReport {
        report,
        order: Some(entry.number),
        symbol: *symbol,
        side: entry.order.side,
        left,
        filled,
        id: entry.order.id,
    }
}

/// A report on a filled resting order.
fn resting_report(symbol: &Identifier, fill: &FilledOrder, report: u64) -> OrderReport
    ensures { result ≡ resting_report symbol.now fill.now report }
{
    OrderReport {
        report,
        order: Some(fill.number),
        symbol: *symbol,
        side: fill.side,
        left: fill.left,
        filled: fill.filled,
        id: fill.id,
    }
}

fn filled_what(order: OrderReport, fill: &FilledOrder, trade: u64) -> ReplyBody
    ensures { result ≡ what.OrderFilled (record { order = order; price = fill.now.price; quantity = fill.now.quantity; trade = trade }) }
{
    ReplyBody::OrderFilled(FilledReport {
        order,
        price: fill.price,
        quantity: fill.quantity,
        trade,
    })
}

/// The two reports of a fill: the entering order's, with this filled quantity, then the resting order's.
fn fill_replies(
    symbol: &Identifier,
    entry: &Entry,
    fill: &FilledOrder,
    so_far: u64,
    trade: u64,
    report: u64,
) -> (Reply, Reply)
    requires within { so_far ≤ entry.now.order.quantity }
    requires whole { entry.now.filled_before + entry.now.order.quantity ≤ 10 ^ 15 }
    requires number { report < 2 ^ 63 }
    ensures entering { result.0 ≡ filled_reply entry.now.order.who (entry_report symbol.now entry.now (entry.now.order.quantity - so_far) (entry.now.filled_before + so_far) report) fill.now trade }
    ensures resting { result.1 ≡ filled_reply fill.now.who (resting_report symbol.now fill.now (report + 1)) fill.now trade }
{
    let left = Amount::new(entry.order.quantity.get() - so_far);
    let filled = Amount::new(entry.filled_before.get() + so_far);
    let entering = entry_report(symbol, entry, left, filled, report);
    let resting = resting_report(symbol, fill, report + 1);
    let first = Reply {
        to: entry.order.who,
        what: filled_what(entering, fill, trade),
    };
    let second = Reply {
        to: fill.who,
        what: filled_what(resting, fill, trade),
    };
    (first, second)
}

/// Whether the unfilled rest is cancelled.
fn may_not_rest(life: TimeInForce) -> bool
    ensures { result ≡ not (is_day life) }
{
    !matches!(life, TimeInForce::Day)
}

/// Adds the reports of fills and of a cancelled rest, numbered on from `report`; the first trade is `trade`.
pub(crate) fn add_fills(
    replies: &mut Vec<Reply>,
    symbol: &Identifier,
    entry: &Entry,
    fills: &[FilledOrder],
    trade: u64,
    report: u64,
) -> Result<(), AllocError>
    requires numbers { (report < 2 ^ 62) × (trade ≤ 2 ^ 63) }
    requires few { length fills.now ≤ 200 }
    requires within { (k : ℕ) → total (take k fills.now) ≤ entry.now.order.quantity }
    requires whole { entry.now.filled_before + entry.now.order.quantity ≤ 10 ^ 15 }
    ensures added { IfOk result (λ _. replies.new.items ≡ replies.old.items ++ numbered report (walked symbol.now entry.now 0 trade fills.now ++ rest_reports symbol.now entry.now (total fills.now))) }
    ensures few { IfOk result (λ _. length replies.new.items ≤ length replies.old.items + 401) }
{
    let mut report = report;
    let mut trade = trade;
    let mut so_far = 0u64;
    for fill in fills {
        so_far += fill.quantity.get();
        let (first, second) = fill_replies(symbol, entry, fill, so_far, trade, report + 1);
        replies.push(first)?;
        replies.push(second)?;
        report += 2;
        trade += 1;
    }
    if may_not_rest(entry.order.life) && so_far < entry.order.quantity.get() {
        let filled = Amount::new(entry.filled_before.get() + so_far);
        let rest = entry_report(symbol, entry, Amount::new(0), filled, report + 1);
        replies.push(Reply {
            to: entry.order.who,
            what: ReplyBody::OrderUnfilled(rest),
        })?;
    }
    Ok(())
}

/// The reports of an order that enters in a turn.
pub(crate) fn entry_replies(
    turn: &Turn<'_>,
    symbol: &Identifier,
    entry: &Entry,
    fills: &[FilledOrder],
) -> Result<Vec<Reply>, AllocError>
    requires number { AreCounts turn.now.counts }
    requires few { length fills.now ≤ 200 }
    requires within { (k : ℕ) → total (take k fills.now) ≤ entry.now.order.quantity }
    requires first { entry.now.filled_before ≡ 0 }
    ensures replies { IfOk result (λ v. v.items ≡ numbered turn.now.counts.reports (reports_of symbol.now entry.now (turn.now.counts.trades + 1) fills.now)) }
    ensures few { IfOk result (λ v. length v.items ≤ 402) }
{
    let (alloc, report) = (turn.alloc, turn.counts.reports + 1);
    let left = Amount::new(entry.order.quantity.get());
    let new = entry_report(symbol, entry, left, Amount::new(0), report);
    let mut replies = vec![in alloc;
        Reply {
            to: entry.order.who,
            what: ReplyBody::OrderEntered(new),
        },
    ]?;
    add_fills(
        &mut replies,
        symbol,
        entry,
        fills,
        turn.counts.trades + 1,
        report,
    )?;
    Ok(replies)
}

/// The reports of a replacing order, the first one to the participant that asked for it.
pub(crate) fn replaced_replies(
    request: &Request<'_>,
    original_id: &Identifier,
    symbol: &Identifier,
    entry: &Entry,
    fills: &[FilledOrder],
) -> Result<Vec<Reply>, AllocError>
    requires number { AreCounts request.now.turn.counts }
    requires few { length fills.now ≤ 200 }
    requires within { (k : ℕ) → total (take k fills.now) ≤ entry.now.order.quantity }
    requires whole { entry.now.filled_before + entry.now.order.quantity ≤ 10 ^ 15 }
    ensures replies { IfOk result (λ v. v.items ≡ numbered request.now.turn.counts.reports (replaced_reports request.now.taken.now.from original_id.now symbol.now entry.now (request.now.turn.counts.trades + 1) fills.now)) }
    ensures few { IfOk result (λ v. length v.items ≤ 402) }
{
    let (alloc, counts) = (request.turn.alloc, request.turn.counts);
    let (trade, report) = (counts.trades + 1, counts.reports + 1);
    let left = Amount::new(entry.order.quantity.get());
    let order = entry_report(symbol, entry, left, entry.filled_before, report);
    let what = ReplyBody::OrderReplaced(ChangedReport {
        order,
        original_id: *original_id,
    });
    let to = request.taken.from;
    let mut replies = vec![in alloc; Reply { to, what }]?;
    add_fills(&mut replies, symbol, entry, fills, trade, report)?;
    Ok(replies)
}
