//! The prices shown with a quote.

ghost use Rattle.std.specs.Prelude.{◌≡◌, ◌++◌, ◌∷◌, [], map, OnOk};
ghost use Rattle.std.specs.List.{flat_map};
ghost use Rattle.day_events.specs.ShownPrices.{is_of_quote, is_quote, shown_at, shown_by, shown_entry, shown_in};

use fix_dictionary::{Amount, App, Price, Side};
use participants::Who;
use std::alloc::AllocError;
use venue_rules::{Reply, ReplyBody, SnapshotEntry, Taken, TrailRow};

/// A resting order, as shown to the requester with the quote at this row.
#[derive(Clone, Copy)]
pub struct ShownPrice {
    pub row: u64,
    pub to: Who,
    pub side: Side,
    pub price: Price,
    pub left: Amount,
    pub order: u64,
}

fn push_entry(
    shown: &mut Vec<ShownPrice>,
    row: u64,
    to: Who,
    entry: &SnapshotEntry,
) -> Result<(), AllocError>
    ensures { OnOk result (shown.new.items ≡ shown.old.items ++ shown_entry row to entry.now ∷ []) }
{
    let price = ShownPrice {
        row,
        to,
        side: entry.side,
        price: entry.price,
        left: entry.left,
        order: entry.order,
    };
    match shown.push(price) {
        Ok(()) => Ok(()),
        Err(_) => Err(AllocError),
    }
}

/// Appends the resting orders of a snapshot.
fn push_entries(
    shown: &mut Vec<ShownPrice>,
    row: u64,
    to: Who,
    entries: &[SnapshotEntry],
) -> Result<(), AllocError>
    ensures { OnOk result (shown.new.items ≡ shown.old.items ++ map (shown_entry row to) entries.now) }
{
    for entry in entries {
        push_entry(shown, row, to, entry)?;
    }
    Ok(())
}

/// Appends what a reply shows.
#[tactic(auto, unfolding(crate::specs::ShownPrices::shown_by))]
fn push_shown_in(shown: &mut Vec<ShownPrice>, row: u64, reply: &Reply) -> Result<(), AllocError>
    ensures { OnOk result (shown.new.items ≡ shown.old.items ++ shown_in row reply.now) }
{
    match &reply.what {
        ReplyBody::BookSnapshot(book) => {
            push_entries(shown, row, reply.to, book.entries.as_slice())
        }
        _ => Ok(()),
    }
}

fn push_all_shown(
    shown: &mut Vec<ShownPrice>,
    row: u64,
    replies: &[Reply],
) -> Result<(), AllocError>
    ensures { OnOk result (shown.new.items ≡ shown.old.items ++ flat_map (shown_in row) replies.now) }
{
    for reply in replies {
        push_shown_in(shown, row, reply)?;
    }
    Ok(())
}

#[tactic(auto, unfolding(crate::specs::ShownPrices::is_quote))]
fn is_quote(app: &App) -> bool
    ensures { result ≡ is_quote app.now }
{
    match app {
        App::Quote(_) => true,
        _ => false,
    }
}

/// Whether the message of a row is a quote.
fn is_of_quote(taken: &Option<Taken>) -> bool
    ensures { result ≡ is_of_quote taken.now }
{
    match taken {
        None => false,
        Some(taken) => is_quote(taken.item.app.get()),
    }
}

/// Appends the prices that the replies to a row show, if its message is a quote.
pub fn push_shown_at(
    shown: &mut Vec<ShownPrice>,
    row: &TrailRow,
    taken: &Option<Taken>,
    replies: &[Reply],
) -> Result<(), AllocError>
    ensures { OnOk result (shown.new.items ≡ shown.old.items ++ shown_at row.now taken.now replies.now) }
{
    if is_of_quote(taken) {
        push_all_shown(shown, row.n, replies)
    } else {
        Ok(())
    }
}
