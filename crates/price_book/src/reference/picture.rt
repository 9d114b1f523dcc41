//! Snapshots of the reference book.
ghost use Rattle.std.specs.Prelude.{◌≡◌, map, true, IfOk};
ghost use Rattle.venue_rules.specs.Book.{picture, shown};
ghost use Rattle.price_book.specs.Kept.{are_whole};
ghost use Rattle.price_book.specs.Views.{seen, ranked_of};

use crate::picture::shown;
use crate::reading::resting;
use fix_dictionary::Side;
use std::alloc::{AllocError, Global};
use venue_rules::{Fact, SnapshotEntry};

fn shown_side(
    alloc: Global,
    facts: &[Fact],
    instrument: u32,
    side: Side,
) -> Result<Vec<SnapshotEntry>, AllocError>
    requires { are_whole facts.now ≡ true }
    ensures { IfOk result (λ v. v.items ≡ map shown (ranked_of facts.now instrument side facts.now)) }
{
    let orders = resting(alloc, facts, instrument, side)?;
    let mut entries = Vec::new(alloc);
    for order in &orders {
        entries.push(shown(*order))?;
    }
    Ok(entries)
}

/// The resting orders of an instrument: bids, then offers, each best first.
pub(crate) fn picture(
    alloc: Global,
    facts: &[Fact],
    instrument: u32,
) -> Result<Vec<SnapshotEntry>, AllocError>
    requires { are_whole facts.now ≡ true }
    ensures { IfOk result (λ v. v.items ≡ picture facts.now instrument) }
{
    let mut entries = shown_side(alloc, facts, instrument, Side::Buy)?;
    let mut offers = shown_side(alloc, facts, instrument, Side::Sell)?;
    entries.append(&mut offers)?;
    Ok(entries)
}
