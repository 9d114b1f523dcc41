//! What rests after the rows of a day.

ghost use Rattle.std.specs.Prelude.{◌≡◌, ◌++◌, ◌∷◌, [], IfOk, OnOk, length, map};
ghost use Rattle.venue_core.specs.VenueFacts.{IsHistory};
ghost use Rattle.venue_rules.specs.Facts.{History};
ghost use Rattle.instrument_charts.specs.Rests.{rest_of, rests};

use crate::ladder::Rest;
use fix_dictionary::{Amount, Price, Side};
use std::alloc::{AllocError, Global};
use venue_core::Venue;
use venue_rules::SnapshotEntry;

fn rest_of(instrument: u32, entry: &SnapshotEntry) -> Rest
    ensures { result ≡ rest_of instrument entry.now }
{
    Rest {
        instrument,
        side: entry.side,
        price: entry.price,
        left: entry.left,
        order: entry.order,
    }
}

fn push_rest(rests: &mut Vec<Rest>, rest: Rest) -> Result<(), AllocError>
    ensures { OnOk result (rests.new.items ≡ rests.old.items ++ rest ∷ []) }
{
    // Types of its content, named here because the proof of the push needs each.
    let _side: Option<Side> = None;
    let _price: Option<Price> = None;
    let _amount: Option<Amount> = None;
    match rests.push(rest) {
        Ok(()) => Ok(()),
        Err(_) => Err(AllocError),
    }
}

/// Adds the resting orders of an instrument.
fn push_book(
    rests: &mut Vec<Rest>,
    instrument: u32,
    entries: &[SnapshotEntry],
) -> Result<(), AllocError>
    ensures { OnOk result (rests.new.items ≡ rests.old.items ++ map (rest_of instrument) entries.now) }
{
    for entry in entries {
        push_rest(rests, rest_of(instrument, entry))?;
    }
    Ok(())
}

/// The resting orders of a venue, instrument by instrument: bids, then offers, each in price-time priority.
pub fn rests_of(alloc: Global, venue: &Venue) -> Result<Vec<Rest>, AllocError>
    ensures { (h : History) → IsHistory venue.now h → IfOk result (λ made. made.items ≡ rests h.facts (length venue.now.market.instruments)) }
{
    let mut rests = Vec::new(alloc);
    for instrument in 0..venue.instruments().len() {
        let book = venue.picture(instrument as u32)?;
        push_book(&mut rests, instrument as u32, &book)?;
    }
    Ok(rests)
}
