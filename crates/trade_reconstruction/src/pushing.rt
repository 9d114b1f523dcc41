//! One more event or fate of a quote.

ghost use Rattle.std.specs.Prelude.{◌≡◌, ◌++◌, ◌∷◌, [], OnOk};

use crate::evidence_event::{
    Asked, Entered, EventKind, EvidenceEvent, Filled, Held, Hit, Linked, Quoted, RestedBefore,
    RestedCount, Shown, SnapshotSent,
};
use crate::quote_note::{Ended, Fate, QuoteFate};
use fix_dictionary::{Amount, Identifier, Price, Quantity, Side};
use participants::Who;
use sef_moment::Moment;
use std::alloc::AllocError;

/// Appends an event.
pub(crate) fn push_word(
    words: &mut Vec<EvidenceEvent>,
    word: EvidenceEvent,
) -> Result<(), AllocError>
    ensures { OnOk result (words.new.items ≡ words.old.items ++ word ∷ []) }
{
    // Types of an event's content, named here because the proof of the push needs each.
    let _asked: Option<Asked> = None;
    let _pictured: Option<SnapshotSent> = None;
    let _shown: Option<Shown> = None;
    let _quoted: Option<Quoted> = None;
    let _hit: Option<Hit> = None;
    let _entered: Option<Entered> = None;
    let _linked: Option<Linked> = None;
    let _held: Option<Held> = None;
    let _filled: Option<Filled> = None;
    let _stood: Option<RestedBefore> = None;
    let _counted: Option<RestedCount> = None;
    let _said: Option<EventKind> = None;
    let _name: Option<Identifier> = None;
    let _price: Option<Price> = None;
    let _side: Option<Side> = None;
    let _quantity: Option<Quantity> = None;
    let _amount: Option<Amount> = None;
    let _moment: Option<Moment> = None;
    let _who: Option<Who> = None;
    match words.push(word) {
        Ok(()) => Ok(()),
        Err(_) => Err(AllocError),
    }
}

/// Appends what had become of a quote.
pub(crate) fn push_quote_fate(fates: &mut Vec<QuoteFate>, fate: QuoteFate) -> Result<(), AllocError>
    ensures { OnOk result (fates.new.items ≡ fates.old.items ++ fate ∷ []) }
{
    // Types of a note's content, named here because the proof of the push needs each.
    let _end: Option<Ended> = None;
    let _kind: Option<Fate> = None;
    let _name: Option<Identifier> = None;
    let _side: Option<Side> = None;
    let _who: Option<Who> = None;
    match fates.push(fate) {
        Ok(()) => Ok(()),
        Err(_) => Err(AllocError),
    }
}
