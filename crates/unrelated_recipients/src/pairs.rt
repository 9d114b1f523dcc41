//! The related pairs of a list of participants.

ghost use Rattle.std.specs.Prelude.{◌≡◌, ◌++◌, IfOk, OnOk};
ghost use Rattle.unrelated_recipients.specs.Pairs.{pairs_of_one, related_pairs};

use participants::{Participants, Who};
use std::alloc::{AllocError, Global};

/// Appends the pairs of one with those of the others that are related to it.
fn append_pairs(
    pairs: &mut Vec<(Who, Who)>,
    participants: &Participants,
    one: Who,
    others: &[Who],
) -> Result<(), AllocError>
    ensures { OnOk result (pairs.new.items ≡ pairs.old.items ++ pairs_of_one participants.now one others.now) }
{
    for other in others {
        if participants.related(one, *other) {
            pairs.push((one, *other))?;
        }
    }
    Ok(())
}

/// Which of these participants are related, in pairs, in their order.
pub fn related_pairs(
    alloc: Global,
    participants: &Participants,
    named: &[Who],
) -> Result<Vec<(Who, Who)>, AllocError>
    ensures { IfOk result (λ pairs. pairs.items ≡ related_pairs participants.now named.now) }
{
    let mut pairs = Vec::new(alloc);
    for (place, who) in named.iter().enumerate() {
        append_pairs(&mut pairs, participants, *who, &named[place + 1..])?;
    }
    Ok(pairs)
}
