//! The causes of refusals, most first.

ghost use Rattle.std.specs.Prelude.{◌≡◌, [], IfOk, OnOk};
ghost use Rattle.std.specs.BTreeMap.{insert_entry};
ghost use Rattle.participant_activity.specs.Figures.{rank_cmp, rank_of, ranked};

use crate::key::Cause;
use std::alloc::{AllocError, Global};
use std::collections::BTreeMap;

/// A cause, by how many fewer it has than the greatest number, and then by its text.
#[derive(PartialEq, Eq, PartialOrd, Ord, Drop)]
pub struct Rank {
    pub fewer: u64,
    pub cause: Cause,
}

fn put_rank(
    alloc: Global,
    ranked: &mut BTreeMap<Rank, u64>,
    cause: &Cause,
    count: u64,
) -> Result<(), AllocError>
    ensures { OnOk result (ranked.new.entries ≡ insert_entry rank_cmp ranked.old.entries (rank_of cause.now count) count) }
{
    let rank = Rank {
        fewer: u64::MAX - count,
        cause: Cause {
            text: cause.text.copy(alloc)?,
        },
    };
    ranked.insert(rank, count)?;
    Ok(())
}

/// The causes with how many they have, most first.
pub(crate) fn ranked(
    alloc: Global,
    causes: &BTreeMap<Cause, u64>,
) -> Result<BTreeMap<Rank, u64>, AllocError>
    ensures { IfOk result (λ r. r.entries ≡ ranked causes.now.entries) }
{
    let mut all = BTreeMap::new(alloc);
    for (cause, count) in causes.iter() {
        put_rank(alloc, &mut all, cause, *count)?;
    }
    Ok(all)
}
