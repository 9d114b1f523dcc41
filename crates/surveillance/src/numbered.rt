//! What is kept by number, as orders and trades are numbered: from 1 on, one after another.

ghost use Rattle.std.specs.Prelude.{◌≡◌, ℕ, ◌≤◌, get_or, length, None, OnOk};
ghost use Rattle.surveillance.specs.Numbers.{held, no_number, with_number};

use std::alloc::{AllocError, Global};
use std::collections::BTreeMap;

/// What is kept by number: of those in the list's room there, and of any other in a map.
#[derive(Drop)]
pub(crate) struct Numbered<X> {
    pub near: Vec<Option<X>>,
    pub far: BTreeMap<u64, X>,
}

/// Nothing kept.
pub(crate) fn no_number<X: Copy>(alloc: Global) -> Numbered<X>
    ensures { held result ≡ no_number }
{
    Numbered {
        near: Vec::new(alloc),
        far: BTreeMap::new(alloc),
    }
}

/// What has this number.
pub(crate) fn found_at<X: Copy>(kept: &Numbered<X>, number: u64) -> Option<X>
    ensures { result ≡ held kept.now number }
{
    match kept.near.get(number as usize) {
        Some(found) => *found,
        None => kept.far.get(&number).copied(),
    }
}

/// Makes room for a number in the list.
fn pad<X: Copy>(near: &mut Vec<Option<X>>, number: u64) -> Result<(), AllocError>
    requires { length near.old.items ≤ number }
    ensures room { OnOk result (length near.new.items ≡ number) }
    ensures same { OnOk result ((q : ℕ) → get_or near.new.items q None ≡ get_or near.old.items q None) }
{
    for _ in near.len() as u64..number {
        near.push(None)?;
    }
    Ok(())
}

/// A number that many past the end of the list goes into the map, and so do all later ones past its end.
const MOST_ROOM: u64 = 1_000;

/// Keeps what has this number.
pub(crate) fn put<X: Copy>(kept: &mut Numbered<X>, number: u64, found: X) -> Result<(), AllocError>
    ensures { OnOk result (held kept.new ≡ with_number (held kept.old) number found) }
{
    let room = kept.near.len() as u64;
    if number < room {
        kept.near[number as usize] = Some(found);
        return Ok(());
    }
    if number - room < MOST_ROOM && kept.far.is_empty() {
        pad(&mut kept.near, number)?;
        kept.near.push(Some(found))?;
        return Ok(());
    }
    kept.far.insert(number, found)?;
    Ok(())
}
