//! The flags of trades: which are of linked orders, as `surveillance` lists them.

ghost use Rattle.std.specs.Prelude.{◌≡◌, ◌+◌, IfOk, replicate, set};
ghost use Rattle.day_sections.specs.declared.flags.Flag.TheVariants.{Unlinked};
ghost use Rattle.day_sections.specs.Flags.{flag_at, flag_in, flags};

use std::alloc::{AllocError, Global};
use surveillance::LinkedTrade;

/// Whether the orders of a trade are linked.
#[derive(Clone, Copy)]
pub enum Flag {
    Unlinked,
    Linked,
    /// the second is the held side of a cross
    Held,
}

fn flag_in(line: &LinkedTrade) -> Flag
    ensures { result ≡ flag_in line.now }
{
    if line.is_held {
        Flag::Held
    } else {
        Flag::Linked
    }
}

/// Sets the flag of the trade of a line.
fn flag_trade(flags: &mut Vec<Flag>, line: &LinkedTrade)
    ensures { flags.new.items ≡ set flags.old.items line.now.trade (flag_in line.now) }
{
    let at = line.trade as usize;
    if at < flags.len() {
        flags[at] = flag_in(line);
    }
}

/// None of the trades up to this number flagged.
fn unflagged(alloc: Global, most: usize) -> Result<Vec<Flag>, AllocError>
    ensures { IfOk result (λ made. made.items ≡ replicate (most + 1) Unlinked) }
{
    let mut flags = vec![in alloc; Flag::Unlinked; most]?;
    flags.push(Flag::Unlinked)?;
    Ok(flags)
}

/// The flags of the trades up to this number, each at its number, by the trades of linked orders.
pub fn flags_of(alloc: Global, linked: &[LinkedTrade], most: usize) -> Result<Vec<Flag>, AllocError>
    ensures { IfOk result (λ made. made.items ≡ flags linked.now most) }
{
    let mut flags = unflagged(alloc, most)?;
    for line in linked {
        flag_trade(&mut flags, line);
    }
    Ok(flags)
}

/// The flag of a trade.
pub(crate) fn flag_at(flags: &[Flag], trade: u64) -> Flag
    ensures { result ≡ flag_at flags.now trade }
{
    flags.get(trade as usize).copied().unwrap_or(Flag::Unlinked)
}
