//! The rows of a trail with and without those of a participant, from the bytes of the trail.

ghost use Rattle.std.specs.Prelude.{◌≡◌, ◌≤◌, ◌⊎◌, ℕ, All, List, Some, length, true, IfErr, IfOk, OnOk};
ghost use Rattle.std.specs.Io.KnownBytes.{Keeps};
ghost use Rattle.participants.specs.Relations.{find_participant};
ghost use Rattle.trail_comparison.specs.Comparison.{market_of};
ghost use Rattle.trail_comparison.specs.Under.{market_of_rules};
ghost use Rattle.trail_comparison.specs.declared.fault.ComparisonFault.TheVariants.{Memory};
ghost use Rattle.venue_core.specs.Plan.{most_items};
ghost use Rattle.venue_core.specs.Replay.{IsItem};
ghost use Rattle.sef_replay.specs.Compared.{read_side};
ghost use Rattle.sef_replay.specs.Day.{AreKept};
ghost use Rattle.sef_replay.specs.Without.{BeginsSideWithout, EmitsSideWithout, EmitsWithoutRows, FailsSideWithout, FailsWithoutRows};

use crate::comparing::day_of;
use crate::copied::Copied;
use crate::failure::Failure;
use crate::reading::ReadDay;
use crate::runs::{rules_again, rules_and_rows, write_head};
use participants::Who;
use std::alloc::Global;
use std::io::Write;
use trail_comparison::{BothRules, ComparisonFault, Rules, print_without};

/// Why the answers to the rows of a trail are not said to be the same without those of a participant.
#[derive(Drop)]
pub enum WithoutFailure {
    /// The trail is refused, or reading it stopped.
    OfTrail(Failure),
    /// No participant of the trail has the name.
    Nobody,
    /// They were compared, and differ.
    Differ,
    /// An allocation failed.
    Memory,
    /// A write failed.
    Output,
}

/// Writes the head of a day, and behind it how the answers to its rows differ without those of a participant. The rules
/// of the day were read again for B. Returns whether all of these are the same.
#[tactic(auto, using(crate::proofs::WithoutRows::side_emitted, crate::proofs::WithoutRows::side_begun))]
fn print_both<W: Write>(
    alloc: Global,
    day: ReadDay,
    again: Rules,
    who: Who,
    writer: &mut W,
) -> Result<bool, ComparisonFault>
    requires items { All IsItem day.day.rows.items }
    requires few { length day.day.rows.items ≤ most_items }
    requires same { market_of_rules again ≡ market_of (read_side day) }
    ensures emitted { (name : List ℕ) → find_participant day.day.participants name ≡ Some who → IfOk result (λ same. EmitsSideWithout same (read_side day) name (W.contents writer.old) (W.contents writer.new)) }
    ensures begun { (name : List ℕ) → find_participant day.day.participants name ≡ Some who → IfErr result (λ fault. fault ≡ Memory → Keeps (W.contents writer.old) (W.contents writer.new) ⊎ BeginsSideWithout (read_side day) name (W.contents writer.old) (W.contents writer.new)) }
{
    write_head(alloc, &day, writer)?;
    let (own, rows) = rules_and_rows(day);
    let rules = BothRules { a: own, b: again };
    let printed = print_without(alloc, rules, who, rows.as_slice(), writer);
    drop(rows);
    printed
}

/// Writes how the answers to the rows of a day differ without those of the participant with this name.
fn print_day_without<W: Write>(
    alloc: Global,
    day: ReadDay,
    name: &[u8],
    writer: &mut W,
) -> Result<(), WithoutFailure>
    requires kept { AreKept day.files day.delays.items day.day.participants day.day.instruments }
    requires items { All IsItem day.day.rows.items }
    requires few { length day.day.rows.items ≤ most_items }
    ensures emitted { OnOk result (EmitsSideWithout true (read_side day) name.now (W.contents writer.old) (W.contents writer.new)) }
    ensures failed { IfErr result (FailsSideWithout (read_side day) name.now (W.contents writer.old) (W.contents writer.new)) }
{
    let Some(who) = day.day.participants.find(name) else {
        drop(day);
        return Err(WithoutFailure::Nobody);
    };
    match rules_again(alloc, &day) {
        Ok(again) => match print_both(alloc, day, again, who, writer) {
            Ok(true) => Ok(()),
            Ok(false) => Err(WithoutFailure::Differ),
            Err(ComparisonFault::Memory) => Err(WithoutFailure::Memory),
            Err(ComparisonFault::Output) => Err(WithoutFailure::Output),
        },
        // The files of a day were read before: memory alone is missing.
        Err(_) => {
            drop(day);
            Err(WithoutFailure::Memory)
        }
    }
}

/// Prints how the answers to the rows of the trail that these bytes hold differ where those that the participant with
/// this name sent are left out. The trail is read and replayed in memory: no file is opened or written, and there is no
/// premise on a disk. Ok only where all answers are the same.
#[tactic(auto, using(crate::proofs::UnderFile::day_is_kept, crate::proofs::WithoutRows::failed_without))]
pub fn print_without_rows<W: Write>(
    alloc: Global,
    copied: Copied,
    seed: u64,
    name: &[u8],
    writer: &mut W,
) -> Result<(), WithoutFailure>
    ensures emitted { OnOk result (EmitsWithoutRows copied name.now (W.contents writer.old) (W.contents writer.new)) }
    ensures failed { IfErr result (FailsWithoutRows copied name.now (W.contents writer.old) (W.contents writer.new)) }
{
    let day = match day_of(alloc, copied, seed) {
        Ok(day) => day,
        Err(failure) => return Err(WithoutFailure::OfTrail(failure)),
    };
    match print_day_without(alloc, day, name, writer) {
        Ok(()) => Ok(()),
        Err(failure) => Err(failure),
    }
}
