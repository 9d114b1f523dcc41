//! The rows of a trail under another file, from the bytes of both.

ghost use Rattle.std.specs.Prelude.{◌≡◌, ◌≤◌, ◌⊎◌, ℕ, All, List, length, true, IfErr, IfOk, OnOk};
ghost use Rattle.std.specs.Io.KnownBytes.{Keeps};
ghost use Rattle.trail_comparison.specs.Comparison.{market_of};
ghost use Rattle.trail_comparison.specs.Rules.{AreOther, IsRefused};
ghost use Rattle.trail_comparison.specs.Under.{market_of_rules};
ghost use Rattle.trail_comparison.specs.declared.fault.ComparisonFault.TheVariants.{Memory};
ghost use Rattle.venue_core.specs.Plan.{most_items};
ghost use Rattle.venue_core.specs.Replay.{IsItem};
ghost use Rattle.sef_replay.specs.Compared.{read_side};
ghost use Rattle.sef_replay.specs.Day.{AreKept};
ghost use Rattle.sef_replay.specs.Under.{BeginsSideUnder, EmitsSideUnder, EmitsUnderFile, FailsSideUnder, FailsUnderFile, file_failure};

use crate::comparing::day_of;
use crate::copied::Copied;
use crate::failure::Failure;
use crate::reading::ReadDay;
use crate::runs::{rules_again, rules_and_rows, write_head};
use std::alloc::Global;
use std::io::Write;
use trail_comparison::{ComparisonFault, OtherRules, RulesFault, other_rules, print_under};

/// Why the answers to the rows of a trail are not said to be the same under a file.
#[derive(Drop)]
pub enum UnderFailure {
    /// The trail is refused, or reading it stopped.
    OfTrail(Failure),
    /// The file is refused.
    OfFile(RulesFault),
    /// They were compared, and differ.
    Differ,
    /// An allocation failed.
    Memory,
    /// A write failed.
    Output,
}

/// The rules of a file, for the rows of a day.
fn rules_in(alloc: Global, day: &ReadDay, text: &[u8]) -> Result<OtherRules, RulesFault>
    requires kept { AreKept day.now.files day.now.delays.items day.now.day.participants day.now.day.instruments }
    ensures other { IfOk result (λ other. AreOther other.parts text.now (market_of (read_side day.now)) (market_of_rules other.rules)) }
    ensures refused { IfErr result (λ fault. IsRefused text.now (market_of (read_side day.now)) fault) }
{
    match rules_again(alloc, day) {
        Ok(own) => other_rules(alloc, text, own),
        // The files of a day were read before: memory alone is missing.
        Err(_) => Err(RulesFault::Memory),
    }
}

/// The failure where the rows cannot be answered under a file.
fn file_failure(fault: RulesFault) -> UnderFailure
    ensures { result ≡ file_failure fault }
{
    match fault {
        RulesFault::Memory => UnderFailure::Memory,
        RulesFault::NoFile(participants, instruments) => {
            UnderFailure::OfFile(RulesFault::NoFile(participants, instruments))
        }
        RulesFault::BadParticipants(why) => {
            UnderFailure::OfFile(RulesFault::BadParticipants(why))
        }
        RulesFault::BadInstruments(why) => UnderFailure::OfFile(RulesFault::BadInstruments(why)),
        RulesFault::Venue => UnderFailure::OfFile(RulesFault::Venue),
        RulesFault::Participant(place) => UnderFailure::OfFile(RulesFault::Participant(place)),
        RulesFault::Instrument(place) => UnderFailure::OfFile(RulesFault::Instrument(place)),
    }
}

/// Writes the head of a day, and behind it how the answers to its rows differ under other rules. Returns whether all of
/// these are the same.
#[tactic(auto, using(crate::proofs::UnderFile::side_emitted, crate::proofs::UnderFile::side_begun))]
fn print_both<W: Write>(
    alloc: Global,
    day: ReadDay,
    other: OtherRules,
    writer: &mut W,
) -> Result<bool, ComparisonFault>
    requires items { All IsItem day.day.rows.items }
    requires few { length day.day.rows.items ≤ most_items }
    ensures emitted { (text : List ℕ) → AreOther other.parts text (market_of (read_side day)) (market_of_rules other.rules) → IfOk result (λ same. EmitsSideUnder same (read_side day) text (W.contents writer.old) (W.contents writer.new)) }
    ensures begun { (text : List ℕ) → AreOther other.parts text (market_of (read_side day)) (market_of_rules other.rules) → IfErr result (λ fault. fault ≡ Memory → Keeps (W.contents writer.old) (W.contents writer.new) ⊎ BeginsSideUnder (read_side day) text (W.contents writer.old) (W.contents writer.new)) }
{
    write_head(alloc, &day, writer)?;
    let (own, rows) = rules_and_rows(day);
    let printed = print_under(alloc, own, other, rows.as_slice(), writer);
    drop(rows);
    printed
}

/// Writes how the answers to the rows of a day differ under a file.
fn print_day_under<W: Write>(
    alloc: Global,
    day: ReadDay,
    text: &[u8],
    writer: &mut W,
) -> Result<(), UnderFailure>
    requires kept { AreKept day.files day.delays.items day.day.participants day.day.instruments }
    requires items { All IsItem day.day.rows.items }
    requires few { length day.day.rows.items ≤ most_items }
    ensures emitted { OnOk result (EmitsSideUnder true (read_side day) text.now (W.contents writer.old) (W.contents writer.new)) }
    ensures failed { IfErr result (FailsSideUnder (read_side day) text.now (W.contents writer.old) (W.contents writer.new)) }
{
    match rules_in(alloc, &day, text) {
        Ok(other) => match print_both(alloc, day, other, writer) {
            Ok(true) => Ok(()),
            Ok(false) => Err(UnderFailure::Differ),
            Err(ComparisonFault::Memory) => Err(UnderFailure::Memory),
            Err(ComparisonFault::Output) => Err(UnderFailure::Output),
        },
        Err(fault) => {
            drop(day);
            Err(file_failure(fault))
        }
    }
}

/// Prints how the answers to the rows of the trail that these bytes hold differ where they are answered by the
/// participants or the instruments of a file with this text. The trail is read and replayed in memory: no file is
/// opened or written, and there is no premise on a disk. Ok only where all answers are the same.
#[tactic(auto, using(crate::proofs::UnderFile::day_is_kept, crate::proofs::UnderFile::failed_under))]
pub fn print_under_file<W: Write>(
    alloc: Global,
    copied: Copied,
    seed: u64,
    text: &[u8],
    writer: &mut W,
) -> Result<(), UnderFailure>
    ensures emitted { OnOk result (EmitsUnderFile copied text.now (W.contents writer.old) (W.contents writer.new)) }
    ensures failed { IfErr result (FailsUnderFile copied text.now (W.contents writer.old) (W.contents writer.new)) }
{
    let day = match day_of(alloc, copied, seed) {
        Ok(day) => day,
        Err(failure) => return Err(UnderFailure::OfTrail(failure)),
    };
    match print_day_under(alloc, day, text, writer) {
        Ok(()) => Ok(()),
        Err(failure) => Err(failure),
    }
}
