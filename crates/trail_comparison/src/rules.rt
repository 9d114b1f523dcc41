//! The participants and the instruments by which rows are answered, and others in their place.

ghost use Rattle.std.specs.Prelude.{◌≡◌, ◌≢◌, ℕ, List, max, Ok, IfErr, IfOk, MatchOption, length};
ghost use Rattle.instruments.specs.Listing.{symbol_of};
ghost use Rattle.instruments.specs.Reading as of_instruments;
ghost use Rattle.participants.specs.Reading as of_participants;
ghost use Rattle.participants.specs.Relations.{name_of};
ghost use Rattle.trail_comparison.specs.Rules as specs;
ghost use Rattle.trail_comparison.specs.Under.{market_of_rules};
ghost use Rattle.trail_comparison.specs.declared.rules.RulesFault.TheVariants as rules_fault;

use instruments::{FileFault as InstrumentsFault, Instruments};
use participants::{FileFault as ParticipantsFault, Participants, Who};
use std::alloc::Global;
use thiserror::Error;

/// The participants and the instruments by which rows are answered.
#[derive(Drop)]
pub struct Rules {
    pub participants: Participants,
    pub instruments: Instruments,
}

/// The rules by which rows are answered twice.
#[derive(Drop)]
pub struct BothRules {
    pub a: Rules,
    pub b: Rules,
}

/// What of a file stands in the place of a trail's own.
#[derive(Clone, Copy, Debug, PartialEq, Eq)]
pub enum Parts {
    Participants,
    /// The instruments, with their delays.
    Instruments,
    Both,
}

/// The rules by which the rows of a trail are answered again, and what of them is of a file.
#[derive(Drop)]
pub struct OtherRules {
    pub parts: Parts,
    pub rules: Rules,
}

/// Why the rows of a trail cannot be answered by a file.
#[derive(Clone, Copy, Debug, PartialEq, Eq, Error)]
pub enum RulesFault {
    /// An allocation failed.
    #[error("memory")]
    Memory,
    /// It is no participant file and no instrument file: its first fault as each of them.
    #[error("no participant file and no instrument file")]
    NoFile(ParticipantsFault, InstrumentsFault),
    /// It is an instrument file, and has participants too, which have a fault.
    #[error("the participants: {0}")]
    BadParticipants(ParticipantsFault),
    /// It is a participant file, and has instruments too, which have a fault.
    #[error("the instruments: {0}")]
    BadInstruments(InstrumentsFault),
    /// The venue has another name.
    #[error("the venue has another name")]
    Venue,
    /// The first participant, by its place from 0, that has another name or that one of both files lacks.
    #[error("a participant differs")]
    Participant(usize),
    /// The first instrument, by its place from 0, that has another symbol or that one of both files lacks.
    #[error("an instrument differs")]
    Instrument(usize),
}

/// A participant's name; empty past the last.
fn name_at(participants: &Participants, place: usize) -> &[u8]
    ensures { result.now ≡ name_of participants.now place }
{
    if place < participants.len() {
        participants.name(Who::of(place as u32))
    } else {
        b""
    }
}

/// An instrument's symbol; empty past the last.
fn symbol_at(instruments: &Instruments, place: usize) -> &[u8]
    ensures { result.now ≡ symbol_of instruments.now place }
{
    if place < instruments.len() {
        instruments.get(place as u32).symbol.as_slice()
    } else {
        b""
    }
}

/// The first place at which the names differ.
#[tactic(auto, using(crate::proofs::Places::one_more))]
fn other_name(own: &Participants, other: &Participants) -> Option<usize>
    ensures { MatchOption result (specs.SameNames own.now other.now) (λ k. specs.IsFirstOther (name_of own.now) (name_of other.now) k) }
{
    for place in 0..own.len().max(other.len()) {
        if name_at(own, place) != name_at(other, place) {
            return Some(place);
        }
    }
    None
}

/// The first place at which the symbols differ.
#[tactic(auto, using(crate::proofs::Places::one_more))]
fn other_symbol(own: &Instruments, other: &Instruments) -> Option<usize>
    ensures { MatchOption result (specs.SameSymbols own.now other.now) (λ k. specs.IsFirstOther (symbol_of own.now) (symbol_of other.now) k) }
{
    for place in 0..own.len().max(other.len()) {
        if symbol_at(own, place) != symbol_at(other, place) {
            return Some(place);
        }
    }
    None
}

/// Reads a participant file; its fault is none of ours, but for a failed allocation.
fn read_participants(
    alloc: Global,
    text: &[u8],
) -> Result<Result<Participants, ParticipantsFault>, RulesFault>
    ensures read { IfOk result (λ r. IfOk r (λ file. of_participants.Reads text.now (Ok file))) }
    ensures fault { IfOk result (λ r. IfErr r (of_participants.IsFaultOf text.now)) }
    ensures memory { IfErr result (λ fault. fault ≡ rules_fault.Memory) }
{
    match Participants::read(alloc, text) {
        Ok(file) => Ok(Ok(file)),
        Err(ParticipantsFault::NoMemory) => Err(RulesFault::Memory),
        Err(fault) => Ok(Err(fault)),
    }
}

/// Reads an instrument file, the same.
fn read_instruments(
    alloc: Global,
    text: &[u8],
) -> Result<Result<Instruments, InstrumentsFault>, RulesFault>
    ensures read { IfOk result (λ r. IfOk r (λ file. of_instruments.Reads text.now (Ok file))) }
    ensures fault { IfOk result (λ r. IfErr r (of_instruments.IsFaultOf text.now)) }
    ensures memory { IfErr result (λ fault. fault ≡ rules_fault.Memory) }
{
    match Instruments::read(alloc, text) {
        Ok(file) => Ok(Ok(file)),
        Err(InstrumentsFault::NoMemory) => Err(RulesFault::Memory),
        Err(fault) => Ok(Err(fault)),
    }
}

/// Whether these are the participants of the trail; they may be related otherwise.
fn check_participants(own: &Participants, other: &Participants) -> Result<(), RulesFault>
    ensures venue { IfOk result (λ _. own.now.venue ≡ other.now.venue) }
    ensures names { IfOk result (λ _. specs.SameNames own.now other.now) }
    ensures refused { IfErr result (λ fault. specs.IsOtherParticipants own.now other.now fault) }
{
    if own.venue() != other.venue() {
        return Err(RulesFault::Venue);
    }
    match other_name(own, other) {
        Some(place) => Err(RulesFault::Participant(place)),
        None => Ok(()),
    }
}

/// Whether these are the instruments of the trail; their figures may be others.
fn check_instruments(own: &Instruments, other: &Instruments) -> Result<(), RulesFault>
    ensures symbols { IfOk result (λ _. specs.SameSymbols own.now other.now) }
    ensures refused { IfErr result (λ fault. specs.IsOtherInstruments own.now other.now fault) }
{
    match other_symbol(own, other) {
        Some(place) => Err(RulesFault::Instrument(place)),
        None => Ok(()),
    }
}

/// The rules with the participants of a file, and its instruments where it has these too.
fn with_participants(
    participants: Participants,
    instruments: Result<Instruments, InstrumentsFault>,
    own: Rules,
) -> Result<OtherRules, RulesFault>
    ensures other { (text : List ℕ) → of_participants.Reads text (Ok participants) → IfOk instruments (λ file. of_instruments.Reads text (Ok file)) → IfErr instruments (of_instruments.IsFaultOf text)
        → IfOk result (λ other. specs.AreOther other.parts text (market_of_rules own) (market_of_rules other.rules)) }
    ensures refused { (text : List ℕ) → of_participants.Reads text (Ok participants) → IfOk instruments (λ file. of_instruments.Reads text (Ok file)) → IfErr instruments (of_instruments.IsFaultOf text)
        → IfErr result (λ fault. specs.IsRefused text (market_of_rules own) fault) }
{
    check_participants(&own.participants, &participants)?;
    match instruments {
        Ok(instruments) => {
            check_instruments(&own.instruments, &instruments)?;
            Ok(OtherRules {
                parts: Parts::Both,
                rules: Rules {
                    participants,
                    instruments,
                },
            })
        }
        Err(InstrumentsFault::Missing) => Ok(OtherRules {
            parts: Parts::Participants,
            rules: Rules {
                participants,
                instruments: own.instruments,
            },
        }),
        Err(fault) => Err(RulesFault::BadInstruments(fault)),
    }
}

/// The rules with the instruments of a file that is no participant file, for this fault.
fn with_instruments(
    fault: ParticipantsFault,
    instruments: Instruments,
    own: Rules,
) -> Result<OtherRules, RulesFault>
    ensures other { (text : List ℕ) → of_participants.IsFaultOf text fault → of_instruments.Reads text (Ok instruments)
        → IfOk result (λ other. specs.AreOther other.parts text (market_of_rules own) (market_of_rules other.rules)) }
    ensures refused { (text : List ℕ) → of_participants.IsFaultOf text fault → of_instruments.Reads text (Ok instruments)
        → IfErr result (λ fault. specs.IsRefused text (market_of_rules own) fault) }
{
    match fault {
        ParticipantsFault::Missing => {
            check_instruments(&own.instruments, &instruments)?;
            Ok(OtherRules {
                parts: Parts::Instruments,
                rules: Rules {
                    participants: own.participants,
                    instruments,
                },
            })
        }
        _ => Err(RulesFault::BadParticipants(fault)),
    }
}

/// The rules of a file that is no participant file, for this fault.
fn without_participants(
    fault: ParticipantsFault,
    instruments: Result<Instruments, InstrumentsFault>,
    own: Rules,
) -> Result<OtherRules, RulesFault>
    ensures other { (text : List ℕ) → of_participants.IsFaultOf text fault → IfOk instruments (λ file. of_instruments.Reads text (Ok file))
        → IfOk result (λ other. specs.AreOther other.parts text (market_of_rules own) (market_of_rules other.rules)) }
    ensures refused { (text : List ℕ) → of_participants.IsFaultOf text fault → IfOk instruments (λ file. of_instruments.Reads text (Ok file)) → IfErr instruments (of_instruments.IsFaultOf text)
        → IfErr result (λ fault. specs.IsRefused text (market_of_rules own) fault) }
{
    match instruments {
        Ok(instruments) => with_instruments(fault, instruments, own),
        Err(other) => {
            drop(own);
            Err(RulesFault::NoFile(fault, other))
        }
    }
}

/// The rules of a file in the place of the trail's own: of a participant file the participants, with the pairs that it
/// has as related; of an instrument file the instruments, with its figures; of a file that is both, both. A part
/// that lacks a key stays the trail's own; another fault is refused. The names of the venue and of the participants,
/// and the symbols of the instruments, have to be those of the trail, in its order.
pub fn other_rules(alloc: Global, text: &[u8], own: Rules) -> Result<OtherRules, RulesFault>
    ensures other { IfOk result (λ other. specs.AreOther other.parts text.now (market_of_rules own) (market_of_rules other.rules)) }
    ensures refused { IfErr result (λ fault. specs.IsRefused text.now (market_of_rules own) fault) }
{
    let participants = read_participants(alloc, text)?;
    let instruments = read_instruments(alloc, text)?;
    match participants {
        Ok(participants) => with_participants(participants, instruments, own),
        Err(fault) => without_participants(fault, instruments, own),
    }
}
