//! The market of a trail.

ghost use Rattle.std.specs.Prelude.{◌⊎◌, IfOk, IfErr};
ghost use Rattle.audit_trail.specs.Readings.{RefusesInstruments, RefusesParticipants};
ghost use Rattle.sef_replay.specs.Day.{AreKept, ReadsInstruments, ReadsParticipants};
ghost use Rattle.sef_replay.specs.Stops.{RefusesDelays, RefusesMarket, StopsReading};

use crate::failure::Stop;
use audit_trail::Files;
use instruments::{DelayFault, FileFault as InstrumentsFault, Instruments};
use participants::{FileFault as ParticipantsFault, Participants};
use std::alloc::Global;

/// The participants of the stored text.
fn participants_kept(alloc: Global, text: &[u8]) -> Result<Participants, Stop>
    ensures read { IfOk result (λ file. ReadsParticipants text.now file) }
    ensures stopped { IfErr result (StopsReading (RefusesParticipants text.now)) }
{
    match Participants::read(alloc, text) {
        Ok(participants) => Ok(participants),
        Err(ParticipantsFault::NoMemory) => Err(Stop::Memory),
        Err(_) => Err(Stop::Trail),
    }
}

/// The instruments of the stored text, each with the stored delay instead of the text's: the delay by which the day
/// ran.
fn instruments_kept(alloc: Global, text: &[u8], delays: &[u64]) -> Result<Instruments, Stop>
    ensures read { IfOk result (λ rows. ReadsInstruments text.now delays.now rows) }
    ensures stopped { IfErr result (StopsReading (RefusesInstruments text.now ⊎ RefusesDelays text.now delays.now)) }
{
    match Instruments::read(alloc, text) {
        Ok(emitted) => match emitted.with_delays(alloc, delays) {
            Ok(instruments) => Ok(instruments),
            Err(DelayFault::NoMemory) => Err(Stop::Memory),
            Err(_) => Err(Stop::Trail),
        },
        Err(InstrumentsFault::NoMemory) => Err(Stop::Memory),
        Err(_) => Err(Stop::Trail),
    }
}

/// Participants and instruments as a trail stores them. Where the trail was opened, its readers accepted the texts and
/// the delays, so that one refused here was not read back as it was.
#[tactic(auto, using(crate::proofs::Stops::instruments_stop))]
pub fn market_kept(
    alloc: Global,
    files: &Files,
    delays: &[u64],
) -> Result<(Participants, Instruments), Stop>
    ensures kept { IfOk result (λ m. AreKept files.now delays.now m.0 m.1) }
    ensures stopped { IfErr result (StopsReading (RefusesMarket files.now delays.now)) }
{
    let participants = participants_kept(alloc, files.participants.as_slice())?;
    let instruments = instruments_kept(alloc, files.instruments.as_slice(), delays)?;
    Ok((participants, instruments))
}
