//! The market of the two files.

ghost use Rattle.std.specs.Prelude.{◌≡◌, IfOk, IfErr, map};
ghost use Rattle.venue_main.specs.Check.{AreRead, IsFaultOfFiles};

use instruments::Instruments;
use participants::Participants;
use std::alloc::{AllocError, Global};

/// The participants and the instruments.
#[derive(Drop)]
pub struct Market {
    pub participants: Participants,
    pub instruments: Instruments,
}

/// The first fault of the two files.
#[derive(Clone, Copy, Debug, PartialEq, Eq)]
pub enum FilesFault {
    /// The participant file is refused.
    Participants(participants::FileFault),
    /// The instrument file is refused, where the participant file is not.
    Instruments(instruments::FileFault),
}

impl Market {
    /// Reads the texts of both files, that of the participants first.
    pub fn read(
        alloc: Global,
        participants_text: &[u8],
        instruments_text: &[u8],
    ) -> Result<Market, FilesFault>
        ensures read { IfOk result (λ m. AreRead participants_text.now instruments_text.now m.participants m.instruments) }
        ensures fault { IfErr result (IsFaultOfFiles participants_text.now instruments_text.now) }
    {
        let participants = match Participants::read(alloc, participants_text) {
            Ok(participants) => participants,
            Err(fault) => return Err(FilesFault::Participants(fault)),
        };
        let instruments = match Instruments::read(alloc, instruments_text) {
            Ok(instruments) => instruments,
            Err(fault) => {
                drop(participants);
                return Err(FilesFault::Instruments(fault));
            }
        };
        Ok(Market {
            participants,
            instruments,
        })
    }
}

/// The delays of the instruments, in milliseconds, in the file's order.
pub(crate) fn delays_of(alloc: Global, instruments: &Instruments) -> Result<Vec<u64>, AllocError>
    ensures { IfOk result (λ delays. delays.items ≡ map (λ i. i.delay) instruments.now) }
{
    let mut delays = Vec::with_capacity(alloc, instruments.len())?;
    for place in 0..instruments.len() {
        delays.push(instruments.delay(place as u32))?;
    }
    Ok(delays)
}
