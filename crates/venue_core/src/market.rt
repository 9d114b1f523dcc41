//! Participants and instruments of a venue.
use instruments::Instruments;
use participants::Participants;

pub(crate) struct Market {
    pub participants: Participants,
    pub instruments: Instruments,
}

// Written-out drop (docs/ARCHITECTURE.md).
impl Drop for Market {
    fn drop(self) {
        let Market {
            participants: _participants,
            instruments: _instruments,
        } = self;
    }
}
