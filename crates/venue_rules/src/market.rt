//! Participants and instruments, lent.

use instruments::Instruments;
use participants::Participants;

/// The two files of a venue.
#[derive(Clone, Copy)]
pub struct Market<'a> {
    pub participants: &'a Participants,
    pub instruments: &'a Instruments,
}
