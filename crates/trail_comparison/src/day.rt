//! A trail, with the values of its files.

use instruments::Instruments;
use participants::Participants;
use trail_digest::Contents;

/// A trail, with the values of its files.
#[derive(Drop)]
pub struct Day<'a> {
    pub participants: Participants,
    pub instruments: Instruments,
    pub contents: Contents<'a>,
}
