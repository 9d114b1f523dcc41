//! The keys of the two files.

ghost use Rattle.std.specs.Prelude.{◌≡◌};
ghost use Rattle.file_diagnosis.specs.Causes.{key_word, part_word};

use crate::cause::{Key, Part};

/// The key of a part at the top of a file.
pub(crate) fn part_word(part: Part) -> &'static str
    ensures { result.now ≡ part_word part }
{
    match part {
        Part::Venue => "venue",
        Part::Participants => "participant",
        Part::Related => "related",
        Part::Instruments => "instrument",
    }
}

/// The key of a value in an entry.
pub(crate) fn key_word(key: Key) -> &'static str
    ensures { result.now ≡ key_word key }
{
    match key {
        Key::Name => "name",
        Key::A => "a",
        Key::B => "b",
        Key::Symbol => "symbol",
        Key::Tick => "tick",
        Key::Least => "least",
        Key::RequestLife => "rfq_life",
        Key::Delay => "delay_ms",
    }
}
