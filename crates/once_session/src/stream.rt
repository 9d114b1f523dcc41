//! One participant's stream, answered in a world of its own.

ghost use Rattle.std.specs.Prelude.{◌≡◌, ◌<◌, ℕ, List, IfErr, IfSome, OnOk, length};
ghost use Rattle.std.specs.Io.KnownBytes.{Appends, Consumes, IsAtEnd};
ghost use Rattle.fix_session.specs.Reader.{Reader};
ghost use Rattle.once_session.specs.Outcome.{UnlessOutput};
ghost use Rattle.once_session.specs.Stream.{AnswersStream, Stopped};

use crate::fault::OnceFault;
use crate::opening::open_line;
use crate::reading::answer_all;
use fix_session::laws::one_reader;
use instruments::Instruments;
use participants::Participants;
use sef_moment::Moment;
use std::alloc::Global;
use std::io::{Read, Write};
use venue_world::laws::{every_world_keeps_its_word, wires_lose_nothing};
use venue_world::{ListTrail, World};

/// Answers the first participant's stream on a venue of these participants and instruments, over its FIXT 1.1 session.
/// Every moment is `at`, and all other participants are cut. Each frame is processed, its message is taken, and what
/// the session queues is written, before the next frame. Once the session has dropped the line the rest is read and not
/// answered. Ok at the end of the input.
pub fn answer_stream<R: Read, W: Write>(
    alloc: Global,
    reader: &mut R,
    writer: &mut W,
    participants: Participants,
    instruments: Instruments,
    at: Moment,
) -> Result<(), OnceFault>
    ensures answered { OnOk result ((r : Reader) → IfSome (R.remaining reader.old) (λ input. (output : List ℕ)
        × AnswersStream r (record { participants = participants; instruments = instruments }) at input output
        × Appends (W.contents writer.old) (W.contents writer.new) output)) }
    ensures ended { OnOk result (IfSome (R.remaining reader.old) (λ input. Consumes (R.remaining reader.old) (R.remaining reader.new) input × IsAtEnd (R.remaining reader.new))) }
    ensures stopped { IfErr result (λ fault. UnlessOutput fault ((r : Reader) → Stopped r
        (record { participants = participants; instruments = instruments }) at (R.remaining reader.old) (R.remaining reader.new)
        (W.contents writer.old) (W.contents writer.new))) }
{
    one_reader();
    every_world_keeps_its_word();
    wires_lose_nothing();
    let count = count_of(&participants);
    let mut world = World::new(alloc, participants, instruments, ListTrail::new(alloc))?;
    open_line(&mut world, count, at)?;
    answer_all(&mut world, reader, writer, at)
}

fn count_of(participants: &Participants) -> u32
    ensures count { result ≡ length participants.now.names }
    ensures some { 0 < result }
{
    participants.len() as u32
}
