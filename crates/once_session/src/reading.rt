//! A stream, read and answered to its end.

ghost use Rattle.std.specs.Prelude.{IfErr, IfOk, IfSome, OnOk};
ghost use Rattle.std.specs.Io.KnownBytes.{Consumes, IsAtEnd, Keeps};
ghost use Rattle.once_session.specs.Acts.{IsAnswered, OfFirst};
ghost use Rattle.once_session.specs.Course.{IsAllHeard, IsSomewhere, Wrote};
ghost use Rattle.once_session.specs.Outcome.{UnlessOutput};
ghost use Rattle.once_session.specs.Reading.{Halts, IsLost, IsRead};

use crate::answering::answer_frames;
use crate::fault::OnceFault;
use crate::sender::first;
use fix_session::laws::one_reader;
use sef_moment::Moment;
use std::io::{Read, Write};
use venue_world::{Event, ListTrail, Piece, World};

/// Bytes read at once.
const READ_SIZE: usize = 4096;

/// Most reads of a run.
const READS: u32 = 1_000_000_000;

/// Answers all that the reader gives, to its end. On a line that is down the rest is read and not answered.
pub fn answer_all<R: Read, W: Write>(
    world: &mut World<ListTrail>,
    reader: &mut R,
    writer: &mut W,
    at: Moment,
) -> Result<(), OnceFault>
    requires somewhere { IsSomewhere world.old }
    requires answered { OfFirst IsAnswered world.old.sides }
    ensures wrote { OnOk result (IfSome (R.remaining reader.old) (λ input. Wrote at world.old world.new input (W.contents writer.old) (W.contents writer.new))) }
    ensures answered { OnOk result (OfFirst IsAnswered world.new.sides) }
    ensures heard { OnOk result (OfFirst IsAllHeard world.new.sides) }
    ensures ended { OnOk result (IfSome (R.remaining reader.old) (λ input. Consumes (R.remaining reader.old) (R.remaining reader.new) input × IsAtEnd (R.remaining reader.new))) }
    ensures stopped { IfErr result (λ fault. UnlessOutput fault (Halts at world.old (R.remaining reader.old) (R.remaining reader.new) (W.contents writer.old) (W.contents writer.new))) }
{
    one_reader();
    for _read in 0..READS {
        answer_frames(world, writer, at)?;
        let more = read_piece(world, reader)?;
        if !more {
            return flush(writer);
        }
    }
    Err(OnceFault::Input)
}

/// Reads some bytes onto the line; whether there were any.
fn read_piece<R: Read>(world: &mut World<ListTrail>, reader: &mut R) -> Result<bool, OnceFault>
    requires somewhere { IsSomewhere world.old }
    requires answered { OfFirst IsAnswered world.old.sides }
    requires heard { OfFirst IsAllHeard world.old.sides }
    ensures read { IfOk result (IsRead world.old world.new (R.remaining reader.old) (R.remaining reader.new)) }
    ensures answered { OnOk result (OfFirst IsAnswered world.new.sides) }
    ensures lost { IfErr result (λ _. IsLost (R.remaining reader.old) (R.remaining reader.new)) }
{
    one_reader();
    let mut piece = [0; READ_SIZE];
    let count = match reader.read(&mut piece) {
        Ok(count) => count,
        Err(_) => return Err(OnceFault::Input),
    };
    if count == 0 {
        return Ok(false);
    }
    let came = Event::Piece(first(), Piece::of(&piece[..count]));
    world.event(came)?;
    Ok(true)
}

fn flush<W: Write>(writer: &mut W) -> Result<(), OnceFault>
    ensures { Keeps (W.contents writer.old) (W.contents writer.new) }
{
    match writer.flush() {
        Ok(()) => Ok(()),
        Err(_) => Err(OnceFault::Output),
    }
}
