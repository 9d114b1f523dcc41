//! Opening of a line.

ghost use Rattle.std.specs.Prelude.{◌≡◌, ◌<◌, ◌≤◌, length, OnOk};
ghost use Rattle.fix_session.specs.Reader.{Reader};
ghost use Rattle.venue_world.specs.Seen.{Shows};
ghost use Rattle.venue_world.specs.World.{WorldState, after_all};
ghost use Rattle.once_session.specs.Stream.{opening};

use crate::fault::OnceFault;
use crate::sender::first;
use participants::Who;
use sef_moment::Moment;
use venue_world::{Event, ListTrail, World};

/// Cuts all participants but the first, so that no reply waits for them, and brings the first one's line up. The world
/// has `count` participants.
pub fn open_line(world: &mut World<ListTrail>, count: u32, at: Moment) -> Result<(), OnceFault>
    requires count { count ≡ length world.old.sides }
    requires some { 0 < count }
    ensures opened { OnOk result ((r : Reader) (w : WorldState) → Shows world.old w → Shows world.new (after_all r w (opening count at))) }
{
    for place in 1..count {
        world.event(Event::Cut(Who::of(place)))?;
    }
    world.event(Event::Resume(first(), at))?;
    Ok(())
}
