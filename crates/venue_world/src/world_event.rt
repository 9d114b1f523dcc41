//! Acts: an event of one participant's side, or of the venue.

ghost use Rattle.std.specs.Prelude.{◌≡◌};
ghost use Rattle.venue_world.specs.Acts.{act_of};

use crate::event::{Event, Piece};
use participants::Who;
use sef_moment::Moment;

/// Acts of one participant's side.
#[derive(Drop)]
pub enum SessionEvent<'a> {
    /// bytes arrive
    Pieces(Piece<'a>),
    /// the session processes the next frame
    Steps(Moment),
    /// time passes for the session
    Ticks(Moment),
    /// the line breaks
    Breaks,
    /// the line comes up
    Resumes(Moment),
    /// the first ready message moves to the intake seat
    Hands,
    /// the first of the queue moves to the reply seat
    Delivers,
    /// the session sends the reply in its seat
    Collects(Moment),
    /// the sentinel replaces the queue
    Cuts,
    /// the frames queued for the line are taken: no event, but a call between events
    Writes,
}

/// Acts of the world.
#[derive(Drop)]
pub enum WorldEvent<'a> {
    Alone(Who, SessionEvent<'a>),
    /// the venue takes the message in a participant's intake seat
    Takes(Who, Moment),
    /// the venue enters the first held side due
    VenueTicks(Moment),
}

pub(crate) fn act_of<'a>(event: &'a Event<'_>) -> WorldEvent<'a>
    ensures { result ≡ act_of event.now }
{
    match event {
        Event::Piece(who, piece) => WorldEvent::Alone(
            *who,
            SessionEvent::Pieces(Piece::of(piece.as_slice())),
        ),
        Event::Step(who, t) => WorldEvent::Alone(*who, SessionEvent::Steps(*t)),
        Event::Tick(who, t) => WorldEvent::Alone(*who, SessionEvent::Ticks(*t)),
        Event::Break(who) => WorldEvent::Alone(*who, SessionEvent::Breaks),
        Event::Resume(who, t) => WorldEvent::Alone(*who, SessionEvent::Resumes(*t)),
        Event::Hand(who) => WorldEvent::Alone(*who, SessionEvent::Hands),
        Event::Take(who, t) => WorldEvent::Takes(*who, *t),
        Event::VenueTick(t) => WorldEvent::VenueTicks(*t),
        Event::Deliver(who) => WorldEvent::Alone(*who, SessionEvent::Delivers),
        Event::Collect(who, t) => WorldEvent::Alone(*who, SessionEvent::Collects(*t)),
        Event::Cut(who) => WorldEvent::Alone(*who, SessionEvent::Cuts),
    }
}
