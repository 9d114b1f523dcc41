//! The starts of the sessions' threads.

ghost use Rattle.std.specs.Prelude.{◌≡◌, ◌<◌, length, map, IfOk};
ghost use Rattle.fix_session.specs.State.{begun};
ghost use Rattle.venue_runtime.specs.Starting.{AreNewSessions, AreStarts, ids_at, outside};

use fix_dictionary::Item;
use fix_session::Session;
use gateway::line::{Gate, Line};
use gateway::threads::Start;
use intake_seats::{HandSeat, TakeSeat};
use participants::Participants;
use std::alloc::{AllocError, Global};
use venue_rules::{Who, name_identifier};
use venue_worker::{Clock, Outgoing};

// A session of the venue with a participant. `restarted`: an earlier process may have numbered its messages.
fn session_with(
    alloc: Global,
    participants: &Participants,
    who: Who,
    restarted: bool,
) -> Result<Session, AllocError>
    requires within { who < length participants.now.names }
    ensures { IfOk result (λ s. s.state ≡ begun restarted (ids_at participants.now who)) }
{
    let own = name_identifier(participants.venue());
    let peer = name_identifier(participants.name(who));
    if restarted {
        Session::restarted(alloc, &own, &peer)
    } else {
        Session::new(alloc, &own, &peer)
    }
}

/// A session of the venue with each participant, in order.
pub(crate) fn sessions_of(
    alloc: Global,
    participants: &Participants,
    restarted: bool,
) -> Result<Vec<Session>, AllocError>
    ensures { IfOk result (λ sessions. AreNewSessions restarted participants.now (length participants.now.names) sessions.items) }
{
    let count = participants.len();
    let mut sessions = Vec::with_capacity(alloc, count)?;
    for place in 0..count {
        let session = session_with(alloc, participants, Who::of(place as u32), restarted)?;
        sessions.push(session)?;
    }
    Ok(sessions)
}

/// Each session with its outside (line, clock and gate) and its ends of the three boards, in order.
pub(crate) fn starts_of<L: Line + Drop, C: Clock + Drop, G: Gate + Drop>(
    alloc: Global,
    sessions: Vec<Session>,
    lines: Vec<(L, C, G)>,
    hands: Vec<HandSeat<Item>>,
    takes: Vec<TakeSeat<Outgoing>>,
    ends: Vec<HandSeat<()>>,
) -> Result<Vec<Start<L, C, G>>, AllocError>
    requires lines { length lines.items ≡ length sessions.items }
    requires hands { length hands.items ≡ length sessions.items }
    requires takes { length takes.items ≡ length sessions.items }
    requires ends { length ends.items ≡ length sessions.items }
    ensures { IfOk result (λ starts. AreStarts sessions.items (map (λ o. outside (L.said o.0) (C.answered o.1) (G.passed o.2)) lines.items) hands.items takes.items ends.items starts.items) }
{
    let mut starts = Vec::with_capacity(alloc, sessions.len())?;
    let mut lines = lines.into_iter();
    let mut hands = hands.into_iter();
    let mut takes = takes.into_iter();
    let mut ends = ends.into_iter();
    for session in sessions {
        let outside = lines.next().unwrap();
        let hand = hands.next().unwrap();
        let take = takes.next().unwrap();
        let end = ends.next().unwrap();
        let (line, clock, gate) = outside;
        starts.push(Start {
            session,
            line,
            clock,
            gate,
            hand,
            take,
            end,
        })?;
    }
    Ok(starts)
}
