//! The boards of a venue, and the starts of its threads.

ghost use Rattle.std.specs.Prelude.{◌≡◌, IfOk, length, map};
ghost use Rattle.venue_runtime.specs.Making.{AreMade};
ghost use Rattle.venue_runtime.specs.Starting.{outside};

use crate::starting::{sessions_of, starts_of};
use fix_dictionary::Item;
use gateway::line::{Gate, Line};
use gateway::threads::Start;
use intake_seats::{Board, HandSeat, TakeSeat};
use participants::Participants;
use std::alloc::{AllocError, Global};
use venue_worker::{Clock, Outgoing};

/// The three boards, the ends that the worker has, and the start of each thread.
#[derive(Drop)]
pub(crate) struct Made<L: Line, C: Clock, G: Gate> {
    pub(crate) intake: Board<Item>,
    pub(crate) takes: Vec<TakeSeat<Item>>,
    pub(crate) replies: Board<Outgoing>,
    pub(crate) hands: Vec<HandSeat<Outgoing>>,
    pub(crate) ends: Board<()>,
    pub(crate) end_tokens: Vec<TakeSeat<()>>,
    pub(crate) starts: Vec<Start<L, C, G>>,
}

/// Makes the boards, a new session with each participant, and the start of each thread. `restarted`: an earlier process
/// may have numbered messages of the sessions.
pub(crate) fn make<L: Line + Drop, C: Clock + Drop, G: Gate + Drop>(
    alloc: Global,
    participants: &Participants,
    restarted: bool,
    lines: Vec<(L, C, G)>,
) -> Result<Made<L, C, G>, AllocError>
    requires lines { length lines.items ≡ length participants.now.names }
    ensures { IfOk result (λ made. AreMade restarted participants.now (map (λ o. outside (L.said o.0) (C.answered o.1) (G.passed o.2)) lines.items) made.intake made.takes.items made.replies made.hands.items made.ends made.end_tokens.items made.starts.items) }
{
    let count = participants.len();
    let (intake, session_hands, takes) = Board::<Item>::new(alloc, count)?;
    let (replies, hands, session_takes) = Board::<Outgoing>::new(alloc, count)?;
    let (ends, session_ends, end_tokens) = Board::<()>::new(alloc, count)?;
    let sessions = sessions_of(alloc, participants, restarted)?;
    let starts = starts_of(
        alloc,
        sessions,
        lines,
        session_hands,
        session_takes,
        session_ends,
    )?;
    Ok(Made {
        intake,
        takes,
        replies,
        hands,
        ends,
        end_tokens,
        starts,
    })
}
