//! The loop of a session's thread.
ghost use Rattle.std.specs.Prelude.{◌≡◌, List, [], ◌∷◌, ◌++◌, Option, None};
ghost use Rattle.fix_session.specs.Reader.{Reader};
ghost use Rattle.intake_seats.specs.Ends.{IsSameHander};
ghost use Rattle.gateway.specs.Thread.{TurnRecord, Loops, gates, moments};
ghost use Rattle.gateway.specs.Thread.{at_start};
ghost use Rattle.gateway.specs.Whole.{HasLed};

use crate::line::{Gate, Line};
use crate::turn::SessionThread;
use fix_dictionary::Item;
use fix_session::{Session, laws};
use intake_seats::{Board, HandSeat, TakeSeat};
use sef_moment::Moment;
use std::sync::Wait;
use venue_worker::{Clock, Outgoing};

// Makes `turns` turns, or fewer where the line is over or the sentinel was collected.
fn run_turns<R: Wait, L: Line, C: Clock, G: Gate>(
    rt: &R,
    thread: &mut SessionThread<L>,
    clock: &mut C,
    gate: &mut G,
    intake: &Board<Item>,
    replies: &Board<Outgoing>,
    turns: u64,
) -> Moment
    requires intake { thread.old.hand.board ≡ intake.now }
    requires replies { thread.old.take.board ≡ replies.now }
    ensures loops { (turn_records : List TurnRecord) × ((r : Reader) → Loops r turns turn_records thread.old thread.new) × (G.passed gate.new ≡ G.passed gate.old ++ gates turn_records) × (C.answered clock.new ≡ C.answered clock.old ++ moments turn_records) }
{
    let mut at = Moment::EPOCH;
    for number in 0..turns {
        let turn = thread.turn(rt, clock, gate, intake, replies, number);
        at = turn.moment;
        match turn.work {
            None => return at,
            Some(_) => {}
        }
    }
    at
}

// Hands the end token of a session, once: only where none was handed at its seat.
fn hand_end_token<G: Gate>(end: &mut HandSeat<()>, ends: &Board<()>, gate: &mut G)
    requires own { end.old.board ≡ ends.now }
    ensures seat { IsSameHander end.old end.new }
    ensures end_handed { end.old.given ≡ [] → end.new.given ≡ tt ∷ [] }
    ensures gate { G.passed gate.new ≡ G.passed gate.old }
{
    if end.hand(ends, ()).is_ok() {
        gate.progressed();
    }
}

/// What a session's thread gives back.
#[derive(Drop)]
pub struct Ended<L> {
    pub session: Session,
    pub line: L,
    pub hand: HandSeat<Item>,
    pub take: TakeSeat<Outgoing>,
}

/// Runs a session between its line and its seats, for `turns` turns; it may wait where the line, the gate or the clock
/// does. As it ends it hands an end token, once, and ends its line.
pub fn session_loop<R: Wait, L: Line, C: Clock, G: Gate>(
    rt: &R,
    session: Session,
    line: L,
    clock: &mut C,
    gate: &mut G,
    hand: HandSeat<Item>,
    take: TakeSeat<Outgoing>,
    end: &mut HandSeat<()>,
    intake: &Board<Item>,
    replies: &Board<Outgoing>,
    ends: &Board<()>,
    turns: u64,
) -> Ended<L>
    requires intake { hand.board ≡ intake.now }
    requires replies { take.board ≡ replies.now }
    requires ends { end.old.board ≡ ends.now }
    requires nothing_in_hand { take.in_hand ≡ None }
    ensures session { HasLed turns (at_start session hand take (L.said line)) (at_start result.session result.hand result.take (L.said result.line)) (G.passed gate.old) (G.passed gate.new) (C.answered clock.old) (C.answered clock.new) }
    ensures nothing_in_hand { result.take.in_hand ≡ None }
    ensures seat { IsSameHander end.old end.new }
    ensures end_handed { end.old.given ≡ [] → end.new.given ≡ tt ∷ [] }
{
    laws::taken_then_ready();
    laws::replies_in_order();
    laws::one_reader();
    let mut thread = SessionThread::new(session, line, hand, take);
    let at = run_turns(rt, &mut thread, clock, gate, intake, replies, turns);
    hand_end_token(end, ends, gate);
    thread.leave(gate, at);
    thread.into_parts()
}
